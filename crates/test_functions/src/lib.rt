//! Tests of functions. Of values: sets of units, holdings, schemes, outboxes, whole registries and the log, a store in
//! memory, messages, records, lines, replies, scripts, `rehearse` and `show`. Of nodes: a desk, also over stores that
//! fail; exchanges and sessions, over bytes in memory that end, fail or are interrupted anywhere, and at a desk alone;
//! `audit` and `weave`, over stores whose records one run leads to, forged ones and stores with a fault.
//!
//! They cover values and texts from outside that no equation of `test_definitions` and no example has, each public
//! function with enough memory, and behaviour that no clause specifies. What nodes do with threads, sockets and keys is
//! tried by `trials/lines.py`, by the other trials of nodes, and by `release/commands`.
#![tactic(auto)]

#[cfg(test)]
mod accounts_rows;
#[cfg(test)]
mod answerer_rows;
#[cfg(test)]
mod audit_rows;
#[cfg(test)]
mod cores;
#[cfg(test)]
mod counted_pages;
#[cfg(test)]
mod desk_rows;
#[cfg(test)]
mod exchange_rows;
#[cfg(test)]
mod failing_streams;
#[cfg(test)]
mod fault_rows;
#[cfg(test)]
mod forged_rows;
#[cfg(test)]
mod given;
#[cfg(test)]
mod job_rows;
#[cfg(test)]
mod journals;
#[cfg(test)]
mod limit_rows;
#[cfg(test)]
mod line_rows;
#[cfg(test)]
mod log_rows;
#[cfg(test)]
mod logs;
#[cfg(test)]
mod memory_store_rows;
#[cfg(test)]
mod message_rows;
#[cfg(test)]
mod named;
#[cfg(test)]
mod nz_desk;
#[cfg(test)]
mod outbox_rows;
#[cfg(test)]
mod record_rows;
#[cfg(test)]
mod registries;
#[cfg(test)]
mod registry_rows;
#[cfg(test)]
mod rehearsal_rows;
#[cfg(test)]
mod reply_rows;
#[cfg(test)]
mod report_rows;
#[cfg(test)]
mod same;
#[cfg(test)]
mod sample_records;
#[cfg(test)]
mod scheme_rows;
#[cfg(test)]
mod script_rows;
#[cfg(test)]
mod session_limits;
#[cfg(test)]
mod session_rows;
#[cfg(test)]
mod settle_rows;
#[cfg(test)]
mod show_rows;
#[cfg(test)]
mod standing;
#[cfg(test)]
mod start_rows;
#[cfg(test)]
mod stations;
#[cfg(test)]
mod status_rows;
#[cfg(test)]
mod store_calls;
#[cfg(test)]
mod tag_rows;
#[cfg(test)]
mod told_rows;
#[cfg(test)]
mod units_rows;
#[cfg(test)]
mod views_rows;
#[cfg(test)]
mod weave_rows;
#[cfg(test)]
mod worked_nodes;
#[cfg(test)]
mod worlds;
