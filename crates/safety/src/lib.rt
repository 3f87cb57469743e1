//! Laws of the protocol, over every scheme and every list of events. This crate has no code that runs: each function
//! has an empty body, and its clauses are the law.
#![tactic(auto)]

mod agreement;
mod canonical_blocks;
mod clean_ups;
mod counting;
mod debts;
mod deliveries;
mod log;
mod next_scheme;
mod one_place;
mod owning;
mod resolution;
mod rounds;
mod trust;
mod weaving;

pub use agreement::nodes_agree;
pub use canonical_blocks::canonical_form_keeps_units;
pub use clean_ups::clean_up_takes_what_has_expired;
pub use counting::{completed_once, numbers_are_new, registry_counts_once};
pub use debts::debts_are_owed;
pub use deliveries::deliveries_are_welcome;
pub use log::log_alone;
pub use next_scheme::{
    a_scheme_follows_its_opening, next_scheme_keeps_units, next_schemes_are_alike,
};
pub use one_place::units_stand_in_one_place;
pub use owning::{holders_own, owners_move_by_completions, units_have_one_owner};
pub use resolution::there_is_a_way_out;
pub use rounds::{five_rounds_are_too_few, six_rounds_are_enough, what_is_received_is_settled};
pub use trust::{book_moves_by_owners, trusted_deliveries_are_welcome, trusted_nodes_are_safe};
pub use weaving::{journals_weave, plausible_is_not_enough, there_is_a_furthest_cut};
