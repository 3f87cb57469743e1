//! The table of one run that leads to the records of all stores.
ghost use Rattle.std.specs.Prelude.{◌≡◌, ℕ, List, IfErr, OnOk, length};
ghost use Rattle.std.specs.Io.KnownBytes.{Appends};
ghost use Rattle.audit.specs.Audits.{Audits, FailsToAudit};
ghost use Rattle.loading.specs.Stores.{AreUnwritten};
ghost use Rattle.protocol.specs.Registries.{nodes};

use command_faults::{OpFault, write_out};
use loading::{load_cores, table_of_cores};
use protocol::scheme::Scheme;
use report::Form;
use std::alloc::Global;
use std::io::Write;
use stores::NodeStore;
use weave::{Nobody, Watch};

/// Reads the stores, one for each node: the log's, then those of the registries in the scheme's order. Finds a run that
/// leads to all their records and to no others, and writes the table of the world that it leads to, in that form.
///
/// The stores are read by pages, and nothing is written to them.
///
/// # Errors
///
/// Nothing is written, except where the output failed:
///
/// - `Store`: a store could not be read, or has a damaged record; it is the first such store in that order. A record is
///   also damaged where its node doesn't record it after those before it.
/// - `Stuck`: no run leads to these records. Followed as far as they go, the node is the first with a record left, and
///   the place is that record's.
/// - `Write`: the output failed, after the number of bytes in the fault.
/// - `NoMemory`: out of memory.
pub fn audit<S: NodeStore, W: Write>(
    alloc: Global,
    scheme: &Scheme,
    stores: &mut [S],
    writer: &mut W,
    form: Form,
) -> Result<(), OpFault>
    requires { length stores.old ≡ length (nodes scheme.now) }
    ensures ok { OnOk result ((table : List ℕ) × Audits S.NodeStore form scheme.now stores.old stores.new table
        × Appends (W.contents writer.old) (W.contents writer.new) table) }
    ensures err { IfErr result
        (λ e. FailsToAudit S.NodeStore form e scheme.now stores.old stores.new (W.contents writer.old)
        (W.contents writer.new)) }
    ensures unwritten { AreUnwritten S.NodeStore stores.old stores.new }
{
    audit_watched(alloc, scheme, stores, writer, form, &mut Nobody)
}

/// As `audit`, and reports the records as they are read and woven.
///
/// # Errors
///
/// Fails as `audit` does.
pub fn audit_watched<S: NodeStore, W: Write, P: Watch>(
    alloc: Global,
    scheme: &Scheme,
    stores: &mut [S],
    writer: &mut W,
    form: Form,
    watch: &mut P,
) -> Result<(), OpFault>
    requires { length stores.old ≡ length (nodes scheme.now) }
    ensures ok { OnOk result ((table : List ℕ) × Audits S.NodeStore form scheme.now stores.old stores.new table
        × Appends (W.contents writer.old) (W.contents writer.new) table) }
    ensures err { IfErr result
        (λ e. FailsToAudit S.NodeStore form e scheme.now stores.old stores.new (W.contents writer.old)
        (W.contents writer.new)) }
    ensures unwritten { AreUnwritten S.NodeStore stores.old stores.new }
{
    let cores = load_cores(alloc, scheme, stores, watch)?;
    let table = table_of_cores(alloc, scheme, cores, form, watch)?;
    watch.finished();
    write_out(writer, table.as_str())
}
