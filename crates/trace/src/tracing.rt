//! The trace of a transaction in the records of all stores.
ghost use Rattle.std.specs.Prelude.{◌≡◌, ℕ, All, List, IfErr, IfOk, OnOk, length, map};
ghost use Rattle.std.specs.Io.KnownBytes.{Appends};
ghost use Rattle.loading.specs.Runs.{FailsToWeave};
ghost use Rattle.loading.specs.Stores.{AreUnwritten};
ghost use Rattle.protocol.specs.Input.{Input};
ghost use Rattle.protocol.specs.Registries.{nodes};
ghost use Rattle.weave.specs.Following.{IsWeaveFault, IsWoven, journal_of};
ghost use Rattle.world.specs.Cores as node_cores;
ghost use Rattle.trace.specs.Traces.{FailsToTrace, Traces, TracesRun};

use crate::following::trace_text;
use command_faults::OpFault;
use loading::{fault_of, load_cores};
use protocol::scheme::Scheme;
use report::Form;
use status::TransactionId;
use std::alloc::Global;
use std::io::Write;
use stores::NodeStore;
use streams::write_text;
use weave::{Watch, WeaveFault, Woven, weave_cores};
use world::Core;

/// The trace of the transaction in the run that was woven from these journals, or the command's fault.
fn text_of_woven(
    alloc: Global,
    scheme: &Scheme,
    woven: Result<Woven, WeaveFault>,
    id: TransactionId,
    form: Form,
) -> Result<Vec<u8>, OpFault>
    ensures ok { (journals : List (List Input))
        → IfOk woven (λ w. IsWoven scheme.now (journal_of scheme.now journals) w.events.items w.world)
        → IfOk result (λ v. TracesRun form scheme.now journals id v.items) }
    ensures err { (journals : List (List Input)) → IfErr woven (IsWeaveFault scheme.now (journal_of scheme.now journals))
        → IfErr result (FailsToWeave scheme.now journals) }
{
    match woven {
        Ok(woven) => {
            drop(woven.world);
            Ok(trace_text(alloc, scheme, woven.events.as_slice(), id, form)?)
        }
        Err(fault) => Err(fault_of(fault)),
    }
}

/// The trace of the transaction in a run that leads to the records of these cores, one for each node.
fn text_of_cores<P: Watch>(
    alloc: Global,
    scheme: &Scheme,
    cores: Vec<Core>,
    id: TransactionId,
    form: Form,
    watch: &mut P,
) -> Result<Vec<u8>, OpFault>
    requires nodes { map node_cores.node_of cores.items ≡ nodes scheme.now }
    requires schemes { All (λ core. node_cores.scheme_of core ≡ scheme.now) cores.items }
    ensures ok { IfOk result (λ v. TracesRun form scheme.now (map node_cores.journal_of cores.items) id v.items) }
    ensures err { IfErr result (FailsToWeave scheme.now (map node_cores.journal_of cores.items)) }
{
    text_of_woven(
        alloc,
        scheme,
        weave_cores(alloc, scheme, cores, watch),
        id,
        form,
    )
}

/// Reads the stores, one for each node: the log's, then those of the registries in the scheme's order. Finds a run that
/// leads to all their records and to no others, and writes the records of the transaction in the order of that run, and
/// then the line `end`. Where no record is of the transaction, only that line is written. Reports the records as they
/// are read and woven.
///
/// A record is of the transaction exactly when it names it (a message about it, or a request for its cancellation),
/// acknowledges a message about it, or changes its status at the record's node (an order to transfer units that gets
/// this identifier, or a clean-up that cancels it). Its line has the node, the place in the node's journal, the moment
/// of a received message or of a clean-up (`-` for other records), the transaction's status at that node after it
/// (`none` where the node has no record of it), and the record's text. The moment is written as a text without a space
/// that `Moment::read` reads back as that moment.
///
/// As JSON, each line is an object with `moment` (in seconds, or `null`), `node`, `place`, `record` and `status` (or
/// `null`), and the last line is `{"line":"end"}`.
///
/// The stores are read by pages, and nothing is written to them.
///
/// # Errors
///
/// Nothing is written, except where the output failed:
///
/// - `Store`: a store could not be read, or has a damaged record; it is the first such store in that order. A record is
///   also damaged where its node doesn't record it after those before it.
/// - `Stuck`: no run leads to these records. Followed as far as they go, the node is the first with a record left, and
///   the place is that record's.
/// - `Write`: the output failed, after the number of bytes in the fault.
/// - `NoMemory`: out of memory, or, in lines of words, a moment whose text isn't read back; no such moment is known.
pub fn trace<S: NodeStore, W: Write, P: Watch>(
    alloc: Global,
    scheme: &Scheme,
    stores: &mut [S],
    id: TransactionId,
    writer: &mut W,
    form: Form,
    watch: &mut P,
) -> Result<(), OpFault>
    requires { length stores.old ≡ length (nodes scheme.now) }
    ensures ok { OnOk result ((text : List ℕ) × Traces S.NodeStore form scheme.now stores.old stores.new id text
        × Appends (W.contents writer.old) (W.contents writer.new) text) }
    ensures err { IfErr result
        (λ e. FailsToTrace S.NodeStore form e scheme.now stores.old stores.new id (W.contents writer.old)
        (W.contents writer.new)) }
    ensures unwritten { AreUnwritten S.NodeStore stores.old stores.new }
{
    let cores = load_cores(alloc, scheme, stores, watch)?;
    let text = text_of_cores(alloc, scheme, cores, id, form, watch)?;
    watch.finished();
    write_text(writer, text.as_slice())?;
    Ok(())
}
