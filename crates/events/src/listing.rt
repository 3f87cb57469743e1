//! The run that leads to the records of all stores.
ghost use Rattle.std.specs.Prelude.{◌≡◌, ◌≤◌, ◌++◌, ℕ, All, List, IfErr, IfOk, OnOk, length, map};
ghost use Rattle.std.specs.Io.KnownBytes.{Appends};
ghost use Rattle.loading.specs.Runs.{FailsToWeave, IsAuditTable};
ghost use Rattle.loading.specs.Stores.{AreUnwritten};
ghost use Rattle.protocol.specs.Input.{Input};
ghost use Rattle.protocol.specs.Registries.{nodes};
ghost use Rattle.protocol.specs.Scheme.{Scheme as Registries};
ghost use Rattle.protocol.specs.declared.event.WorldEvent.{WorldEvent};
ghost use Rattle.report.specs.declared.form.Form.TheVariants.{Lines};
ghost use Rattle.event_reports.specs.Rehearsal.{IsRehearsal};
ghost use Rattle.event_reports.specs.Report.{IsReport};
ghost use Rattle.weave.specs.Following.{IsWeaveFault, IsWoven, journal_of};
ghost use Rattle.world.specs.Cores as node_cores;
ghost use Rattle.events.specs.Listing.{FailsToList, IsRunIn, Lists, ListsRun};
ghost use Rattle.events.specs.Runs.{IsWithinLimits};

use crate::objects::run_objects;
use crate::text::run_text;
use command_faults::OpFault;
use loading::{fault_of, load_cores};
use protocol::WorldEvent;
use protocol::scheme::Scheme;
use report::Form;
use std::alloc::Global;
use std::io::Write;
use stores::NodeStore;
use streams::write_text;
use units::NoMemory;
use weave::{Watch, WeaveFault, Woven, weave_cores};
use world::Core;

/// The text of a run in that form.
fn text_in(
    alloc: Global,
    scheme: &Scheme,
    events: &[WorldEvent],
    form: Form,
) -> Result<Vec<u8>, NoMemory>
    ensures { IfOk result (λ v. IsRunIn form v.items scheme.now events.now) }
{
    match form {
        Form::Lines => run_text(alloc, scheme, events),
        Form::Json => run_objects(alloc, scheme, events),
    }
}

/// The text of the run that was woven from these journals, or the command's fault.
fn text_of_woven(
    alloc: Global,
    scheme: &Scheme,
    woven: Result<Woven, WeaveFault>,
    form: Form,
) -> Result<Vec<u8>, OpFault>
    ensures ok { (journals : List (List Input))
        → IfOk woven (λ w. IsWoven scheme.now (journal_of scheme.now journals) w.events.items w.world)
        → IfOk result (λ v. ListsRun form scheme.now journals v.items) }
    ensures err { (journals : List (List Input)) → IfErr woven (IsWeaveFault scheme.now (journal_of scheme.now journals))
        → IfErr result (FailsToWeave scheme.now journals) }
{
    match woven {
        Ok(woven) => Ok(text_in(alloc, scheme, woven.events.as_slice(), form)?),
        Err(fault) => Err(fault_of(fault)),
    }
}

/// The text of a run that leads to the records of these cores, one for each node.
fn text_of_cores<P: Watch>(
    alloc: Global,
    scheme: &Scheme,
    cores: Vec<Core>,
    form: Form,
    watch: &mut P,
) -> Result<Vec<u8>, OpFault>
    requires nodes { map node_cores.node_of cores.items ≡ nodes scheme.now }
    requires schemes { All (λ core. node_cores.scheme_of core ≡ scheme.now) cores.items }
    ensures ok { IfOk result (λ v. ListsRun form scheme.now (map node_cores.journal_of cores.items) v.items) }
    ensures err { IfErr result (FailsToWeave scheme.now (map node_cores.journal_of cores.items)) }
{
    text_of_woven(
        alloc,
        scheme,
        weave_cores(alloc, scheme, cores, watch),
        form,
    )
}

/// Reads the stores, one for each node: the log's, then those of the registries in the scheme's order. Finds a run that
/// leads to all their records and to no others, and writes its scheme and its events, as `rehearse` reads them. Reports
/// the records as they are read and woven.
///
/// As JSON, the first line is the scheme's, and each event is an object with its name as `event`, its node, its
/// numbers, its moment in seconds and, for an input, the record's text. `rehearse` doesn't read these.
///
/// The stores are read by pages, and nothing is written to them.
///
/// # Errors
///
/// Nothing is written, except where the output failed:
///
/// - `Store`: a store could not be read, or has a damaged record; it is the first such store in that order. A record is
///   also damaged where its node doesn't record it after those before it.
/// - `Stuck`: no run leads to these records. Followed as far as they go, the node is the first with a record left, and
///   the place is that record's.
/// - `Write`: the output failed, after the number of bytes in the fault.
/// - `NoMemory`: out of memory.
pub fn list_events<S: NodeStore, W: Write, P: Watch>(
    alloc: Global,
    scheme: &Scheme,
    stores: &mut [S],
    writer: &mut W,
    form: Form,
    watch: &mut P,
) -> Result<(), OpFault>
    requires { length stores.old ≡ length (nodes scheme.now) }
    ensures ok { OnOk result ((text : List ℕ) × Lists S.NodeStore form scheme.now stores.old stores.new text
        × Appends (W.contents writer.old) (W.contents writer.new) text) }
    ensures err { IfErr result
        (λ e. FailsToList S.NodeStore form e scheme.now stores.old stores.new (W.contents writer.old)
        (W.contents writer.new)) }
    ensures unwritten { AreUnwritten S.NodeStore stores.old stores.new }
{
    let cores = load_cores(alloc, scheme, stores, watch)?;
    let text = text_of_cores(alloc, scheme, cores, form, watch)?;
    watch.finished();
    write_text(writer, text.as_slice())?;
    Ok(())
}

/// For a listed run within the limits of an input, the report of `rehearse` ends with a table that `audit` may write
/// for the same journals.
pub fn ends_with_audits_table()
    ensures { (scheme : Registries) (journals : List (List Input)) (text : List ℕ) → ListsRun Lines scheme journals text
        → IsWithinLimits text → (s : Registries) (events : List WorldEvent) (report : List ℕ)
        → IsRehearsal text s events → IsReport s events report
        → (outcomes : List ℕ) × (table : List ℕ) × (report ≡ outcomes ++ table) × IsAuditTable Lines scheme journals table }
{}
