//! The command `rehearse`: a written list of events, run from the opening world of a scheme.

ghost use Rattle.std.specs.Prelude.{◌≡◌, ◌++◌, ℕ, List, IfErr, OnOk, string_bytes};
ghost use Rattle.std.specs.Io.KnownBytes.{Appends};
ghost use Rattle.protocol.specs.World.{step};
ghost use Rattle.report.specs.ReportLines.{outcome_line};
ghost use Rattle.event_reports.specs.Rehearsal.{Reports, FailsSo};
ghost use Rattle.event_reports.specs.Report.{IsReport};

use command_faults::OpFault;
use event_reports::{Reporter, report_input};
use protocol::WorldEvent;
use report::{Form, push_outcome, push_table};
use scheme::Scheme;
use std::alloc::Global;
use std::io::{Read, Write};
use units::NoMemory;
use world::ReachedWorld;

/// The world that the events so far lead to, and the lines of their outcomes.
#[derive(Drop)]
struct Rehearsal {
    alloc: Global,
    world: ReachedWorld,
    lines: String,
}

/// Applies an event, and adds the line of its outcome.
fn run_event(
    world: &mut ReachedWorld,
    text: &mut String,
    number: u64,
    event: &WorldEvent,
) -> Result<(), NoMemory>
    ensures world { OnOk result (world.new ≡ (step world.old event.now).world) }
    ensures text { OnOk result
        (string_bytes text.new ≡ string_bytes text.old ++ outcome_line number (step world.old event.now).outcome) }
{
    let outcome = world.apply(event)?;
    push_outcome(text, number, outcome)?;
    Ok(())
}

impl Reporter for Rehearsal {
    ghost use Rattle.std.specs.Prelude.{string_bytes};
    ghost use Rattle.event_reports.specs.Report.{IsReport};
    ghost use Rattle.rehearse.specs.Rehearsal.{HasRun};

    ghost was_told = { λ r scheme events. HasRun scheme events r.world (string_bytes r.lines) };

    ghost is_report = { IsReport };

    fn new(alloc: Global, scheme: &Scheme) -> Result<Rehearsal, NoMemory> {
        Ok(Rehearsal {
            alloc,
            world: ReachedWorld::new(alloc, scheme)?,
            lines: String::new(alloc),
        })
    }

    fn tell(&mut self, number: u64, event: &WorldEvent) -> Result<(), NoMemory> {
        run_event(&mut self.world, &mut self.lines, number, event)?;
        Ok(())
    }

    fn text(self) -> Result<String, NoMemory> {
        let mut text = self.lines;
        push_table(self.alloc, &mut text, self.world.as_world(), Form::Lines)?;
        Ok(text)
    }
}

/// Reads the whole input, and then writes the report of it.
pub fn rehearse<R: Read, W: Write>(
    alloc: Global,
    reader: &mut R,
    writer: &mut W,
) -> Result<(), OpFault>
    ensures ok { OnOk result ((text : List ℕ) × Reports IsReport (R.remaining reader.old) (R.remaining reader.new) text
        × Appends (W.contents writer.old) (W.contents writer.new) text) }
    ensures err { IfErr result
        (λ e. FailsSo IsReport e (R.remaining reader.old) (R.remaining reader.new) (W.contents writer.old)
        (W.contents writer.new)) }
{
    report_input::<Rehearsal, R, W>(alloc, reader, writer)
}
