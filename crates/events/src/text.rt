//! The text of a run.
ghost use Rattle.std.specs.Prelude.{◌≡◌, ◌++◌, ◌∷◌, [], ℕ, List, IfOk, OnOk};
ghost use Rattle.protocol.specs.Scheme.{Scheme as Registries};
ghost use Rattle.protocol.specs.declared.event.WorldEvent.{WorldEvent as Happening};
ghost use Rattle.event_reports.specs.Rehearsal.{IsRehearsal};
ghost use Rattle.units.specs.Text.{IsFreeOf};
ghost use Rattle.input_lines.specs.EventLines.{IsEventLine};
ghost use Rattle.events.specs.Runs.{AreEventLines, IsRun, IsWithinLimits};

use input_lines::line_of;
use protocol::WorldEvent;
use protocol::scheme::Scheme;
use std::alloc::Global;
use units::NoMemory;

/// Adds a line and its newline.
fn push_line(text: &mut Vec<u8>, line: &[u8]) -> Result<(), NoMemory>
    ensures { OnOk result (text.new.items ≡ text.old.items ++ (line.now ++ 10 ∷ [])) }
{
    text.extend_from_slice(line)?;
    text.push(b'\n')?;
    Ok(())
}

/// Adds the line of an event.
fn push_event(alloc: Global, text: &mut Vec<u8>, event: &WorldEvent) -> Result<(), NoMemory>
    ensures { OnOk result ((line : List ℕ) × IsFreeOf 10 line × IsEventLine line event.now
        × (text.new.items ≡ text.old.items ++ (line ++ 10 ∷ []))) }
{
    let Ok(line) = line_of(alloc, event) else {
        return Err(NoMemory);
    };
    push_line(text, line.as_str().as_bytes())
}

/// Adds the lines of the events.
fn push_events(alloc: Global, text: &mut Vec<u8>, events: &[WorldEvent]) -> Result<(), NoMemory>
    ensures { OnOk result ((lines : List ℕ) × AreEventLines lines events.now
        × (text.new.items ≡ text.old.items ++ lines)) }
{
    for event in events {
        push_event(alloc, text, event)?;
    }
    Ok(())
}

/// The text of a run: the scheme's line, and a line for each event.
///
/// # Errors
///
/// Fails with `NoMemory` where there is no room for the text, and where no line writes an event. Each woven event has a
/// line, except one with a number of more than 18 digits; no machine has that many records or messages.
pub(crate) fn run_text(
    alloc: Global,
    scheme: &Scheme,
    events: &[WorldEvent],
) -> Result<Vec<u8>, NoMemory>
    ensures { IfOk result (λ v. IsRun v.items scheme.now events.now) }
{
    let first = scheme.text(alloc)?;
    let mut text = Vec::new(alloc);
    push_line(&mut text, first.as_slice())?;
    push_events(alloc, &mut text, events)?;
    Ok(text)
}

/// If the text of a run is within the limits of an input, it is a rehearsal of the scheme and the events.
pub fn is_rehearsal()
    ensures { (text : List ℕ) (scheme : Registries) (events : List Happening) → IsRun text scheme events
        → IsWithinLimits text → IsRehearsal text scheme events }
{}
