//! Reports on an input: a scheme's line, and then lines of events.

ghost use Rattle.std.specs.Prelude.{◌≡◌, ◌<◌, ℕ, List, length, IfOk, IfErr, OnOk, string_bytes};
ghost use Rattle.std.specs.Io.KnownBytes.{Appends};
ghost use Rattle.scheme.specs.declared.registries.Scheme.{Scheme};
ghost use Rattle.protocol.specs.declared.event.WorldEvent.{WorldEvent};
ghost use Rattle.event_reports.specs.Rehearsal.{AreEvents, IsRehearsal, IsLinesFault, IsEarlyFault, Reports, FailsSo};

use command_faults::{OpFault, scheme_of};
use input_lines::{input_line, next_line};
use protocol::WorldEvent;
use scheme::Scheme;
use std::alloc::Global;
use std::io::{Read, Write};
use streams::{LONGEST_INPUT, read_input, write_text};
use units::NoMemory;

/// Makes a report on the events of a scheme, which it is given one after another.
pub trait Reporter: Drop {
    ghost use Rattle.std.specs.Prelude.{◌≡◌, ◌+◌, ◌++◌, ◌∷◌, [], ℕ, List, length, IfOk, OnOk, string_bytes};
    ghost use Rattle.scheme.specs.declared.registries.Scheme.{Scheme};
    ghost use Rattle.protocol.specs.declared.event.WorldEvent.{WorldEvent};

    /// It was given these events under that scheme, and no others.
    ghost was_told: { Self → Scheme → List WorldEvent → Type 0 };

    /// The text is the report on these events under that scheme.
    ghost is_report: { Scheme → List WorldEvent → List ℕ → Type 0 };

    /// A reporter that has no event yet.
    ///
    /// # Errors
    ///
    /// Fails with `NoMemory` where there is no room for it.
    fn new(alloc: Global, scheme: &Scheme) -> Result<Self, NoMemory>
    where
        Self: Sized,
        ensures { IfOk result (λ r. was_told r scheme.now []) };

    /// Gives it one more event. `number` is the event's number, counted from 1.
    ///
    /// # Errors
    ///
    /// Fails with `NoMemory`, and can't be used any more then.
    fn tell(&mut self, number: u64, event: &WorldEvent) -> Result<(), NoMemory>
        ensures { OnOk result ((scheme : Scheme) (events : List WorldEvent) → was_told self.old scheme events
            → number ≡ length events + 1 → was_told self.new scheme (events ++ event.now ∷ [])) };

    /// The report.
    ///
    /// # Errors
    ///
    /// Fails with `NoMemory` where there is no room for it.
    fn text(self) -> Result<String, NoMemory>
    where
        Self: Sized,
        ensures { IfOk result (λ s. (scheme : Scheme) (events : List WorldEvent) → was_told self scheme events
            → is_report scheme events (string_bytes s)) };
}

/// A reporter that was given the events that the lines write.
fn told<T: Reporter>(
    alloc: Global,
    scheme: &Scheme,
    lines: &[u8],
    room: usize,
) -> Result<T, OpFault>
    ensures ok { IfOk result (λ r. (events : List WorldEvent) × AreEvents lines.now room events
        × T.was_told r scheme.now events) }
    ensures err { IfErr result (IsLinesFault lines.now room) }
{
    let mut reporter = T::new(alloc, scheme)?;
    let mut rest = lines;
    let mut room = room;
    let mut number = 0u64;
    while !rest.is_empty() {
        number += 1;
        let (event, others, left) = next_line::<WorldEvent>(alloc, rest, room, number + 1)?;
        reporter.tell(number, &event)?;
        rest = others;
        room = left;
    }
    Ok(reporter)
}

/// The report on the events that the lines write.
fn events_report<T: Reporter>(
    alloc: Global,
    scheme: &Scheme,
    lines: &[u8],
    room: usize,
) -> Result<String, OpFault>
    ensures ok { IfOk result (λ s. (events : List WorldEvent) × AreEvents lines.now room events
        × T.is_report scheme.now events (string_bytes s)) }
    ensures err { IfErr result (IsLinesFault lines.now room) }
{
    let reporter = told::<T>(alloc, scheme, lines, room)?;
    let text = reporter.text()?;
    Ok(text)
}

/// The report on an input.
fn report_of<T: Reporter>(alloc: Global, input: &[u8]) -> Result<String, OpFault>
    ensures ok { IfOk result (λ s. (scheme : Scheme) × (events : List WorldEvent) × IsRehearsal input.now scheme events
        × T.is_report scheme events (string_bytes s)) }
    ensures err { IfErr result (IsEarlyFault input.now) }
{
    let (first, lines) = match input_line(input, LONGEST_INPUT) {
        Ok(parts) => parts,
        Err(cause) => return Err(OpFault::Input { line: 1, cause }),
    };
    let scheme = scheme_of(alloc, first)?;
    let room = LONGEST_INPUT - (first.len() + 1);
    events_report::<T>(alloc, &scheme, lines, room)
}

/// Reads the whole input, and then writes the report on it.
pub fn report_input<T: Reporter, R: Read, W: Write>(
    alloc: Global,
    reader: &mut R,
    writer: &mut W,
) -> Result<(), OpFault>
    ensures ok { OnOk result ((text : List ℕ)
        × Reports T.is_report (R.remaining reader.old) (R.remaining reader.new) text
        × Appends (W.contents writer.old) (W.contents writer.new) text) }
    ensures err { IfErr result
        (λ e. FailsSo T.is_report e (R.remaining reader.old) (R.remaining reader.new) (W.contents writer.old)
        (W.contents writer.new)) }
{
    let input = read_input(alloc, reader)?;
    let text = report_of::<T>(alloc, input.as_slice())?;
    write_text(writer, text.as_str().as_bytes())?;
    Ok(())
}
