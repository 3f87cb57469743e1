//! Answers to the lines of a script.
ghost use Rattle.std.specs.Prelude.{◌≡◌, ◌++◌, IfOk, OnOk, codes, decimal, string_bytes};
ghost use Rattle.protocol.specs.History.{is_status};
ghost use Rattle.report.specs.ReportLines.{status_or_none};
ghost use Rattle.serving.specs.Answers.{answer_line, answer_lines, first_undone, is_carried_out};

use desk::Told;
use input_lines::{Instruction, ScriptLine};
use protocol::Outcome;
use report::push_outcome;
use status::Status;
use std::alloc::Global;
use std::fmt::Write;
use units::NoMemory;

/// The answer to a line of a script.
#[derive(Clone, Copy, Debug, PartialEq, Eq)]
pub enum ScriptAnswer {
    /// The scheme has no such node, or the node takes no such order.
    NotPossible,
    /// The node's result, returned once all records were committed that its journal had then.
    Told(Told),
}

fn is_status(found: Option<Status>, status: Status) -> bool
    ensures { result ≡ is_status found status }
{
    match found {
        Some(found) => found == status,
        None => false,
    }
}

impl ScriptAnswer {
    /// Whether the order or question that has this answer was carried out: the order was recorded, or changed nothing
    /// since it came again or too late; or the question got an answer, and one that waits got the status that it waits
    /// for.
    pub(crate) fn is_carried_out(self, instruction: &Instruction) -> bool
        ensures { result ≡ is_carried_out instruction.now self }
    {
        match self {
            ScriptAnswer::NotPossible | ScriptAnswer::Told(Told::Refused(_)) => false,
            ScriptAnswer::Told(Told::Status(found)) => match instruction {
                Instruction::Until { status, .. } => is_status(found, *status),
                _ => true,
            },
            ScriptAnswer::Told(Told::Step(_)) => true,
        }
    }
}

fn push_status(text: &mut String, number: u64, status: Option<Status>) -> Result<(), NoMemory>
    ensures { OnOk result (string_bytes text.new
        ≡ string_bytes text.old ++ decimal number ++ codes " status " ++ status_or_none status ++ codes "\n") }
{
    let word = match status {
        Some(status) => status.name(),
        None => "none",
    };
    writeln!(text, "{number} status {word}")?;
    Ok(())
}

/// Adds the answer to the line with that number.
///
/// # Errors
///
/// Fails with `NoMemory` if memory ran out. The text may then have a part of it.
pub fn push_answer(text: &mut String, number: u64, answer: ScriptAnswer) -> Result<(), NoMemory>
    ensures { OnOk result (string_bytes text.new ≡ string_bytes text.old ++ answer_line number answer) }
{
    let outcome = match answer {
        ScriptAnswer::NotPossible => Outcome::NotPossible,
        ScriptAnswer::Told(Told::Step(stepped)) => Outcome::from(stepped),
        ScriptAnswer::Told(Told::Refused(refusal)) => Outcome::Refused(refusal.code),
        ScriptAnswer::Told(Told::Status(status)) => return push_status(text, number, status),
    };
    push_outcome(text, number, outcome)
}

/// The lines of the answers, numbered from 1 on.
///
/// # Errors
///
/// Fails with `NoMemory` if memory ran out.
pub fn lines_of(alloc: Global, answers: &[ScriptAnswer]) -> Result<String, NoMemory>
    ensures { IfOk result (λ s. string_bytes s ≡ answer_lines 1 answers.now) }
{
    let mut text = String::new(alloc);
    let mut number = 0u64;
    for answer in answers {
        number += 1;
        push_answer(&mut text, number, *answer)?;
    }
    Ok(text)
}

/// Returns the number of the first line that was not carried out by its outcome, counted from 1, or `None` if all were.
/// Each line has its outcome at the same place.
pub fn first_undone(lines: &[ScriptLine], answers: &[ScriptAnswer]) -> Option<u64>
    ensures { result ≡ first_undone 1 lines.now answers.now }
{
    let mut number = 0u64;
    for (line, answer) in lines.iter().zip(answers) {
        number += 1;
        if !answer.is_carried_out(&line.instruction) {
            return Some(number);
        }
    }
    None
}
