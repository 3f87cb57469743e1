//! The lines of messages.
ghost use Rattle.std.specs.Prelude.{◌≡◌, ◌++◌, OnOk, codes, string_bytes};
ghost use Rattle.chart.specs.ChartLines.{arrow, delivered_line, lost_line, shape_of};
ghost use Rattle.report.specs.ReportLines.{outcome_text};

use protocol::Outcome;
use report::{push_message, push_outcome_text};
use std::fmt::Write;
use units::NoMemory;
use wire::Message;

fn push_arrow(text: &mut String, shape: &str, message: &Message) -> Result<(), NoMemory>
    ensures { OnOk result (string_bytes text.new ≡ string_bytes text.old ++ arrow shape.now message.now) }
{
    let (from, to) = (message.from, message.to);
    write!(text, "    {from}{shape}{to}: ")?;
    push_message(text, message)
}

fn shape_of(outcome: Outcome) -> &'static str
    ensures { result.now ≡ shape_of outcome }
{
    match outcome {
        Outcome::NotPossible => "-x",
        _ => "->>",
    }
}

/// Adds the outcome of an event, and the end of its line.
pub(crate) fn push_end(text: &mut String, outcome: Outcome) -> Result<(), NoMemory>
    ensures { OnOk result (string_bytes text.new ≡ string_bytes text.old ++
        (codes ", " ++ outcome_text outcome ++ codes "\n")) }
{
    text.push_str(", ")?;
    push_outcome_text(text, outcome)?;
    text.push_str("\n")?;
    Ok(())
}

/// Adds the line of a message that reaches its addressee, and the outcome.
pub(crate) fn push_delivered(
    text: &mut String,
    message: &Message,
    outcome: Outcome,
) -> Result<(), NoMemory>
    ensures { OnOk result (string_bytes text.new ≡ string_bytes text.old ++ delivered_line message.now outcome) }
{
    push_arrow(text, shape_of(outcome), message)?;
    push_end(text, outcome)?;
    Ok(())
}

/// Adds the line of a message that was posted and never delivered.
///
/// # Errors
///
/// Fails with `NoMemory` where there is no room for the line. The text may then have a part of it.
pub(crate) fn push_lost(text: &mut String, message: &Message) -> Result<(), NoMemory>
    ensures { OnOk result (string_bytes text.new ≡ string_bytes text.old ++ lost_line message.now) }
{
    push_arrow(text, "-x", message)?;
    text.push_str(", never delivered\n")?;
    Ok(())
}
