//! The lines of events' outcomes.
ghost use Rattle.std.specs.Prelude.{◌≡◌, ◌++◌, OnOk, codes, decimal, string_bytes};
ghost use Rattle.report.specs.ReportLines.{outcome_line, outcome_text};

use itoa::Buffer;
use protocol::Outcome;
use units::NoMemory;

fn push_number(text: &mut String, n: u64) -> Result<(), NoMemory>
    ensures { OnOk result (string_bytes text.new ≡ string_bytes text.old ++ decimal n) }
{
    let mut digits = Buffer::new();
    text.push_str(digits.format(n))?;
    Ok(())
}

/// Adds a word, a space and a number.
fn push_with_number(text: &mut String, word: &str, n: u64) -> Result<(), NoMemory>
    ensures { OnOk result (string_bytes text.new ≡ string_bytes text.old ++ word.now ++ codes " " ++ decimal n) }
{
    text.push_str(word)?;
    text.push_str(" ")?;
    push_number(text, n)
}

/// Adds an outcome without its event.
///
/// # Errors
///
/// Fails with `NoMemory` where there is no room for the words. The text may then have a part of them.
pub fn push_outcome_text(text: &mut String, outcome: Outcome) -> Result<(), NoMemory>
    ensures { OnOk result (string_bytes text.new ≡ string_bytes text.old ++ outcome_text outcome) }
{
    match outcome {
        Outcome::Recorded(place) => return push_with_number(text, "recorded", place),
        Outcome::Repeat => text.push_str("repeat")?,
        Outcome::Late => text.push_str("late")?,
        Outcome::Refused(code) => return push_with_number(text, "refused", u64::from(code)),
        Outcome::Done => text.push_str("done")?,
        Outcome::NotPossible => text.push_str("not possible")?,
    }
    Ok(())
}

/// Adds the line of an event's outcome: the event's number and its outcome.
///
/// # Errors
///
/// Fails with `NoMemory` where there is no room for the line. The text may then have a part of it.
pub fn push_outcome(text: &mut String, event: u64, outcome: Outcome) -> Result<(), NoMemory>
    ensures { OnOk result (string_bytes text.new ≡ string_bytes text.old ++ outcome_line event outcome) }
{
    push_number(text, event)?;
    text.push_str(" ")?;
    push_outcome_text(text, outcome)?;
    text.push_str("\n")?;
    Ok(())
}
