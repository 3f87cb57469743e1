//! The lines of records, as words or as JSON.
ghost use Rattle.std.specs.Prelude.{◌≡◌, ◌++◌, ℕ, IfOk, IsTrue, List, OnOk, codes, decimal, string_bytes};
ghost use Rattle.units.specs.Code.{node_text};
ghost use Rattle.units.specs.Text.{IsFreeOf};
ghost use Rattle.status.specs.Moment.{IsMomentText};
ghost use Rattle.report.specs.ReportLines.{status_or_none, status_or_null};
ghost use Rattle.trace.specs.Lines.{IsMomentOf, IsMomentWord, IsRowLine, IsWordLine, json_line, json_moment};

use report::Form;
use status::{Moment, Status};
use std::alloc::Global;
use std::fmt::Write;
use units::{NoMemory, Node, cut};
use wire::{Input, encode_input};

/// Whether the text names the moment.
fn is_text_of(text: &str, moment: Moment) -> bool
    ensures { IsTrue result → IsMomentText text.now moment }
{
    match Moment::read(text) {
        Ok(read) => read == moment,
        Err(_) => false,
    }
}

/// Whether the text is one word of one line.
fn is_word(text: &str) -> bool
    ensures word { IsTrue result → IsFreeOf 32 text.now }
    ensures line { IsTrue result → IsFreeOf 10 text.now }
{
    cut(text, ' ').is_none() && cut(text, '\n').is_none()
}

/// The moment as a word. The word is read back before it is returned, since no contract specifies how `jiff` prints a
/// moment.
///
/// Fails with `NoMemory` where there is no room, and where the word isn't read back as the moment. No such moment is
/// known.
fn moment_word(alloc: Global, moment: Moment) -> Result<String, NoMemory>
    ensures { IfOk result (λ s. IsMomentWord (string_bytes s) moment) }
{
    let mut text = String::new(alloc);
    write!(text, "{moment}")?;
    if is_word(text.as_str()) && is_text_of(text.as_str(), moment) {
        Ok(text)
    } else {
        Err(NoMemory)
    }
}

/// The moment of a received message or of a clean-up, or `-` where the input has none.
fn moment_of(alloc: Global, input: &Input) -> Result<String, NoMemory>
    ensures { IfOk result (λ s. IsMomentOf (string_bytes s) input.now) }
{
    match input {
        Input::Received { moment, .. } => moment_word(alloc, *moment),
        Input::CleanUp(moment) => moment_word(alloc, *moment),
        _ => Ok(format!(in alloc; "-")?),
    }
}

/// The status, or `none`.
fn status_word(status: Option<Status>) -> &'static str
    ensures { result.now ≡ status_or_none status }
{
    match status {
        Some(status) => status.name(),
        None => "none",
    }
}

/// The words before the record's text, each with a space after it.
fn head_of(
    alloc: Global,
    node: Node,
    place: u64,
    moment: &str,
    status: &str,
) -> Result<String, NoMemory>
    ensures { IfOk result (λ s. string_bytes s ≡ node_text node ++ codes " " ++ decimal place ++ codes " "
        ++ moment.now ++ codes " " ++ status.now ++ codes " ") }
{
    Ok(format!(in alloc; "{node} {place} {moment} {status} ")?)
}

/// Adds the line of a record as words.
fn push_words(
    alloc: Global,
    text: &mut Vec<u8>,
    node: Node,
    place: u64,
    input: &Input,
    status: Option<Status>,
) -> Result<(), NoMemory>
    ensures { OnOk result ((line : List ℕ)
        × IsWordLine line (record { node = node; place = place; input = input.now; status = status })
        × (text.new.items ≡ text.old.items ++ line)) }
{
    let moment = moment_of(alloc, input)?;
    let record = encode_input(alloc, input)?;
    let head = head_of(alloc, node, place, moment.as_str(), status_word(status))?;
    text.extend_from_slice(head.as_bytes())?;
    text.extend_from_slice(record.as_slice())?;
    text.extend_from_slice(b"\n")?;
    Ok(())
}

/// The input's moment in seconds, or `null`.
fn json_moment(alloc: Global, input: &Input) -> Result<String, NoMemory>
    ensures { IfOk result (λ s. string_bytes s ≡ json_moment input.now) }
{
    match input {
        Input::Received { moment, .. } => Ok(format!(in alloc; "{}", moment.seconds)?),
        Input::CleanUp(moment) => Ok(format!(in alloc; "{}", moment.seconds)?),
        _ => Ok(format!(in alloc; "null")?),
    }
}

/// The status in quotation marks, or `null`.
fn json_status(alloc: Global, status: Option<Status>) -> Result<String, NoMemory>
    ensures { IfOk result (λ s. string_bytes s ≡ status_or_null status) }
{
    match status {
        Some(status) => Ok(format!(in alloc; "\"{}\"", status.name())?),
        None => Ok(format!(in alloc; "null")?),
    }
}

/// The node and the place, as members of an object between the earlier members and the record.
fn json_seat(alloc: Global, node: Node, place: u64) -> Result<String, NoMemory>
    ensures { IfOk result (λ s. string_bytes s ≡ codes ",\"node\":\"" ++ node_text node ++ codes "\",\"place\":"
        ++ decimal place ++ codes ",\"record\":") }
{
    Ok(format!(in alloc; ",\"node\":\"{node}\",\"place\":{place},\"record\":")?)
}

/// Adds an object of these texts, and a newline.
fn push_members(
    text: &mut Vec<u8>,
    moment: &str,
    seat: &str,
    body: &[u8],
    status: &str,
) -> Result<(), NoMemory>
    ensures { OnOk result (text.new.items ≡ text.old.items ++ (codes "{\"moment\":" ++ moment.now ++ seat.now
        ++ body.now ++ codes ",\"status\":" ++ status.now ++ codes "}\n")) }
{
    text.extend_from_slice(b"{\"moment\":")?;
    text.extend_from_slice(moment.as_bytes())?;
    text.extend_from_slice(seat.as_bytes())?;
    text.extend_from_slice(body)?;
    text.extend_from_slice(b",\"status\":")?;
    text.extend_from_slice(status.as_bytes())?;
    text.extend_from_slice(b"}\n")?;
    Ok(())
}

/// Adds the line of a record as an object.
fn push_object(
    alloc: Global,
    text: &mut Vec<u8>,
    node: Node,
    place: u64,
    input: &Input,
    status: Option<Status>,
) -> Result<(), NoMemory>
    ensures { OnOk result (text.new.items ≡ text.old.items
        ++ json_line (record { node = node; place = place; input = input.now; status = status })) }
{
    let moment = json_moment(alloc, input)?;
    let seat = json_seat(alloc, node, place)?;
    let record = encode_input(alloc, input)?;
    let stands = json_status(alloc, status)?;
    push_members(
        text,
        moment.as_str(),
        seat.as_str(),
        record.as_slice(),
        stands.as_str(),
    )?;
    Ok(())
}

/// Adds the line of a record at that place of the node's journal. `status` is the transaction's status after it.
///
/// # Errors
///
/// Fails with `NoMemory` where there is no room for the line, a part of which may then be there, and, in lines of
/// words, where `moment_word` does.
pub(crate) fn push_row(
    alloc: Global,
    text: &mut Vec<u8>,
    form: Form,
    node: Node,
    place: u64,
    input: &Input,
    status: Option<Status>,
) -> Result<(), NoMemory>
    ensures { OnOk result ((line : List ℕ)
        × IsRowLine form line (record { node = node; place = place; input = input.now; status = status })
        × (text.new.items ≡ text.old.items ++ line)) }
{
    match form {
        Form::Lines => push_words(alloc, text, node, place, input, status),
        Form::Json => push_object(alloc, text, node, place, input, status),
    }
}
