//! The table of the furthest world that the records of the stores explain, and the records that are left.
ghost use Rattle.std.specs.Prelude.{◌≡◌, ◌++◌, ℕ, [], List, IfErr, IfOk, OnOk, flat_map, length, string_bytes};
ghost use Rattle.std.specs.Io.KnownBytes.{Appends};
ghost use Rattle.audit.specs.Cuts.{CutsOff, FailsToCutOff, IsCutText, left_line, message_line, rest_lines, waits_line};
ghost use Rattle.loading.specs.Stores.{AreUnwritten};
ghost use Rattle.protocol.specs.Input.{Input as Record};
ghost use Rattle.protocol.specs.Registries.{nodes};
ghost use Rattle.protocol.specs.Scheme.{Scheme as Registries};
ghost use Rattle.report.specs.declared.form.Form.TheVariants.{Json, Lines};
ghost use Rattle.weave.specs.Cuts.{IsCut};
ghost use Rattle.weave.specs.Following.{journal_of};

use command_faults::{OpFault, write_out};
use loading::load_cores;
use protocol::scheme::Scheme;
use protocol::wire::{Input, Message};
use report::{Form, message_word, push_message, push_table};
use std::alloc::Global;
use std::fmt::Write as _;
use std::io::Write;
use stores::NodeStore;
use units::{NoMemory, Node};
use weave::{Cut, Rest, Watch, cut_cores};

/// Adds the line with the number of a node's records beyond the cut and the place of the first one.
fn push_left(
    text: &mut String,
    node: Node,
    place: usize,
    count: usize,
    form: Form,
) -> Result<(), NoMemory>
    ensures { OnOk result (string_bytes text.new ≡ string_bytes text.old ++ left_line form node place count) }
{
    match form {
        Form::Lines => writeln!(text, "left {node} {place} {count}")?,
        Form::Json => writeln!(
            text,
            "{{\"count\":{count},\"line\":\"left\",\"node\":\"{node}\",\"place\":{place}}}"
        )?,
    }
    Ok(())
}

fn push_words(
    text: &mut String,
    node: Node,
    place: usize,
    message: &Message,
) -> Result<(), NoMemory>
    ensures { OnOk result (string_bytes text.new ≡ string_bytes text.old ++ message_line Lines node place message.now) }
{
    write!(text, "waits {node} {place} ")?;
    push_message(text, message)?;
    writeln!(text, " from {}", message.from)?;
    Ok(())
}

fn push_object(
    text: &mut String,
    node: Node,
    place: usize,
    message: &Message,
) -> Result<(), NoMemory>
    ensures { OnOk result (string_bytes text.new ≡ string_bytes text.old ++ message_line Json node place message.now) }
{
    let from = message.from;
    let word = message_word(&message.body);
    let id = message.id;
    writeln!(
        text,
        "{{\"from\":\"{from}\",\"line\":\"waits\",\"message\":\"{word}\",\"node\":\"{node}\",\"place\":{place},\"transaction\":\"{id}\"}}"
    )?;
    Ok(())
}

/// Adds the line of a message that the record at that place waits for.
fn push_awaited(
    text: &mut String,
    node: Node,
    place: usize,
    message: &Message,
    form: Form,
) -> Result<(), NoMemory>
    ensures { OnOk result (string_bytes text.new ≡ string_bytes text.old ++ message_line form node place message.now) }
{
    match form {
        Form::Lines => push_words(text, node, place, message),
        Form::Json => push_object(text, node, place, message),
    }
}

/// Adds the line of the message that a record waits for, if it waits for one.
fn push_waits(
    text: &mut String,
    node: Node,
    place: usize,
    input: &Input,
    form: Form,
) -> Result<(), NoMemory>
    ensures { OnOk result (string_bytes text.new ≡ string_bytes text.old ++ waits_line form node place input.now) }
{
    match input {
        Input::Received { message, .. } => push_awaited(text, node, place, message, form),
        _ => Ok(()),
    }
}

/// Adds the lines of a node's records beyond the cut: how many there are, and the message that the first one waits for.
fn push_rest(text: &mut String, rest: &Rest, form: Form) -> Result<(), NoMemory>
    ensures { OnOk result (string_bytes text.new ≡ string_bytes text.old ++ rest_lines form rest.now) }
{
    push_left(text, rest.node, rest.place, rest.count, form)?;
    push_waits(text, rest.node, rest.place, &rest.next, form)
}

fn push_rests(text: &mut String, rests: &[Rest], form: Form) -> Result<(), NoMemory>
    ensures { OnOk result (string_bytes text.new ≡ string_bytes text.old ++ flat_map (rest_lines form) rests.now) }
{
    for rest in rests {
        push_rest(text, rest, form)?;
    }
    Ok(())
}

/// The table of the cut's world, and the lines of the records beyond it.
fn text_of_cut(alloc: Global, cut: &Cut, form: Form) -> Result<String, NoMemory>
    ensures { (scheme : Registries) (journals : List (List Record))
        → IsCut scheme (journal_of scheme journals) cut.now
        → IfOk result (λ s. IsCutText form scheme journals cut.now.rests.items (string_bytes s)) }
{
    let mut text = String::new(alloc);
    push_table(alloc, &mut text, &cut.world, form)?;
    push_rests(&mut text, cut.rests.as_slice(), form)?;
    Ok(text)
}

/// Reads the stores, one for each node: the log's, then those of the registries in the scheme's order. Of all runs
/// whose journals are first records of these stores, one has the most records at every node: this writes the table of
/// its world, in that form. For each node with records left it then writes how many these are, and the message that the
/// first of them waits for. By the records of that world no node sends this message. Reports the records as they are
/// read and woven.
///
/// The stores need not have been copied at one moment. They are read by pages, and nothing is written to them.
///
/// # Errors
///
/// Nothing is written, except where the output failed and where records are left:
///
/// - `Stuck`: all was written, and records are left. The node is the first with a record left, and the place is that
///   record's.
/// - `Store`: a store could not be read, or has a damaged record; it is the first such store in that order. A record is
///   also damaged where its node doesn't record it after those before it.
/// - `Write`: the output failed, after the number of bytes in the fault.
/// - `NoMemory`: out of memory.
pub fn audit_cut<S: NodeStore, W: Write, P: Watch>(
    alloc: Global,
    scheme: &Scheme,
    stores: &mut [S],
    writer: &mut W,
    form: Form,
    watch: &mut P,
) -> Result<(), OpFault>
    requires { length stores.old ≡ length (nodes scheme.now) }
    ensures ok { OnOk result ((text : List ℕ) × CutsOff S.NodeStore form scheme.now stores.old stores.new [] text
        × Appends (W.contents writer.old) (W.contents writer.new) text) }
    ensures err { IfErr result
        (λ e. FailsToCutOff S.NodeStore form e scheme.now stores.old stores.new (W.contents writer.old)
        (W.contents writer.new)) }
    ensures unwritten { AreUnwritten S.NodeStore stores.old stores.new }
{
    let cores = load_cores(alloc, scheme, stores, watch)?;
    let cut = cut_cores(alloc, scheme, cores, watch)?;
    let text = text_of_cut(alloc, &cut, form)?;
    watch.finished();
    write_out(writer, text.as_str())?;
    match cut.rests.first() {
        None => Ok(()),
        Some(rest) => Err(OpFault::Stuck {
            node: rest.node,
            place: rest.place,
        }),
    }
}
