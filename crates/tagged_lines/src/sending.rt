//! Sending whole lines.
ghost use Rattle.std.specs.Prelude.{◌≡◌, ◌<◌, ◌≤◌, ◌+◌, ◌++◌, ◌∷◌, [], Some, length, take, option_copied, IfErr, OnOk, vec_capacity};
ghost use Rattle.std.specs.Io.KnownBytes.{Appends};
ghost use Rattle.tags.specs.Tags.{tagged};
ghost use Rattle.tagged_lines.specs.Sent.{message_line, reply_line};

use crate::message::KeyedMessage;
use crate::opening_reader::BEFORE_TEXT;
use std::io::Write;
use streams::{WriteFault, write_text};
use tags::Tag;

/// Appends the tag, a space, the text and a newline.
fn put_tagged(out: &mut Vec<u8>, tag: &Tag, text: &[u8])
    requires room { length out.old.items + length text.now + 66 ≤ vec_capacity out.old }
    ensures { out.new.items ≡ out.old.items ++ (tagged tag.now text.now ++ 10 ∷ []) }
{
    if out.extend_from_slice(tag.hex().as_slice()).is_err() {
        unreachable!();
    }
    out.push_reserved(b' ');
    put_line(out, text);
}

/// Appends the text and a newline.
fn put_line(out: &mut Vec<u8>, text: &[u8])
    requires room { length out.old.items + length text.now + 1 ≤ vec_capacity out.old }
    ensures { out.new.items ≡ out.old.items ++ (text.now ++ 10 ∷ []) }
{
    if out.extend_from_slice(text).is_err() {
        unreachable!();
    }
    out.push_reserved(b'\n');
}

/// Sends the line of a reply: behind its tag if it replies to a message that has one, and otherwise as it is. `out` has
/// room for it.
///
/// # Errors
///
/// Fails if a write failed. The error is how many of the line's first bytes were written; no others were.
pub(crate) fn send_reply<'k, W: Write>(
    writer: &mut W,
    out: &mut Vec<u8>,
    message: Option<&KeyedMessage<'k>>,
    reply: &[u8],
) -> Result<(), WriteFault>
    requires empty { out.old.items ≡ [] }
    requires room { length reply.now + 66 ≤ vec_capacity out.old }
    ensures ok { OnOk result (Appends (W.contents writer.old) (W.contents writer.new)
        (reply_line (option_copied message.entry) reply.now)) }
    ensures err { IfErr result (λ f. (f.written < length (reply_line (option_copied message.entry) reply.now))
        × Appends (W.contents writer.old) (W.contents writer.new) (take f.written (reply_line (option_copied message.entry) reply.now))) }
{
    match message {
        Some(message) => put_tagged(out, &message.reply_tag(reply), reply),
        None => put_line(out, reply),
    }
    write_text(writer, out.as_slice())
}

/// Sends the line of a message behind its tag. `out` has room for it.
///
/// # Errors
///
/// Fails if a write failed. The error is how many of the line's first bytes were written; no others were.
pub(crate) fn send_message<'k, W: Write>(
    writer: &mut W,
    out: &mut Vec<u8>,
    message: &KeyedMessage<'k>,
) -> Result<(), WriteFault>
    requires empty { out.old.items ≡ [] }
    requires room { length message.now.text + 66 ≤ vec_capacity out.old }
    ensures ok { OnOk result (Appends (W.contents writer.old) (W.contents writer.new) (message_line message.now)) }
    ensures err { IfErr result (λ f. (f.written < length (message_line message.now))
        × Appends (W.contents writer.old) (W.contents writer.new) (take f.written (message_line message.now))) }
{
    put_tagged(out, &message.tag(), message.text());
    write_text(writer, out.as_slice())
}
