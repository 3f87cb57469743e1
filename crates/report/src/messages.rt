//! Messages in words.
ghost use Rattle.std.specs.Prelude.{◌≡◌, ◌++◌, OnOk, string_bytes};
ghost use Rattle.report.specs.ReportLines.{message_text, message_word};

use std::fmt::Write;
use units::NoMemory;
use wire::{Body, Message};

/// The kind of a message with that body: the status of a notification, else `proposal` or `request`.
pub fn message_word(body: &Body) -> &'static str
    ensures { result.now ≡ message_word body.now }
{
    match body {
        Body::Proposal(_) => "proposal",
        Body::Notification(notified) => notified.status().name(),
        Body::Request => "request",
    }
}

/// Adds the kind of a message and its transaction, as `proposal NZ1`.
///
/// # Errors
///
/// Fails with `NoMemory` where there is no room for it; the text may have a part of it then.
pub fn push_message(text: &mut String, message: &Message) -> Result<(), NoMemory>
    ensures { OnOk result (string_bytes text.new ≡ string_bytes text.old ++ message_text message.now) }
{
    let word = message_word(&message.body);
    write!(text, "{word} {}", message.id)?;
    Ok(())
}
