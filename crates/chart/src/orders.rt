//! Orders in few words.
ghost use Rattle.std.specs.Prelude.{◌≡◌, ◌++◌, OnOk, string_bytes};
ghost use Rattle.chart.specs.ChartLines.{blocks_text, order_text, yes_or_no};

use status::Order;
use std::fmt::Write;
use units::{NoMemory, RawBlock};
use wire::Input;

fn push_blocks(text: &mut String, blocks: &[RawBlock]) -> Result<(), NoMemory>
    ensures { OnOk result (string_bytes text.new ≡ string_bytes text.old ++ blocks_text blocks.now) }
{
    for block in blocks {
        write!(text, " {block}")?;
    }
    Ok(())
}

fn push_propose(text: &mut String, order: &Order) -> Result<(), NoMemory>
    ensures { OnOk result (string_bytes text.new ≡ string_bytes text.old ++ order_text (Input.Propose order.now)) }
{
    let account = order.account();
    let registry = order.acquirer();
    let to_account = order.to_account();
    write!(text, "propose {account} {registry} {to_account}")?;
    push_blocks(text, order.units())
}

fn yes_or_no(may: bool) -> &'static str
    ensures { result.now ≡ yes_or_no may }
{
    if may { "yes" } else { "no" }
}

/// Adds an order in few words; a moment is written in seconds.
///
/// # Errors
///
/// Fails with `NoMemory` where there is no room for the words. The text may then have a part of them.
pub(crate) fn push_order(text: &mut String, input: &Input) -> Result<(), NoMemory>
    ensures { OnOk result (string_bytes text.new ≡ string_bytes text.old ++ order_text input.now) }
{
    match input {
        Input::Propose(order) => return push_propose(text, order),
        Input::Request(id) => write!(text, "request {id}")?,
        Input::OpenAccount(number) => write!(text, "open {}", number.value)?,
        Input::CloseAccount(number) => write!(text, "close {}", number.value)?,
        Input::Ack(number) => write!(text, "ack {}", number.value)?,
        Input::CleanUp(moment) => write!(text, "clean-up {}", moment.seconds)?,
        Input::Eligible { registry, may } => {
            let word = yes_or_no(*may);
            write!(text, "eligible {registry} {word}")?;
        }
        Input::Received { .. } => write!(text, "message")?,
    }
    Ok(())
}
