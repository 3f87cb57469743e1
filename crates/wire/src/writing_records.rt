//! The texts of a journal's records.
ghost use Rattle.std.specs.Prelude.{◌≡◌, [], ◌∷◌, ◌++◌, codes, IfOk, OnOk};
ghost use Rattle.serde_json.specs.Data.{string, boolean};
ghost use Rattle.status.specs.Id.{id_text};
ghost use Rattle.status.specs.Order.{IsOrder};
ghost use Rattle.units.specs.Code.{code_text};
ghost use Rattle.wire.specs.Messages.{message_data, IsSound};
ghost use Rattle.wire.specs.Objects.{whole};
ghost use Rattle.wire.specs.Records.{order_fields, input_fields, message_in, record_data, record_text, IsRecordText};
ghost use Rattle.json_fields.specs.Writing.{after_fields, data_tokens};
ghost use Rattle.wire.specs.Writing.{IsSoundInput};
ghost use Rattle.wire.specs.declared.record_format.RecordFormat.TheVariants.{Two};

use crate::input::Input;
use crate::members::{put_code, put_id, put_ordered};
use crate::message::Message;
use crate::record_format::RecordFormat;
use crate::writing::write_message;
use json_fields::JsonText;
use status::{Moment, Order, TransactionId};
use std::alloc::Global;
use units::{Code, NoMemory};

/// The fields of an order to transfer units.
fn put_order(alloc: Global, out: &mut JsonText, order: &Order) -> Result<(), NoMemory>
    ensures fields { OnOk result (out.new ≡ after_fields out.old (order_fields order.now)) }
    ensures sound { OnOk result (IsOrder order.now) }
{
    out.put_number("account", order.account())?;
    out.put_text("input", "propose")?;
    out.put_number("to_account", order.to_account())?;
    put_code(alloc, out, "to_registry", order.acquirer())?;
    put_ordered(alloc, out, "units", order.units())
}

/// The fields of an order to ask for cancellation.
fn put_request_order(alloc: Global, out: &mut JsonText, id: TransactionId) -> Result<(), NoMemory>
    ensures { OnOk result (out.new ≡ after_fields out.old ((codes "input", string (codes "request")) ∷
        (codes "transaction", string (id_text id)) ∷ [])) }
{
    out.put_text("input", "request")?;
    put_id(alloc, out, "transaction", id)
}

/// The fields of an order to open or to close an account.
fn put_account_order(out: &mut JsonText, number: u64, name: &str) -> Result<(), NoMemory>
    ensures { OnOk result (out.new ≡ after_fields out.old ((codes "account", whole number) ∷
        (codes "input", string name.now) ∷ [])) }
{
    out.put_number("account", number)?;
    out.put_text("input", name)
}

/// The fields of an acknowledgement.
fn put_ack(out: &mut JsonText, key: u64) -> Result<(), NoMemory>
    ensures { OnOk result (out.new ≡ after_fields out.old ((codes "input", string (codes "ack")) ∷
        (codes "key", whole key) ∷ [])) }
{
    out.put_text("input", "ack")?;
    out.put_number("key", key)
}

/// The fields of a clean-up.
fn put_clean_up(out: &mut JsonText, moment: Moment) -> Result<(), NoMemory>
    ensures { OnOk result (out.new ≡ after_fields out.old ((codes "input", string (codes "clean_up")) ∷
        (codes "moment", whole moment.seconds) ∷ [])) }
{
    out.put_text("input", "clean_up")?;
    out.put_number("moment", moment.seconds)
}

/// The fields of an eligibility order.
fn put_eligible(
    alloc: Global,
    out: &mut JsonText,
    registry: Code,
    may: bool,
) -> Result<(), NoMemory>
    ensures { OnOk result (out.new ≡ after_fields out.old ((codes "input", string (codes "eligible")) ∷
        (codes "may", boolean may) ∷ (codes "registry", string (code_text registry)) ∷ [])) }
{
    out.put_text("input", "eligible")?;
    out.put_boolean("may", may)?;
    put_code(alloc, out, "registry", registry)
}

/// The fields of a message that was received.
fn put_received(
    alloc: Global,
    out: &mut JsonText,
    message: &Message,
    moment: Moment,
) -> Result<(), NoMemory>
    ensures fields { OnOk result (out.new ≡ after_fields out.old ((codes "input", string (codes "received")) ∷
        (codes "message", message_data message.now) ∷ (codes "moment", whole moment.seconds) ∷ [])) }
    ensures sound { OnOk result (IsSound message.now.body) }
{
    out.put_text("input", "received")?;
    out.key("message")?;
    write_message(alloc, out, message)?;
    out.put_number("moment", moment.seconds)
}

/// The fields of an input's record, except those of the format.
fn put_input(alloc: Global, out: &mut JsonText, input: &Input) -> Result<(), NoMemory>
    ensures fields { OnOk result
        (out.new ≡ after_fields out.old (input_fields (message_in input.now) input.now)) }
    ensures sound { OnOk result (IsSoundInput input.now) }
{
    match input {
        Input::Propose(order) => put_order(alloc, out, order),
        Input::Request(id) => put_request_order(alloc, out, *id),
        Input::OpenAccount(account) => put_account_order(out, account.value, "open"),
        Input::CloseAccount(account) => put_account_order(out, account.value, "close"),
        Input::Ack(key) => put_ack(out, key.value),
        Input::CleanUp(moment) => put_clean_up(out, *moment),
        Input::Eligible { registry, may } => put_eligible(alloc, out, *registry, *may),
        Input::Received { message, moment } => put_received(alloc, out, message, *moment),
    }
}

/// Writes an input's record.
fn write_record(alloc: Global, out: &mut JsonText, input: &Input) -> Result<(), NoMemory>
    ensures tokens { OnOk result (out.new ≡ out.old ++ data_tokens (record_data input.now)) }
    ensures sound { OnOk result (IsSoundInput input.now) }
{
    out.begin_object()?;
    put_input(alloc, out, input)?;
    out.put_number("v", u64::from(RecordFormat::Two.number()))?;
    out.end_object()
}

/// The text of the record of an input in format Two: compact JSON, keys in byte order, no newline. Fails with
/// `NoMemory` if an allocation was refused.
pub fn encode_input(alloc: Global, input: &Input) -> Result<Vec<u8>, NoMemory>
    ensures text { IfOk result (λ v. v.items ≡ record_text input.now) }
    ensures record { IfOk result (λ v. IsRecordText Two v.items input.now) }
{
    let mut out = JsonText::new(alloc)?;
    write_record(alloc, &mut out, input)?;
    Ok(out.into_bytes())
}
