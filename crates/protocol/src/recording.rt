//! Acknowledgements, which every node records in the same way.
ghost use Rattle.std.specs.Prelude.{◌≡◌};
ghost use Rattle.units.specs.declared.code.Node.{Node};
ghost use Rattle.wire.specs.declared.input.Input.TheVariants as inputs;
ghost use Rattle.protocol.specs.Cores.{AreRecordsOf};
ghost use Rattle.protocol.specs.Taking.{TakesInto};

use crate::node_core::Stepped;
use records::Records;
use scheme::Scheme;
use units::Refusal;
use units::refusal_code::NO_ROW;
use wire::{Input, Number};

/// Takes an acknowledgement of the message with that key, as each node does: it is recorded, or a repeat where a record
/// acknowledges that message already. Refused with `NO_ROW` where no message has that key, with `JOURNAL_FULL`, and
/// with `OUT_OF_MEMORY`; then nothing has changed.
pub fn acknowledge(
    records: &mut Records,
    scheme: &Scheme,
    input: &Input,
    key: Number,
) -> Result<Stepped, Refusal>
    requires { input.now ≡ inputs.Ack key }
    ensures { (n : Node) → AreRecordsOf scheme.now n records.old.inputs records.old
        → TakesInto scheme.now n records.old records.new input.now result }
{
    let key = key.value as usize;
    if records.sends() <= key {
        return Err(Refusal { code: NO_ROW });
    }
    if records.is_acknowledged(key) {
        return Ok(Stepped::Repeat);
    }
    let place = records.acknowledge(scheme, input, key)?;
    Ok(Stepped::Recorded(place))
}
