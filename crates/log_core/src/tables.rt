//! The log's journal and tables.
ghost use Rattle.std.specs.Prelude.{◌≡◌, List};
ghost use Rattle.protocol.specs.Deciding.{recorded_if_room};
ghost use Rattle.protocol.specs.History.{Transition, messages_of};
ghost use Rattle.protocol.specs.Verdict.{history};
ghost use Rattle.units.specs.declared.code.Node.TheVariants.{Itl};
ghost use Rattle.wire.specs.declared.input.Input.TheVariants as inputs;
ghost use Rattle.log_core.specs.Effects.{AreEffects, transfer_state_in};
ghost use Rattle.log_core.specs.Kept.{IsKept};
ghost use Rattle.log_core.specs.Taking.{Takes, verdict_by_rules};
ghost use Rattle.log_core.specs.Transfers.{IsAllowed};

use crate::effect::LogEffect;
use crate::registries::is_member;
use crate::transfer::LoggedTransfer;
use crate::waiting::Waiting;
use checks::{Register, is_eligible};
use protocol::{Stepped, acknowledge};
use records::Records;
use scheme::Scheme;
use status::TransactionId;
use std::alloc::Global;
use std::collections::{BTreeMap, BTreeSet};
use units::refusal_code::UNKNOWN_REGISTRY;
use units::{Code, Items, Refusal};
use wire::{Input, Message, Number};

/// The log of a scheme with its journal, and the tables read off its history: its register of units and registries, its
/// transactions, and those of them that stand Checked, by age.
#[derive(Debug, Drop)]
pub(crate) struct Tables {
    pub alloc: Global,
    pub scheme: Scheme,
    pub records: Records,
    pub register: Register,
    pub transfers: BTreeMap<TransactionId, LoggedTransfer>,
    pub checked: BTreeSet<Waiting>,
}

impl Tables {
    /// Records the input, whose transitions have that effect and send these messages.
    pub(crate) fn record(
        &mut self,
        input: &Input,
        effect: LogEffect,
        messages: Items<Message>,
    ) -> Result<Stepped, Refusal>
        requires kept { IsKept self.old.scheme self.old }
        requires transitions { (xs : List Transition)
            × (verdict_by_rules self.old.scheme self.old input.now
            ≡ recorded_if_room self.old.scheme (history self.old.scheme Itl self.old.records.inputs) xs)
            × (messages ≡ messages_of xs) × AreEffects input.now xs effect }
        requires allowed { IsAllowed (transfer_state_in self.old) effect }
        ensures { Takes self.old.scheme self.old self.new input.now result }
    {
        let place = self
            .records
            .admit(&self.scheme, input, messages.into_vec())?;
        if let Err(refused) = self.carry_out(effect) {
            self.records.take_back();
            return Err(refused);
        }
        Ok(Stepped::Recorded(place))
    }

    /// Takes an acknowledgement of the message with that key.
    pub(crate) fn acknowledge(&mut self, input: &Input, key: Number) -> Result<Stepped, Refusal>
        requires kept { IsKept self.old.scheme self.old }
        requires input { input.now ≡ inputs.Ack key }
        ensures { Takes self.old.scheme self.old self.new input.now result }
    {
        acknowledge(&mut self.records, &self.scheme, input, key)
    }

    /// Takes an order on whether the registry may take part in transfers.
    pub(crate) fn eligible(
        &mut self,
        input: &Input,
        registry: Code,
        may: bool,
    ) -> Result<Stepped, Refusal>
        requires kept { IsKept self.old.scheme self.old }
        requires input { input.now ≡ inputs.Eligible registry may }
        ensures { Takes self.old.scheme self.old self.new input.now result }
    {
        if !is_member(&self.scheme, registry) {
            return Err(Refusal {
                code: UNKNOWN_REGISTRY,
            });
        }
        if is_eligible(&self.scheme, &self.register.orders, registry) == may {
            return Ok(Stepped::Repeat);
        }
        self.record(
            input,
            LogEffect::Eligible { registry, may },
            Items::new(self.alloc),
        )
    }
}
