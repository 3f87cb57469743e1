//! A registry's journal and tables.
ghost use Rattle.std.specs.Prelude.{◌≡◌, ◌∷◌, [], List};
ghost use Rattle.protocol.specs.Deciding.{recorded_if_room};
ghost use Rattle.protocol.specs.History.{Transition, messages_of};
ghost use Rattle.protocol.specs.Verdict.{history};
ghost use Rattle.units.specs.declared.code.Node.TheVariants.{Registry};
ghost use Rattle.wire.specs.declared.input.Input.TheVariants as inputs;
ghost use Rattle.registry_core.specs.Effects.{AreEffects, IsAllowed};
ghost use Rattle.registry_core.specs.Kept.{IsKept};
ghost use Rattle.registry_core.specs.Taking.{Takes, verdict_by_rules};

use crate::effect::{RegistryEffect, carry_out};
use accounts::Holdings;
use acquirer::Acquirer;
use initiator::Initiator;
use protocol::{Stepped, acknowledge};
use records::Records;
use scheme::Scheme;
use std::alloc::Global;
use units::{Code, Items, Refusal};
use wire::{Input, Message, Number};

/// A registry of a scheme with its journal, and the tables read off its history: how its units are held and its
/// accounts stand, and its transfers in each role.
#[derive(Debug, Drop)]
pub(crate) struct Tables {
    pub alloc: Global,
    pub scheme: Scheme,
    pub code: Code,
    pub records: Records,
    pub holdings: Holdings,
    pub initiator: Initiator,
    pub acquirer: Acquirer,
}

impl Tables {
    /// Records the input, whose transitions have that effect and send these messages.
    #[inline(always)]
    pub(crate) fn record(
        &mut self,
        input: &Input,
        effect: RegistryEffect,
        messages: Items<Message>,
    ) -> Result<Stepped, Refusal>
        requires kept { IsKept self.old.scheme self.old.code self.old }
        requires transitions { (xs : List Transition)
            × (verdict_by_rules self.old.scheme self.old.code self.old input.now
            ≡ recorded_if_room self.old.scheme
            (history self.old.scheme (Registry self.old.code) self.old.records.inputs) xs)
            × (messages ≡ messages_of xs)
            × AreEffects self.old.code (history self.old.scheme (Registry self.old.code) self.old.records.inputs)
            input.now xs effect }
        requires allowed { IsAllowed effect self.old.holdings }
        ensures { Takes self.old.scheme self.old.code self.old self.new input.now result }
    {
        let place = self
            .records
            .admit(&self.scheme, input, messages.into_vec())?;
        let done = carry_out(
            &mut self.initiator,
            &mut self.acquirer,
            &mut self.holdings,
            effect,
        );
        if let Err(refused) = done {
            self.records.take_back();
            return Err(refused);
        }
        Ok(Stepped::Recorded(place))
    }

    /// Takes an acknowledgement of the message with that key.
    pub(crate) fn acknowledge(&mut self, input: &Input, key: Number) -> Result<Stepped, Refusal>
        requires kept { IsKept self.old.scheme self.old.code self.old }
        requires input { input.now ≡ inputs.Ack key }
        ensures { Takes self.old.scheme self.old.code self.old self.new input.now result }
    {
        acknowledge(&mut self.records, &self.scheme, input, key)
    }

    /// Takes an order to open the account of that number.
    pub(crate) fn open_account(
        &mut self,
        input: &Input,
        account: Number,
    ) -> Result<Stepped, Refusal>
        requires kept { IsKept self.old.scheme self.old.code self.old }
        requires input { input.now ≡ inputs.OpenAccount account }
        ensures { Takes self.old.scheme self.old.code self.old self.new input.now result }
    {
        self.holdings.may_open(account.value)?;
        let none = Items::from_vec(Vec::new(self.alloc));
        self.record(input, RegistryEffect::OpenAccount(account.value), none)
    }

    /// Takes an order to close the account of that number.
    pub(crate) fn close_account(
        &mut self,
        input: &Input,
        account: Number,
    ) -> Result<Stepped, Refusal>
        requires kept { IsKept self.old.scheme self.old.code self.old }
        requires input { input.now ≡ inputs.CloseAccount account }
        ensures { Takes self.old.scheme self.old.code self.old self.new input.now result }
    {
        self.holdings.may_close(account.value)?;
        self.acquirer.may_close(account.value)?;
        let none = Items::from_vec(Vec::new(self.alloc));
        self.record(input, RegistryEffect::CloseAccount(account.value), none)
    }
}
