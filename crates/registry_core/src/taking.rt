//! How a registry's tables take orders to transfer units, and messages.
ghost use Rattle.std.specs.FinMap as map;
ghost use Rattle.std.specs.Prelude.{◌≡◌, true, false, is_some};
ghost use Rattle.units.specs.Code.{same_code};
ghost use Rattle.registry_core.specs.Effects.{ending};
ghost use Rattle.registry_core.specs.Kept.{IsKept};
ghost use Rattle.registry_core.specs.Taking.{IsWelcome, Takes};
ghost use Rattle.wire.specs.declared.input.Input.TheVariants as inputs;
ghost use Rattle.wire.specs.declared.message.Body.TheVariants as bodies;
ghost use Rattle.status.specs.declared.moment.Moment.{Moment};

use crate::effect::RegistryEffect;
use crate::refusals::message_refusal;
use crate::tables::Tables;
use protocol::{Decision, Stepped};
use status::{Order, Status, TransactionId};
use units::refusal_code::NO_ROW;
use units::{Items, Refusal};
use wire::{Body, Input, Message, NotifiedStatus, Proposal};

impl Tables {
    /// Takes an order to transfer units.
    pub(crate) fn propose(&mut self, input: &Input, order: &Order) -> Result<Stepped, Refusal>
        requires kept { IsKept self.old.scheme self.old.code self.old }
        requires input { input.now ≡ inputs.Propose order.now }
        ensures { Takes self.old.scheme self.old.code self.old self.new input.now result }
    {
        let new_transfer = self
            .initiator
            .new_transfer(self.alloc, &self.scheme, &self.holdings, order)?;
        let decision = self.initiator.propose(new_transfer.id)?;
        match decision {
            Decision::Moves(_) => {
                let messages = self.initiator.proposes(self.alloc, &new_transfer)?;
                self.record(input, RegistryEffect::Open(new_transfer), messages)
            }
            Decision::Stays(stale) => Ok(Stepped::from(stale)),
        }
    }

    /// Takes an order to ask for the transfer's cancellation.
    pub(crate) fn request(&mut self, input: &Input, id: TransactionId) -> Result<Stepped, Refusal>
        requires kept { IsKept self.old.scheme self.old.code self.old }
        requires input { input.now ≡ inputs.Request id }
        ensures { Takes self.old.scheme self.old.code self.old self.new input.now result }
    {
        let decision = self.initiator.request(id)?;
        match decision {
            Decision::Moves(_) => {
                let messages = self.initiator.requests(self.alloc, id)?;
                self.record(input, RegistryEffect::Ask(id), messages)
            }
            Decision::Stays(stale) => Ok(Stepped::from(stale)),
        }
    }

    /// Takes a message.
    pub(crate) fn receive(&mut self, input: &Input, message: &Message) -> Result<Stepped, Refusal>
        requires kept { IsKept self.old.scheme self.old.code self.old }
        requires input { (moment : Moment) × (input.now ≡ inputs.Received message.now moment) }
        ensures { Takes self.old.scheme self.old.code self.old self.new input.now result }
    {
        if let Some(refused) = message_refusal(
            self.code,
            &self.initiator,
            &self.acquirer,
            message,
        ) {
            return Err(Refusal { code: refused });
        }
        match &message.body {
            Body::Proposal(proposal) => self.arrive(input, message, proposal),
            Body::Notification(notified) => self.take_notification(input, message, notified),
            Body::Request => Err(Refusal { code: NO_ROW }),
        }
    }

    /// Takes a proposal that `message_refusal` doesn't refuse.
    fn arrive(
        &mut self,
        input: &Input,
        message: &Message,
        proposal: &Proposal,
    ) -> Result<Stepped, Refusal>
        requires kept { IsKept self.old.scheme self.old.code self.old }
        requires input { (moment : Moment) × (input.now ≡ inputs.Received message.now moment) }
        requires body { message.now.body ≡ bodies.Proposal proposal.now }
        requires welcome { IsWelcome self.old message.now }
        ensures { Takes self.old.scheme self.old.code self.old self.new input.now result }
    {
        let (id, content) = (message.id, &proposal.content);
        let found = self
            .acquirer
            .findings(self.alloc, &self.scheme, &self.holdings, id, content)?;
        let decision = self.acquirer.proposal(id, &found)?;
        match decision {
            Decision::Moves(new) => {
                let messages = self.acquirer.notifies(self.alloc, id, found)?;
                let content = content.copy()?;
                let effect = RegistryEffect::Arrive { id, new, content };
                self.record(input, effect, messages)
            }
            Decision::Stays(stale) => Ok(Stepped::from(stale)),
        }
    }

    /// Takes a notification that `message_refusal` doesn't refuse.
    fn take_notification(
        &mut self,
        input: &Input,
        message: &Message,
        notified: &NotifiedStatus,
    ) -> Result<Stepped, Refusal>
        requires kept { IsKept self.old.scheme self.old.code self.old }
        requires input { (moment : Moment) × (input.now ≡ inputs.Received message.now moment) }
        requires body { message.now.body ≡ bodies.Notification notified.now }
        requires welcome { IsWelcome self.old message.now }
        ensures { Takes self.old.scheme self.old.code self.old self.new input.now result }
    {
        if message.id.code == self.code {
            self.conclude(input, message, notified)
        } else {
            self.finish(input, message, notified)
        }
    }

    /// Takes a notification about a transfer out of the registry.
    fn conclude(
        &mut self,
        input: &Input,
        message: &Message,
        notified: &NotifiedStatus,
    ) -> Result<Stepped, Refusal>
        requires kept { IsKept self.old.scheme self.old.code self.old }
        requires input { (moment : Moment) × (input.now ≡ inputs.Received message.now moment) }
        requires body { message.now.body ≡ bodies.Notification notified.now }
        requires welcome { IsWelcome self.old message.now }
        requires own { same_code message.now.id.code self.old.code ≡ true }
        ensures { Takes self.old.scheme self.old.code self.old self.new input.now result }
    {
        let (id, told) = (message.id, notified.status());
        let decision = self.initiator.notice(id, told)?;
        match decision {
            Decision::Moves(new) => {
                let messages = self.initiator.notifies(self.alloc, id, told)?;
                self.record(input, RegistryEffect::Conclude { id, new }, messages)
            }
            Decision::Stays(stale) => Ok(Stepped::from(stale)),
        }
    }

    /// Takes a notification about a transfer to the registry.
    fn finish(
        &mut self,
        input: &Input,
        message: &Message,
        notified: &NotifiedStatus,
    ) -> Result<Stepped, Refusal>
        requires kept { IsKept self.old.scheme self.old.code self.old }
        requires input { (moment : Moment) × (input.now ≡ inputs.Received message.now moment) }
        requires body { message.now.body ≡ bodies.Notification notified.now }
        requires welcome { IsWelcome self.old message.now }
        requires foreign { same_code message.now.id.code self.old.code ≡ false }
        ensures { Takes self.old.scheme self.old.code self.old self.new input.now result }
    {
        let (id, told) = (message.id, notified.status());
        let decision = self.acquirer.notice(&self.holdings, id, told)?;
        match decision {
            Decision::Moves(new) => {
                let effect = self.ending(id, new);
                self.record(input, effect, Items::new(self.alloc))
            }
            Decision::Stays(stale) => Ok(Stepped::from(stale)),
        }
    }

    /// The effect of a notification that moves a transfer to the registry to that status.
    fn ending(&self, id: TransactionId, new: Status) -> RegistryEffect
        ensures { result ≡ ending (is_some (map.get self.now.acquirer.transfers id)) id new }
    {
        match self.acquirer.status_of(id) {
            None => RegistryEffect::Forestall(id),
            Some(_) if new == Status::Completed => RegistryEffect::Complete(id),
            Some(_) => RegistryEffect::Cancel(id),
        }
    }
}
