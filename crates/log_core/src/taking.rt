//! How the log's tables take inputs, and each kind of message.
ghost use Rattle.std.specs.Prelude.{◌≡◌, IfOk};
ghost use Rattle.wire.specs.declared.input.Input.TheVariants as inputs;
ghost use Rattle.wire.specs.declared.message.Body.TheVariants as bodies;
ghost use Rattle.log_core.specs.Effects.{transfer_state_in};
ghost use Rattle.log_core.specs.Kept.{IsKept};
ghost use Rattle.log_core.specs.Taking.{IsWelcome, Takes};
ghost use Rattle.log_core.specs.Transfers.{IsWithdrawal};

use crate::effect::{LogEffect, TransferEffect};
use crate::messages::{on_notified, on_proposal, on_request};
use crate::refusals::message_refusal;
use crate::tables::Tables;
use crate::transfers::{content, status};
use protocol::{Decision, Stepped};
use status::{Moment, RowInput, Status, TransactionId};
use units::refusal_code::NO_ROW;
use units::{NoMemory, Refusal};
use wire::{Body, Input, Message, NotifiedStatus, Proposal};

impl Tables {
    /// Takes an input. Orders of registries are refused with `NO_ROW`.
    pub(crate) fn take(&mut self, input: &Input) -> Result<Stepped, Refusal>
        requires kept { IsKept self.old.scheme self.old }
        ensures { Takes self.old.scheme self.old self.new input.now result }
    {
        match input {
            Input::Received { message, moment } => { self.receive(input, message, *moment) }
            Input::CleanUp(moment) => self.clean_up(input, *moment),
            Input::Eligible { registry, may } => { self.eligible(input, *registry, *may) }
            Input::Ack(key) => self.acknowledge(input, *key),
            Input::Propose(_) => Err(Refusal { code: NO_ROW }),
            Input::Request(_) => Err(Refusal { code: NO_ROW }),
            Input::OpenAccount(_) => Err(Refusal { code: NO_ROW }),
            Input::CloseAccount(_) => Err(Refusal { code: NO_ROW }),
        }
    }

    /// Takes a message that came at that moment.
    fn receive(
        &mut self,
        input: &Input,
        message: &Message,
        moment: Moment,
    ) -> Result<Stepped, Refusal>
        requires kept { IsKept self.old.scheme self.old }
        requires input { input.now ≡ inputs.Received message.now moment }
        ensures { Takes self.old.scheme self.old self.new input.now result }
    {
        if let Some(refused) = message_refusal(&self.scheme, &self.transfers, message) {
            return Err(Refusal { code: refused });
        }
        match &message.body {
            Body::Proposal(proposal) => self.check(input, message, proposal, moment),
            Body::Notification(notified) => {
                self.take_notification(input, message, notified, moment)
            }
            Body::Request => self.withdraw(input, message, moment),
        }
    }

    /// Takes a proposal that `message_refusal` doesn't refuse.
    fn check(
        &mut self,
        input: &Input,
        message: &Message,
        proposal: &Proposal,
        moment: Moment,
    ) -> Result<Stepped, Refusal>
        requires kept { IsKept self.old.scheme self.old }
        requires input { input.now ≡ inputs.Received message.now moment }
        requires body { message.now.body ≡ bodies.Proposal proposal.now }
        requires welcome { IsWelcome self.old message.now }
        ensures { Takes self.old.scheme self.old self.new input.now result }
    {
        let (id, proposed) = (message.id, &proposal.content);
        let found = self.findings(id, proposed)?;
        let decision = self.decide(id, self.column_of_proposal(id, &found))?;
        match decision {
            Decision::Moves(new) => {
                let messages = on_proposal(self.alloc, id, proposed, found)?;
                let content = Some(proposed.copy()?);
                let effect = TransferEffect::Begin { id, new, content };
                self.record(input, LogEffect::Transfers { effect, moment }, messages)
            }
            Decision::Stays(stale) => Ok(Stepped::from(stale)),
        }
    }

    /// Takes a notification that `message_refusal` doesn't refuse.
    fn take_notification(
        &mut self,
        input: &Input,
        message: &Message,
        notified: &NotifiedStatus,
        moment: Moment,
    ) -> Result<Stepped, Refusal>
        requires kept { IsKept self.old.scheme self.old }
        requires input { input.now ≡ inputs.Received message.now moment }
        requires body { message.now.body ≡ bodies.Notification notified.now }
        requires welcome { IsWelcome self.old message.now }
        ensures { Takes self.old.scheme self.old self.new input.now result }
    {
        let id = message.id;
        let decision = self.decide(id, RowInput::Notified(notified.status()))?;
        match decision {
            Decision::Moves(new) => {
                let content = content(&self.transfers, id);
                let messages = on_notified(self.alloc, id, content, notified)?;
                let effect = TransferEffect::Advance { id, new };
                self.record(input, LogEffect::Transfers { effect, moment }, messages)
            }
            Decision::Stays(stale) => Ok(Stepped::from(stale)),
        }
    }

    /// Takes a request that `message_refusal` doesn't refuse.
    fn withdraw(
        &mut self,
        input: &Input,
        message: &Message,
        moment: Moment,
    ) -> Result<Stepped, Refusal>
        requires kept { IsKept self.old.scheme self.old }
        requires input { input.now ≡ inputs.Received message.now moment }
        requires body { message.now.body ≡ bodies.Request }
        requires welcome { IsWelcome self.old message.now }
        ensures { Takes self.old.scheme self.old self.new input.now result }
    {
        let id = message.id;
        let decision = self.decide(id, RowInput::Request)?;
        match decision {
            Decision::Moves(_) => {
                let messages = on_request(self.alloc, id, content(&self.transfers, id))?;
                let effect = self.withdrawal(id)?;
                self.record(input, LogEffect::Transfers { effect, moment }, messages)
            }
            Decision::Stays(stale) => Ok(Stepped::from(stale)),
        }
    }

    /// The effect of a request that moves a transaction; or `NoMemory`.
    fn withdrawal(&self, id: TransactionId) -> Result<TransferEffect, NoMemory>
        ensures { IfOk result (IsWithdrawal id (transfer_state_in self.now id)) }
    {
        if status(&self.transfers, id).is_none() {
            return Ok(TransferEffect::Begin {
                id,
                new: Status::Cancelled,
                content: None,
            });
        }
        let mut ids = Vec::new(self.alloc);
        ids.push(id)?;
        Ok(TransferEffect::Cancel(ids))
    }
}
