//! The effect of a record on a registry's tables.
ghost use Rattle.std.specs.Prelude.{◌≡◌, IfErr, OnErr, OnOk};
ghost use Rattle.registry_core.specs.Effects.{Carried, MayCarry};
ghost use Rattle.units.specs.RefusalCodes.{out_of_memory};

use accounts::Holdings;
use acquirer::Acquirer;
use checks::NewTransfer;
use initiator::Initiator;
use status::{Content, Status, TransactionId};
use units::Refusal;

/// The effect of a record on a registry's tables.
#[derive(Drop)]
pub(crate) enum RegistryEffect {
    /// The new transfer is Proposed, and its units are reserved.
    Open(NewTransfer),
    /// The cancellation of a transfer out of the registry was asked for.
    Ask(TransactionId),
    /// A transfer out of the registry moves to that status.
    Conclude {
        id: TransactionId,
        new: Status,
    },
    /// A transfer to the registry arrives.
    Arrive {
        id: TransactionId,
        new: Status,
        content: Content,
    },
    /// A transfer to the registry is cancelled before it arrives.
    Forestall(TransactionId),
    /// A transfer to the registry is Completed.
    Complete(TransactionId),
    /// A transfer to the registry that has arrived is Cancelled.
    Cancel(TransactionId),
    /// The account of that number, which is closed, is opened.
    OpenAccount(u64),
    /// The account of that number, which is open and holds nothing, is closed.
    CloseAccount(u64),
}

/// Carries the effect out. Fails with `OUT_OF_MEMORY` alone; then nothing has changed.
#[inline(always)]
pub(crate) fn carry_out(
    initiator: &mut Initiator,
    acquirer: &mut Acquirer,
    holdings: &mut Holdings,
    effect: RegistryEffect,
) -> Result<(), Refusal>
    requires { MayCarry effect initiator.old acquirer.old holdings.old }
    ensures ok { OnOk result
        (Carried effect initiator.old initiator.new acquirer.old acquirer.new holdings.old holdings.new) }
    ensures err { OnErr result ((initiator.new ≡ initiator.old) × (acquirer.new ≡ acquirer.old)
        × (holdings.new ≡ holdings.old)) }
    ensures refused { IfErr result (λ r. r.code ≡ out_of_memory) }
{
    match effect {
        RegistryEffect::Open(new_transfer) => initiator.open(holdings, &new_transfer)?,
        RegistryEffect::Ask(id) => initiator.ask(id),
        RegistryEffect::Conclude { id, new } => initiator.conclude(holdings, id, new),
        RegistryEffect::Arrive { id, new, content } => acquirer.arrive(id, new, content)?,
        RegistryEffect::Forestall(id) => acquirer.forestall(id)?,
        RegistryEffect::Complete(id) => acquirer.complete(holdings, id)?,
        RegistryEffect::Cancel(id) => acquirer.cancel(id),
        RegistryEffect::OpenAccount(account) => holdings.open_account(account)?,
        RegistryEffect::CloseAccount(account) => holdings.close_account(account)?,
    }
    Ok(())
}
