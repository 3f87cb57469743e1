//! The decisions of the log's table on messages that `message_refusal` doesn't refuse.
ghost use Rattle.std.specs.Prelude.{◌≡◌, [], is_some, if◌then◌else◌, IfOk};
ghost use Rattle.status.specs.Rows.{log_row};
ghost use Rattle.protocol.specs.Checks.{Ledger, log_findings};
ghost use Rattle.protocol.specs.Deciding.{column_of_proposal};
ghost use Rattle.protocol.specs.Decisions.{decided};
ghost use Rattle.checks.specs.Finding.{codes_in};
ghost use Rattle.checks.specs.Knowing.{Registers};
ghost use Rattle.log_core.specs.Effects.{transfer_state_content, transfer_state_in};
ghost use Rattle.log_core.specs.Transfers.{known_transfer_state};

use crate::tables::Tables;
use crate::transfers::{content, known};
use checks::{column_of_proposal, log_findings};
use protocol::Decision;
use status::{Content, Role, RowInput, TransactionId, row};
use units::{NoMemory, Refusal};
use wire::LogCodes;

/// The codes of the findings.
fn codes_in(found: &Option<LogCodes>) -> &[u16]
    ensures { result.now ≡ codes_in found.now }
{
    match found {
        None => &[],
        Some(codes) => codes.as_slice(),
    }
}

impl Tables {
    /// The table's decision on an input of that column about the transaction. Fails with `NO_ROW` where the table has
    /// no such row.
    pub(crate) fn decide(&self, id: TransactionId, column: RowInput) -> Result<Decision, Refusal>
        ensures { result ≡ decided (log_row (known_transfer_state (transfer_state_in self.now id)) column) }
    {
        Decision::by_row(row(Role::Itl, known(&self.transfers, id), column))
    }

    /// The findings in a proposal where no content of its transaction is recorded, and none in any other. Fails with
    /// `NoMemory` where memory runs out.
    pub(crate) fn findings(
        &self,
        id: TransactionId,
        proposed: &Content,
    ) -> Result<Option<LogCodes>, NoMemory>
        ensures { (known_so : Ledger) → Registers self.now.scheme self.now.register known_so
            → IfOk result (λ found. codes_in found
            ≡ (if is_some (transfer_state_content (transfer_state_in self.now id)) then [] else log_findings
            self.now.scheme known_so id.code proposed.now)) }
    {
        if content(&self.transfers, id).is_some() {
            return Ok(None);
        }
        log_findings(self.alloc, &self.scheme, &self.register, id.code, proposed)
    }

    /// The column of a proposal with these findings. Where a content is recorded for the transaction, the proposal's
    /// content is equal to it.
    pub(crate) fn column_of_proposal(&self, id: TransactionId, found: &Option<LogCodes>) -> RowInput
        ensures { result ≡ column_of_proposal (transfer_state_content (transfer_state_in self.now id))
            (codes_in found.now) }
    {
        column_of_proposal(content(&self.transfers, id), codes_in(found))
    }
}
