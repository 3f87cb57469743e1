//! The column of a proposal in the tables.
ghost use Rattle.std.specs.Prelude.{◌≡◌, option_copied};
ghost use Rattle.protocol.specs.Deciding.{column_of_proposal};

use status::{Content, RowInput};

/// The column of a proposal with findings of these codes. Where a content is recorded for its transfer, the proposal's
/// content is equal to it.
pub fn column_of_proposal(recorded: Option<&Content>, codes: &[u16]) -> RowInput
    ensures { result ≡ column_of_proposal (option_copied recorded.entry) codes.now }
{
    match (recorded, codes) {
        (Some(_), _) => RowInput::EqualProposal,
        (None, []) => RowInput::ProposalWithoutFinding,
        (None, _) => RowInput::ProposalWithFindings,
    }
}
