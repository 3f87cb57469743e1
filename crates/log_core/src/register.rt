//! The changes of the log's register where a transaction moves to a status.
ghost use Rattle.std.specs.Prelude.{◌≡◌, not, true, Some, OnErr, OnOk, option_copied, if◌then◌else◌};
ghost use Rattle.std.specs.FinMap as map;
ghost use Rattle.units.specs.Intervals.{labels_that};
ghost use Rattle.units.specs.declared.block.Unit.{Unit as Serial};
ghost use Rattle.status.specs.Id.{same_id};
ghost use Rattle.checks.specs.declared.register.UnderWay as declared;
ghost use Rattle.protocol.specs.History.{has_serial};
ghost use Rattle.log_core.specs.Effects.{handed_over};
ghost use Rattle.log_core.specs.Transfers.{IsApart};

use checks::{BookEntry, UnderWay};
use status::{Content, TransactionId};
use units::{NoMemory, UnitMap};

/// Marks the content's units as under way in that transfer. After `NoMemory` nothing has changed.
pub(crate) fn begin(
    under_way: &mut UnitMap<UnderWay>,
    content: Option<&Content>,
    id: TransactionId,
) -> Result<(), NoMemory>
    requires { IsApart (option_copied content) }
    ensures ok { OnOk result ((s : Serial)
        → map.get under_way.new s
        ≡ (if has_serial (option_copied content.entry) s then Some (record { id = id }) else map.get under_way.old s)) }
    ensures err { OnErr result (under_way.new ≡ under_way.old) }
{
    match content {
        Some(content) => under_way.set_all(content.units(), |_| Some(UnderWay { id })),
        None => Ok(()),
    }
}

/// Marks the transfer's units as no longer under way. These are units of the content alone. Takes no memory.
pub(crate) fn end(under_way: &mut UnitMap<UnderWay>, content: Option<&Content>, id: TransactionId)
    requires { (s : Serial) (u : declared.UnderWay) → map.get under_way.old s ≡ Some u → same_id u.id id ≡ true
        → has_serial (option_copied content) s ≡ true }
    ensures { (s : Serial) → map.get under_way.new s ≡ labels_that (λ u. not (same_id u.id id))
        (map.get under_way.old s) }
{
    if let Some(content) = content {
        under_way.remove_in(
            content.units(),
            |unit|
                ensures { result ≡ same_id unit.id id }
            { unit.id == id },
        );
    }
}

/// Makes the acquirer the owner of the content's units. After `NoMemory` nothing has changed.
pub(crate) fn hand_over(
    book: &mut UnitMap<BookEntry>,
    content: Option<&Content>,
) -> Result<(), NoMemory>
    requires { IsApart (option_copied content) }
    ensures ok { OnOk result ((s : Serial)
        → map.get book.new s ≡ handed_over (option_copied content.entry) s (map.get book.old s)) }
    ensures err { OnErr result (book.new ≡ book.old) }
{
    let Some(content) = content else {
        return Ok(());
    };
    let registry = content.acquirer();
    book.set_all(content.units(), |_| Some(BookEntry { registry }))
}
