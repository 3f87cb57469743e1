//! The values in the rows that a query returns.
ghost use Rattle.std.specs.Prelude.{◌≡◌, ◌⊎◌, ◌↔◌, IfOk, IfErr, IfSome, IfNone, IsTrue};
ghost use Rattle.sqlite.specs.Order.{column};
ghost use Rattle.sqlite.specs.declared.types.Value.TheVariants.{Text as Words};
ghost use Rattle.wire.specs.declared.record_format.RecordFormat.{RecordFormat};
ghost use Rattle.stores.specs.Faults.{is_device_fault};
ghost use Rattle.store_tables.specs.OwnerRow.{HasFormat, IsOwnerIn, IsPlaceIn};

use crate::fault::fault_of;
use sqlite::Row;
use sqlite::types::ValueRef;
use stores::StoreFault;
use wire::RecordFormat;

/// The owner of the file, as seen by one node.
#[derive(Clone, Copy)]
pub enum FileOwner {
    /// There is no row of an owner.
    Nobody,
    /// The format is not one of a store.
    OtherFormat,
    /// The format is one of a store, and the node is another one.
    OtherNode,
    /// It is a store of this node in that format.
    ThisNode(RecordFormat),
}

/// Whether the row has that format.
fn has_format(row: &Row, format: RecordFormat) -> bool
    ensures { IsTrue result ↔ HasFormat format row.now }
{
    match row.get_ref(0) {
        Ok(ValueRef::Int(found)) => found == i64::from(format.number()),
        _ => false,
    }
}

/// The format of the row, if it is one of a store.
fn format_of(row: &Row) -> Option<RecordFormat>
    ensures some { IfSome result (λ format. HasFormat format row.now) }
    ensures none { IfNone result ((format : RecordFormat) → HasFormat format row.now → ⊥) }
{
    if has_format(row, RecordFormat::Two) {
        Some(RecordFormat::Two)
    } else if has_format(row, RecordFormat::One) {
        Some(RecordFormat::One)
    } else {
        None
    }
}

/// Whether the node is this one.
fn has_node(row: &Row, node: &str) -> bool
    ensures { IsTrue result ↔ (column row.now 1 ≡ Words node.now) }
{
    match row.get_ref(1) {
        Ok(ValueRef::Text(text)) => text == node.as_bytes(),
        _ => false,
    }
}

/// The owner of the file, by the format and the node in the owner's row.
pub fn owner_in(rows: &[Row], node: &str) -> FileOwner
    ensures { IsOwnerIn node.now rows.now result }
{
    let Some(row) = rows.first() else {
        return FileOwner::Nobody;
    };
    let Some(format) = format_of(row) else {
        return FileOwner::OtherFormat;
    };
    if has_node(row, node) {
        FileOwner::ThisNode(format)
    } else {
        FileOwner::OtherNode
    }
}

/// The place in the first row, if there is a row.
pub fn place_in(rows: &[Row]) -> Result<Option<i64>, StoreFault>
    ensures place { IfOk result (IsPlaceIn rows.now) }
    ensures named { IfErr result (λ e. (e ≡ StoreFault.NoMemory) ⊎ IsTrue (is_device_fault e)) }
{
    let Some(row) = rows.first() else {
        return Ok(None);
    };
    match row.get(0) {
        Ok(place) => Ok(Some(place)),
        Err(error) => Err(fault_of(error)),
    }
}
