//! The tables with which the log starts.
ghost use Rattle.std.specs.BTreeMap as tree;
ghost use Rattle.std.specs.FinMap as map;
ghost use Rattle.std.specs.Prelude.{◌≡◌, [], IfOk, option_map};
ghost use Rattle.units.specs.Facts.{IsRange};
ghost use Rattle.units.specs.Intervals.{has};
ghost use Rattle.units.specs.Spans.{interval_at};
ghost use Rattle.units.specs.Unit.{has_unit};
ghost use Rattle.units.specs.declared.block.Unit.{Unit as Serial};
ghost use Rattle.protocol.specs.Registries.{allotted};
ghost use Rattle.log_core.specs.Kept.{IsKept};
ghost use Rattle.log_core.specs.Readings.{owner, owner_of};

use crate::tables::Tables;
use checks::{BookEntry, Register};
use records::Records;
use scheme::{Holder, Scheme};
use std::alloc::Global;
use std::collections::{BTreeMap, BTreeSet};
use units::{Block, NoMemory, RawBlock, Span, Unit, UnitMap};

/// The block of the span's units.
fn block_at(unit: Unit, span: Span<Holder>) -> Block
    requires { IsRange unit.number span.last }
    ensures { (s : Serial) → has_unit result.raw s ≡ has (interval_at unit span) s }
{
    let raw = RawBlock {
        origin: unit.origin,
        period: unit.period,
        kind: span.label.kind,
        first: unit.number,
        last: span.last,
    };
    Block { raw }
}

/// The book in which each unit is its holder's; or `NoMemory`.
fn opening_book(alloc: Global, allotments: &UnitMap<Holder>) -> Result<UnitMap<BookEntry>, NoMemory>
    ensures { IfOk result (λ book. (s : Serial) → map.get book s ≡ option_map owner_of (map.get allotments.now s)) }
{
    let mut book = UnitMap::new(alloc);
    for (unit, span) in allotments.pieces() {
        let owner = BookEntry {
            registry: span.label.registry,
        };
        book.set(&block_at(*unit, *span), Some(owner))?;
    }
    Ok(book)
}

/// The log's register of units and registries at the start; or `NoMemory`.
fn opening_register(alloc: Global, scheme: &Scheme) -> Result<Register, NoMemory>
    ensures allotments { IfOk result (λ r. (s : Serial) → map.get r.allotments s ≡ allotted scheme.now s) }
    ensures book { IfOk result (λ r. (s : Serial) → map.get r.book s ≡ owner scheme.now [] s) }
    ensures under_way { IfOk result (λ r. r.under_way ≡ map.empty) }
    ensures orders { IfOk result (λ r. tree.IsEmpty r.orders) }
{
    let allotments = scheme.allotments(alloc)?;
    let book = opening_book(alloc, &allotments)?;
    Ok(Register {
        allotments,
        book,
        under_way: UnitMap::new(alloc),
        orders: BTreeMap::new(alloc),
    })
}

/// The tables of the log before any record; or `NoMemory`.
pub(crate) fn opening_tables(alloc: Global, scheme: &Scheme) -> Result<Tables, NoMemory>
    ensures kept { IfOk result (IsKept scheme.now) }
    ensures scheme { IfOk result (λ t. t.scheme ≡ scheme.now) }
    ensures journal { IfOk result (λ t. t.records.inputs ≡ []) }
{
    Ok(Tables {
        alloc,
        scheme: scheme.copy(alloc)?,
        records: Records::new(alloc),
        register: opening_register(alloc, scheme)?,
        transfers: BTreeMap::new(alloc),
        checked: BTreeSet::new(alloc),
    })
}
