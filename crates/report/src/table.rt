//! The table of a world.
ghost use Rattle.std.specs.Prelude.{◌≡◌, ◌++◌, ℕ, List, OnOk, flat_map, map, string_bytes};
ghost use Rattle.protocol.specs.World.{opening, run};
ghost use Rattle.protocol.specs.declared.event.WorldEvent.{WorldEvent};
ghost use Rattle.scheme.specs.declared.registries.Scheme.{Scheme};
ghost use Rattle.world.specs.Transfers.{transfer_of};
ghost use Rattle.report.specs.Table.{IsSafeTable, IsTable, row_of, stock_lines, transaction_lines};

use crate::debts::push_owed;
use crate::form::Form;
use crate::holdings::push_registry;
use crate::safe_worlds::worlds_are_safe;
use crate::totals::tonnes_add_up;
use crate::transactions::{TransactionRow, push_transaction};
use std::alloc::Global;
use units::{NoMemory, Node};
use world::{ProposedTransfer, Stock, World};

/// The status of a transfer at its three nodes.
fn row_of(world: &World, transfer: ProposedTransfer<'_>) -> TransactionRow
    ensures { result ≡ row_of world.now (transfer_of transfer.entry) }
{
    let id = transfer.id;
    let acquirer = transfer.content.acquirer();
    TransactionRow {
        id,
        acquirer,
        at_initiator: world.status(Node::Registry(id.code), id),
        at_log: world.status(Node::Itl, id),
        at_acquirer: world.status(Node::Registry(acquirer), id),
    }
}

fn push_transactions(
    alloc: Global,
    text: &mut String,
    world: &World,
    form: Form,
) -> Result<(), NoMemory>
    ensures { OnOk result (string_bytes text.new ≡ string_bytes text.old ++ transaction_lines form world.now) }
{
    let transactions = world.transactions(alloc)?;
    for transfer in transactions.as_slice() {
        push_transaction(text, &row_of(world, *transfer), form)?;
    }
    Ok(())
}

fn push_stocks(text: &mut String, stocks: &[Stock], form: Form) -> Result<(), NoMemory>
    ensures { OnOk result (string_bytes text.new ≡ string_bytes text.old ++ flat_map (stock_lines form) stocks.now) }
{
    for stock in stocks {
        push_registry(text, stock.code, stock.lines.as_slice(), form)?;
    }
    Ok(())
}

/// Adds a line for each transfer, the holdings of each registry, and the units that are owed.
fn push_parts(alloc: Global, text: &mut String, world: &World, form: Form) -> Result<(), NoMemory>
    ensures { OnOk result ((table : List ℕ) × IsTable form world.now table
        × (string_bytes text.new ≡ string_bytes text.old ++ table)) }
{
    push_transactions(alloc, text, world, form)?;
    let stocks = world.stocks(alloc)?;
    push_stocks(text, stocks.as_slice(), form)?;
    let due = world.due(alloc)?;
    push_owed(text, due.as_slice(), form)
}

/// Adds the table of a world: a line for each transfer, the holdings of each registry, and the units that are owed.
/// Each line consists of words, or is a JSON object with its keys in byte order.
///
/// Where events led to the world, the table counts every tonne once, and no tonne is in two places and none is lost.
///
/// # Errors
///
/// Fails with `NoMemory` where there is no room for it; the text may have a part of it then.
pub fn push_table(
    alloc: Global,
    text: &mut String,
    world: &World,
    form: Form,
) -> Result<(), NoMemory>
    ensures table { OnOk result ((table : List ℕ) × IsTable form world.now table
        × (string_bytes text.new ≡ string_bytes text.old ++ table)) }
    ensures safe { (scheme : Scheme) (events : List WorldEvent) → world.now ≡ run (opening scheme) events
        → OnOk result ((table : List ℕ) × IsSafeTable form scheme events table
        × (string_bytes text.new ≡ string_bytes text.old ++ table)) }
{
    tonnes_add_up();
    worlds_are_safe();
    push_parts(alloc, text, world, form)
}
