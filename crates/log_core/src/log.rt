//! The log of a scheme.
ghost use Rattle.std.specs.Prelude.{◌≡◌, [], Some, IfOk, IfSome};
ghost use Rattle.units.specs.Intervals.{AreKept, label_at};
ghost use Rattle.units.specs.Canonical.{AreCanonical};
ghost use Rattle.units.specs.Spans.{intervals_of};
ghost use Rattle.units.specs.declared.block.Unit.{Unit as Serial};
ghost use Rattle.status.specs.declared.id.TransactionId as declared_id;
ghost use Rattle.protocol.specs.History as history;
ghost use Rattle.log_core.specs.Log.{IsUnderWayWith, moves};
ghost use Rattle.log_core.specs.Readings.{owner};

use crate::opening::opening_tables;
use crate::tables::Tables;
use crate::transfers::status;
use checks::BookEntry;
use protocol::{NodeCore, Stepped};
use records::Records;
use scheme::Scheme;
use status::{Status, TransactionId};
use std::alloc::Global;
use std::collections::BTreeMap;
use std::marker::Model;
use units::{Code, NoMemory, Node, Refusal, Span, Unit};
use wire::Input;

/// The log of a scheme: the journal of the inputs that it recorded, and tables, read off the journal, of units and
/// registries, of transactions, and of its messages. In contracts it is its scheme and its journal.
#[derive(Debug)]
pub struct LogCore {
    tables: Tables,
}

// Written out, since a derived destructor is proved anew in each crate that lets a value go.
impl Drop for LogCore {
    fn drop(self) {
        let LogCore { tables } = self;
        drop(tables);
    }
}

impl Model for LogCore {
    ghost use Rattle.std.specs.Coded.{codes};
    ghost use Rattle.scheme.specs.contracts.registries.Scheme as kept_scheme;
    ghost use Rattle.log_core.specs.Kept.{IsKept};
    ghost use Rattle.log_core.specs.Log.{LogCoreView};

    ghost Value = { LogCoreView };

    ghost coded = { Prim.hlevel (codes, kept_scheme.the_row.coded) };

    ghost view = { λ s. record { scheme = s.tables.scheme; journal = s.tables.records.inputs } };

    ghost invariant = { λ s. IsKept s.tables.scheme s.tables };
}

impl LogCore {
    /// The log of that scheme, which has recorded nothing yet. Fails with `NoMemory` where memory runs out.
    pub fn new(alloc: Global, scheme: &Scheme) -> Result<LogCore, NoMemory>
        ensures { IfOk result (λ l. l ≡ record { scheme = scheme.now; journal = [] }) }
    {
        let tables = opening_tables(alloc, scheme)?;
        Ok(LogCore { tables })
    }

    /// The registry that owns the unit: the acquirer of the transfer with the unit that was Completed last, or else the
    /// registry that the unit is allotted to. Returns `None` where the unit isn't allotted.
    pub fn book_owner(&self, unit: &Unit) -> Option<Code>
        ensures { result ≡ history.book_owner self.now.scheme (moves self.now) unit.now }
    {
        let owner = self.tables.register.book.get(unit)?;
        Some(owner.registry)
    }

    /// The owners of units, as intervals keyed by their first units. No two intervals share a unit, and neighbours with
    /// one owner are joined.
    pub fn pieces(&self) -> &BTreeMap<Unit, Span<BookEntry>>
        ensures kept { AreKept (intervals_of result.now.entries) }
        ensures joined { AreCanonical (λ _. 0) (intervals_of result.now.entries) }
        ensures means { (u : Serial)
            → label_at (intervals_of result.now.entries) u ≡ owner self.now.scheme (moves self.now) u }
    {
        self.tables.register.book.pieces()
    }

    /// The transfer that the unit is in: the one transfer with the unit that stands Checked or Accepted. No two such
    /// transfers share a unit, for all messages that came. Returns `None` where there is no such transfer.
    pub fn transfer_of(&self, unit: &Unit) -> Option<TransactionId>
        ensures some { IfSome result (IsUnderWayWith self.now unit.now) }
        ensures only { (t : declared_id.TransactionId) → IsUnderWayWith self.now unit.now t → result ≡ Some t }
    {
        let under_way = self.tables.register.under_way.get(unit)?;
        Some(under_way.id)
    }
}

impl NodeCore for LogCore {
    ghost use Rattle.std.specs.Prelude.{Contains, List, true};
    ghost use Rattle.status.specs.declared.status.Status as words_type;
    ghost use Rattle.units.specs.declared.code.Node.TheVariants.{Itl};
    ghost use Rattle.status.specs.declared.status.Status.TheVariants as words;
    ghost use Rattle.protocol.specs.Claims.{IsEnd};
    ghost use Rattle.protocol.specs.Cores.{IsExpectedOrNoMemory, after, answer};
    ghost use Rattle.protocol.specs.Deciding.{IsRecorded};
    ghost use Rattle.protocol.specs.History.{Transition, book_owner, carries, stands};
    ghost use Rattle.protocol.specs.Verdict.{verdict};
    ghost use Rattle.log_core.specs.Log.{past};

    ghost scheme_of = { λ l. l.scheme };

    ghost node_of = { λ _. Itl };

    ghost journal_of = { λ l. l.journal };

    ghost lacked_memory = { λ _ _. Unit {0} };

    fn node(&self) -> Node {
        Node::Itl
    }

    fn recorded(&self) -> &Records {
        &self.tables.records
    }

    /// As `NodeCore::step`. Moreover, for all messages that came: where the input is recorded and completes a transfer,
    /// the initiator owned each of its units before; and a transaction that was Rejected, Terminated, Cancelled or
    /// Completed keeps its status.
    fn step(&mut self, input: &Input) -> Result<Stepped, Refusal>
        ensures answer { IsExpectedOrNoMemory result (answer self.old.scheme Itl self.old.journal input.now) }
        ensures journal { self.new.journal ≡ after self.old.journal input.now result }
        ensures scheme { self.new.scheme ≡ self.old.scheme }
        ensures owned { (xs : List Transition) → verdict self.old.scheme Itl (past self.old) input.now ≡ IsRecorded xs
            → (x : Transition) → Contains xs x → x.new ≡ words.Completed → (s : Serial) → carries x s ≡ true
            → book_owner self.old.scheme (moves self.old) s ≡ Some x.id.code }
        ensures ends_stay { (t : declared_id.TransactionId) (s : words_type.Status) → IsEnd s
            → stands (moves self.old) t ≡ Some s → stands (moves self.new) t ≡ Some s }
    {
        self.tables.take(input)
    }

    fn status_of(&self, id: TransactionId) -> Option<Status> {
        status(&self.tables.transfers, id)
    }

    fn fresh(&self) -> Result<LogCore, NoMemory> {
        LogCore::new(self.tables.alloc, &self.tables.scheme)
    }
}
