//! A registry.
ghost use Rattle.std.specs.FinMap as map;
ghost use Rattle.std.specs.List.{count_by};
ghost use Rattle.std.specs.Prelude.{◌≡◌, ℕ, ◌+◌, cond, true, [], Some, IfOk, IfSome};
ghost use Rattle.units.specs.declared.block.Unit.{Unit as Serial};
ghost use Rattle.status.specs.declared.id.TransactionId.{TransactionId};
ghost use Rattle.protocol.specs.History.{at_start, credits, gives, holds, spendable, reserver};
ghost use Rattle.registry_core.specs.Kept.{IsKept};
ghost use Rattle.protocol.specs.Held.{unit_holding_at, account_status_at};
ghost use Rattle.registry_core.specs.Registry.{IsReserving, moves, past};
ghost use Rattle.registry_core.specs.Reported.{AreHoldings};

use crate::opening::opening_holdings;
use crate::tables::Tables;
use accounts::{HeldBlock, Holdings};
use acquirer::Acquirer;
use initiator::Initiator;
use protocol::{NodeCore, Stepped};
use records::Records;
use scheme::Scheme;
use status::{Status, TransactionId};
use std::alloc::Global;
use std::marker::Model;
use units::refusal_code::NO_ROW;
use units::{Code, NoMemory, Node, Refusal, Unit};
use wire::Input;

/// A registry of a scheme: the journal of the inputs that it recorded, and tables, read off the journal, of its units,
/// its accounts, its transfers in each role, and its messages. In contracts it is its scheme, its code, and its
/// journal.
#[derive(Debug)]
pub struct RegistryCore {
    tables: Tables,
}

// Written out, since a derived destructor is proved anew in each crate that lets a value go.
impl Drop for RegistryCore {
    fn drop(self) {
        let RegistryCore { tables } = self;
        drop(tables);
    }
}

impl Model for RegistryCore {
    ghost use Rattle.std.specs.Coded.{codes};
    ghost use Rattle.scheme.specs.contracts.registries.Scheme as kept_scheme;
    ghost use Rattle.registry_core.specs.Kept.{IsKept};
    ghost use Rattle.registry_core.specs.Registry.{RegistryCoreView};

    ghost Value = { RegistryCoreView };

    ghost coded = { Prim.hlevel (codes, kept_scheme.the_row.coded) };

    ghost view = { λ s. record { scheme = s.tables.scheme; code = s.tables.code; journal = s.tables.records.inputs } };

    ghost invariant = { λ s. IsKept s.tables.scheme s.tables.code s.tables };
}

/// The tables of that registry before any record; or `NoMemory`.
fn opening_tables(alloc: Global, scheme: &Scheme, code: Code) -> Result<Tables, NoMemory>
    ensures kept { IfOk result (IsKept scheme.now code) }
    ensures scheme { IfOk result (λ t. t.scheme ≡ scheme.now) }
    ensures code { IfOk result (λ t. t.code ≡ code) }
    ensures journal { IfOk result (λ t. t.records.inputs ≡ []) }
{
    Ok(Tables {
        alloc,
        scheme: scheme.copy(alloc)?,
        code,
        records: Records::new(alloc),
        holdings: opening_holdings(alloc, scheme, code)?,
        initiator: Initiator::new(alloc, code),
        acquirer: Acquirer::new(alloc, code),
    })
}

impl RegistryCore {
    /// The registry of that code, which has recorded nothing yet. Where the scheme has no registry of that code it has
    /// no accounts and no units. Fails with `NoMemory` where memory runs out.
    pub fn new(alloc: Global, scheme: &Scheme, code: Code) -> Result<RegistryCore, NoMemory>
        ensures { IfOk result (λ r. r ≡ record { scheme = scheme.now; code = code; journal = [] }) }
    {
        let tables = opening_tables(alloc, scheme, code)?;
        Ok(RegistryCore { tables })
    }

    /// The units that it holds, and how its accounts stand. A unit is in the account, and of the kind, with which it
    /// came last, or was allotted; an account is open except where the last order for it closed it.
    pub fn holdings(&self) -> &Holdings
        ensures unit_holdings { (s : Serial)
            → map.get result.now.unit_holdings s ≡ unit_holding_at self.now.scheme self.now.code (moves self.now) s }
        ensures accounts { (n : ℕ) → map.get result.now.accounts n
            ≡ account_status_at self.now.scheme self.now.code (past self.now) n }
    {
        &self.tables.holdings
    }

    /// Its holdings as a report writes them: lines by account and then in the order of units, neighbours of one
    /// account, one kind and one reserving transfer joined. Each unit that is held is in one line. Fails with
    /// `NoMemory` where memory runs out.
    pub fn lines(&self) -> Result<Vec<HeldBlock>, NoMemory>
        ensures { IfOk result (λ lines. AreHoldings self.now lines.items) }
    {
        self.tables.holdings.lines(self.tables.alloc)
    }

    /// Whether it holds the unit. For all inputs, even forged messages, the unit counts there once or not at all: the
    /// number of times that it was allotted or came is the number of times that it left, and one more where it is held.
    pub fn held(&self, unit: &Unit) -> bool
        ensures held { result ≡ holds self.now.scheme self.now.code (moves self.now) unit.now }
        ensures once { at_start self.now.scheme self.now.code unit.now + count_by (credits self.now.code unit.now)
            (moves self.now) ≡ count_by (gives self.now.code unit.now) (moves self.now) + cond result 1 0 }
    {
        self.tables.holdings.unit_holding(unit).is_some()
    }

    /// The transfer that reserves the unit: the one transfer with the unit out of this registry that stands Proposed.
    /// The unit is held then. Returns `None` where there is no such transfer.
    pub fn reserving(&self, unit: &Unit) -> Option<TransactionId>
        ensures reserver { result ≡ reserver self.now.code (moves self.now) unit.now }
        ensures some { IfSome result (IsReserving self.now unit.now) }
        ensures only { (t : TransactionId) → IsReserving self.now unit.now t → result ≡ Some t }
        ensures held { IfSome result (λ t. holds self.now.scheme self.now.code (moves self.now) unit.now ≡ true) }
    {
        self.tables.holdings.unit_holding(unit)?.reserving
    }

    /// Whether it holds the unit, and no transfer reserves it.
    pub fn spendable(&self, unit: &Unit) -> bool
        ensures { result ≡ spendable self.now.scheme self.now.code (moves self.now) unit.now }
    {
        self.held(unit) && self.reserving(unit).is_none()
    }
}

impl NodeCore for RegistryCore {
    ghost use Rattle.units.specs.declared.code.Node.TheVariants.{Registry};

    ghost scheme_of = { λ r. r.scheme };

    ghost node_of = { λ r. Registry r.code };

    ghost journal_of = { λ r. r.journal };

    ghost lacked_memory = { λ _ _. Unit {0} };

    fn node(&self) -> Node {
        Node::Registry(self.tables.code)
    }

    fn recorded(&self) -> &Records {
        &self.tables.records
    }

    fn step(&mut self, input: &Input) -> Result<Stepped, Refusal> {
        match input {
            Input::Propose(order) => self.tables.propose(input, order),
            Input::Request(id) => self.tables.request(input, *id),
            Input::OpenAccount(account) => self.tables.open_account(input, *account),
            Input::CloseAccount(account) => self.tables.close_account(input, *account),
            Input::Ack(key) => self.tables.acknowledge(input, *key),
            Input::Received { message, .. } => self.tables.receive(input, message),
            Input::CleanUp(_) => Err(Refusal { code: NO_ROW }),
            Input::Eligible { .. } => Err(Refusal { code: NO_ROW }),
        }
    }

    fn status_of(&self, id: TransactionId) -> Option<Status> {
        if id.code == self.tables.code {
            self.tables.initiator.status_of(id)
        } else {
            self.tables.acquirer.status_of(id)
        }
    }

    fn fresh(&self) -> Result<RegistryCore, NoMemory> {
        RegistryCore::new(self.tables.alloc, &self.tables.scheme, self.tables.code)
    }
}
