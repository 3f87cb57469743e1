//! What a user of a store relies on: laws that follow from the clauses of its calls, with no code.
ghost use Rattle.std.specs.Prelude.{◌≡◌, ℕ, List, Vec, Result, Ok, Err, false};
ghost use Rattle.std.specs.declared.alloc.Global.{Global};
ghost use Rattle.wire.specs.declared.input.Input.{Input};
ghost use Rattle.stores.specs.Calls.{Appends, Loads, Reopens, IsSettled};
ghost use Rattle.stores.specs.Records.{Places, IsAllOrNone};
ghost use Rattle.stores.specs.declared.fault.StoreFault.{StoreFault};

use crate::node_store::NodeStore;

/// An append that fails and a reopening leave the content as it was before the append, or with the whole batch after
/// it.
pub fn append_is_whole<S: NodeStore>()
    ensures { (old stopped new : S) (batch : List Input) (fault : StoreFault)
        → S.must_reopen old ≡ false
        → Appends S.is_honest S.content S.may_hold S.must_reopen old stopped batch (Err fault)
        → Reopens S.is_honest S.content S.may_hold S.must_reopen stopped new (Ok tt)
        → S.is_honest new → ∥ IsAllOrNone (S.content old) batch (S.content new) ∥₁ }
{}

/// A crash of a store that runs and is honest leaves its content. The same holds after an append, after loading and
/// after a reopening.
pub fn running_store_holds_its_content<S: NodeStore>()
    ensures appended { (old new : S) (batch : List Input) (result : Result Unit StoreFault)
        → Appends S.is_honest S.content S.may_hold S.must_reopen old new batch result
        → IsSettled S.is_honest S.content S.may_hold S.must_reopen new }
    ensures loaded { (old new : S) (first : ℕ) (places : Places) (result : Result (Vec Input Global) StoreFault)
        → Loads S.is_honest S.content S.may_hold S.must_reopen old new first places result
        → IsSettled S.is_honest S.content S.may_hold S.must_reopen new }
    ensures reopened { (old new : S)
        → Reopens S.is_honest S.content S.may_hold S.must_reopen old new (Ok tt)
        → IsSettled S.is_honest S.content S.may_hold S.must_reopen new }
{}
