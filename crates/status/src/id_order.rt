//! The order of identifiers.
ghost use Rattle.std.specs.Ordering.{nat_cmp, ordering_then};
ghost use Rattle.std.specs.Prelude.{◌≡◌};
ghost use Rattle.status.specs.Id.{id_cmp};
ghost use Rattle.status.specs.declared.id.TransactionId.{TransactionId};

/// A law without code: identifiers are in the order of the two letters of their codes, and those of one code in the
/// order of their numbers.
pub fn order_of_ids()
    ensures { (a b : TransactionId)
        → id_cmp a b ≡ ordering_then (ordering_then (nat_cmp a.code.first b.code.first)
        (nat_cmp a.code.second b.code.second)) (nat_cmp a.number b.number) }
{}
