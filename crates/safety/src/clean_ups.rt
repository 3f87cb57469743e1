//! The transitions that a clean-up makes.
ghost use Rattle.std.specs.Prelude.{◌≡◌, ℕ, List, [], cond, filter};
ghost use Rattle.std.specs.Option.{option_map_or};
ghost use Rattle.std.specs.declared.cmp.Ordering.TheVariants.{Less};
ghost use Rattle.units.specs.Apart.{Pairwise};
ghost use Rattle.status.specs.Id.{id_cmp, same_id};
ghost use Rattle.status.specs.declared.id.TransactionId.{TransactionId};
ghost use Rattle.protocol.specs.AtLog.{cleaned, expired, is_old};
ghost use Rattle.protocol.specs.History.{Transition, newest};

/// A clean-up makes, for each transaction whose newest transition is a day old or older, the transition that the log's
/// table gives it, where there is one. It makes no others, each once, in the order of identifiers.
pub fn clean_up_takes_what_has_expired()
    ensures each { (xs : List Transition) (moment : ℕ) (t : TransactionId)
        → filter (λ x. same_id x.id t) (expired xs moment)
        ≡ option_map_or (λ y. cond (is_old moment y) (cleaned moment y) []) (newest xs t) [] }
    ensures ascending { (xs : List Transition) (moment : ℕ)
        → Pairwise (λ a b. id_cmp a.id b.id ≡ Less) (expired xs moment) }
{}
