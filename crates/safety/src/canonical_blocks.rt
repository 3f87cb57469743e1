//! The canonical form of blocks.
ghost use Rattle.std.specs.Prelude.{List, false, find, true, ◌≡◌};
ghost use Rattle.std.specs.List.{list_any};
ghost use Rattle.units.specs.Apart.{Pairwise};
ghost use Rattle.units.specs.Canonical.{canonical, comes_before, goes_on};
ghost use Rattle.units.specs.declared.block.RawBlock.{RawBlock};
ghost use Rattle.units.specs.declared.block.Unit.{Unit as Serial};
ghost use Rattle.protocol.specs.Checks.{is_out_of_range};
ghost use Rattle.protocol.specs.Pieces.{pieces, repeats, same_unit};

/// Blocks in range that share no unit have in their canonical form the same units, each once and of its kind. Each
/// block there comes before all later ones, in the order of their first units, and none goes on where an earlier one
/// ends.
pub fn canonical_form_keeps_units()
    ensures units { (blocks : List RawBlock) → list_any is_out_of_range blocks ≡ false
        → repeats (pieces blocks) ≡ false → (s : Serial)
        → find (λ p. same_unit p.unit s) (pieces (canonical blocks)) ≡ find (λ p. same_unit p.unit s) (pieces blocks) }
    ensures once { (blocks : List RawBlock) → list_any is_out_of_range blocks ≡ false → repeats (pieces blocks) ≡ false
        → repeats (pieces (canonical blocks)) ≡ false }
    ensures ordered { (blocks : List RawBlock) → list_any is_out_of_range blocks ≡ false
        → repeats (pieces blocks) ≡ false → Pairwise (λ a b. (comes_before a b ≡ true)
        × (goes_on a b ≡ false)) (canonical blocks) }
{}
