//! The names of topics for which pieces may stand.
ghost use Rattle.std.specs.Prelude.{◌≡◌, ◌++◌, ◌==◌, IfOk, OnOk, map, string_bytes};
ghost use Rattle.std.specs.List.{before_first};
ghost use Rattle.explain.specs.Topics.{bare, is_number, names_of, pair, pairs, singles, without_hyphens, without_mark};

use std::alloc::{AllocError, Global};

/// Returns the piece from its first character that is no hyphen.
fn after_hyphens(piece: &str) -> &str
    ensures { result.now ≡ without_hyphens piece.now }
{
    piece.trim_start_matches('-')
}

/// Returns the piece without one colon, comma or full stop at its end.
fn before_mark(piece: &str) -> &str
    ensures { result.now ≡ without_mark piece.now }
{
    match piece.strip_suffix([':', ',', '.']) {
        Some(front) => front,
        None => piece,
    }
}

/// Returns what stands before the first apostrophe, or the whole piece, where it has none.
fn before_apostrophe(piece: &str) -> &str
    ensures { result.now ≡ before_first (λ b. b == 39) piece.now }
{
    match piece.split_once('\'') {
        Some((front, _)) => front,
        None => piece,
    }
}

/// Returns the piece as the name of a topic, without the hyphens before it, without one colon, comma or full stop after
/// it, and as far as its first apostrophe.
fn name_in(piece: &str) -> &str
    ensures { result.now ≡ bare piece.now }
{
    before_apostrophe(before_mark(after_hyphens(piece)))
}

/// Returns whether the name has digits alone.
fn has_digits_alone(name: &str) -> bool
    ensures { result ≡ is_number name.now }
{
    for byte in name.as_bytes() {
        if !byte.is_ascii_digit() {
            return false;
        }
    }
    true
}

/// Returns two neighbouring pieces as a name: the second one after `refused`, and otherwise both with a hyphen between
/// them.
fn name_of_two(alloc: Global, first: &str, second: &str) -> Result<String, AllocError>
    ensures { IfOk result (λ name. string_bytes name ≡ pair first.now second.now) }
{
    if first == "refused" {
        return String::from_str(alloc, second);
    }
    let mut name = String::from_str(alloc, first)?;
    name.push_str("-")?;
    name.push_str(second)?;
    Ok(name)
}

/// Adds each two neighbouring pieces as a name.
fn add_pairs(alloc: Global, names: &mut Vec<String>, parts: &[&str]) -> Result<(), AllocError>
    ensures { OnOk result (map string_bytes names.new.items
        ≡ map string_bytes names.old.items ++ pairs (map (λ part. part.now) parts.now)) }
{
    for two in parts.windows(2) {
        let name = name_of_two(alloc, two[0], two[1])?;
        names.push(name)?;
    }
    Ok(())
}

/// Adds each piece as a name, and numbers after all others.
fn add_singles(alloc: Global, names: &mut Vec<String>, parts: &[&str]) -> Result<(), AllocError>
    ensures { OnOk result (map string_bytes names.new.items
        ≡ map string_bytes names.old.items ++ singles (map (λ part. part.now) parts.now)) }
{
    let mut numbers = Vec::new(alloc);
    for part in parts {
        let name = name_in(part);
        let owned = String::from_str(alloc, name)?;
        if has_digits_alone(name) {
            numbers.push(owned)?;
        } else {
            names.push(owned)?;
        }
    }
    names.append(&mut numbers)
}

/// Returns the names for which the pieces may stand, in the order in which they are tried.
pub(crate) fn list_names(alloc: Global, parts: &[&str]) -> Result<Vec<String>, AllocError>
    ensures { IfOk result (λ names. map string_bytes names.items ≡ names_of (map (λ part. part.now) parts.now)) }
{
    let mut names = Vec::new(alloc);
    names.push(parts.join(alloc, "-")?)?;
    add_pairs(alloc, &mut names, parts)?;
    add_singles(alloc, &mut names, parts)?;
    Ok(names)
}
