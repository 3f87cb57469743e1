//! The pieces of words.
ghost use Rattle.std.specs.Prelude.{◌≡◌, ◌==◌, ◌++◌, IfOk, OnOk, filter, map, string_bytes};
ghost use Rattle.std.specs.List.{slice_split};
ghost use Rattle.explain.specs.Topics.{is_piece, pieces};

use std::alloc::{AllocError, Global};

/// Returns what stands before, between and after the spaces of the text.
fn split_at_spaces<'a>(alloc: Global, text: &'a str) -> Result<Vec<&'a str>, AllocError>
    ensures { IfOk result (λ parts. map (λ part. part.now) parts.items ≡ slice_split (λ b. b == 32) text.now) }
{
    text.split(' ').collect(alloc)
}

/// Adds the parts that are not empty.
fn add_pieces<'a>(pieces: &mut Vec<&'a str>, parts: &[&'a str]) -> Result<(), AllocError>
    ensures { OnOk result (map (λ piece. piece.now) pieces.new.items
        ≡ map (λ piece. piece.now) pieces.old.items ++ filter is_piece (map (λ part. part.now) parts.now)) }
{
    for part in parts {
        if !part.is_empty() {
            pieces.push(*part)?;
        }
    }
    Ok(())
}

/// Returns what stands between the spaces of the words, in their order.
pub(crate) fn pieces_of<'a>(alloc: Global, words: &'a [String]) -> Result<Vec<&'a str>, AllocError>
    ensures { IfOk result (λ v. map (λ piece. piece.now) v.items ≡ pieces (map string_bytes words.now)) }
{
    let mut pieces = Vec::new(alloc);
    for word in words {
        let parts = split_at_spaces(alloc, word.as_str())?;
        add_pieces(&mut pieces, &parts)?;
    }
    Ok(pieces)
}
