//! The words of orders to a node, without the node's name.
ghost use Rattle.std.specs.Prelude.{◌≡◌, ◌<◌, ◌∷◌, ℕ, Bool, List, Err, IfOk, IfSome, IfNone, codes, decimal, map};
ghost use Rattle.std.specs.List.{AllByRecursion};
ghost use Rattle.units.specs.Block.{raw_text};
ghost use Rattle.units.specs.Code.{code_text};
ghost use Rattle.units.specs.Limits.{too_long};
ghost use Rattle.units.specs.declared.code.Code.{Code};
ghost use Rattle.units.specs.declared.block.RawBlock.{RawBlock};
ghost use Rattle.wire.specs.declared.input.Input.{Input as AnInput};
ghost use Rattle.input_lines.specs.Instructions.{AreOrderWords, yes_text};
ghost use Rattle.input_lines.specs.Verbs.{order_verb_text};
ghost use Rattle.input_lines.specs.Words.{AreBlocks, texts};

use crate::line::{
    WordsFault, code_first, number_first, only_id, only_moment, only_number, only_word,
};
use crate::verbs::OrderVerb;
use status::Order;
use std::alloc::Global;
use units::{Code, Items, RawBlock};
use wire::Input;

/// The raw blocks that the words write, one each.
fn blocks(alloc: Global, words: &[&str]) -> Result<Items<RawBlock>, WordsFault>
    ensures ok { IfOk result (λ b. AreBlocks (texts words.now) b) }
    ensures order { result ≡ Err WordsFault.Order → (b : List RawBlock) → AreBlocks (texts words.now) b → ⊥ }
{
    let mut found = Vec::new(alloc);
    for word in words {
        let block = RawBlock::read(*word).ok_or(WordsFault::Order)?;
        found.push(block)?;
    }
    Ok(Items::from_vec(found))
}

/// The parties of an order to transfer units, which come before its blocks: the account of the node, the acquirer and
/// the account there; and the words after them.
fn parties<'w, 'a>(words: &'w [&'a str]) -> Option<(u64, Code, u64, &'w [&'a str])>
    ensures some { IfSome result
        (λ p. (texts words.now ≡ decimal p.0 ∷ code_text p.1 ∷ decimal p.2 ∷ texts p.3.now) × (p.0 < too_long)
        × (p.2 < too_long)) }
    ensures none { IfNone result ((j : ℕ) (c : Code) (k : ℕ) (others : List (List ℕ)) → j < too_long → k < too_long
        → texts words.now ≡ decimal j ∷ code_text c ∷ decimal k ∷ others → ⊥) }
{
    let (account, words) = number_first(words)?;
    let (acquirer, words) = code_first(words)?;
    let (to_account, words) = number_first(words)?;
    Some((account, acquirer, to_account, words))
}

/// The order that the words after `propose` write.
fn propose(alloc: Global, words: &[&str]) -> Result<Input, WordsFault>
    ensures ok { IfOk result (AreOrderWords (codes "propose" ∷ texts words.now)) }
    ensures order { result ≡ Err WordsFault.Order → (i : AnInput) → AreOrderWords (codes "propose" ∷ texts words.now) i
        → ⊥ }
{
    let (account, acquirer, to_account, words) = parties(words).ok_or(WordsFault::Order)?;
    let units = blocks(alloc, words)?;
    match Order::new(account, acquirer, to_account, units) {
        Some(order) => Ok(Input::Propose(order)),
        None => Err(WordsFault::Order),
    }
}

/// The order that the word after `request` writes.
fn request(words: &[&str]) -> Option<Input>
    ensures some { IfSome result (AreOrderWords (codes "request" ∷ texts words.now)) }
    ensures none { IfNone result ((i : AnInput) → AreOrderWords (codes "request" ∷ texts words.now) i → ⊥) }
{
    let id = only_id(words)?;
    Some(Input::Request(id))
}

/// The order that the word after `open` writes.
fn open_account(words: &[&str]) -> Option<Input>
    ensures some { IfSome result (AreOrderWords (codes "open" ∷ texts words.now)) }
    ensures none { IfNone result ((i : AnInput) → AreOrderWords (codes "open" ∷ texts words.now) i → ⊥) }
{
    let account = only_number(words)?;
    Some(Input::OpenAccount(account))
}

/// The order that the word after `close` writes.
fn close_account(words: &[&str]) -> Option<Input>
    ensures some { IfSome result (AreOrderWords (codes "close" ∷ texts words.now)) }
    ensures none { IfNone result ((i : AnInput) → AreOrderWords (codes "close" ∷ texts words.now) i → ⊥) }
{
    let account = only_number(words)?;
    Some(Input::CloseAccount(account))
}

/// The order that the word after `clean-up` writes.
fn clean_up(words: &[&str]) -> Option<Input>
    ensures some { IfSome result (AreOrderWords (codes "clean-up" ∷ texts words.now)) }
    ensures none { IfNone result ((i : AnInput) → AreOrderWords (codes "clean-up" ∷ texts words.now) i → ⊥) }
{
    let moment = only_moment(words)?;
    Some(Input::CleanUp(moment))
}

/// Whether a word is `yes`, where it is `yes` or `no`.
fn yes_or_no(word: &str) -> Option<bool>
    ensures some { IfSome result (λ b. word.now ≡ yes_text b) }
    ensures none { IfNone result ((b : Bool) → word.now ≡ yes_text b → ⊥) }
{
    match word.as_bytes() {
        b"yes" => Some(true),
        b"no" => Some(false),
        _ => None,
    }
}

/// The order that the words after `eligible` write.
fn eligible(words: &[&str]) -> Option<Input>
    ensures some { IfSome result (AreOrderWords (codes "eligible" ∷ texts words.now)) }
    ensures none { IfNone result ((i : AnInput) → AreOrderWords (codes "eligible" ∷ texts words.now) i → ⊥) }
{
    let (registry, words) = code_first(words)?;
    let may = yes_or_no(only_word(words)?)?;
    Some(Input::Eligible { registry, may })
}

/// The order that a verb and the words after it write.
pub(crate) fn order_of(alloc: Global, verb: OrderVerb, words: &[&str]) -> Result<Input, WordsFault>
    ensures ok { IfOk result (AreOrderWords (order_verb_text verb ∷ texts words.now)) }
    ensures order { result ≡ Err WordsFault.Order → (i : AnInput)
        → AreOrderWords (order_verb_text verb ∷ texts words.now) i → ⊥ }
{
    let order = match verb {
        OrderVerb::Propose => return propose(alloc, words),
        OrderVerb::Request => request(words),
        OrderVerb::Open => open_account(words),
        OrderVerb::Close => close_account(words),
        OrderVerb::CleanUp => clean_up(words),
        OrderVerb::Eligible => eligible(words),
    };
    order.ok_or(WordsFault::Order)
}
