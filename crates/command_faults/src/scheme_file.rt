//! A file with a scheme, and the nodes of a scheme by their names.
ghost use Rattle.std.specs.Prelude.{◌≡◌, true, IfOk, IfErr};
ghost use Rattle.units.specs.Code.{node_text};
ghost use Rattle.units.specs.declared.code.Node.{Node};
ghost use Rattle.scheme.specs.Text.{IsSchemeText};
ghost use Rattle.protocol.specs.Registries.{is_node};
ghost use Rattle.command_faults.specs.SchemeFile.{IsSchemeLineFault, IsTextIn, ReadsScheme, FailsToRead};

use crate::fault::{Cause, OpFault};
use scheme::{Scheme, SchemeFault};
use std::alloc::Global;
use std::io::Read;
use streams::{LONGEST_INPUT_LINE, read_input};
use units::Node;

/// The scheme that a text writes. A fault counts the text as line 1.
pub fn scheme_of(alloc: Global, line: &[u8]) -> Result<Scheme, OpFault>
    ensures ok { IfOk result (λ s. IsSchemeText line.now s) }
    ensures err { IfErr result (IsSchemeLineFault line.now) }
{
    let cause = match Scheme::read(alloc, line) {
        Ok(scheme) => return Ok(scheme),
        Err(SchemeFault::NoMemory) => return Err(OpFault::NoMemory),
        Err(SchemeFault::NotJson) => Cause::NotJson,
        Err(SchemeFault::Shape) => Cause::Shape,
        Err(SchemeFault::TooMany) => Cause::TooMany,
        Err(SchemeFault::TooFew) => Cause::TooFew,
        Err(SchemeFault::CodeTwice) => Cause::CodeTwice,
        Err(SchemeFault::AccountTwice) => Cause::AccountTwice,
        Err(SchemeFault::UnknownAccount) => Cause::UnknownAccount,
        Err(SchemeFault::AllotmentOverlap) => Cause::AllotmentOverlap,
    };
    Err(OpFault::Input { line: 1, cause })
}

fn text_in(bytes: &[u8]) -> &[u8]
    ensures { IsTextIn bytes.now result.now }
{
    match bytes.strip_suffix(b"\n") {
        Some(text) => text,
        None => bytes,
    }
}

/// The scheme of a file, which is one JSON text, with or without one newline at its end.
///
/// Fails with `Read` where the file can't be read. Fails with `Input`, at line 1: with `TooLong`, where the text
/// without that newline has more than 1,048,576 bytes, or with the cause for which it is no scheme. Fails with
/// `NoMemory` for lack of memory.
pub fn read_scheme<R: Read>(alloc: Global, reader: &mut R) -> Result<Scheme, OpFault>
    ensures ok { IfOk result (λ s. ReadsScheme (R.remaining reader.old) (R.remaining reader.new) s) }
    ensures err { IfErr result (λ e. FailsToRead e (R.remaining reader.old) (R.remaining reader.new)) }
{
    let input = read_input(alloc, reader)?;
    let text = text_in(input.as_slice());
    if text.len() > LONGEST_INPUT_LINE {
        let cause = Cause::TooLong;
        return Err(OpFault::Input { line: 1, cause });
    }
    scheme_of(alloc, text)
}

/// The log or the registry of the scheme that the word names. Fails with `Input`, at line 1, with `Order` where there
/// is none.
pub fn node_of(scheme: &Scheme, word: &str) -> Result<Node, OpFault>
    ensures ok { IfOk result (λ n. (word.now ≡ node_text n) × (is_node scheme.now n ≡ true)) }
    ensures fault { IfErr result (λ e. e ≡ OpFault.Input 1 Cause.Order) }
    ensures none { IfErr result (λ e. (n : Node) → is_node scheme.now n ≡ true → word.now ≡ node_text n → ⊥) }
{
    let cause = Cause::Order;
    let fault = OpFault::Input { line: 1, cause };
    match Node::read(word) {
        Some(Node::Itl) => Ok(Node::Itl),
        Some(Node::Registry(code)) if scheme.member(code).is_some() => Ok(Node::Registry(code)),
        _ => Err(fault),
    }
}
