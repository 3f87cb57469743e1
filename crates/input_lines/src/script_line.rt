//! The lines of scripts.
ghost use Rattle.std.specs.Prelude.{◌≡◌, ◌∷◌, ℕ, List, Err, IfOk, IfSome, IfNone, MatchBool, true, false};
ghost use Rattle.units.specs.declared.code.Node.{Node as ANode};
ghost use Rattle.input_lines.specs.Instructions.{AreScriptWords};
ghost use Rattle.input_lines.specs.Named.{IsNamed};
ghost use Rattle.input_lines.specs.ScriptLines.{IsScriptLine};
ghost use Rattle.input_lines.specs.Verbs.{is_of_log};
ghost use Rattle.input_lines.specs.Words.{texts};
ghost use Rattle.input_lines.specs.declared.instruction.Instruction.{Instruction as AnInstruction};
ghost use Rattle.input_lines.specs.declared.script_line.ScriptLine.{ScriptLine as ALine};

use crate::instruction::Instruction;
use crate::instructions::instruction_with;
use crate::line::{WordsFault, first_of, node_first, words_of};
use crate::reading::WrittenLine;
use crate::verbs::{LineVerb, OrderVerb};
use std::alloc::Global;
use std::str::from_utf8;
use units::Node;

/// One line of a script: a node, and the order or the question to it.
#[derive(Debug, Drop)]
pub struct ScriptLine {
    pub node: Node,
    pub instruction: Instruction,
}

/// Whether the verb is that of an order which only the log takes.
fn is_of_log(verb: LineVerb) -> bool
    ensures { result ≡ is_of_log verb }
{
    matches!(
        verb,
        LineVerb::Order(OrderVerb::CleanUp) | LineVerb::Order(OrderVerb::Eligible)
    )
}

/// The node that the words after the verb name, and the words after its name. An order of the log has no name.
pub(crate) fn named<'w, 'a>(verb: LineVerb, words: &'w [&'a str]) -> Option<(Node, &'w [&'a str])>
    ensures some { IfSome result (λ p. IsNamed verb (texts words.now) p.0 (texts p.1.now)) }
    ensures none { IfNone result ((n : ANode) (others : List (List ℕ)) → IsNamed verb (texts words.now) n others → ⊥) }
{
    if is_of_log(verb) {
        Some((Node::Itl, words))
    } else {
        node_first(words)
    }
}

/// The line of a script that some words write.
fn script_line_with(alloc: Global, words: &[&str]) -> Result<ScriptLine, WordsFault>
    ensures ok { IfOk result (λ l. AreScriptWords (texts words.now) l.node l.instruction) }
    ensures order { result ≡ Err WordsFault.Order → (n : ANode) (i : AnInstruction)
        → AreScriptWords (texts words.now) n i → ⊥ }
{
    let (word, words) = first_of(words).ok_or(WordsFault::Order)?;
    let verb = LineVerb::read(word).ok_or(WordsFault::Order)?;
    let (node, words) = named(verb, words).ok_or(WordsFault::Order)?;
    let instruction = instruction_with(alloc, verb, words)?;
    Ok(ScriptLine { node, instruction })
}

/// The order or the question that a line of a script writes, with its node.
///
/// # Errors
///
/// Fails with `Order` where the line is no line of a script, and with `NoMemory` where memory ran out.
pub fn script_line_of(alloc: Global, line: &[u8]) -> Result<ScriptLine, WordsFault>
    ensures ok { IfOk result (IsScriptLine line.now) }
    ensures order { result ≡ Err WordsFault.Order → (l : ALine) → IsScriptLine line.now l → ⊥ }
{
    let Ok(line) = from_utf8(line) else {
        return Err(WordsFault::Order);
    };
    let words = words_of(alloc, line)?;
    script_line_with(alloc, words.as_slice())
}

impl WrittenLine for ScriptLine {
    ghost use Rattle.input_lines.specs.ScriptLines.{IsScriptLine};

    ghost writes = { IsScriptLine };

    fn read(alloc: Global, line: &[u8]) -> Result<ScriptLine, WordsFault> {
        script_line_of(alloc, line)
    }
}
