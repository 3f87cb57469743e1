//! The sender of a line with a tag.
ghost use Rattle.std.specs.Prelude.{◌≡◌, None, Some, codes, drop, length, is_some, IsTrue, ◌≤◌, IfOk, IfSome, IfNone, MatchOption};
ghost use Rattle.serde_json.specs.View.{view};
ghost use Rattle.json_fields.specs.Fields.{text_at};
ghost use Rattle.units.specs.Code.{node_text};
ghost use Rattle.units.specs.declared.code.Node.{Node};
ghost use Rattle.tags.specs.Keys.{key_of};
ghost use Rattle.tagged_lines.specs.Opened.{opened_text};
ghost use Rattle.tagged_lines.specs.Opening.{IsSenderOf};

use json_fields::text_at;
use serde_json::Value;
use std::alloc::Global;
use tags::{Key, Keys, split_tagged};
use units::{NoMemory, Node};

/// A node, and the key that is shared with it.
#[derive(Drop)]
pub(crate) struct Sender<'k> {
    pub(crate) node: Node,
    pub(crate) key: &'k Key,
}

/// The node that the JSON text names as its sender. `None` if the text is no JSON, or has no node's name there.
fn text_sender(alloc: Global, text: &[u8]) -> Result<Option<Node>, NoMemory>
    ensures { IfOk result (λ node. IsSenderOf text.now node) }
{
    match Value::from_slice(alloc, text) {
        Ok(value) => Ok(node_in(&value)),
        Err(error) => {
            if error.is_memory() {
                Err(NoMemory)
            } else {
                Ok(None)
            }
        }
    }
}

/// The node that the value names as its sender.
fn node_in(value: &Value) -> Option<Node>
    ensures some { IfSome result (λ node. text_at (codes "from") (view value.now) ≡ Some (node_text node)) }
    ensures none { IfNone result ((node : Node) → text_at (codes "from") (view value.now) ≡ Some (node_text node) → ⊥) }
{
    let name = text_at(value, "from")?;
    Node::read(name)
}

/// The sender of the line, which has no newline, if it is a message to `node` behind its tag under the key of its
/// sender; otherwise `None`.
///
/// # Errors
///
/// Fails with `NoMemory` if memory ran out; that says nothing about the line.
pub(crate) fn line_sender<'k>(
    alloc: Global,
    keys: &'k Keys,
    node: Node,
    line: &[u8],
) -> Result<Option<Sender<'k>>, NoMemory>
    ensures text { IfOk result (λ sender. MatchOption sender (opened_text keys.now node line.now ≡ None)
        (λ _. opened_text keys.now node line.now ≡ Some (drop 65 line.now))) }
    ensures long { IfOk result (λ sender. IsTrue (is_some sender) → 65 ≤ length line.now) }
    ensures key { IfOk result (λ sender. IfSome sender (λ s. key_of keys.now s.node ≡ Some s.key.now)) }
{
    let Some((digits, text)) = split_tagged(line) else {
        return Ok(None);
    };
    let Some(from) = text_sender(alloc, text)? else {
        return Ok(None);
    };
    let Some(key) = keys.key_of(from) else {
        return Ok(None);
    };
    if key.message_tag(from, node, text).is_written(digits) {
        Ok(Some(Sender { node: from, key }))
    } else {
        Ok(None)
    }
}
