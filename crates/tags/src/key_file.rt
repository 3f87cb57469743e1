//! Files of keys.
ghost use Rattle.std.specs.Prelude.{◌≡◌, ◌≤◌, ◌<◌, ◌++◌, ◌∷◌, [], IfSome, IfNone, IfOk, IfErr, OnOk, length, vec_len, option_copied, None, false};
ghost use Rattle.std.specs.Option.{option_map};
ghost use Rattle.units.specs.Code.{node_text};
ghost use Rattle.units.specs.declared.code.Node.{Node};
ghost use Rattle.tags.specs.Keys.{NodeKey, has_key, key_of};
ghost use Rattle.tags.specs.KeysText.{AreKeys, IsKeyLine, IsKeysFault, IsFirstLine, IsLineFault, ReadsKeys};

use crate::key::{KEY_BYTES, Key};
use crate::keys::Entry;
use hex::FromHex;
use std::alloc::Global;
use streams::{FirstLine, first_line};
use thiserror::Error;
use units::{Code, Node};

/// How many lines a file of keys may have: one for the log and each registry of the largest scheme.
pub const MOST_KEYS: usize = 33;

/// How many bytes follow a node's name in a line of a file of keys: a space, and two digits for each byte of a key.
const AFTER_NAME: usize = 2 * KEY_BYTES + 1;

/// The faults of the text of a file of keys. Lines are counted from 1.
#[derive(Clone, Copy, Debug, PartialEq, Eq, Error)]
pub enum KeysFault {
    /// The line isn't a node's name, a space and 64 hexadecimal digits.
    #[error("line {0} is not a node, a space and 64 hexadecimal digits")]
    Form(usize),
    /// The line is of a node that an earlier line has.
    #[error("line {0} is of a node that an earlier line has")]
    Twice(usize),
    /// The line has a key that an earlier line has: each of the two nodes could then forge the other's messages.
    #[error("line {0} has a key that an earlier line has")]
    Same(usize),
    /// There are more than `MOST_KEYS` lines.
    #[error("there are more than 33 lines")]
    TooMany,
    /// There is no line.
    #[error("there is no line")]
    Empty,
    /// Out of memory.
    #[error("out of memory")]
    NoMemory,
}

/// The node of that name.
fn node_of(name: &[u8]) -> Option<Node>
    ensures some { IfSome result (λ node. name.now ≡ node_text node) }
    ensures none { IfNone result ((node : Node) → name.now ≡ node_text node → ⊥) }
{
    if name == b"ITL".as_slice() {
        return Some(Node::Itl);
    }
    if name.len() != 2 {
        return None;
    }
    let code = Code::new(name[0], name[1])?;
    Some(Node::Registry(code))
}

/// The node and the key that a line writes, without its newline.
fn read_line(line: &[u8]) -> Option<Entry>
    ensures some { IfSome result (λ entry. IsKeyLine line.now entry) }
    ensures none { IfNone result ((entry : NodeKey) → IsKeyLine line.now entry → ⊥) }
{
    let at = line.len().checked_sub(AFTER_NAME)?;
    if line[at] != b' ' {
        return None;
    }
    let node = node_of(&line[..at])?;
    let bytes = <[u8; KEY_BYTES]>::from_hex(&line[at + 1..]).ok()?;
    let key = Key::new(bytes);
    Some(Entry { node, key })
}

/// The line with which the bytes begin, without its newline, and the bytes after it. The last line may lack its newline.
fn next_line(bytes: &[u8]) -> (&[u8], &[u8])
    requires { 0 < length bytes.now }
    ensures { IsFirstLine bytes.now result.0.now result.1.now }
{
    match first_line(bytes, bytes.len()) {
        FirstLine::Whole(line, rest) => (line, rest),
        FirstLine::Partial | FirstLine::TooLong => (bytes, &[]),
    }
}

/// The key of that node among the entries, if there is one.
pub(crate) fn key_among(entries: &[Entry], node: Node) -> Option<&Key>
    ensures { option_copied result ≡ key_of entries.now node }
{
    let entry = entries.iter().find(|entry| entry.node == node)?;
    Some(&entry.key)
}

/// Whether one of the entries has that key.
fn has_key(entries: &[Entry], key: &Key) -> bool
    ensures { result ≡ has_key entries.now key.now }
{
    entries.iter().any(|entry| entry.key.is_same(key))
}

/// Adds the node and the key that the line writes to the entries.
///
/// # Errors
///
/// Fails with `Form`, `Twice` and `Same` with the number of the line, which follows those of the entries, and with
/// `NoMemory`. The entries are as they were.
fn add_line(entries: &mut Vec<Entry>, line: &[u8]) -> Result<(), KeysFault>
    requires few { vec_len entries.old < MOST_KEYS }
    ensures ok { OnOk result ((entry : NodeKey) × (entries.new.items ≡ entries.old.items ++ entry ∷ [])
        × IsKeyLine line.now entry × (key_of entries.old.items entry.node ≡ None)
        × (has_key entries.old.items entry.key ≡ false)) }
    ensures err { IfErr result (λ e. IsLineFault entries.old.items line.now e) }
{
    let number = entries.len() + 1;
    let Some(entry) = read_line(line) else {
        return Err(KeysFault::Form(number));
    };
    let is_new = key_among(entries, entry.node).is_none();
    if !is_new {
        return Err(KeysFault::Twice(number));
    }
    if has_key(entries, &entry.key) {
        return Err(KeysFault::Same(number));
    }
    if entries.push(entry).is_err() {
        return Err(KeysFault::NoMemory);
    }
    Ok(())
}

/// Adds the nodes and keys that the lines of the text write to the entries, which must be empty. Returns the bytes
/// after the lines that were read: none, unless there are `MOST_KEYS` entries.
///
/// # Errors
///
/// As `add_line`.
fn read_lines<'a>(entries: &mut Vec<Entry>, text: &'a [u8]) -> Result<&'a [u8], KeysFault>
    requires none { entries.old.items ≡ [] }
    ensures ok { IfOk result (λ left. ReadsKeys text.now entries.new.items left.now) }
    ensures most { OnOk result (length entries.new.items ≤ MOST_KEYS) }
    ensures left { IfOk result (λ left. 0 < length left.now → length entries.new.items ≡ MOST_KEYS) }
    ensures fault { IfErr result (λ e. IsKeysFault text.now e) }
{
    let mut left = text;
    for _ in 0..MOST_KEYS {
        if left.is_empty() {
            return Ok(left);
        }
        let (line, rest) = next_line(left);
        add_line(entries, line)?;
        left = rest;
    }
    Ok(left)
}

/// The keys that the text of a file writes, each with its node.
pub(crate) fn read_keys(alloc: Global, text: &[u8]) -> Result<Vec<Entry>, KeysFault>
    ensures ok { IfOk result (λ entries. AreKeys text.now entries.items) }
    ensures fault { IfErr result (λ e. IsKeysFault text.now e) }
{
    let mut entries = Vec::new(alloc);
    let left = read_lines(&mut entries, text)?;
    if !left.is_empty() {
        return Err(KeysFault::TooMany);
    }
    if entries.is_empty() {
        return Err(KeysFault::Empty);
    }
    Ok(entries)
}
