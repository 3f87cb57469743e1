//! The keys that a node shares with others.
ghost use Rattle.std.specs.Prelude.{◌≡◌, IfOk, IfErr, option_copied};
ghost use Rattle.tags.specs.Keys.{key_of};
ghost use Rattle.tags.specs.KeysText.{AreKeys, IsKeysFault};

use crate::key::Key;
use crate::key_file::{KeysFault, key_among, read_keys};
use std::alloc::Global;
use std::marker::Model;
use units::Node;

/// A node, and the key that is shared with it.
#[derive(Drop)]
pub(crate) struct Entry {
    pub(crate) node: Node,
    pub(crate) key: Key,
}

impl Model for Entry {
    ghost use Rattle.tags.specs.Keys.{NodeKey};

    ghost Value = { NodeKey };

    ghost view = { λ e. record { node = e.node; key = e.key } };
}

/// Nodes, each with the key that is shared with it. It has no `Debug`, which would print them.
#[derive(Drop)]
pub struct Keys {
    entries: Vec<Entry>,
}

impl Model for Keys {
    ghost use Rattle.std.specs.Prelude.{List};
    ghost use Rattle.tags.specs.Keys.{NodeKey};

    ghost Value = { List NodeKey };

    ghost view = { λ k. k.entries.items };
}

impl Keys {
    /// Those entries.
    pub(crate) fn new(entries: Vec<Entry>) -> Keys
        ensures { result ≡ entries.items }
    {
        Keys { entries }
    }

    /// The keys that the text of a file writes. It has a line `NODE SPACE DIGITS` for each node, where `NODE` is `ITL`
    /// or the code of a registry, and `DIGITS` are 64 hexadecimal digits in either case. A newline ends each line,
    /// except that the last one may lack it. There is at least one line and there are at most `MOST_KEYS`, and no node
    /// and no key is there twice.
    ///
    /// # Errors
    ///
    /// A fault of a line has the line's number, counted from 1. The fault is the first one in the order of the lines:
    /// the lines before it write different keys of different nodes.
    ///
    /// - `Form`: the line isn't such a line.
    /// - `Twice`: the line has that form, and an earlier line has the same node.
    /// - `Same`: the line has that form and another node, and an earlier line has the same key.
    /// - `TooMany`: there are more than `MOST_KEYS` lines, and the first `MOST_KEYS` write different keys of
    ///   different nodes.
    /// - `Empty`: the text is empty.
    /// - `NoMemory`: memory ran out; that says nothing about the text.
    pub fn read(alloc: Global, text: &[u8]) -> Result<Keys, KeysFault>
        ensures ok { IfOk result (λ keys. AreKeys text.now keys) }
        ensures fault { IfErr result (λ e. IsKeysFault text.now e) }
    {
        let entries = read_keys(alloc, text)?;
        Ok(Keys::new(entries))
    }

    /// The key that is shared with the node, if there is one.
    pub fn key_of(&self, node: Node) -> Option<&Key>
        ensures { option_copied result ≡ key_of self.now node }
    {
        key_among(self.entries.as_slice(), node)
    }
}
