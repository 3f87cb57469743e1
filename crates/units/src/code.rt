//! Registry codes, and the nodes that messages name.
ghost use Rattle.std.specs.Prelude.{◌≡◌, IfSome, IfNone};
ghost use Rattle.units.specs.Facts.{IsLetter};

use std::fmt;

/// A registry's code: two letters `A` to `Z`.
#[derive(Clone, Copy, Debug, PartialEq, Eq, PartialOrd, Ord)]
pub struct Code {
    /// `b'A'` to `b'Z'`.
    pub first: u8,
    /// `b'A'` to `b'Z'`.
    pub second: u8,
    pub ghost letters: { IsLetter first × IsLetter second },
}

/// A node of the network: the transaction log, or a registry by its code.
#[derive(Clone, Copy, Debug, PartialEq, Eq)]
pub enum Node {
    Itl,
    Registry(Code),
}

impl Code {
    ghost use Rattle.units.specs.Code.{code_text};
    ghost use Rattle.units.specs.declared.code.Code.{Code};

    /// The code of two bytes, where both are letters `A` to `Z`.
    pub fn new(first: u8, second: u8) -> Option<Code>
        ensures some { IfSome result (λ c. (c.first ≡ first) × (c.second ≡ second)) }
        ensures none { IfNone result (IsLetter first × IsLetter second → ⊥) }
    {
        if first.is_ascii_uppercase() && second.is_ascii_uppercase() {
            Some(Code { first, second })
        } else {
            None
        }
    }

    /// The code that a text writes.
    pub fn read(text: &str) -> Option<Code>
        ensures some { IfSome result (λ c. text.now ≡ code_text c) }
        ensures none { IfNone result ((c : Code) → text.now ≡ code_text c → ⊥) }
    {
        match text.as_bytes() {
            [first, second] => Code::new(*first, *second),
            _ => None,
        }
    }
}

impl fmt::Display for Code {
    ghost use Rattle.std.specs.Prelude.{Some};
    ghost use Rattle.units.specs.Code.{code_text};

    ghost output = { λ c. Some (code_text c) };

    fn fmt<W: fmt::Write>(&self, f: &mut fmt::Formatter<W>) -> fmt::Result {
        let first = char::from(self.first);
        let second = char::from(self.second);
        write!(f, "{first}{second}")
    }
}

impl Node {
    ghost use Rattle.units.specs.Code.{node_text};
    ghost use Rattle.units.specs.declared.code.Node.{Node};

    /// The node that a text writes: a code, or `ITL`.
    pub fn read(text: &str) -> Option<Node>
        ensures some { IfSome result (λ n. text.now ≡ node_text n) }
        ensures none { IfNone result ((n : Node) → text.now ≡ node_text n → ⊥) }
    {
        if text == "ITL" {
            return Some(Node::Itl);
        }
        let code = Code::read(text)?;
        Some(Node::Registry(code))
    }
}

impl fmt::Display for Node {
    ghost use Rattle.std.specs.Prelude.{Some};
    ghost use Rattle.units.specs.Code.{node_text};

    ghost output = { λ n. Some (node_text n) };

    fn fmt<W: fmt::Write>(&self, f: &mut fmt::Formatter<W>) -> fmt::Result {
        match self {
            Node::Itl => write!(f, "ITL"),
            Node::Registry(code) => write!(f, "{code}"),
        }
    }
}
