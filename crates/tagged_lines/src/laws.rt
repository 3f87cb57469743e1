//! The lines that a reader that opens lines returns.
ghost use Rattle.std.specs.Prelude.{◌≡◌, ◌⊎◌, ℕ, List, [], ◌∷◌, ◌++◌};
ghost use Rattle.streams.specs.Lines.{HasNoNewline};
ghost use Rattle.units.specs.declared.code.Node.{Node};
ghost use Rattle.tags.specs.Keys.{NodeKey};
ghost use Rattle.tagged_lines.specs.Opened.{opened, HasTag};

/// Each line that a reader returns is empty, or the bytes begin with it behind its tag under the key of its sender: any
/// message that it is read as is from that node. Does nothing.
pub fn given_has_tag()
    ensures { (keys : List NodeKey) (node : Node) (raw line rest : List ℕ) → HasNoNewline line
        → opened keys node raw ≡ line ++ 10 ∷ rest → (line ≡ []) ⊎ HasTag keys node raw line }
{}
