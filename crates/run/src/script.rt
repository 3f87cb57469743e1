//! A script under its scheme.

use input_lines::ScriptLine;
use protocol::scheme::Scheme;

/// The lines of a script, and the scheme of its nodes.
#[derive(Clone, Copy, Drop)]
pub struct Script<'a> {
    pub scheme: &'a Scheme,
    pub lines: &'a [ScriptLine],
}
