//! The nodes of a chart, and notes over several of them.
ghost use Rattle.std.specs.Prelude.{◌≡◌, ◌++◌, IfOk, OnOk, codes, flat_map, map, string_bytes};
ghost use Rattle.std.specs.List.{join_by};
ghost use Rattle.std.specs.Str.Lines.{lines};
ghost use Rattle.units.specs.Code.{node_text};
ghost use Rattle.chart.specs.ChartLines.{broken, last_of, participant_line, wide_note_line};

use std::alloc::{AllocError, Global};
use std::fmt::Write;
use units::{NoMemory, Node};

/// Adds the line of a node that takes part.
///
/// # Errors
///
/// Fails with `NoMemory` where there is no room for the line. The text may then have a part of it.
pub(crate) fn push_participant(text: &mut String, node: Node) -> Result<(), NoMemory>
    ensures { OnOk result (string_bytes text.new ≡ string_bytes text.old ++ participant_line node) }
{
    writeln!(text, "    participant {node}")?;
    Ok(())
}

/// Adds a break and a line.
fn push_break(text: &mut String, line: &str) -> Result<(), NoMemory>
    ensures { OnOk result (string_bytes text.new ≡ string_bytes text.old ++ (codes "<br/>" ++ line.now)) }
{
    text.push_str("<br/>")?;
    text.push_str(line)?;
    Ok(())
}

/// Adds each of the lines after a break.
fn push_breaks(text: &mut String, lines: &[&str]) -> Result<(), NoMemory>
    ensures { OnOk result (string_bytes text.new ≡ string_bytes text.old ++ flat_map (λ line. codes "<br/>" ++ line)
        (map (λ line. line.now) lines.now)) }
{
    for line in lines {
        push_break(text, *line)?;
    }
    Ok(())
}

/// Adds the lines, with a break between each two.
fn push_lines(text: &mut String, lines: &[&str]) -> Result<(), NoMemory>
    ensures { OnOk result (string_bytes text.new ≡ string_bytes text.old ++ join_by (λ line. line) (codes "<br/>") (map
        (λ line. line.now) lines.now)) }
{
    let Some((first, others)) = lines.split_first() else {
        return Ok(());
    };
    text.push_str(*first)?;
    push_breaks(text, others)?;
    Ok(())
}

fn lines_of(alloc: Global, text: &str) -> Result<Vec<&str>, AllocError>
    ensures { IfOk result (λ v. map (λ line. line.now) v.items ≡ lines text.now) }
{
    text.lines().collect(alloc)
}

/// Adds the lines of a text, with a break between each two.
fn push_broken(alloc: Global, text: &mut String, lines: &str) -> Result<(), NoMemory>
    ensures { OnOk result (string_bytes text.new ≡ string_bytes text.old ++ broken lines.now) }
{
    let lines = lines_of(alloc, lines)?;
    push_lines(text, lines.as_slice())?;
    Ok(())
}

fn last_of(first: Node, others: &[Node]) -> Node
    ensures { result ≡ last_of first others.now }
{
    match others.last() {
        Some(node) => *node,
        None => first,
    }
}

/// Adds the words before the text of a note.
fn push_over(text: &mut String, first: Node, last: Node) -> Result<(), NoMemory>
    ensures { OnOk result (string_bytes text.new ≡ string_bytes text.old ++
        (codes "    Note over " ++ node_text first ++ codes "," ++ node_text last ++ codes ": ")) }
{
    write!(text, "    Note over {first},{last}: ")?;
    Ok(())
}

/// Adds a note over all of the nodes, with the lines of a text. Adds nothing where there is no node.
///
/// # Errors
///
/// Fails with `NoMemory` where there is no room for the line. The text may then have a part of it.
pub(crate) fn push_wide_note(
    alloc: Global,
    text: &mut String,
    nodes: &[Node],
    lines: &str,
) -> Result<(), NoMemory>
    ensures { OnOk result (string_bytes text.new ≡ string_bytes text.old ++ wide_note_line nodes.now lines.now) }
{
    let Some((first, others)) = nodes.split_first() else {
        return Ok(());
    };
    push_over(text, *first, last_of(*first, others))?;
    push_broken(alloc, text, lines)?;
    text.push_str("\n")?;
    Ok(())
}
