//! Topics, by their names.
ghost use Rattle.std.specs.Prelude.{◌≡◌, ◌++◌, ℕ, List, IfNone, IfOk, IfSome, OnOk, string_bytes};
ghost use Rattle.explain.specs.Topics.{Has, HasNone, entries, format_topics, listed, topics};

use crate::format_topics::FORMAT_TOPICS;
use crate::protocol_topics::PROTOCOL_TOPICS;
use crate::table_topics::TABLE_TOPICS;
use std::alloc::{AllocError, Global};

/// Returns the text of the first topic of the table with that name, or `None`, where the table has no such topic.
fn text_in(table: &'static [(&'static str, &'static str)], word: &str) -> Option<&'static str>
    ensures some { IfSome result (λ text. Has (entries table.now) word.now text.now) }
    ensures none { IfNone result (HasNone (entries table.now) word.now) }
{
    for (name, text) in table {
        if *name == word {
            return Some(text);
        }
    }
    None
}

/// Returns the text of the topic of faults, outcomes and tables with that name, or `None`, where there is no such topic.
fn format_topic_of(word: &str) -> Option<&'static str>
    ensures some { IfSome result (λ text. Has format_topics word.now text.now) }
    ensures none { IfNone result (HasNone format_topics word.now) }
{
    match text_in(FORMAT_TOPICS, word) {
        Some(text) => Some(text),
        None => text_in(TABLE_TOPICS, word),
    }
}

/// Returns the text of the topic with that name, or `None`, where there is no such topic. A text is whole lines.
pub(crate) fn topic_of(word: &str) -> Option<&'static str>
    ensures some { IfSome result (λ text. Has topics word.now text.now) }
    ensures none { IfNone result (HasNone topics word.now) }
{
    match text_in(PROTOCOL_TOPICS, word) {
        Some(text) => Some(text),
        None => format_topic_of(word),
    }
}

/// Adds the name of each topic of the table, and a newline after it.
fn add_names(
    lines: &mut String,
    table: &'static [(&'static str, &'static str)],
) -> Result<(), AllocError>
    ensures { OnOk result (string_bytes lines.new ≡ string_bytes lines.old ++ listed (entries table.now)) }
{
    for (name, _) in table {
        lines.push_str(name)?;
        lines.push_str("\n")?;
    }
    Ok(())
}

/// Returns the name of each topic, one on a line.
pub(crate) fn listed_names(alloc: Global) -> Result<String, AllocError>
    ensures { IfOk result (λ lines. string_bytes lines ≡ listed topics) }
{
    let mut lines = String::new(alloc);
    add_names(&mut lines, PROTOCOL_TOPICS)?;
    add_names(&mut lines, FORMAT_TOPICS)?;
    add_names(&mut lines, TABLE_TOPICS)?;
    Ok(lines)
}

/// A name has one text: no two topics have the same name.
pub fn names_differ()
    ensures { (word first second : List ℕ) → Has topics word first → Has topics word second → first ≡ second }
{}
