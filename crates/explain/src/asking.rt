//! The topic for which words ask.
ghost use Rattle.std.specs.Prelude.{IfOk, map, string_bytes};
ghost use Rattle.explain.specs.Topics.{Finds, names_of, pieces};

use crate::naming::list_names;
use crate::pieces::pieces_of;
use crate::topics::topic_of;
use std::alloc::{AllocError, Global};

/// Returns the text of the first of the names that a topic has, or `None`, where no topic has one of them.
fn text_of_first(names: &[String]) -> Option<&'static str>
    ensures { Finds (map string_bytes names.now) result }
{
    for name in names {
        if let Some(text) = topic_of(name.as_str()) {
            return Some(text);
        }
    }
    None
}

/// Returns the text of the topic for which the words ask, or `None`, where they ask for none.
pub(crate) fn text_asked(
    alloc: Global,
    words: &[String],
) -> Result<Option<&'static str>, AllocError>
    ensures { IfOk result (Finds (names_of (pieces (map string_bytes words.now)))) }
{
    let parts = pieces_of(alloc, words)?;
    let names = list_names(alloc, &parts)?;
    Ok(text_of_first(&names))
}
