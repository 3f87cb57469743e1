//! The actions that the words of the command line name, and how they are read from the matches of `clap`.
ghost use Rattle.std.specs.Prelude.{◌≡◌, Some, IfOk, IfSome, codes, map, option_map, string_bytes};
ghost use Rattle.clap.specs.Words.{first_value, found_of};
ghost use Rattle.command_line.specs.Words.{AreWordsOf, IsOf, NamesAction, all_values, extent_word, form_word, missing_word, strictness_word};

use clap::ArgMatches;
use report::Form;
use std::alloc::{AllocError, Global};

/// How many of the stores' records the table of an audit explains.
#[derive(Clone, Copy, Debug, PartialEq, Eq)]
pub enum Extent {
    /// All of them.
    Whole,
    /// The first records, as far as a run explains them.
    Furthest,
}

/// What becomes of a store that isn't there.
#[derive(Clone, Copy, Debug, PartialEq, Eq)]
pub enum Missing {
    /// It stands for no records, and is created.
    Create,
    /// The command fails.
    Refuse,
}

/// Which results of a script's lines make a run fail.
#[derive(Clone, Copy, Debug, PartialEq, Eq)]
pub enum Strictness {
    /// None: they are written, and that is all.
    Lenient,
    /// A line that was not carried out.
    Strict,
}

/// The action that the words ask for.
#[derive(Debug, Drop)]
pub enum Action {
    /// Run the events that standard input lists, and report.
    Rehearse,
    /// Run the events that standard input lists, and draw them.
    Chart,
    /// Write the records of the store of the node `node`, which is in the folder `folder`. The file `scheme` has the
    /// scheme.
    Show {
        scheme: String,
        folder: String,
        node: String,
        form: Form,
        missing: Missing,
    },
    /// Write the table of a run that leads to the records of the stores in the folder `folder`: to all of them, or to
    /// the first ones, as far as a run explains them. The file `scheme` has the scheme.
    Audit {
        scheme: String,
        folder: String,
        extent: Extent,
        form: Form,
        missing: Missing,
    },
    /// Write the scheme and the events of a run that leads to the records of the stores in the folder `folder`. The
    /// file `scheme` has the scheme.
    Events {
        scheme: String,
        folder: String,
        form: Form,
        missing: Missing,
    },
    /// Write the records of the transaction `id` in the stores in the folder `folder`, in the order of a run that leads
    /// to all records. The file `scheme` has the scheme.
    Trace {
        scheme: String,
        folder: String,
        id: String,
        form: Form,
        missing: Missing,
    },
    /// Write the text of the documents about the topic for which the words `words` ask, or without words the names of
    /// all topics.
    Explain {
        words: Vec<String>,
    },
    /// Run the nodes of the scheme in threads, with their stores in the folder `folder`, while the lines of the file
    /// `script` give orders and ask questions, and report. The file `scheme` has the scheme.
    Run {
        scheme: String,
        folder: String,
        script: String,
        missing: Missing,
        strictness: Strictness,
    },
    /// Run one node of the scheme by itself, while standard input gives orders and asks questions.
    Node(NodeWords),
}

/// The words of the action `Node`.
#[derive(Debug, Drop)]
pub struct NodeWords {
    /// The file with the scheme.
    pub scheme: String,
    /// The folder with the node's store.
    pub folder: String,
    /// The node.
    pub node: String,
    /// The address at which the node takes messages.
    pub listen: String,
    /// The node's peers with their addresses, one or more, in the order of the words.
    pub peers: Vec<String>,
    /// The file with the keys of the links, or `None`, where the links have none.
    pub keys: Option<String>,
    /// The number of seconds between two clean-ups, or `None`, where the node does none of its own accord.
    pub clean_up: Option<String>,
}

/// The value of an argument, or `None`, where it has none or there is no memory.
fn value_of(alloc: Global, matches: &ArgMatches, name: &str) -> Option<String>
    ensures { IfSome result (λ s. first_value (found_of matches.now) name.now ≡ Some (string_bytes s)) }
{
    let value = matches.get_str(name)?;
    String::from_str(alloc, value).ok()
}

/// The value of an argument that may be left out, or `None`, where it was left out.
fn optional_value(
    alloc: Global,
    matches: &ArgMatches,
    name: &str,
) -> Result<Option<String>, AllocError>
    ensures { IfOk result (λ o. first_value (found_of matches.now) name.now ≡ option_map string_bytes o) }
{
    match matches.get_str(name) {
        Some(value) => Ok(Some(String::from_str(alloc, value)?)),
        None => Ok(None),
    }
}

/// A copy of the texts.
fn copies_of(alloc: Global, texts: &[&str]) -> Result<Vec<String>, AllocError>
    ensures { IfOk result (λ copies. map string_bytes copies.items ≡ map (λ text. text.now) texts.now) }
{
    let mut copies = Vec::new(alloc);
    for text in texts {
        copies.push(String::from_str(alloc, text)?)?;
    }
    Ok(copies)
}

/// The form in which to write, by the flag `json`.
fn form_of(matches: &ArgMatches) -> Option<Form>
    ensures { IfSome result (λ f. first_value (found_of matches.now) (codes "json") ≡ Some (form_word f)) }
{
    let value = matches.get_str("json")?;
    if value == "true" {
        return Some(Form::Json);
    }
    if value == "false" {
        return Some(Form::Lines);
    }
    None
}

/// What becomes of a missing store, by the flag `existing`.
fn missing_of(matches: &ArgMatches) -> Option<Missing>
    ensures { IfSome result (λ m. first_value (found_of matches.now) (codes "existing") ≡ Some (missing_word m)) }
{
    let value = matches.get_str("existing")?;
    if value == "true" {
        return Some(Missing::Refuse);
    }
    if value == "false" {
        return Some(Missing::Create);
    }
    None
}

/// Which results make a run fail, by the flag `strict`.
fn strictness_of(matches: &ArgMatches) -> Option<Strictness>
    ensures { IfSome result (λ s. first_value (found_of matches.now) (codes "strict") ≡ Some (strictness_word s)) }
{
    let value = matches.get_str("strict")?;
    if value == "true" {
        return Some(Strictness::Strict);
    }
    if value == "false" {
        return Some(Strictness::Lenient);
    }
    None
}

fn show_action(alloc: Global, matches: &ArgMatches) -> Option<Action>
    ensures { IfSome result (IsOf (codes "show") (found_of matches.now)) }
{
    let scheme = value_of(alloc, matches, "SCHEME")?;
    let folder = value_of(alloc, matches, "DIR")?;
    let node = value_of(alloc, matches, "NODE")?;
    let form = form_of(matches)?;
    let missing = missing_of(matches)?;
    Some(Action::Show {
        scheme,
        folder,
        node,
        form,
        missing,
    })
}

/// Which records to explain, by the flag `cut`.
fn extent_of(matches: &ArgMatches) -> Option<Extent>
    ensures { IfSome result (λ e. first_value (found_of matches.now) (codes "cut") ≡ Some (extent_word e)) }
{
    let value = matches.get_str("cut")?;
    if value == "true" {
        return Some(Extent::Furthest);
    }
    if value == "false" {
        return Some(Extent::Whole);
    }
    None
}

fn audit_action(alloc: Global, matches: &ArgMatches) -> Option<Action>
    ensures { IfSome result (IsOf (codes "audit") (found_of matches.now)) }
{
    let scheme = value_of(alloc, matches, "SCHEME")?;
    let folder = value_of(alloc, matches, "DIR")?;
    let extent = extent_of(matches)?;
    let form = form_of(matches)?;
    let missing = missing_of(matches)?;
    Some(Action::Audit {
        scheme,
        folder,
        extent,
        form,
        missing,
    })
}

fn events_action(alloc: Global, matches: &ArgMatches) -> Option<Action>
    ensures { IfSome result (IsOf (codes "events") (found_of matches.now)) }
{
    let scheme = value_of(alloc, matches, "SCHEME")?;
    let folder = value_of(alloc, matches, "DIR")?;
    let form = form_of(matches)?;
    let missing = missing_of(matches)?;
    Some(Action::Events {
        scheme,
        folder,
        form,
        missing,
    })
}

fn trace_action(alloc: Global, matches: &ArgMatches) -> Option<Action>
    ensures { IfSome result (IsOf (codes "trace") (found_of matches.now)) }
{
    let scheme = value_of(alloc, matches, "SCHEME")?;
    let folder = value_of(alloc, matches, "DIR")?;
    let id = value_of(alloc, matches, "ID")?;
    let form = form_of(matches)?;
    let missing = missing_of(matches)?;
    Some(Action::Trace {
        scheme,
        folder,
        id,
        form,
        missing,
    })
}

/// The values of an argument that takes any number of words.
fn words_of(alloc: Global, matches: &ArgMatches, name: &str) -> Result<Vec<String>, AllocError>
    ensures { IfOk result (λ words. AreWordsOf (all_values (found_of matches.now) name.now)
        (map string_bytes words.items)) }
{
    match matches.get_strs(name) {
        Some(words) => copies_of(alloc, words),
        None => Ok(Vec::new(alloc)),
    }
}

fn explain_action(alloc: Global, matches: &ArgMatches) -> Option<Action>
    ensures { IfSome result (IsOf (codes "explain") (found_of matches.now)) }
{
    let words = words_of(alloc, matches, "WORDS").ok()?;
    Some(Action::Explain { words })
}

fn run_action(alloc: Global, matches: &ArgMatches) -> Option<Action>
    ensures { IfSome result (IsOf (codes "run") (found_of matches.now)) }
{
    let scheme = value_of(alloc, matches, "SCHEME")?;
    let folder = value_of(alloc, matches, "DIR")?;
    let script = value_of(alloc, matches, "SCRIPT")?;
    let missing = missing_of(matches)?;
    let strictness = strictness_of(matches)?;
    Some(Action::Run {
        scheme,
        folder,
        script,
        missing,
        strictness,
    })
}

fn node_action(alloc: Global, matches: &ArgMatches) -> Option<Action>
    ensures { IfSome result (IsOf (codes "node") (found_of matches.now)) }
{
    let scheme = value_of(alloc, matches, "SCHEME")?;
    let folder = value_of(alloc, matches, "DIR")?;
    let node = value_of(alloc, matches, "NODE")?;
    let listen = value_of(alloc, matches, "listen")?;
    let peers = copies_of(alloc, matches.get_strs("peer")?).ok()?;
    let keys = optional_value(alloc, matches, "keys").ok()?;
    let clean_up = optional_value(alloc, matches, "clean-up").ok()?;
    Some(Action::Node(NodeWords {
        scheme,
        folder,
        node,
        listen,
        peers,
        keys,
        clean_up,
    }))
}

/// The action that the matches name. Returns `None` only for lack of memory, if `clap` returned the matches.
pub(crate) fn action_of(alloc: Global, matches: &ArgMatches) -> Option<Action>
    ensures { IfSome result (NamesAction matches.now) }
{
    let (name, inner) = matches.subcommand()?;
    if name == "rehearse" {
        return Some(Action::Rehearse);
    }
    if name == "chart" {
        return Some(Action::Chart);
    }
    if name == "show" {
        return show_action(alloc, inner);
    }
    if name == "audit" {
        return audit_action(alloc, inner);
    }
    if name == "events" {
        return events_action(alloc, inner);
    }
    if name == "trace" {
        return trace_action(alloc, inner);
    }
    if name == "explain" {
        return explain_action(alloc, inner);
    }
    if name == "run" {
        return run_action(alloc, inner);
    }
    if name == "node" {
        return node_action(alloc, inner);
    }
    None
}
