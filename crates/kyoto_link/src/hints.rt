//! Further lines about a fault: the path, the word or the line at fault, and what was expected there. A node always
//! writes them, since its faults stand in the journal of a service. Other commands write them at a terminal, or if the
//! variable `KYOTO_LINK_HINTS` of the environment is 1.

use crate::scheme_hints::tell_scheme;
use crate::shown_lines::{line_at, shown};
use crate::store_hints::{tell_no_store, tell_store};
use crate::system_files::SystemFiles;
use commands::command_faults::{Cause, OpFault, SetupFault};
use commands::command_line::{Action, NodeWords};
use commands::{Archive, scheme_at};
use std::io::IsTerminal;
use std::{env, fs};

/// The variable of the environment with which hints are written although standard error is no terminal.
const HINTS: &str = "KYOTO_LINK_HINTS";

/// The name of standard input in a hint.
const STANDARD_INPUT: &str = "standard input";

/// The files and words that a command names.
#[derive(Clone, Copy)]
struct Named<'a> {
    scheme: &'a str,
    folder: &'a str,
    node: Option<&'a str>,
    id: Option<&'a str>,
    script: Option<&'a str>,
}

/// The files and words that an action names. `None` if it reads standard input alone.
fn named_by(action: &Action) -> Option<Named<'_>> {
    match action {
        Action::Rehearse | Action::Chart | Action::Explain { .. } => None,
        Action::Show {
            scheme,
            folder,
            node,
            ..
        } => Some(Named {
            scheme: scheme.as_str(),
            folder: folder.as_str(),
            node: Some(node.as_str()),
            id: None,
            script: None,
        }),
        Action::Audit { scheme, folder, .. } | Action::Events { scheme, folder, .. } => Some(
            Named {
                scheme: scheme.as_str(),
                folder: folder.as_str(),
                node: None,
                id: None,
                script: None,
            },
        ),
        Action::Trace {
            scheme,
            folder,
            id,
            ..
        } => Some(Named {
            scheme: scheme.as_str(),
            folder: folder.as_str(),
            node: None,
            id: Some(id.as_str()),
            script: None,
        }),
        Action::Run {
            scheme,
            folder,
            script,
            ..
        } => Some(Named {
            scheme: scheme.as_str(),
            folder: folder.as_str(),
            node: None,
            id: None,
            script: Some(script.as_str()),
        }),
        Action::Node(words) => Some(Named {
            scheme: words.scheme.as_str(),
            folder: words.folder.as_str(),
            node: Some(words.node.as_str()),
            id: None,
            script: None,
        }),
    }
}

/// Writes which words of a node have that fault, and what they should be.
fn tell_setup(rt: &HostRuntime, words: &NodeWords, fault: SetupFault) {
    let node = words.node.as_str();
    let scheme = words.scheme.as_str();
    let folder = words.folder.as_str();
    let listen = words.listen.as_str();
    let keys = match &words.keys {
        Some(path) => path.as_str(),
        None => "",
    };
    let _ = match fault {
        SetupFault::Unknown => eprintln!(rt; "kyoto-link: {node} is no node of {scheme}"),
        SetupFault::Listen => eprintln!(rt;
            "kyoto-link: {listen} is not an address such as 127.0.0.1:7001"
        ),
        SetupFault::Peer => eprintln!(rt; "kyoto-link: a peer is written as ITL=127.0.0.1:7000"),
        SetupFault::Stranger(_) | SetupFault::Missing(_) => eprintln!(rt;
            "kyoto-link: a registry has the peer ITL, and ITL has each registry of {scheme}"
        ),
        SetupFault::Port => eprintln!(rt;
            "kyoto-link: {listen} is in use, or is not an address of this machine"
        ),
        SetupFault::KeysShared => eprintln!(rt;
            "kyoto-link: 'chmod 600 {keys}' leaves it to its owner"
        ),
        SetupFault::KeysNoFile => eprintln!(rt;
            "kyoto-link: {keys} is a folder, a device or a pipe"
        ),
        SetupFault::KeysOwner => eprintln!(rt;
            "kyoto-link: the user who runs the node must own {keys}"
        ),
        SetupFault::OtherScheme | SetupFault::SchemeSum => eprintln!(rt;
            "kyoto-link: {folder}/{node}.scheme has the sum of the scheme of {folder}/{node}.db"
        ),
        SetupFault::KeysUnread | SetupFault::KeysLine(_) | SetupFault::NoKey(_) => eprintln!(rt;
            "kyoto-link: {keys} has a line for each peer: its name, a space, and the 64 hexadecimal digits of a key of its own"
        ),
        SetupFault::Twice(_) | SetupFault::Exposed | SetupFault::CleanUp | SetupFault::NotTheLog =>
            { eprintln!(rt; "kyoto-link: 'kyoto-link node --help' lists the options") }
        // Of a command that reads a folder's stores.
        SetupFault::NoStore(_) => Ok(()),
    };
}

/// Names the file that could not be read: each is tried once more, in the order in which the commands read them.
fn tell_unread(rt: &HostRuntime, named: &Named<'_>) {
    if fs::read(rt, named.scheme).is_err() {
        let _ = eprintln!(rt;
            "kyoto-link: the scheme's file, {}, can't be read",
            named.scheme
        );
        return;
    }
    if let Some(script) = named.script {
        if fs::read(rt, script).is_err() {
            let _ = eprintln!(rt; "kyoto-link: the script's file, {script}, can't be read");
            return;
        }
    }
    if !SystemFiles::new(rt).has_folder(named.folder) {
        let _ = eprintln!(rt; "kyoto-link: {} is not a folder", named.folder);
        return;
    }
    let _ = match named.node {
        Some(_) => eprintln!(rt; "kyoto-link: standard input can't be read"),
        None => eprintln!(rt;
            "kyoto-link: there is no free port of 127.0.0.1, or no file handle is left"
        ),
    };
}

/// What the lines of a file or of standard input are.
#[derive(Clone, Copy)]
enum Lines {
    Events,
    Script,
}

/// The form of a line that has this fault, as a hint names it. `None` if the words of the fault say enough.
fn expected(cause: Cause, lines: Lines) -> Option<&'static str> {
    match (cause, lines) {
        (Cause::Order, Lines::Script) => Some(
            "an order such as 'propose NZ 1 JP 7 NZ:1:1-100:AAU', or a question such as 'until JP NZ1 Completed 10000'",
        ),
        (Cause::Order, Lines::Events) => Some(
            "an event such as 'propose NZ 1 JP 7 NZ:1:1-100:AAU', 'commit NZ 1', 'post NZ 0' or 'deliver 0 2012-05-01T00:00:00Z'",
        ),
        (Cause::Truncated, _) => Some("a newline at the end of the line"),
        _ => None,
    }
}

/// Writes the line of a text, after its place, and the form that it should have.
fn tell_text_line(rt: &HostRuntime, place: &str, text: &[u8], line: u64, form: Option<&str>) {
    let Some(found) = line_at(text, line) else {
        return;
    };
    if let Ok(found) = shown(rt.alloc(), found) {
        let _ = eprintln!(rt; "kyoto-link: {place}:{line}: {}", found.as_str());
    }
    if let Some(form) = form {
        let _ = eprintln!(rt; "kyoto-link: expected {form}");
    }
}

/// Writes the line of the script at fault.
fn tell_script_line(rt: &HostRuntime, script: &str, line: u64, cause: Cause) {
    if let Ok(text) = fs::read(rt, script) {
        tell_text_line(
            rt,
            script,
            text.as_slice(),
            line,
            expected(cause, Lines::Script),
        );
    }
}

/// Writes the line at fault of an input that was read from standard input, whose first line is a scheme.
fn tell_input_line(rt: &HostRuntime, input: &[u8], line: u64, cause: Cause) {
    match cause {
        Cause::Order | Cause::Truncated | Cause::TooLong => {
            tell_text_line(
                rt,
                STANDARD_INPUT,
                input,
                line,
                expected(cause, Lines::Events),
            );
        }
        _ => {
            if let Some(scheme) = line_at(input, 1) {
                tell_scheme(rt, STANDARD_INPUT, scheme);
            }
        }
    }
}

/// Names the file that has a fault in this line, or the node that isn't in the scheme, or the word that is no
/// transaction's.
fn tell_line(rt: &HostRuntime, named: &Named<'_>, line: u64, cause: Cause) {
    if scheme_at(rt.alloc(), &SystemFiles::new(rt), named.scheme).is_err() {
        if let Ok(text) = fs::read(rt, named.scheme) {
            tell_scheme(rt, named.scheme, text.as_slice());
        }
    } else if let Some(node) = named.node {
        let _ = eprintln!(rt; "kyoto-link: {node} is no node of {}", named.scheme);
    } else if let Some(id) = named.id {
        let _ = eprintln!(rt;
            "kyoto-link: {id} is not the identifier of a transaction, such as NZ1"
        );
    } else if let Some(script) = named.script {
        tell_script_line(rt, script, line, cause);
    }
}

/// Whether hints are wanted about the faults of a command that isn't a node.
pub(crate) fn are_wanted(rt: &HostRuntime) -> bool {
    if rt.stderr().is_terminal() {
        return true;
    }
    match env::var(rt, HINTS) {
        Ok(value) => value.as_str() == "1",
        Err(_) => false,
    }
}

/// Writes on standard error which file, word or line caused the fault of an action that names files.
fn explain_named(rt: &HostRuntime, named: &Named<'_>, fault: OpFault) {
    match fault {
        OpFault::Read => tell_unread(rt, named),
        OpFault::Input { line, cause } => tell_line(rt, named, line, cause),
        OpFault::Store { node, fault } => tell_store(rt, named.folder, node, fault),
        OpFault::Stuck { node, place } => {
            let _ = eprintln!(rt;
                "kyoto-link: 'kyoto-link show {} {} {node}' writes the record at place {place}",
                named.scheme, named.folder
            );
        }
        OpFault::Setup(SetupFault::NoStore(node)) => tell_no_store(rt, named.folder, node),
        OpFault::Undone(line) => {
            if let Some(script) = named.script {
                if let Ok(text) = fs::read(rt, script) {
                    tell_text_line(rt, script, text.as_slice(), line, None);
                }
            }
        }
        OpFault::Unsettled { .. } | OpFault::Setup(_) | OpFault::Write(_) | OpFault::NoMemory => {}
    }
}

/// Writes on standard error which file, word or line caused the fault of an action. `input` is what was read from
/// standard input, if it was kept.
pub(crate) fn explain(rt: &HostRuntime, action: &Action, fault: OpFault, input: Option<&[u8]>) {
    match (action, fault) {
        (Action::Explain { .. }, OpFault::Input { .. }) => {
            let _ = eprintln!(rt;
                "kyoto-link: these words name no topic; 'kyoto-link explain' lists all topics"
            );
        }
        (Action::Node(words), OpFault::Setup(fault)) => tell_setup(rt, words, fault),
        (Action::Rehearse | Action::Chart, OpFault::Input { line, cause }) => {
            if let Some(input) = input {
                tell_input_line(rt, input, line, cause);
            }
        }
        (Action::Rehearse | Action::Chart, OpFault::Read) => {
            let _ = eprintln!(rt; "kyoto-link: {STANDARD_INPUT} can't be read");
        }
        _ => {}
    }
    if let Some(named) = named_by(action) {
        explain_named(rt, &named, fault);
    }
}
