//! The program `kyoto-link`.
#![tactic(auto)]

ghost use Rattle.std.specs.Prelude.{◌≡◌};
ghost use Rattle.std.specs.Process.{exit_status};
ghost use Rattle.commands.specs.Obeying.{status_of};

mod copies;
mod hints;
mod operator_input;
mod scheme_hints;
mod shown_lines;
mod store_hints;
mod system_files;
mod watching;

use crate::hints::{are_wanted, explain};
use crate::operator_input::StandardInput;
use crate::system_files::SystemFiles;
use crate::watching::Terminal;
use clap::Error;
use commands::command_faults::OpFault;
use commands::{CommandEnd, obey};
use std::io::{Eprint, ErrorKind, IsTerminal};
use std::net::{Net, TcpListener, TcpStream};
use std::process::ExitCode;
use std::rt::Clock as SystemClock;
use std::sync::Wait;
use std::thread::Threads;
use std::{env, io};

/// The exit status for words that aren't UTF-8.
const WRONG_WORDS: u8 = 2;

/// Writes a fault on standard error.
fn tell(rt: &HostRuntime, fault: OpFault) {
    let _ = eprintln!(rt; "kyoto-link: {fault}");
}

/// Writes on standard error what is wrong with the words: `clap`'s lines, each after the program's name. A file after
/// `rehearse` or `chart` is most often meant as their input.
fn tell_wrong_words(rt: &HostRuntime, words: &[String], error: &Error) {
    let Ok(text) = format!(in rt.alloc(); "{error}") else {
        tell(rt, OpFault::NoMemory);
        return;
    };
    for line in text.as_str().lines() {
        if !line.is_empty() {
            let _ = eprintln!(rt; "kyoto-link: {line}");
        }
    }
    if let Some(command) = reader_of_input(words) {
        if words.len() > 2 {
            let _ = eprintln!(rt;
                "kyoto-link: {command} reads standard input: 'kyoto-link {command} < FILE'"
            );
        }
    }
}

/// Writes on standard error what went wrong, if anything did, and returns the exit status. If standard error can't be
/// written, only the status shows it.
fn report(rt: &HostRuntime, words: &[String], ended: &CommandEnd, input: Option<&[u8]>) -> ExitCode
    ensures { exit_status result ≡ status_of ended.now }
{
    match ended {
        CommandEnd::Done => {}
        CommandEnd::Failed(action, fault) => {
            tell(rt, *fault);
            if is_node(words) || are_wanted(rt) {
                explain(rt, action, *fault, input);
            }
        }
        CommandEnd::NoAction(fault) => tell(rt, *fault),
        CommandEnd::WrongWords(error) => tell_wrong_words(rt, words, error),
    }
    ExitCode::from(ended.status())
}

/// Whether the words name the command `node`, which reads its operator's lines for as long as it runs.
fn is_node(words: &[String]) -> bool {
    match words.get(1) {
        Some(word) => word.as_str() == "node",
        None => false,
    }
}

/// The command that reads its whole input from standard input, if the words name one.
fn reader_of_input(words: &[String]) -> Option<&str> {
    match words.get(1)?.as_str() {
        "rehearse" => Some("rehearse"),
        "chart" => Some("chart"),
        _ => None,
    }
}

/// Writes on standard error, if standard input is a terminal, that the command waits for lines.
fn tell_waiting(rt: &HostRuntime, words: &[String]) {
    let waits = match words.len() {
        2 => reader_of_input(words).is_some(),
        _ => is_node(words),
    };
    if waits && rt.stdin().is_terminal() {
        let _ = eprintln!(rt; "kyoto-link: reading lines from the terminal; Ctrl-D ends them");
    }
}

/// The input of the command that the words name.
fn input_of<'a, R: Net>(
    rt: &'a HostRuntime,
    net: &R,
    words: &[String],
) -> io::Result<StandardInput<'a>> {
    if is_node(words) {
        return StandardInput::of_operator(rt, net);
    }
    if reader_of_input(words).is_some() && are_wanted(rt) {
        return Ok(StandardInput::kept_for_hints(rt));
    }
    Ok(StandardInput::of_command(rt))
}

/// Does what the words ask for. `threads` is the same runtime, as one that may start threads, wait and open sockets.
fn run<R>(rt: &HostRuntime, threads: &R, words: &[String]) -> ExitCode
where
    R: Threads
        + Wait
        + SystemClock
        + Eprint
        + Net<Listener = TcpListener, Stream = TcpStream>
        + Sync,
{
    let Ok(mut input) = input_of(rt, threads, words) else {
        return report(rt, words, &CommandEnd::NoAction(OpFault::NoMemory), None);
    };
    tell_waiting(rt, words);
    let ended = obey(
        threads,
        rt.alloc(),
        &SystemFiles::new(rt),
        words,
        &mut input,
        &mut io::writer(rt),
        &Terminal { rt },
    );
    report(rt, words, &ended, input.kept())
}

/// The words of the command line. Fails with `InvalidData` if one of them isn't UTF-8.
fn words(rt: &HostRuntime) -> io::Result<Vec<String>> {
    Ok(env::args(rt)?.collect(rt.alloc())?)
}

fn main(rt: HostRuntime) -> ExitCode {
    match words(&rt) {
        Ok(words) => run(&rt, &rt, words.as_slice()),
        Err(error) if error.kind() == ErrorKind::OutOfMemory => {
            report(&rt, &[], &CommandEnd::NoAction(OpFault::NoMemory), None)
        }
        Err(_) => {
            let _ = eprintln!(rt;
                "kyoto-link: a word isn't UTF-8; each word must be, including paths"
            );
            ExitCode::from(WRONG_WORDS)
        }
    }
}
