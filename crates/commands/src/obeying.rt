//! The words of a command line, obeyed.
ghost use Rattle.std.specs.Prelude.{◌≡◌, ◌⊎◌, IfErr, OnOk, map, string_bytes};
ghost use Rattle.std.specs.Io.KnownBytes.{Keeps};
ghost use Rattle.commands.specs.Obeying.{IsHelped, IsHelpedInPart, Obeys, status_of};

use crate::archive::Archive;
use crate::performing::perform;
use crate::progress::Progress;
use clap::Error;
use command_faults::{OpFault, write_out};
use command_line::{Action, UsageFault, parse_words};
use std::alloc::Global;
use std::io::{Eprint, Read, Write};
use std::net::{Net, TcpListener, TcpStream};
use std::rt::Clock as SystemClock;
use std::sync::Wait;
use std::thread::Threads;

/// The exit status for words that are wrong.
const WRONG_WORDS: u8 = 2;

/// How a command line ended.
#[derive(Drop)]
pub enum CommandEnd {
    /// Everything was done that the words ask for.
    Done,
    /// The action that the words name failed.
    Failed(Action, OpFault),
    /// The words name no action that can be done: memory ran out, or help could not be written.
    NoAction(OpFault),
    /// The words are wrong. The text is `clap`'s.
    WrongWords(Error),
}

impl CommandEnd {
    /// The program's exit status.
    pub fn status(&self) -> u8
        ensures { result ≡ status_of self.now }
    {
        match self {
            CommandEnd::Done => 0,
            CommandEnd::Failed(_, fault) => fault.status(),
            CommandEnd::NoAction(fault) => fault.status(),
            CommandEnd::WrongWords(_) => WRONG_WORDS,
        }
    }
}

/// Writes help or the version.
fn write_help<W: Write>(alloc: Global, writer: &mut W, error: &Error) -> Result<(), OpFault>
    ensures ok { OnOk result (IsHelped (W.contents writer.old) (W.contents writer.new)) }
    ensures err { IfErr result (λ e. ((e ≡ OpFault.NoMemory) × Keeps (W.contents writer.old) (W.contents writer.new))
        ⊎ IsHelpedInPart e (W.contents writer.old) (W.contents writer.new)) }
{
    match format!(in alloc; "{error}") {
        Ok(text) => write_out(writer, text.as_str()),
        Err(_) => Err(OpFault::NoMemory),
    }
}

/// Does what the words ask for, the first word being the program's own name: performs the action that they name, or
/// writes help or the version. It has five type parameters: the archive, the two streams, the progress and the system.
pub fn obey<A, I, W, P, R>(
    rt: &R,
    alloc: Global,
    archive: &A,
    words: &[String],
    reader: &mut I,
    writer: &mut W,
    progress: &P,
) -> CommandEnd
where
    A: Archive,
    I: Read,
    W: Write,
    P: Progress,
    R: Threads
        + Wait
        + SystemClock
        + Eprint
        + Net<Listener = TcpListener, Stream = TcpStream>
        + Sync,
    ensures { Obeys A.Archive archive.now A.File.remaining A.Store.NodeStore (map string_bytes words.now) result
        (I.remaining reader.old) (I.remaining reader.new) (W.contents writer.old) (W.contents writer.new) }
{
    match parse_words(alloc, words) {
        Ok(action) => match perform(rt, alloc, archive, &action, reader, writer, progress) {
            Ok(()) => CommandEnd::Done,
            Err(fault) => CommandEnd::Failed(action, fault),
        },
        Err(UsageFault::Help(error)) => match write_help(alloc, writer, &error) {
            Ok(()) => CommandEnd::Done,
            Err(fault) => CommandEnd::NoAction(fault),
        },
        Err(UsageFault::Usage(error)) => CommandEnd::WrongWords(error),
        Err(UsageFault::NoMemory) => CommandEnd::NoAction(OpFault::NoMemory),
    }
}
