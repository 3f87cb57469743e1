//! Replies to the lines that a piece of a stream ends.
ghost use Rattle.std.specs.Prelude.{◌≡◌, ◌<◌, ◌≤◌, ◌↔◌, ◌++◌, ◌∷◌, [], length, IsTrue};
ghost use Rattle.wire.specs.Replies.{reply_text};
ghost use Rattle.streams.specs.Calls.{GoesOn};
ghost use Rattle.exchanges.specs.Given.{IsStopped};
ghost use Rattle.exchanges.specs.Pieces.{ServesLines};

use crate::answerer::Answerer;
use crate::counted::Counted;
use std::io::Write;
use streams::Line;
use units::NoMemory;
use units::refusal_code::NODE_STOPPED;
use wire::Reply;

/// How the replies to some lines ended.
#[derive(Clone, Copy)]
pub(crate) enum LinesEnd {
    /// Each line was replied to.
    AllReplied,
    /// The last reply that was written says that the node has stopped.
    Stopped,
    /// The writer failed, or was interrupted too often. The number is how many of the first bytes of the replies were
    /// written.
    WriteFault(usize),
    /// Out of memory.
    NoMemory,
}

/// The text of a reply with its newline.
fn reply_line(reply: Reply) -> [u8; 31]
    ensures { result ≡ reply_text reply ++ 10 ∷ [] }
{
    let mut line = [b'\n'; 31];
    line[..30].copy_from_slice(&reply.write());
    line
}

/// Whether the reply says that the node has stopped.
fn is_stopped(reply: Reply) -> bool
    ensures { IsTrue result ↔ IsStopped reply }
{
    match reply {
        Reply::Received => false,
        Reply::Refused(code) => code.number == NODE_STOPPED,
    }
}

/// Gives the line to the answerer, and writes its reply with a newline.
fn serve_line<W: Write, A: Answerer>(
    writer: &mut Counted<W>,
    left: &mut u32,
    answerer: &mut A,
    line: &[u8],
) -> LinesEnd
    requires { 0 < left.old }
    ensures serves { ServesLines W.contents left.old writer.old writer.new (A.given answerer.old)
        (A.given answerer.new) (line.now ∷ []) result }
    ensures goes { result ≡ LinesEnd.AllReplied → GoesOn left.old left.new writer.old.calls writer.new.calls }
    ensures spare { result ≡ LinesEnd.AllReplied → 0 < left.new }
{
    let Ok(reply) = answerer.answer(line) else {
        return LinesEnd::NoMemory;
    };
    let text = reply_line(reply);
    if let Err(count) = writer.write_all(left, &text) {
        return LinesEnd::WriteFault(count);
    }
    if is_stopped(reply) {
        LinesEnd::Stopped
    } else {
        LinesEnd::AllReplied
    }
}

/// How many bytes the text of a reply has, with its newline.
pub(crate) const REPLY_LINE: usize = 31;

/// How many lines a piece may end.
pub(crate) const MOST_LINES: usize = 12_288;

/// Gives each line to the answerer, and writes its reply with a newline before it gives the next one.
pub(crate) fn serve_lines<W: Write, A: Answerer>(
    writer: &mut Counted<W>,
    left: &mut u32,
    answerer: &mut A,
    lines: &[Line],
) -> LinesEnd
    requires spare { 0 < left.old }
    requires few { length lines.now ≤ MOST_LINES }
    ensures serves { ServesLines W.contents left.old writer.old writer.new (A.given answerer.old)
        (A.given answerer.new) lines.now result }
    ensures goes { result ≡ LinesEnd.AllReplied → GoesOn left.old left.new writer.old.calls writer.new.calls }
    ensures spare { result ≡ LinesEnd.AllReplied → 0 < left.new }
{
    let mut written: usize = 0;
    for line in lines {
        match serve_line(writer, left, answerer, line.as_slice()) {
            LinesEnd::AllReplied => written += REPLY_LINE,
            LinesEnd::Stopped => return LinesEnd::Stopped,
            LinesEnd::WriteFault(count) => return LinesEnd::WriteFault(written + count),
            LinesEnd::NoMemory => return LinesEnd::NoMemory,
        }
    }
    LinesEnd::AllReplied
}
