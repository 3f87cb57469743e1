//! Replies to the lines of a stream, piece by piece.
ghost use Rattle.std.specs.Prelude.{◌≡◌, ◌<◌, ◌≤◌, ◌++◌, length, false};
ghost use Rattle.units.specs.Limits.{longest_line};
ghost use Rattle.streams.specs.Lines.{IsWithin};
ghost use Rattle.exchanges.specs.Pieces.{piece_end, open_with, IsSmall, ServesPiece, StreamEnds};

use crate::answerer::Answerer;
use crate::counted::Counted;
use crate::ends::SessionEnd;
use crate::replying::{LinesEnd, serve_lines};
use std::io::Write;
use streams::{LineFault, Splitter};

/// How many bytes are read at once at most.
pub(crate) const PIECE: usize = 4_096;

/// How the serving of a piece ended.
#[derive(Clone, Copy)]
pub(crate) enum PieceEnd {
    /// Each line that it ended was replied to. The number is how many there were.
    Replied(usize),
    /// Each line that it ended was replied to. The bytes after them are too long for a line.
    TooLong,
    /// The last reply that was written says that the node has stopped.
    Stopped,
    /// The writer failed, or was interrupted too often. The number is how many of the first bytes of the replies were
    /// written.
    WriteFault(usize),
    /// Out of memory.
    NoMemory,
}

/// `all` if each line was replied to, and otherwise why not.
fn end_of_piece(all: PieceEnd, end: LinesEnd) -> PieceEnd
    ensures { result ≡ piece_end all end }
{
    match end {
        LinesEnd::AllReplied => all,
        LinesEnd::Stopped => PieceEnd::Stopped,
        LinesEnd::WriteFault(count) => PieceEnd::WriteFault(count),
        LinesEnd::NoMemory => PieceEnd::NoMemory,
    }
}

/// How the session ends if its stream ends here.
pub(crate) fn stream_end(splitter: &Splitter) -> SessionEnd
    requires { splitter.now.closed ≡ false }
    ensures { StreamEnds splitter.now.rest result }
{
    match splitter.finish() {
        Ok(()) => SessionEnd::PeerEnded,
        Err(_) => SessionEnd::Truncated,
    }
}

/// Gives each line that the piece ends to the answerer, and writes its reply with a newline before it gives the next
/// one.
pub(crate) fn serve_piece<W: Write, A: Answerer>(
    splitter: &mut Splitter,
    writer: &mut Counted<W>,
    left: &mut u32,
    answerer: &mut A,
    piece: &[u8],
) -> PieceEnd
    requires open { splitter.old ≡ open_with splitter.old.rest }
    requires within { IsWithin longest_line splitter.old.rest }
    requires spare { 0 < left.old }
    requires short { length piece.now ≤ PIECE }
    ensures serves { ServesPiece W.contents left.old left.new writer.old writer.new (A.given answerer.old)
        (A.given answerer.new) (splitter.old.rest ++ piece.now) splitter.new result }
    ensures small { IsSmall result }
{
    match splitter.feed(piece) {
        Ok(lines) => {
            let count = lines.as_slice().len();
            let end = serve_lines(writer, left, answerer, lines.as_slice());
            end_of_piece(PieceEnd::Replied(count), end)
        }
        Err(LineFault::TooLong(lines)) => {
            let end = serve_lines(writer, left, answerer, lines.as_slice());
            end_of_piece(PieceEnd::TooLong, end)
        }
        Err(LineFault::Closed) => unreachable!(),
        Err(LineFault::NoMemory) => PieceEnd::NoMemory,
    }
}
