//! A session: the lines of a stream, and a reply to each.
ghost use Rattle.exchanges.specs.Sessions.{Serves};

use crate::answerer::Answerer;
use crate::counted::Counted;
use crate::ends::SessionEnd;
use crate::pieces::{PIECE, PieceEnd, serve_piece, stream_end};
use crate::replying::REPLY_LINE;
use std::alloc::Global;
use std::io::{Read, Write};
use streams::{CallFault, MOST_INTERRUPTIONS, Splitter};
use units::limits::LONGEST_LINE;

/// How often a session reads at most.
const MOST_READS: usize = 1_000_000;

/// Reads lines, gives each to the answerer, and writes each reply with its newline before it gives the next line. Ends
/// after a reply that says that the node has stopped. An interrupted call is made again.
///
/// Each end says which lines were given and which bytes were read and written. `failures` of the writer has changed
/// only at `WriteFault`, and that of the reader only at `ReadFault`.
pub fn serve_session<R: Read, W: Write, A: Answerer>(
    alloc: Global,
    reader: &mut Counted<R>,
    writer: &mut Counted<W>,
    answerer: &mut A,
) -> SessionEnd
    ensures { Serves R.remaining W.contents reader.old reader.new writer.old writer.new (A.given answerer.old)
        (A.given answerer.new) result }
{
    let mut splitter = Splitter::new(alloc, LONGEST_LINE);
    let mut piece = [0u8; PIECE];
    let mut written: usize = 0;
    let mut reads: usize = 0;
    let mut reads_left = MOST_INTERRUPTIONS;
    let mut writes_left = MOST_INTERRUPTIONS;
    while reads < MOST_READS {
        reads += 1;
        match reader.read_once(&mut piece) {
            Ok(0) => return stream_end(&splitter),
            Ok(n) => match serve_piece(
                &mut splitter,
                writer,
                &mut writes_left,
                answerer,
                &piece[..n],
            ) {
                PieceEnd::Replied(lines) => written += lines * REPLY_LINE,
                PieceEnd::TooLong => return SessionEnd::TooLong,
                PieceEnd::Stopped => return SessionEnd::Stopped,
                PieceEnd::WriteFault(count) => return SessionEnd::WriteFault(written + count),
                PieceEnd::NoMemory => return SessionEnd::NoMemory,
            },
            Err(CallFault::Failed) => return SessionEnd::ReadFault,
            Err(CallFault::Interrupted) => {
                reads_left -= 1;
                if reads_left == 0 {
                    return SessionEnd::ReadFault;
                }
            }
        }
    }
    SessionEnd::TurnLimit
}
