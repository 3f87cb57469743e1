//! Reading all of a reader, and writing all of some bytes.
ghost use Rattle.std.specs.Prelude.{◌<◌, length, take, IfOk, IfErr, MatchResult, OnOk};
ghost use Rattle.std.specs.Io.KnownBytes.{Appends};
ghost use Rattle.streams.specs.Calls.{Fails, FailsAfter, GoesOn, IsReadingFault, no_calls};
ghost use Rattle.streams.specs.Inputs.{Takes};

use crate::calls::{CallFault, Calls};
use std::alloc::Global;
use std::io::{Read, Write};

/// The greatest length of a line of an input in bytes, without its newline.
pub const LONGEST_INPUT_LINE: usize = 1_048_576;

/// The greatest length of an input in bytes.
pub const LONGEST_INPUT: usize = 16_777_216;

/// How many interrupted calls in all count as a fault.
pub const MOST_INTERRUPTIONS: u32 = 20_000;

/// How often an input is read at most, interrupted reads included.
const MOST_READS: u64 = 16_777_217;

const PIECE: usize = 65_536;

/// Why a reader was not read to its end.
#[derive(Clone, Copy, Debug, PartialEq, Eq)]
pub enum ReadFault {
    /// A read failed and was not interrupted, or the end didn't come in 16,777,217 reads. It has the counts of the
    /// reads.
    Read(Calls),
    /// Out of memory. It has the counts of the reads; none of them failed.
    NoMemory(Calls),
}

/// Why not all bytes were written: a write failed and was not interrupted, or took no byte, or `MOST_INTERRUPTIONS` of
/// them were interrupted.
#[derive(Clone, Copy, Debug, PartialEq, Eq)]
pub struct WriteFault {
    /// How many of the first bytes were written.
    pub written: usize,
    /// The counts of the writes.
    pub calls: Calls,
}

/// All bytes of the reader, up to one byte more than an input may have. An interrupted read is made again.
///
/// # Errors
///
/// - `Read`: a read failed and was not interrupted, or the end didn't come in 16,777,217 reads; the bytes that were
///   read are lost.
/// - `NoMemory`: out of memory; the bytes that were read are lost.
pub fn read_input<R: Read>(alloc: Global, reader: &mut R) -> Result<Vec<u8>, ReadFault>
    ensures ok { IfOk result (λ v. Takes (R.remaining reader.old) (R.remaining reader.new) v.items) }
    ensures err { IfErr result IsReadingFault }
{
    let mut input = Vec::new(alloc);
    let mut piece = [0u8; PIECE];
    let mut calls = Calls::none();
    while calls.count() < MOST_READS {
        let room = (LONGEST_INPUT + 1 - input.len()).min(PIECE);
        match calls.read(reader, &mut piece[..room]) {
            Ok(0) => return Ok(input),
            Ok(n) => {
                if input.extend_from_slice(&piece[..n]).is_err() {
                    return Err(ReadFault::NoMemory(calls));
                }
                if input.len() > LONGEST_INPUT {
                    return Ok(input);
                }
            }
            Err(CallFault::Interrupted) => {}
            Err(CallFault::Failed) => return Err(ReadFault::Read(calls)),
        }
    }
    Err(ReadFault::Read(calls))
}

/// Writes the bytes, and counts the calls. An interrupted write is made again, and `left` is how many more
/// interruptions there may be.
///
/// # Errors
///
/// Fails if the writer failed or took no byte, or if it was interrupted that often. The error is how many of the first
/// bytes were written; no others were.
pub fn write_all<W: Write>(
    writer: &mut W,
    calls: &mut Calls,
    left: &mut u32,
    bytes: &[u8],
) -> Result<(), usize>
    requires { 0 < left.old }
    ensures ok { OnOk result (Appends (W.contents writer.old) (W.contents writer.new) bytes.now) }
    ensures err { IfErr result (λ n. (n < length bytes.now)
        × Appends (W.contents writer.old) (W.contents writer.new) (take n bytes.now)) }
    ensures goes { MatchResult result (λ _. GoesOn left.old left.new calls.old calls.new × (0 < left.new))
        (λ _. FailsAfter left.old calls.old calls.new) }
{
    let mut at: usize = 0;
    while at < bytes.len() {
        match calls.write(writer, &bytes[at..]) {
            Ok(n) => at += n,
            Err(CallFault::Failed) => return Err(at),
            Err(CallFault::Interrupted) => {
                *left -= 1;
                if *left == 0 {
                    return Err(at);
                }
            }
        }
    }
    Ok(())
}

/// Writes the bytes. An interrupted write is made again.
///
/// # Errors
///
/// Fails if a write failed and was not interrupted, or took no byte, and at the 20,000th interrupted one. The error has
/// how many of the first bytes were written; no others were.
pub fn write_text<W: Write>(writer: &mut W, bytes: &[u8]) -> Result<(), WriteFault>
    ensures ok { OnOk result (Appends (W.contents writer.old) (W.contents writer.new) bytes.now) }
    ensures err { IfErr result
        (λ f. Appends (W.contents writer.old) (W.contents writer.new) (take f.written bytes.now)) }
    ensures short { IfErr result (λ f. f.written < length bytes.now) }
    ensures stops { IfErr result (λ f. Fails no_calls f.calls) }
{
    let mut calls = Calls::none();
    let mut left = MOST_INTERRUPTIONS;
    match write_all(writer, &mut calls, &mut left, bytes) {
        Ok(()) => Ok(()),
        Err(written) => Err(WriteFault { written, calls }),
    }
}
