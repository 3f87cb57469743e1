//! The line with which some bytes begin.
ghost use Rattle.streams.specs.FirstLine.{IsFirst};

use memchr::memchr;

/// What some bytes begin with.
#[derive(Clone, Copy, Debug)]
pub enum FirstLine<'a> {
    /// A line, which is within the limit: the bytes before its newline, and the bytes after it.
    Whole(&'a [u8], &'a [u8]),
    /// Part of a line: no newline, and no more bytes than the limit.
    Partial,
    /// More bytes than the limit before any newline.
    TooLong,
}

/// The line with which the bytes begin. A line may have `limit` bytes before its newline.
pub fn first_line(bytes: &[u8], limit: usize) -> FirstLine<'_>
    ensures { IsFirst limit bytes.now result }
{
    match memchr(b'\n', bytes) {
        Some(end) if end <= limit => FirstLine::Whole(&bytes[..end], &bytes[end + 1..]),
        None if bytes.len() <= limit => FirstLine::Partial,
        _ => FirstLine::TooLong,
    }
}
