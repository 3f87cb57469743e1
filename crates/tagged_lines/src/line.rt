//! A line that is read piece by piece.
ghost use Rattle.std.specs.Prelude.{◌≡◌, ◌≤◌, ◌<◌, ◌+◌, ◌++◌, length, take, drop, vec_capacity};
ghost use Rattle.tagged_lines.specs.Lines.{Adds};

use streams::{FirstLine, first_line};

/// The result of adding bytes to a line.
#[derive(Clone, Copy, Debug, PartialEq, Eq)]
pub(crate) enum Added {
    /// There was no newline.
    More,
    /// A newline ended it. The bytes after that were left out.
    Whole,
    /// It is too long, and was left as it was.
    TooLong,
}

/// Adds the bytes to the line, which has room for them, and returns `added`.
fn append(limit: usize, line: &mut Vec<u8>, bytes: &[u8], added: Added) -> Added
    requires within { length line.old.items + length bytes.now ≤ limit }
    requires room { limit < vec_capacity line.old }
    ensures items { line.new.items ≡ line.old.items ++ bytes.now }
    ensures same { result ≡ added }
    ensures room { limit < vec_capacity line.new }
{
    if line.extend_from_slice(bytes).is_err() {
        unreachable!();
    }
    added
}

/// Adds the bytes up to the first newline to the line, which may have `limit` bytes.
pub(crate) fn add(limit: usize, line: &mut Vec<u8>, bytes: &[u8]) -> Added
    requires within { length line.old.items ≤ limit }
    requires room { limit < vec_capacity line.old }
    ensures adds { Adds limit line.old.items bytes.now line.new.items result }
    ensures within { length line.new.items ≤ limit }
    ensures room { limit < vec_capacity line.new }
{
    match first_line(bytes, limit - line.len()) {
        FirstLine::Whole(front, _) => append(limit, line, front, Added::Whole),
        FirstLine::Partial => append(limit, line, bytes, Added::More),
        FirstLine::TooLong => Added::TooLong,
    }
}

/// Copies the bytes of the line from there on, as far as there is room, and returns how many were copied.
pub(crate) fn give(line: &[u8], at: usize, piece: &mut [u8]) -> usize
    requires { at ≤ length line.now }
    ensures bytes { take result piece.new ≡ take result (drop at line.now) }
    ensures bound { result ≤ length piece.new }
    ensures within { at + result ≤ length line.now }
    ensures end { result ≡ 0 → 0 < length piece.old → length line.now ≤ at }
    ensures len { length piece.new ≡ length piece.old }
{
    let count = piece.len().min(line.len() - at);
    piece[..count].copy_from_slice(&line[at..at + count]);
    count
}
