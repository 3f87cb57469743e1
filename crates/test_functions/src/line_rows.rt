use crate::same::assert_same;
use protocol::units::Items;
use std::process::Abort;
use streams::{Line, LineFault, Splitter, Truncated};
use test_support::{READING, again};

const LIMIT: usize = 8192;

/// The result of `feed`, by the number of lines that it returns.
#[derive(Clone, Copy, PartialEq, Eq, Debug)]
enum Fed {
    Lines(usize),
    TooLong(usize),
    Closed,
    NoMemory,
}

/// The lines of the piece. Where memory ran out, the stream still ends as it did, and the piece is fed once more.
fn lines_of(rt: &impl Abort, splitter: &mut Splitter, piece: &[u8]) -> Items<Line> {
    let end = splitter.finish();
    let fed = again!(
        splitter.feed(piece),
        Err(LineFault::NoMemory) => assert_same(rt, splitter.finish(), end)
    );
    fed.expect(rt, "lines")
}

/// The number of those lines.
fn count(lines: Items<Line>) -> usize {
    let count = lines.as_slice().len();
    drop(lines);
    count
}

fn feed_once(splitter: &mut Splitter, piece: &[u8]) -> Fed {
    match splitter.feed(piece) {
        Ok(lines) => Fed::Lines(count(lines)),
        Err(LineFault::TooLong(lines)) => Fed::TooLong(count(lines)),
        Err(LineFault::Closed) => Fed::Closed,
        Err(LineFault::NoMemory) => Fed::NoMemory,
    }
}

/// The result of the splitter for the piece. Where memory ran out, the stream still ends as it did, and the piece is
/// fed once more.
fn feed(rt: &impl Abort, splitter: &mut Splitter, piece: &[u8]) -> Fed {
    let end = splitter.finish();
    again!(
        feed_once(splitter, piece),
        Fed::NoMemory => assert_same(rt, splitter.finish(), end)
    )
}

#[test]
fn a_line_over_the_limit(rt: HostRuntime) {
    let alloc = rt.alloc();
    let bytes = vec![in alloc; b'a'; LIMIT + 1].expect(&rt, READING);
    let mut splitter = Splitter::new(alloc, LIMIT);
    assert_same(&rt, feed(&rt, &mut splitter, &bytes), Fed::TooLong(0));
    assert_same(&rt, feed(&rt, &mut splitter, b"\n"), Fed::Closed);
    assert_same(&rt, splitter.finish(), Err(Truncated));
}

/// The line has these bytes.
fn assert_line(rt: &impl Abort, line: Line, bytes: &[u8]) {
    assert_same(rt, line.as_slice(), bytes);
    assert_same(rt, line.into_vec().as_slice(), bytes);
}

/// The lines have these bytes.
fn assert_lines(rt: &impl Abort, lines: Items<Line>, wanted: &[&[u8]]) {
    assert_same(rt, lines.as_slice().len(), wanted.len());
    for (line, bytes) in lines.as_slice().iter().zip(wanted) {
        assert_same(rt, line.as_slice(), *bytes);
    }
}

#[test]
fn a_line_of_the_limit(rt: HostRuntime) {
    let alloc = rt.alloc();
    let bytes = vec![in alloc; b'a'; LIMIT].expect(&rt, READING);
    let mut stream = Vec::from_slice(alloc, &bytes).expect(&rt, READING);
    stream.push(b'\n').expect(&rt, READING);
    let mut splitter = Splitter::new(alloc, LIMIT);
    let lines = lines_of(&rt, &mut splitter, &stream);
    assert_same(&rt, lines.as_slice().len(), 1);
    for line in lines.into_vec() {
        assert_line(&rt, line, &bytes);
    }
    assert_same(&rt, splitter.finish(), Ok(()));
}

#[test]
fn pieces_fed_again(rt: HostRuntime) {
    let mut splitter = Splitter::new(rt.alloc(), LIMIT);
    assert_lines(&rt, lines_of(&rt, &mut splitter, b"ab"), &[]);
    let wanted = [b"abc".as_slice(), b"".as_slice(), b"d".as_slice()];
    assert_lines(
        &rt,
        lines_of(&rt, &mut splitter, b"c\n\nd\nlonger"),
        &wanted,
    );
    assert_lines(
        &rt,
        lines_of(&rt, &mut splitter, b"\n"),
        &[b"longer".as_slice()],
    );
    assert_same(&rt, splitter.finish(), Ok(()));
}

#[test]
fn a_stream_that_ends_within_a_line(rt: HostRuntime) {
    let mut splitter = Splitter::new(rt.alloc(), LIMIT);
    assert_same(&rt, feed(&rt, &mut splitter, b"ab"), Fed::Lines(0));
    assert_same(&rt, splitter.finish(), Err(Truncated));
}
