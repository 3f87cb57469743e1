//! Reading streams and writing to them: the lines of a stream that comes in pieces, all bytes of a reader, writing all
//! of some bytes, and how the calls went.
#![tactic(auto)]

mod calls;
mod lines;
mod splitter;
mod whole;

pub use calls::{CallFault, Calls};
pub use lines::{FirstLine, first_line};
pub use splitter::{Line, LineFault, Splitter, Truncated, cuts};
pub use whole::{
    LONGEST_INPUT, LONGEST_INPUT_LINE, MOST_INTERRUPTIONS, ReadFault, WriteFault, read_input,
    write_all, write_text,
};
