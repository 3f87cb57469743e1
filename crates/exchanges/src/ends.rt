//! How exchanges and sessions end.

use wire::Reply;

/// How an exchange ended.
#[derive(Clone, Copy, Debug, PartialEq, Eq)]
pub enum Exchange {
    /// The message was written, and this reply was read.
    Answered(Reply),
    /// The writer failed, or 20,000 writes were interrupted. The number is how many of the first bytes of the message's
    /// text and its newline were written.
    WriteFault(usize),
    /// The message was written. Then the reader failed, or 20,000 reads were interrupted.
    ReadFault,
    /// The message was written. Then the stream ended before a newline.
    PeerEnded,
    /// The message was written. The bytes that were read are a line that is no reply, or 8,193 bytes without a newline.
    BadReply,
    /// Out of memory: nothing was written, or the message was written and a whole line was read.
    NoMemory,
}

/// How a session ended.
#[derive(Clone, Copy, Debug, PartialEq, Eq)]
pub enum SessionEnd {
    /// The stream ended after a newline, or was empty.
    PeerEnded,
    /// The stream ended after bytes without a newline.
    Truncated,
    /// More than 8,192 bytes followed one another without a newline.
    TooLong,
    /// The reader failed, or 20,000 reads were interrupted.
    ReadFault,
    /// The writer failed, or 20,000 writes were interrupted. The number is how many of the first bytes of the replies
    /// were written.
    WriteFault(usize),
    /// The last reply that was written says that the node has stopped.
    Stopped,
    /// The stream didn't end in 1,000,000 reads.
    TurnLimit,
    /// Out of memory.
    NoMemory,
}
