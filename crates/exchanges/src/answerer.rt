//! The source of the replies to lines.
use units::NoMemory;
use wire::Reply;

/// Replies to the lines of a session. It keeps a list of the lines that it was given, each with its reply.
pub trait Answerer {
    ghost use Rattle.std.specs.Prelude.{List};
    ghost use Rattle.exchanges.specs.Given.{Given, GivesOne};

    ghost given: { Self → List Given };

    /// The reply to a line, which comes without its newline. Adds both at the end of the list.
    ///
    /// Fails with `NoMemory` if memory ran out; the list is as it was.
    fn answer(&mut self, line: &[u8]) -> Result<Reply, NoMemory>
        ensures { GivesOne (given self.old) (given self.new) line.now result };
}
