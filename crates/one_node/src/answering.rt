//! The results of lines, as they are written for a node's operator.
ghost use Rattle.std.specs.Prelude.{◌≡◌, ◌++◌, IfOk, OnOk, string_bytes};
ghost use Rattle.one_node.specs.Turns.{export_line, fault_line, fault_word};

use std::alloc::Global;
use std::fmt::Write;
use units::NoMemory;

/// Why the node did nothing for a line.
#[derive(Clone, Copy, Debug, PartialEq, Eq)]
pub enum OperatorFault {
    /// It is no order and no question.
    Order,
    /// It has more than `LONGEST_LINE` bytes.
    TooLong,
    /// It asks for an export, and the records weren't exported.
    Export,
    /// It orders a clean-up at a moment that is more than a day ahead of the node's clock.
    Moment,
}

impl OperatorFault {
    /// The word for it.
    fn word(self) -> &'static str
        ensures { result.now ≡ fault_word self }
    {
        match self {
            OperatorFault::Order => "order",
            OperatorFault::TooLong => "too-long",
            OperatorFault::Export => "export",
            OperatorFault::Moment => "moment",
        }
    }
}

/// Adds the result of the line with that number, which has that fault. After `NoMemory` the text may have a part of it.
pub(crate) fn push_fault(
    text: &mut String,
    number: u64,
    fault: OperatorFault,
) -> Result<(), NoMemory>
    ensures { OnOk result (string_bytes text.new ≡ string_bytes text.old ++ fault_line number fault) }
{
    let word = fault.word();
    writeln!(text, "{number} fault {word}")?;
    Ok(())
}

/// Adds the result of the line with that number, for which that many records were exported. After `NoMemory` the text
/// may have a part of it.
pub(crate) fn push_export(text: &mut String, number: u64, count: usize) -> Result<(), NoMemory>
    ensures { OnOk result (string_bytes text.new ≡ string_bytes text.old ++ export_line number count) }
{
    writeln!(text, "{number} exported {count}")?;
    Ok(())
}
