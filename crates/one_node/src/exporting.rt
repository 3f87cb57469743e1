//! Lines that ask for an export of a node's records.
ghost use Rattle.std.specs.Prelude.{◌≡◌, [], IfNone, IfSome, OnOk, List, ℕ, length};
ghost use Rattle.units.specs.declared.code.Node.{Node as ANode};
ghost use Rattle.protocol.specs.Input.{Input as AnInput};
ghost use Rattle.one_node.specs.Operating.{AnswersExport};
ghost use Rattle.one_node.specs.Turns.{AsksExport, IsCarried, IsExportLine};

use crate::answering::{OperatorFault, push_export};
use crate::operator::Operator;
use command_faults::OpFault;
use std::io::Write;
use std::str::from_utf8;
use units::Node;
use wire::Input;

/// The records weren't exported.
#[derive(Clone, Copy, Debug, PartialEq, Eq)]
pub struct NotExported;

/// Writes records into new files.
pub trait Exporter {
    /// A store of that node is in the file at that path, and has these records.
    ghost holds: { Self → ANode → List ℕ → List AnInput → Type 0 };

    /// Writes the records of the node into a new store, in a file at the path.
    ///
    /// # Errors
    ///
    /// Fails with `NotExported` if there is a file at the path, or if the store failed.
    fn export(&self, path: &str, node: Node, records: &[Input]) -> Result<(), NotExported>
        ensures { OnOk result (holds self.now node path.now records.now) };
}

/// The path of a line that asks for an export.
pub(crate) fn export_path(line: &[u8]) -> Option<&[u8]>
    ensures some { IfSome result (λ path. IsExportLine line.now path.now) }
    ensures none { IfNone result (AsksExport line.now → ⊥) }
{
    line.strip_prefix(b"export ".as_slice())
}

/// Exports the records, which are the node's first ones, to the path of the line.
fn export_to<E: Exporter>(
    exporter: &E,
    node: Node,
    records: &[Input],
    line: &[u8],
) -> Result<(), NotExported>
    ensures { OnOk result (IsCarried (E.holds exporter.now node) records.now line.now
        (length records.now)) }
{
    let path = export_path(line).ok_or(NotExported)?;
    let path = from_utf8(path).map_err(|_| NotExported)?;
    exporter.export(path, node, records)
}

impl Operator {
    /// Exports the records, which are the node's first ones, to the path of the held line, and writes the result.
    pub(crate) fn answer_export<E: Exporter, W: Write>(
        &mut self,
        exporter: &E,
        node: Node,
        records: &[Input],
        writer: &mut W,
    ) -> Result<(), OpFault>
        requires { AsksExport self.old.line.held.items }
        ensures answered { OnOk result (AnswersExport (E.holds exporter.now node) records.now
            self.old.line.held.items (W.contents writer.old) (W.contents writer.new) self.old.count self.new.count) }
        ensures line { OnOk result (self.new.line.held.items ≡ []) }
    {
        let number = self.number()?;
        match export_to(exporter, node, records, self.line.held()) {
            Ok(()) => {
                let mut text = String::new(self.alloc);
                push_export(&mut text, number, records.len())?;
                self.write_answer(writer, text.as_str(), number)
            }
            Err(NotExported) => self.refuse(writer, OperatorFault::Export),
        }
    }
}
