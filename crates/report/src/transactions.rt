//! The status of a transaction at its three nodes.
ghost use Rattle.std.specs.Prelude.{◌≡◌, ◌++◌, OnOk, string_bytes};
ghost use Rattle.report.specs.ReportLines.{transaction_line};
ghost use Rattle.report.specs.declared.form.Form.TheVariants.{Json, Lines};

use crate::form::Form;
use status::{Status, TransactionId};
use std::fmt;
use std::fmt::Write;
use units::{Code, NoMemory};

/// The status of a transaction at its three nodes, or `None` where the node has no record of it. The initiator is the
/// code of the identifier.
#[derive(Clone, Copy, Debug, PartialEq, Eq)]
pub(crate) struct TransactionRow {
    pub id: TransactionId,
    pub acquirer: Code,
    pub at_initiator: Option<Status>,
    pub at_log: Option<Status>,
    pub at_acquirer: Option<Status>,
}

#[derive(Drop)]
struct StatusOrNull(Option<Status>);

impl fmt::Display for StatusOrNull {
    ghost use Rattle.std.specs.Prelude.{Some};
    ghost use Rattle.report.specs.ReportLines.{status_or_null};

    ghost output = { λ t. Some (status_or_null t.0) };

    fn fmt<W: fmt::Write>(&self, f: &mut fmt::Formatter<W>) -> fmt::Result {
        match self.0 {
            Some(status) => write!(f, "\"{status}\""),
            None => write!(f, "null"),
        }
    }
}

#[derive(Drop)]
struct StatusOrNone(Option<Status>);

impl fmt::Display for StatusOrNone {
    ghost use Rattle.std.specs.Prelude.{Some};
    ghost use Rattle.report.specs.ReportLines.{status_or_none};

    ghost output = { λ t. Some (status_or_none t.0) };

    fn fmt<W: fmt::Write>(&self, f: &mut fmt::Formatter<W>) -> fmt::Result {
        match self.0 {
            Some(status) => write!(f, "{status}"),
            None => write!(f, "none"),
        }
    }
}

fn push_words(text: &mut String, row: &TransactionRow) -> Result<(), NoMemory>
    ensures { OnOk result (string_bytes text.new ≡ string_bytes text.old ++ transaction_line Lines row.now) }
{
    let id = row.id;
    let initiator = id.code;
    let first = StatusOrNone(row.at_initiator);
    let middle = StatusOrNone(row.at_log);
    let acquirer = row.acquirer;
    let last = StatusOrNone(row.at_acquirer);
    writeln!(
        text,
        "transaction {id} {initiator} {first} ITL {middle} {acquirer} {last}"
    )?;
    Ok(())
}

fn push_object(text: &mut String, row: &TransactionRow) -> Result<(), NoMemory>
    ensures { OnOk result (string_bytes text.new ≡ string_bytes text.old ++ transaction_line Json row.now) }
{
    let id = row.id;
    let initiator = id.code;
    let first = StatusOrNull(row.at_initiator);
    let middle = StatusOrNull(row.at_log);
    let acquirer = row.acquirer;
    let last = StatusOrNull(row.at_acquirer);
    writeln!(
        text,
        "{{\"acquirer\":\"{acquirer}\",\"acquirer_status\":{last},\"initiator\":\"{initiator}\",\"initiator_status\":{first},\"line\":\"transaction\",\"log_status\":{middle},\"transaction\":\"{id}\"}}"
    )?;
    Ok(())
}

/// Adds the line of a transaction: its identifier, and each of its nodes with the status there.
///
/// # Errors
///
/// Fails with `NoMemory` where there is no room for the line. The text may then have a part of it.
pub(crate) fn push_transaction(
    text: &mut String,
    row: &TransactionRow,
    form: Form,
) -> Result<(), NoMemory>
    ensures { OnOk result (string_bytes text.new ≡ string_bytes text.old ++ transaction_line form row.now) }
{
    match form {
        Form::Lines => push_words(text, row),
        Form::Json => push_object(text, row),
    }
}
