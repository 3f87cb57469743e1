//! Which tables a database has, found by comparing its schema part by part.
ghost use Rattle.std.specs.Prelude.{◌≡◌, ◌↔◌, ◌∷◌, [], Some, None, false, pos, length, slice_index_or, IsTrue};
ghost use Rattle.sqlite.specs.Term.{lit, col, op2};
ghost use Rattle.sqlite_schema.specs.Code.{term_in};
ghost use Rattle.store_tables.specs.Tables.{about_table, entries_table, about_columns, entry_columns};
ghost use Rattle.store_tables.specs.Layout.{IsFirst, AreTables};
ghost use Rattle.store_tables.specs.Tables.{plain_column, plain_table, is_first};

use sqlite::types::Value;
use sqlite_schema::code::{Op, Terms};
use sqlite_schema::schema::{Column, Kind, Schema, Stamps, Table};
use sqlite_sql::ops::{BinaryOp, CompareOp};
use sqlite_value::keys::Collation;

/// The tables of a database.
#[derive(Clone, Copy)]
pub enum Tables {
    /// No table at all.
    None,
    /// The two tables of a store, made in either order, and no index or view.
    Store,
    Foreign,
}

/// Whether the value is NULL.
fn is_null(value: &Value) -> bool
    ensures { IsTrue result ↔ (value.now ≡ Value.Null) }
{
    matches!(value, Value::Null)
}

/// Whether it is the column of that name and type in a STRICT table, with no default.
fn is_column(column: &Column, name: &[u8], kind: Kind, not_null: bool) -> bool
    ensures { IsTrue result ↔ (column.now ≡ plain_column name.now kind not_null) }
{
    column.name.as_slice() == name
        && column.kind == kind
        && column.is_strict
        && column.not_null == not_null
        && is_null(&column.default)
        && column.collation == Collation::Binary
}

/// Whether no default reads the time.
fn has_no_stamps(stamps: &Stamps) -> bool
    ensures { IsTrue result ↔ (stamps.now ≡ record { places = []; terms = []; formats = [] }) }
{
    stamps.places.is_empty() && stamps.terms.roots.is_empty() && stamps.formats.is_empty()
}

/// Whether its first column is its rowid, and it has no other key.
fn has_plain_key(table: &Table) -> bool
    ensures { IsTrue result ↔ ((table.now.key ≡ Some 0) × (table.now.primary ≡ 0 ∷ []) × (table.now.uniques ≡ [])
        × (table.now.orders ≡ [])) }
{
    table.key == Some(0)
        && matches!(table.primary.as_slice(), [0])
        && table.uniques.is_empty()
        && table.orders.is_empty()
}

/// Whether it has no reference, computed default or counter.
fn is_free(table: &Table) -> bool
    ensures { IsTrue result ↔ ((table.now.references ≡ []) × (table.now.computed ≡ [])
        × (table.now.stamps ≡ record { places = []; terms = []; formats = [] }) × (table.now.is_counted ≡ false)) }
{
    table.references.is_empty()
        && table.computed.is_empty()
        && has_no_stamps(&table.stamps)
        && !table.is_counted
}

/// Whether it is the table of that name and tree with no other key and no reference, regardless of its columns and
/// checks.
fn is_plain_table(table: &Table, name: &[u8], tree: u32) -> bool
    ensures { IsTrue result ↔ (table.now ≡ plain_table name.now tree table.now.columns table.now.checks) }
{
    table.name.as_slice() == name && table.tree == tree && has_plain_key(table) && is_free(table)
}

/// Whether it reads the first column of the row.
fn is_id(op: &Op) -> bool
    ensures { IsTrue result ↔ (op.now ≡ Op.Column 1 0) }
{
    matches!(op, Op::Column(1, 0))
}

/// Whether it is the number 1.
fn is_one(op: &Op) -> bool
    ensures { IsTrue result ↔ (op.now ≡ Op.Literal (Value.Int (pos 1))) }
{
    matches!(op, Op::Literal(Value::Int(1)))
}

/// Whether they are the columns of the table `about`.
fn are_about_columns(columns: &[Column]) -> bool
    ensures { IsTrue result ↔ (columns.now ≡ about_columns) }
{
    let [id, format, node] = columns else {
        return false;
    };
    is_column(id, b"id", Kind::Integer, false)
        && is_column(format, b"format", Kind::Integer, true)
        && is_column(node, b"node", Kind::Text, true)
}

/// Whether they are the columns of the table `entries`.
fn are_entry_columns(columns: &[Column]) -> bool
    ensures { IsTrue result ↔ (columns.now ≡ entry_columns) }
{
    let [place, body] = columns else {
        return false;
    };
    is_column(place, b"place", Kind::Integer, false) && is_column(body, b"body", Kind::Text, true)
}

/// Whether the expression at the place reads the first column of the row.
fn is_id_at(ops: &[Op], at: usize) -> bool
    ensures { IsTrue result ↔ (slice_index_or ops.now at (Op.Literal Value.Null) ≡ Op.Column 1 0) }
{
    match ops.get(at) {
        Some(op) => is_id(op),
        None => false,
    }
}

/// Whether the expression at the place is the number 1.
fn is_one_at(ops: &[Op], at: usize) -> bool
    ensures { IsTrue result ↔ (slice_index_or ops.now at (Op.Literal Value.Null) ≡ Op.Literal (Value.Int (pos 1))) }
{
    match ops.get(at) {
        Some(op) => is_one(op),
        None => false,
    }
}

/// Whether it compares by `=`, with no collation.
fn is_equality(op: &BinaryOp) -> bool
    ensures { IsTrue result ↔ (op.now ≡ BinaryOp.Compare CompareOp.Eq Collation.Binary) }
{
    matches!(op, BinaryOp::Compare(CompareOp::Eq, Collation::Binary))
}

/// Whether the comparison is between the first column and 1.
fn compares_id(ops: &[Op], op: &BinaryOp, left: usize, right: usize) -> bool
    ensures { IsTrue result ↔ IsFirst ops.now op.now left right }
{
    is_equality(op) && is_id_at(ops, left) && is_one_at(ops, right)
}

/// Whether the expression at the place is `id = 1`.
fn is_first_at(ops: &[Op], root: usize) -> bool
    ensures { IsTrue result ↔ (term_in ops.now root ≡ is_first) }
{
    if ops.len() < 2 {
        return false;
    }
    let Some(Op::Binary(op, left, right)) = ops.get(root) else {
        return false;
    };
    compares_id(ops, op, *left, *right)
}

/// Whether the only check is `id = 1`.
fn are_about_checks(checks: &Terms) -> bool
    ensures { IsTrue result ↔ (checks.now ≡ is_first ∷ []) }
{
    let [root] = checks.roots.as_slice() else {
        return false;
    };
    is_first_at(checks.nodes.as_slice(), *root)
}

/// Whether it is the table `about`, with its rows in that tree.
fn is_about(table: &Table, tree: u32) -> bool
    ensures { IsTrue result ↔ (table.now ≡ about_table tree) }
{
    is_plain_table(table, b"about", tree)
        && are_about_columns(table.columns.as_slice())
        && are_about_checks(&table.checks)
}

/// Whether it is the table `entries`, with its rows in that tree.
fn is_entries(table: &Table, tree: u32) -> bool
    ensures { IsTrue result ↔ (table.now ≡ entries_table tree) }
{
    is_plain_table(table, b"entries", tree)
        && are_entry_columns(table.columns.as_slice())
        && has_no_terms(&table.checks)
}

/// Whether there is no expression.
fn has_no_terms(terms: &Terms) -> bool
    ensures { IsTrue result ↔ (terms.now ≡ []) }
{
    terms.roots.is_empty()
}

/// Whether there is no index and no view.
fn has_tables_alone(schema: &Schema) -> bool
    ensures { IsTrue result ↔ ((schema.now.indexes ≡ []) × (schema.now.views ≡ [])) }
{
    schema.indexes.is_empty() && schema.views.is_empty()
}

/// The tables that the schema has.
pub fn tables_of(schema: &Schema) -> Tables
    ensures { AreTables schema.now result }
{
    if !has_tables_alone(schema) {
        return Tables::Foreign;
    }
    match schema.tables.as_slice() {
        [] => Tables::None,
        [about, entries] if is_about(about, 0) && is_entries(entries, 1) => Tables::Store,
        [entries, about] if is_entries(entries, 0) && is_about(about, 1) => Tables::Store,
        _ => Tables::Foreign,
    }
}
