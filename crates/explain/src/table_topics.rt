//! The topics of `docs/FORMATS.md` about tables: their lines and words, and the outcome of an export.
//!
//! `tools/explained.py` compares the examples, which have these texts, with the document.

/// The name and the text of each of these topics.
pub(crate) const TABLE_TOPICS: &[(&str, &str)] = &[
    (
        "transaction",
        "transaction: a line of a table (transaction NZ1 NZ Completed ITL Completed JP Accepted)
Meaning: each transaction that a registry proposed, by code and then by number: its status at the
initiator, at the log and at the acquirer, none if the node has no record of it
",
    ),
    (
        "registry",
        "registry: a line of a table (registry NZ held 100 spendable 0)
Meaning: each registry, in byte order of the codes: the number of units that it holds, and of those
that are free
",
    ),
    (
        "holds",
        "holds: a line of a table (holds NZ 1 NZ:1:1-100:AAU NZ1)
Meaning: after each registry its holdings: account, block, and free or the transaction that reserves
it
",
    ),
    (
        "owed",
        "owed: a line of a table (owed 100)
Meaning: the number of units owed by transactions that the initiator completed and the acquirer did
not
",
    ),
    (
        "due",
        "due: a line of a table (due NZ1 NZ:1:1-100:AAU)
Meaning: each block of each transaction that the initiator completed and the acquirer did not
",
    ),
    (
        "end",
        "end: a line of a table (end)
Meaning: the last line
",
    ),
    (
        "none",
        "none: a word in a table
Meaning: of a status: the node has no record of the transaction
",
    ),
    (
        "free",
        "free: a word in a table
Meaning: of a block: no transaction reserves it
",
    ),
    (
        "exported",
        "exported: an outcome at a node (exported COUNT)
When: the file has COUNT records, among them all that were committed when the line was read
",
    ),
    (
        "left",
        "left: a line of a table (left JP 1 2)
Meaning: the place of the first record of the node that the run doesn't reach, and the number of
records from there on
",
    ),
    (
        "waits",
        "waits: a line of a table (waits JP 1 Completed NZ1 from ITL)
Meaning: the place of the first record of the node that the run doesn't reach, and the message that
this record received, which by the records of the run its sender doesn't send
",
    ),
];
