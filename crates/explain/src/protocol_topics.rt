//! The topics of `docs/PROTOCOL.md`: codes in ascending order, and then statuses.
//!
//! `tools/explained.py` compares the examples, which have these texts, with the document.

/// The name and the text of each of these topics.
pub(crate) const PROTOCOL_TOPICS: &[(&str, &str)] = &[
    (
        "41",
        "41: a refusal of a message
Cause: the line is not a message
",
    ),
    (
        "42",
        "42: a refusal of a message
Cause: it is addressed to another node
",
    ),
    (
        "43",
        "43: a refusal of a message
Cause: its sender may not send to this node: a registry takes messages from the log alone, and the
log from the scheme's registries alone
",
    ),
    (
        "44",
        "44: a refusal of a message
Cause: at the log: a proposal or a request whose identifier doesn't begin with its sender's code,
Accepted or Rejected from a registry other than the acquirer, Completed from one other than the
initiator. At a registry: a proposal to another acquirer, one whose identifier begins with the
registry's own code, or one whose blocks overlap
",
    ),
    (
        "45",
        "45: a refusal of a message
Cause: a proposal of a known transaction with different content
",
    ),
    (
        "46",
        "46: a refusal of a message
Cause: the status table has no row for it; also a proposal with Checked at the log, or with Proposed
at a registry
46: a refusal of an acknowledgement
Cause: the node has sent no message with this key; also any input that only the other kind of node
takes
",
    ),
    (
        "47",
        "47: a refusal of a message
Cause: a notification of an unknown transaction, except Cancelled at an acquirer
",
    ),
    (
        "48",
        "48: a refusal of a message
Cause: the node is stopped
",
    ),
    (
        "49",
        "49: a refusal of a message
Cause: the journal is full, and the input would be recorded
",
    ),
    (
        "50",
        "50: a refusal of a message
Cause: out of memory
",
    ),
    (
        "101",
        "101: a refusal of propose
Cause: no blocks, or more than 16
",
    ),
    (
        "102",
        "102: a refusal of propose
Cause: a first number above the last, or a number out of range
",
    ),
    (
        "103",
        "103: a refusal of propose
Cause: a unit is in the blocks twice
",
    ),
    (
        "104",
        "104: a refusal of propose
Cause: the account is unknown or closed
",
    ),
    (
        "105",
        "105: a refusal of propose
Cause: the account doesn't hold one of the units in its kind
",
    ),
    (
        "106",
        "106: a refusal of propose
Cause: one of the units is reserved
",
    ),
    (
        "107",
        "107: a refusal of propose
Cause: the acquiring registry is unknown, or is this one
",
    ),
    (
        "108",
        "108: a refusal of propose
Cause: the receiving account's number is out of range
",
    ),
    (
        "109",
        "109: a refusal of propose
Cause: the registry's 999,999 numbers are used up
",
    ),
    (
        "110",
        "110: a refusal of open or close
Cause: the scheme has no such account at this registry
",
    ),
    (
        "111",
        "111: a refusal of open or close
Cause: the account is already open, or already closed
",
    ),
    (
        "112",
        "112: a refusal of close
Cause: the account holds units
",
    ),
    (
        "113",
        "113: a refusal of close
Cause: a transfer into the account has status Accepted
",
    ),
    (
        "114",
        "114: a refusal of eligible
Cause: the scheme has no such registry
",
    ),
    (
        "115",
        "115: a refusal of request
Cause: the registry has not proposed the transaction
",
    ),
    (
        "116",
        "116: a refusal of request
Cause: the transaction no longer has status Proposed
",
    ),
    (
        "201",
        "201: a finding of the log (Terminated)
Cause: the acquirer is unknown, or is the initiator
",
    ),
    (
        "202",
        "202: a finding of the log (Terminated)
Cause: the blocks overlap
",
    ),
    (
        "203",
        "203: a finding of the log (Terminated)
Cause: a unit is allotted to nobody
",
    ),
    (
        "204",
        "204: a finding of the log (Terminated)
Cause: the owner of an allotted unit in the log's book is not the initiator
",
    ),
    (
        "205",
        "205: a finding of the log (Terminated)
Cause: a unit is in another transfer with status Checked or Accepted
",
    ),
    (
        "206",
        "206: a finding of the log (Terminated)
Cause: an allotted unit has another kind
",
    ),
    (
        "207",
        "207: a finding of the log (Terminated)
Cause: the initiator is not eligible
",
    ),
    (
        "208",
        "208: a finding of the log (Terminated)
Cause: the acquirer is in the scheme and not eligible
",
    ),
    (
        "301",
        "301: a finding of the acquirer (Rejected)
Cause: the receiving account is unknown
",
    ),
    (
        "302",
        "302: a finding of the acquirer (Rejected)
Cause: the receiving account is closed
",
    ),
    (
        "303",
        "303: a finding of the acquirer (Rejected)
Cause: a unit is held by this registry already
",
    ),
    (
        "304",
        "304: a finding of the acquirer (Rejected)
Cause: the registry doesn't take the kind of a unit
",
    ),
    (
        "Proposed",
        "Proposed: a status of a transaction, reached by these moves
Initiator, from none by propose order, all checks passed: reserves the units; proposal to the log
Initiator, from Proposed by request order, none recorded for this transaction: RequestCancellation
to the log; the units stay reserved
",
    ),
    (
        "Checked",
        "Checked: a status of a transaction, reached by these moves
Log, from none by proposal without a finding: proposal with Checked to the acquirer
",
    ),
    (
        "Accepted",
        "Accepted: a status of a transaction, reached by these moves
Log, from Checked by Accepted: Accepted to the initiator
Acquirer, from none by proposal (Checked) without a finding: Accepted to the log
",
    ),
    (
        "Rejected",
        "Rejected: a status of a transaction, reached by these moves
Initiator, from Proposed by Rejected: the units are released
Log, from Checked by Rejected: Rejected to the initiator
Acquirer, from none by proposal (Checked) with findings: Rejected to the log
",
    ),
    (
        "Terminated",
        "Terminated: a status of a transaction, reached by these moves
Initiator, from Proposed by Terminated: the units are released
Log, from none by proposal with findings: Terminated to the initiator
",
    ),
    (
        "Cancelled",
        "Cancelled: a status of a transaction, reached by these moves
Initiator, from Proposed by Cancelled: the units are released
Log, from Checked by clean-up that finds it expired: Cancelled to the initiator and then to the
acquirer
Log, from none by request: recorded without content; Cancelled to the initiator alone
Log, from Checked by request: Cancelled to the initiator and then to the acquirer
Acquirer, from none by Cancelled: recorded without content
Acquirer, from Accepted by Cancelled: nothing more
",
    ),
    (
        "Completed",
        "Completed: a status of a transaction, reached by these moves
Initiator, from Proposed by Accepted: the units leave; Completed to the log
Log, from Accepted by Completed: the book moves the units; Completed to the acquirer
Acquirer, from Accepted by Completed, where none of the units is held here: the units are credited
",
    ),
];
