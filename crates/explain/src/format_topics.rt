//! The topics of `docs/FORMATS.md`: words of faults, and outcomes.
//!
//! `tools/explained.py` compares the examples, which have these texts, with the document.

/// The name and the text of each of these topics, in the order of the document.
pub(crate) const FORMAT_TOPICS: &[(&str, &str)] = &[
    (
        "not-json",
        "not-json: a fault of a scheme
Cause: the line is not a JSON text in UTF-8
Causes (line 1: not-json): a byte order mark before the scheme, or an encoding other than UTF-8; an
empty SCHEME file; a comma too many
What to do: write the file as UTF-8 without a byte order mark; jq . SCHEME names the place
",
    ),
    (
        "shape",
        "shape: a fault of a scheme
Cause: a key or a value that a scheme may not have: a missing or an unknown key, a value of another
type, a number or a block out of range, a kind twice
Causes (line 1: shape): a key that is missing, misspelt or unknown; a number in quotes; a block
without its kind, such as NZ:1:1-100
What to do: compare with the first line of examples/one_transfer/input
",
    ),
    (
        "too-many",
        "too-many: a fault of a scheme
Cause: more than 32 registries, 1,000 accounts in one, or 10,000 allotted blocks
",
    ),
    (
        "too-few",
        "too-few: a fault of a scheme
Cause: fewer than two registries
",
    ),
    (
        "code-twice",
        "code-twice: a fault of a scheme
Cause: two registries with the same code
",
    ),
    (
        "account-twice",
        "account-twice: a fault of a scheme
Cause: an account number twice in one registry
",
    ),
    (
        "unknown-account",
        "unknown-account: a fault of a scheme
Cause: an allotment, even one of no units, to an account that its registry doesn't have
",
    ),
    (
        "allotment-overlap",
        "allotment-overlap: a fault of a scheme
Cause: a unit allotted twice, in the same kind or in two
",
    ),
    (
        "damaged",
        "damaged: a fault of a store
When (damaged 0): at an opening: SQLite can't open the file as a database, its tables are not
exactly these two, entries has rows and about has none, or a place is below 0
When (damaged P): when the records are read, and at the opening of a store of format 1: P is the
least place that is missing although a later one is there, or whose text is not a record of the
store's format
Causes (store NZ: damaged 0): the file is no database, or a database with other tables, an index, a
view, the two tables in another spelling, one of them dropped and created again, another encoding or
auto_vacuum, even if SQLite opens it
What to do: it is not a store of this program; look for the right file
Causes (store NZ: damaged 7): the record at place 7 is missing although a later one is there, or its
text is not a record: the file was changed
What to do: sqlite3 DIR/NZ.db 'select * from entries where place = 7' shows it. Put a copy in its
place only if it has every record that the node reported: after an older one units may stay owed for
good, without a fault
Causes (store NZ: damaged 7 of audit, events and trace): the record at place 7 is missing, or its
text is not a record, or it is one that NZ would not have recorded after those before it
What to do: kyoto-link show SCHEME DIR NZ shows it
",
    ),
    (
        "wrong-version",
        "wrong-version: a fault of a store
When: the format in about is neither 1 nor 2
Causes (store NZ: wrong-node, wrong-version): the store of another node under the name of this one;
a store in a newer format than the program knows
What to do: sqlite3 DIR/NZ.db 'select * from about' shows the format and the node
",
    ),
    (
        "wrong-node",
        "wrong-node: a fault of a store
When: the node in about is another one
Causes (store NZ: wrong-node, wrong-version): the store of another node under the name of this one;
a store in a newer format than the program knows
What to do: sqlite3 DIR/NZ.db 'select * from about' shows the format and the node
",
    ),
    (
        "device",
        "device: a fault of a store
When: a call to the file system failed, or the file can't be opened
Causes (store NZ: device): another program or command has the store open, such as its own node, and
has locked it; no file handle is left (ulimit -n); a file has the size that a limit allows (ulimit
-f); the file or its log may not be written; the folder may not be entered, or a missing store can't
be created in it; a folder has the store's name; another program left a file NZ.db-journal beside
the store; the disk failed
What to do: close the other program, or have the node write a copy by export; ls -l DIR; open the
file once with sqlite3, which undoes a journal that was left
",
    ),
    (
        "full",
        "full: a fault of a store
When: there is no room on the device, or a record is too large for it
Causes (store NZ: full): no room on the device, also for the migration of a store of format 1, which
keeps its inputs
What to do: free twice the size of the store, and repeat the command
",
    ),
    (
        "reopen",
        "reopen: a fault of a store
When: an earlier call failed, and the store has not been opened again since
",
    ),
    (
        "missing",
        "missing: a fault of a store
When: --existing is given, and the folder has no store of the node
Causes (store NZ: missing): DIR is another folder; the store has another name, for example in small
letters; the node has not run yet
What to do: ls -l DIR; without --existing a missing store stands for no records, and is created
",
    ),
    (
        "recorded",
        "recorded: an outcome in a report (recorded 0)
When: the input was recorded at this place of the node's journal, tail included
recorded: an outcome in a report of a run (recorded P)
Meaning: the outcome of an order, as in a report: recorded P after the record is committed, refused
48 if the node had stopped, and refused 50 if memory ran out
",
    ),
    (
        "done",
        "done: an outcome in a report (done)
When: the commit, post, crash or restart happened
",
    ),
    (
        "repeat",
        "repeat: an outcome in a report (repeat)
When: the node had acted on the same input before; nothing changed
repeat: an outcome in a report of a run (repeat)
Meaning: the outcome of an order, as in a report: recorded P after the record is committed, refused
48 if the node had stopped, and refused 50 if memory ran out
",
    ),
    (
        "late",
        "late: an outcome in a report (late)
When: the input came too late to act on; nothing changed
late: an outcome in a report of a run (late)
Meaning: the outcome of an order, as in a report: recorded P after the record is committed, refused
48 if the node had stopped, and refused 50 if memory ran out
",
    ),
    (
        "refused",
        "refused: an outcome in a report (refused 106)
When: the input was refused, and the code names the reason; nothing changed
refused: an outcome in a report of a run (refused CODE)
Meaning: the outcome of an order, as in a report: recorded P after the record is committed, refused
48 if the node had stopped, and refused 50 if memory ran out
",
    ),
    (
        "not-possible",
        "not-possible: an outcome in a report (not possible)
When: the event can't happen; nothing changed
not-possible: an outcome in a report of a run (not possible)
Meaning: the scheme has no such node, or the node takes no such order
",
    ),
    (
        "order",
        "order: an outcome at a node (fault order)
When: the line is neither an order nor a question, nor export or stop, or it is empty
order: a fault (kyoto-link: line 2: order), with status 3
When: the line is not an event, or is empty
Causes (line 2: order): a line of another form: a misspelt word or number, two spaces, a space or a
carriage return at the end (as Windows ends lines), an empty line, a comment. The line of a scheme
may end with a space or a carriage return, that of an event may not
What to do: sed -i 's/\\r$//' removes carriage returns; the table of event lines has the forms. An
event at a node that the scheme lacks is no fault: its outcome is not possible
Causes (line 1: order of show): NODE is neither ITL nor the code of a registry of the scheme, in
capitals
What to do: SCHEME has the codes
Causes (line 1: order of trace): ID is not a transaction identifier: a registry code in capitals and
a number from 1 to 999999
What to do: show writes the identifiers that a node has
Causes (line 1: order of explain): the words name no topic
What to do: kyoto-link explain lists all topics
",
    ),
    (
        "too-long",
        "too-long: an outcome at a node (fault too-long)
When: the line has more than 8,192 bytes
too-long: a fault (kyoto-link: line 4: too-long), with status 3
When: the line exceeds the limit of a line, or has the first byte beyond the limit of the input,
which may be its newline
Causes (line 4: too-long): a line over 1,048,576 bytes, or an input over 16,777,216
What to do: split the list of events; the second part needs the events of the first
",
    ),
    (
        "export",
        "export: an outcome at a node (fault export)
When: the file of an export exists already, or can't be written
Causes (fault export of a line): the file exists; its folder doesn't exist or may not be written;
the disk is full; a relative path begins where the node was started
What to do: choose a new name, and remove an incomplete file that was left
",
    ),
    (
        "moment",
        "moment: an outcome at a node (fault moment)
When: the moment of a clean-up, at any node, is more than a day ahead of the node's clock; nothing
changed
Causes (fault moment of a line): a wrong year, month or day in the line; the clock of the node's
machine is behind
What to do: date -u shows the clock; the moment may be a day ahead of it
",
    ),
    (
        "truncated",
        "truncated: a fault (kyoto-link: line 3: truncated), with status 3
When: the line has no newline at its end. The fault of an empty input is line 1: truncated
Causes (line 3: truncated): the last line has no newline: the file was cut off, or the editor
doesn't write one
What to do: check whether the list is complete, and add the newline
",
    ),
    (
        "read",
        "read: a fault (kyoto-link: read failed), with status 3
When: the input or a file could not be read, or the folder doesn't exist
Causes (read failed): rehearse and chart: standard input is closed, or is a folder, or reading it
failed. show, audit, events, trace and run: SCHEME, or SCRIPT of run, doesn't exist, is a folder or
may not be read; or DIR doesn't exist or is not a folder, which is tried after NODE, ID and SCRIPT.
node: the same, and DIR is tried after the file of keys; or standard input failed after the first
line of output
What to do: check paths and permissions
",
    ),
    (
        "write",
        "write: a fault (kyoto-link: write failed after 17 bytes), with status 3
When: the output could not be written; its first 17 bytes were
Causes (write failed after 17 bytes): the disk is full, or the reader of a pipe is gone
",
    ),
    (
        "stuck",
        "stuck: a fault (kyoto-link: stuck at ITL 0), with status 1
When: of audit, events, trace and run: no run leads to the records of the stores. After the run that
goes furthest, this node is the first with a record left, the log before the registries, and the
number is the place of that record
Causes (stuck at ITL 0): a store is missing, empty, older than the others, or was changed, and the
record waits for a message that no node sends; run reports it before its first line too
What to do: compare the record, which kyoto-link show writes, with those of the node that should
have sent the message
",
    ),
    (
        "unsettled",
        "unsettled: a fault (kyoto-link: unsettled NZ), with status 1
When: of run and node: the threads of the node contradict one another, as no single thread would
have got the same results. The first such node is named, the log before the registries
Causes (unsettled NZ): a fault of this program, which no script, message or store can cause
What to do: keep the stores, and report it
",
    ),
    (
        "not-carried",
        "not-carried: a fault (kyoto-link: line 2: not carried out), with status 1
When: of run with --strict: the order in this line was refused or is not possible, or the status
that it waits for didn't come. The first such line is named, after everything was written
Causes (line 2: not carried out of run): the line's outcome is refused, not possible, or another
status than the one that it waits for
What to do: the output has the outcome; kyoto-link explain refused 106 explains a code; give a line
that waits more turns
",
    ),
    (
        "memory",
        "memory: a fault (kyoto-link: out of memory), with status 5
When: out of memory
Causes (out of memory): the process can't get more memory; a long input takes up to 30 times its
bytes. run and node also: the system refused a thread; a registry needs 8, and the log 7 and one for
each registry. Then no line was carried out
What to do: raise the limit of processes (ulimit -u), or of memory
",
    ),
    (
        "listen",
        "listen: a fault (kyoto-link: --listen: no address), with status 2
When: of node: the value is not an IP address with a port
listen: a fault (kyoto-link: --listen: the address can't be had), with status 3
When: of node: the system doesn't let the node listen at the address
Causes (--listen: no address, --peer: no node with its address): a host's name in place of an IP
address; no port; an IPv6 address without brackets; a code in small letters
What to do: write addresses as 192.0.2.2:7001 and [2001:db8::2]:7001, and peers as
ITL=192.0.2.1:7000
Causes (--listen: the address can't be had): another process listens at the address, perhaps the
same node; the machine doesn't have the address, or not yet; a port below 1024
What to do: ss -ltnp shows who listens; start the node after the network is up
",
    ),
    (
        "peer",
        "peer: a fault (kyoto-link: --peer: no node with its address), with status 2
When: of node: a value is not a node, =, and an IP address with a port
peer: a fault (kyoto-link: --peer: nothing is sent to JP), with status 2
When: of node: a registry sends to ITL alone, and ITL to the registries of the scheme
peer: a fault (kyoto-link: --peer: ITL is there twice), with status 2
When: of node: two of the values name this node
peer: a fault (kyoto-link: --peer: JP is missing), with status 2
When: of node: the node sends to this one, and no --peer names it. The first such node is named, the
log before the registries
Causes (--listen: no address, --peer: no node with its address): a host's name in place of an IP
address; no port; an IPv6 address without brackets; a code in small letters
What to do: write addresses as 192.0.2.2:7001 and [2001:db8::2]:7001, and peers as
ITL=192.0.2.1:7000
Causes (--peer: nothing is sent to JP, --peer: JP is missing, --peer: ITL is there twice): a
registry with another registry as its peer; a log without one of the registries; a copied line
What to do: give a registry one --peer, ITL, and ITL one for each registry
",
    ),
    (
        "keys",
        "keys: a fault (kyoto-link: --keys: an address beyond the loopback interface needs them), with status
2
When: of node: the address of --listen or of a peer is outside the loopback interface, and there is
no --keys
keys: a fault (kyoto-link: --keys: read failed), with status 3
When: of node: the file of keys could not be read
keys: a fault (kyoto-link: --keys: not a regular file), with status 3
When: of node: the path names a folder, a device or a pipe
keys: a fault (kyoto-link: --keys: another user owns the file), with status 3
When: of node: the file doesn't belong to the user who runs the node
keys: a fault (kyoto-link: --keys: others than the owner have access), with status 3
When: of node: the file's mode lets others read, write or execute it
keys: a fault (kyoto-link: --keys: line 2: no further node with its key), with status 3
When: of node: the line is not a node with a key, or has the node or the key of an earlier line, or
is the 34th. The first such line is named, and line 1 if the file is empty
keys: a fault (kyoto-link: --keys: ITL is missing), with status 3
When: of node: the node sends to this one, and no line of the file names it. The first such node is
named, the log before the registries
Causes (--keys: an address beyond the loopback interface needs them): an address other than [::1]
and those that begin with 127., for example 0.0.0.0
What to do: give --keys FILE, or use addresses of the loopback interface
Causes (--keys: read failed): the file doesn't exist, or its owner may not read it
What to do: ls -l FILE
Causes (--keys: not a regular file): a folder, or <(..) of a shell, in place of the file
What to do: give the path of a file
Causes (--keys: another user owns the file): an administrator copied the file
What to do: chown USER FILE
Causes (--keys: others than the owner have access): the file was created with mode 0644
What to do: chmod 600 FILE, and new keys if others may have read it
Causes (--keys: line 2: no further node with its key, --keys: ITL is missing): two spaces, a
comment, an empty line, a carriage return at the end; fewer or more than 64 digits; a node twice;
one key for two nodes, of which each could then forge the other's messages; the file of another node
What to do: write the other end's name, never the node's own, a space and 64 hexadecimal digits
",
    ),
    (
        "clean-up",
        "clean-up: a fault (kyoto-link: --clean-up: no number of seconds), with status 2
When: of node: the value is not a number, or is 0
clean-up: a fault (kyoto-link: --clean-up: ITL alone cleans up), with status 2
When: of node: NODE is a registry
Causes (--clean-up: no number of seconds, --clean-up: ITL alone cleans up): a unit after the number,
as in 60s; the options of the log at a registry
What to do: write digits alone, and at ITL alone
",
    ),
    (
        "node",
        "node: a fault (kyoto-link: no node of the scheme), with status 3
When: of node: NODE is neither ITL nor a registry of the scheme
Causes (no node of the scheme): a code in small letters; the SCHEME of another installation
What to do: SCHEME has the codes
",
    ),
    (
        "scheme",
        "scheme: a fault (kyoto-link: the store is of another scheme), with status 4
When: of node: the sum beside the store belongs to another scheme
scheme: a fault (kyoto-link: the scheme's sum beside the store can't be read or written), with
status 4
When: of node: the file NODE.scheme could not be read or written
Causes (the store is of another scheme): SCHEME or the store was changed or exchanged
What to do: use the scheme with which the store began; a changed scheme needs new stores at all
nodes
Causes (the scheme's sum beside the store can't be read or written): DIR may not be written; the
disk is full; a folder has the name of the file
What to do: ls -l DIR
",
    ),
];
