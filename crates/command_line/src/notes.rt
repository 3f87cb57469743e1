//! The ends of the helps of the program and of its subcommands.

/// The end of the program's help.
pub(crate) const NOTES: &str = "Example:
  kyoto-link rehearse < examples/one_transfer/input

Exit status:
  0  success
  1  no run leads to the records of the stores, the threads of a node contradict one another, or a line of a strict
     run was not carried out
  2  wrong words on the command line
  3  the input has a fault, or could not be read, or the output could not be written
  4  a node's store has a fault
  5  out of memory

A fault is one line on standard error. docs/FORMATS.md describes the texts that are read and written,
and each fault; docs/PROTOCOL.md describes the protocol, with all codes.";

/// The end of the help of `rehearse`.
pub(crate) const REHEARSE_NOTES: &str =
    "The first line of standard input is the scheme, and each other line an event; nothing is written before
all of them are read and found without a fault.

Example:
  kyoto-link rehearse < examples/one_transfer/input

Exit status:
  0  success
  3  a line has a fault (kyoto-link: line 2: order), or the input could not be read or the output written
  5  out of memory

docs/FORMATS.md describes schemes, events and the table; docs/PROTOCOL.md has the meaning of each outcome.";

/// The end of the help of `chart`.
pub(crate) const CHART_NOTES: &str =
    "The first line of standard input is the scheme, and each other line an event, as for rehearse. A message that is
delivered is an arrow, one that is not ends in a cross, and the last note has the table. Mermaid draws no text of more
than 50,000 characters, some 1,500 events, unless its maxTextSize is set.

Example:
  kyoto-link chart < examples/one_transfer/input > one_transfer.mmd

Exit status:
  0  success
  3  a line has a fault (kyoto-link: line 2: order), or the input could not be read or the output written
  5  out of memory

docs/FORMATS.md describes schemes, events and charts.";

/// The end of the help of `show`.
pub(crate) const SHOW_NOTES: &str =
    "The store of a node is the file DIR/NODE.db. A missing store is created empty. A store of format 1 is migrated
to format 2, which needs free space of twice its size. With --existing a missing store is a fault, and no file
changes: a copy is read, which takes as much space in the folder for temporary files (TMPDIR, or /tmp).
With --json each line is an object, the last one too:

  {\"place\":0,\"record\":{\"account\":8,\"input\":\"open\",\"v\":2}}
  {\"line\":\"end\"}

Example:
  kyoto-link show scheme.json stores NZ

Exit status:
  0  success
  3  SCHEME has a fault, SCHEME or DIR could not be read, or the output could not be written
  4  the store has a fault (kyoto-link: store NZ: device)
  5  out of memory

docs/FORMATS.md describes schemes, records and stores.";

/// The end of the help of `audit`.
pub(crate) const AUDIT_NOTES: &str =
    "The store of a node is the file DIR/NODE.db: one for the log, and one for each registry of the scheme. A missing
store is created empty. A store of format 1 is migrated to format 2, which needs free space of twice its size.
With --existing a missing store is a fault, and no file changes: copies are read, which take as much space in the
folder for temporary files (TMPDIR, or /tmp). The table is that of a run which leads to exactly the records of all
stores.

With --cut the stores may be copies that were not taken at one moment. The table is that of the run with the most
records at every node whose journals are first records of the stores. For each node with records left, one line has
their number and the place of the first, and one the message that this record waits for:

  left JP 1 2
  waits JP 1 Completed NZ1 from ITL

With --json each line is an object; its key line has the first word of the line.

Example:
  kyoto-link audit scheme.json stores

Exit status:
  0  success
  1  no run leads to these records (kyoto-link: stuck at NZ 2: the first record that no run has); with --cut the
     table was written
  3  SCHEME has a fault, SCHEME or DIR could not be read, or the output could not be written
  4  a store has a fault (kyoto-link: store NZ: damaged 2)
  5  out of memory

docs/FORMATS.md describes schemes, records, stores and the table.";

/// The end of the help of `events`.
pub(crate) const EVENTS_NOTES: &str =
    "The store of a node is the file DIR/NODE.db: one for the log, and one for each registry of the scheme. A missing
store is created empty. A store of format 1 is migrated to format 2, which needs free space of twice its size.
With --existing a missing store is a fault, and no file changes, as for audit.
The scheme is written as one line, and then a line for each event of a run which leads to exactly the records of all
stores. rehearse reads these lines, and its table is the one that audit writes. With --json each event is an object.

Example:
  kyoto-link events scheme.json stores | kyoto-link chart > run.mmd

Exit status:
  0  success
  1  no run leads to these records (kyoto-link: stuck at NZ 2: the first record that no run has)
  3  SCHEME has a fault, SCHEME or DIR could not be read, or the output could not be written
  4  a store has a fault (kyoto-link: store NZ: damaged 2)
  5  out of memory

docs/FORMATS.md describes schemes, records, stores and events, and how long an input of rehearse may be.";

/// The end of the help of `trace`.
pub(crate) const TRACE_NOTES: &str =
    "The store of a node is the file DIR/NODE.db, as for audit. A line is written for each record of the transaction, in
the order of a run which leads to the records of all stores: node, place, moment, the status of the transaction at
that node after the record, and the record. The last line is end. With --json each line is an object. With --existing
a missing store is a fault, and no file changes, as for audit.

Example:
  kyoto-link trace scheme.json stores NZ1

Exit status:
  0  success
  1  no run leads to these records (kyoto-link: stuck at NZ 2: the first record that no run has)
  3  SCHEME has a fault, ID is no transaction's, SCHEME or DIR could not be read, or the output could not be written
  4  a store has a fault (kyoto-link: store NZ: damaged 2)
  5  out of memory

docs/FORMATS.md describes schemes, records, stores and the lines.";

/// The end of the help of `explain`.
pub(crate) const EXPLAIN_NOTES: &str =
    "WORDS are a code (106), a finding (203), a status (Accepted), an outcome (not possible), a word of a fault line
(damaged), or a whole line as it was written. Without words the topics are listed.

Examples:
  kyoto-link explain 106
  kyoto-link explain store NZ: device

Exit status:
  0  success
  3  no topic is named (kyoto-link: line 1: order), or the output could not be written
  5  out of memory

The texts are those of docs/PROTOCOL.md and docs/FORMATS.md.";

/// The end of the help of `run`.
pub(crate) const RUN_NOTES: &str =
    "Each node runs in threads of its own, and nodes exchange messages over sockets at free ports of 127.0.0.1. The
store of a node is the file DIR/NODE.db: one for the log, and one for each registry of the scheme. A missing store is
created empty, or with --existing a fault; a store of format 1 is migrated to format 2, which needs free space of
twice its size. A run goes on from the records that a store has. SCRIPT has a line for each order and each question:

  propose NZ 1 JP 7 NZ:1:1-100:AAU
  until JP NZ1 Completed 10000

After the last line all nodes stop. The outcome of each line is written, and then the table of a run that leads to
exactly the records of all nodes. With --strict a line that was refused, or not possible, and a status that didn't
come are a fault, after everything was written.

Example:
  kyoto-link run scheme.json stores script

Exit status:
  0  success
  1  no run leads to these records (kyoto-link: stuck at NZ 2), the threads of a node contradict one another
     (kyoto-link: unsettled NZ), or with --strict a line was not carried out (kyoto-link: line 2: not carried out)
  3  SCHEME or SCRIPT has a fault, one of them or DIR could not be read, no port is free, or the output could not
     be written
  4  a store has a fault (kyoto-link: store NZ: device)
  5  out of memory

docs/FORMATS.md describes schemes, scripts, records, stores and the table.";

/// The end of the help of `node`.
pub(crate) const NODE_NOTES: &str =
    "NODE is ITL or the code of a registry of the scheme, and its store is the file DIR/NODE.db. A missing store is
created empty; a store of format 1 is migrated to format 2, which needs free space of twice its size. The
node goes on from the records that its store has. A registry needs a --peer for ITL alone, and ITL one for each
registry. Without --keys all addresses must be of the loopback interface, as 127.0.0.1. With --clean-up, ITL cancels
expired transactions every SECONDS seconds. A line of standard input is one of a script, without the node's name,
export PATH, or stop:

  propose 1 JP 7 NZ:1:1-100:AAU
  until NZ1 Completed 10000
  export nz.db
  stop

A registry takes the orders propose, request, open and close, and ITL the orders eligible and clean-up; status and
until are questions to either; and export writes the node's records into a new store at PATH. The first line of the
output has the sum of the scheme, which is kept beside the store. Then the outcome of each line is written, with the
number of the line, before the next one is read:

  1 recorded 0
  2 status Completed
  3 exported 4

The outcome of an order may also be repeat, late or refused CODE, and of an order that the node doesn't take not
possible; that of an export that failed is fault export, and of a line of another form fault order or fault too-long.
At stop, or at the end of the lines, the node stops, and the last line has the number of its records, as records 4.

Example:
  kyoto-link node scheme.json stores NZ --listen 127.0.0.1:7001 --peer ITL=127.0.0.1:7000

Exit status:
  0  success
  1  the threads of the node contradict one another (kyoto-link: unsettled NZ)
  2  wrong words on the command line, such as a malformed ADDRESS, a peer too many or too few, or an address that
     needs keys
  3  SCHEME or FILE has a fault, NODE is no node of the scheme, SCHEME, FILE, DIR or the lines could not be read,
     users other than its owner have access to FILE, ADDRESS is not free, or the output could not be written
  4  the store has a fault (kyoto-link: store NZ: device) or belongs to another scheme
  5  out of memory

docs/FORMATS.md describes schemes, scripts, records and stores.";
