//! Why a command can't begin as its words ask: a node that is to stand alone can't be set up, or a store is missing.

ghost use Rattle.std.specs.Prelude.{◌≡◌};
ghost use Rattle.command_faults.specs.SetupFaults.{setup_fault_status};

use std::error::Error;
use std::fmt;
use units::Node;

/// Why a command can't begin as its words ask.
#[derive(Clone, Copy, Debug, PartialEq, Eq)]
pub enum SetupFault {
    /// The value of `--listen` is no address.
    Listen,
    /// A value of `--peer` isn't a node with its address.
    Peer,
    /// A `--peer` names that node, and this one sends nothing to it: a registry sends only to the log, and the log to
    /// the registries.
    Stranger(Node),
    /// Two `--peer` name that node.
    Twice(Node),
    /// No `--peer` names that node, to which this one sends.
    Missing(Node),
    /// An address isn't on the loopback interface, and there are no keys.
    Exposed,
    /// The value of `--clean-up` isn't a number of seconds of at least 1.
    CleanUp,
    /// `--clean-up` is given, and the node is a registry.
    NotTheLog,
    /// The word names no node of the scheme.
    Unknown,
    /// The file of keys can't be read.
    KeysUnread,
    /// The path of the file of keys names a folder, a device or a pipe, which may have no end.
    KeysNoFile,
    /// The file of keys belongs to another user than the one who runs the node.
    KeysOwner,
    /// Others than its owner may read or write the file of keys.
    KeysShared,
    /// That line of the file of keys, counted from 1, isn't a node with its key, or has the node or the key of an
    /// earlier line.
    KeysLine(u64),
    /// The file of keys has no key for that node.
    NoKey(Node),
    /// The node can't listen at the address of `--listen`.
    Port,
    /// The store belongs to another scheme.
    OtherScheme,
    /// The scheme's sum, a file beside the store, can't be read or written.
    SchemeSum,
    /// That node has no store in the folder, and the command takes existing stores alone.
    NoStore(Node),
}

impl fmt::Display for SetupFault {
    ghost use Rattle.std.specs.Prelude.{Some};
    ghost use Rattle.command_faults.specs.SetupFaults.{setup_fault_text};

    ghost output = { λ f. Some (setup_fault_text f) };

    fn fmt<W: fmt::Write>(&self, f: &mut fmt::Formatter<W>) -> fmt::Result {
        match *self {
            SetupFault::Listen => write!(f, "--listen: no address"),
            SetupFault::Peer => write!(f, "--peer: no node with its address"),
            SetupFault::Stranger(node) => write!(f, "--peer: nothing is sent to {node}"),
            SetupFault::Twice(node) => write!(f, "--peer: {node} is there twice"),
            SetupFault::Missing(node) => write!(f, "--peer: {node} is missing"),
            SetupFault::Exposed => write!(
                f,
                "--keys: an address beyond the loopback interface needs them"
            ),
            SetupFault::CleanUp => write!(f, "--clean-up: no number of seconds"),
            SetupFault::NotTheLog => write!(f, "--clean-up: ITL alone cleans up"),
            SetupFault::Unknown => write!(f, "no node of the scheme"),
            SetupFault::KeysUnread => write!(f, "--keys: read failed"),
            SetupFault::KeysNoFile => write!(f, "--keys: not a regular file"),
            SetupFault::KeysOwner => write!(f, "--keys: another user owns the file"),
            SetupFault::KeysShared => write!(f, "--keys: others than the owner have access"),
            SetupFault::KeysLine(line) => write!(
                f,
                "--keys: line {line}: no further node with its key"
            ),
            SetupFault::NoKey(node) => write!(f, "--keys: {node} is missing"),
            SetupFault::Port => write!(f, "--listen: the address can't be had"),
            SetupFault::OtherScheme => write!(f, "the store is of another scheme"),
            SetupFault::SchemeSum => write!(
                f,
                "the scheme's sum beside the store can't be read or written"
            ),
            SetupFault::NoStore(node) => write!(f, "store {node}: missing"),
        }
    }
}

impl Error for SetupFault {}

impl SetupFault {
    /// The program's exit status: 2 where the words are wrong by themselves, 4 where they don't fit the store or there is
    /// none, and else 3.
    pub fn status(&self) -> u8
        ensures { result ≡ setup_fault_status self.now }
    {
        match self {
            SetupFault::Listen
            | SetupFault::Peer
            | SetupFault::Stranger(_)
            | SetupFault::Twice(_)
            | SetupFault::Missing(_)
            | SetupFault::Exposed
            | SetupFault::CleanUp
            | SetupFault::NotTheLog => 2,
            SetupFault::Unknown
            | SetupFault::KeysUnread
            | SetupFault::KeysNoFile
            | SetupFault::KeysOwner
            | SetupFault::KeysShared
            | SetupFault::KeysLine(_)
            | SetupFault::NoKey(_)
            | SetupFault::Port => 3,
            SetupFault::OtherScheme | SetupFault::SchemeSum | SetupFault::NoStore(_) => 4,
        }
    }
}
