//! Nodes of the worked scheme with their desks, and the messages that others send them.
ghost use Rattle.std.specs.Prelude.{◌≡◌, [], true};
ghost use Rattle.world.specs.Cores.{journal_of};

use crate::worked_nodes::worked_scheme;
use desk::stores::MemoryStore;
use desk::{Bells, Clock, Desk, RoomBell, Stored};
use exchanges::{Counted, Exchange, exchange};
use protocol::NodeCore;
use protocol::scheme::Scheme;
use protocol::status::Moment;
use protocol::units::{NoMemory, Node};
use protocol::wire::{Message, Reply, ReplyCode};
use std::alloc::Global;
use std::io::{Read, Write};
use std::marker::Brand;
use std::process::Abort;
use test_support::{READING, again};
use wire_lines::decode;
use world::Core;

/// The log notifies NZ that a transfer is completed that NZ never proposed.
pub const COMPLETED: &str =
    r#"{"call":"AcceptNotification","codes":[],"from":"ITL","status":"Completed","to":"NZ","transaction":"NZ9"}"#;

/// The log notifies NZ that such a transfer is accepted.
pub const ACCEPTED: &str =
    r#"{"call":"AcceptNotification","codes":[],"from":"ITL","status":"Accepted","to":"NZ","transaction":"NZ9"}"#;

/// A node's reply to a message about a transfer that the node should know and doesn't.
pub const UNKNOWN: u16 = 47;

pub type NodeDesk = Desk<Brand, Core, MemoryStore, RoomBell>;

/// A clock that stands still.
#[derive(Clone, Copy, Debug)]
pub struct StillClock;

impl Clock for StillClock {
    ghost tells = { λ _ moment. moment.seconds ≡ 1_335_830_400 };

    fn now(&self) -> Moment {
        Moment {
            seconds: 1_335_830_400,
        }
    }
}

/// The core of the node.
fn core_of(rt: &impl Abort, alloc: Global, scheme: &Scheme, node: Node) -> Core
    ensures { journal_of result ≡ [] }
{
    match again!(Core::new(alloc, scheme, node), Err(NoMemory) => ()) {
        Ok(core) => core,
        Err(NoMemory) => rt.abort(),
    }
}

/// The state of the node with an empty store.
pub fn empty_state(
    rt: &impl Abort,
    alloc: Global,
    scheme: &Scheme,
    node: Node,
) -> Stored<Core, MemoryStore>
    ensures { result.state.runs ≡ true }
{
    let core = core_of(rt, alloc, scheme, node);
    let store = MemoryStore::new(alloc, core.node());
    match Stored::load(alloc, core, store) {
        Ok(stored) => stored,
        Err((_, store)) => {
            drop(store);
            rt.abort()
        }
    }
}

pub fn desk_of(rt: &impl Abort, alloc: Global, node: Node) -> NodeDesk {
    let scheme = worked_scheme(rt, alloc);
    let stored = empty_state(rt, alloc, &scheme, node);
    drop(scheme);
    Desk::new(stored, Bells::new(alloc))
}

pub fn message(rt: &impl Abort, alloc: Global, text: &str) -> Message {
    decode(alloc, text.as_bytes()).expect(rt, READING)
}

/// The reply that refuses with that code.
pub fn refused(rt: &impl Abort, code: u16) -> Reply {
    Reply::Refused(ReplyCode::new(code).expect(rt, "a code"))
}

/// One exchange over that reader and that writer.
pub fn exchange_over<R: Read + Drop, W: Write + Drop>(
    alloc: Global,
    reader: R,
    writer: W,
    message: &Message,
) -> Exchange {
    let mut reader = Counted::new(reader);
    let mut writer = Counted::new(writer);
    exchange(alloc, &mut reader, &mut writer, message)
}
