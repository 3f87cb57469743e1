//! Messages on their way to other nodes.
ghost use Rattle.sessions.specs.Sending.{Acknowledges, IsParted, IsReceivedBy, Sends, Tries};

use crate::delivery::{Delivered, Outgoing, Undelivered};
use crate::network::Network;
use desk::{Seat, SharedNode};
use exchanges::Exchange;
use std::alloc::Global;
use std::rt::Clock as SystemClock;
use std::sync::Wait;
use units::Node;
use wire::{Input, Number};

/// The outcome for the next message to a peer.
#[derive(Clone, Copy, Debug, PartialEq, Eq)]
pub(crate) enum Sent {
    /// There is no such message.
    Nothing,
    /// The peer replied that it received the message with that key, and the desk was given its acknowledgement. A desk
    /// that has stopped, or is out of memory, doesn't take it, and the message stays unacknowledged.
    Received(usize),
    /// A connection was made, and the message with that key goes unacknowledged: the last exchange ended in another way,
    /// or the key has too many digits to be acknowledged.
    NotReceived(usize),
    /// No connection could be made, and the message with that key goes unacknowledged.
    Unreachable(usize),
    /// The message with that key is left to a later pass, and nothing was sent.
    Left(usize),
    /// Out of memory.
    NoMemory,
}

/// The keys at which a pass still looks.
#[derive(Clone, Copy)]
pub(crate) struct Keys {
    /// The first of them.
    pub(crate) from: usize,
    /// The one after the last.
    pub(crate) end: usize,
}

/// Has the desk take the acknowledgement of the message with that key.
fn take_acknowledgement<D: SharedNode, R: Wait>(rt: &R, desk: &D, seat: &mut Seat, key: Number)
    ensures { Acknowledges seat.old seat.new key.value }
{
    let _taken = desk.take(rt, seat, Input::Ack(key));
}

/// Has the desk take the acknowledgement of a message that was delivered, if its key has few enough digits.
fn acknowledge<D: SharedNode, N: Network, R: Wait>(
    rt: &R,
    desk: &D,
    seat: &mut Seat,
    delivered: &Delivered<'_, N>,
) -> Sent
    ensures { Tries
        (IsReceivedBy (N.leads delivered.now.network) N.Reader.remaining N.Writer.contents)
        delivered.now.peer delivered.now.message seat.old seat.new delivered.now.key result }
{
    let key = delivered.key();
    let Some(number) = Number::new(key as u64) else {
        return Sent::NotReceived(key);
    };
    take_acknowledgement(rt, desk, seat, number);
    Sent::Received(key)
}

/// Sends the message over a connection of its own, or over a further one if that was cut at once, and acknowledges it if
/// it was delivered.
fn send<D: SharedNode, N: Network, R: Wait + SystemClock>(
    rt: &R,
    alloc: Global,
    desk: &D,
    seat: &mut Seat,
    outgoing: &Outgoing<'_, N>,
) -> Sent
    ensures { Tries
        (IsReceivedBy (N.leads outgoing.now.network.now) N.Reader.remaining N.Writer.contents)
        outgoing.now.peer outgoing.now.message.now seat.old seat.new outgoing.now.key result }
{
    match outgoing.deliver_or_retry(rt, alloc) {
        Ok(delivered) => acknowledge(rt, desk, seat, &delivered),
        Err(Undelivered::NoConnection) => Sent::Unreachable(outgoing.key),
        Err(Undelivered::Ended(Exchange::NoMemory)) => Sent::NoMemory,
        Err(Undelivered::Ended(_)) => Sent::NotReceived(outgoing.key),
    }
}

/// Sends the next message to a peer: the one with the least key, from `keys.from` on, that the committed records send
/// and no record acknowledges. Makes one exchange over a connection of its own, and one more if that was cut at once; if
/// the peer replies that the message was received, the desk is given its acknowledgement with the sender's seat, and
/// otherwise the seat notes nothing. If its key is `keys.end` or more, the message is left, and no connection is asked
/// for.
pub(crate) fn send_next<D: SharedNode, N: Network, R: Wait + SystemClock>(
    rt: &R,
    alloc: Global,
    desk: &D,
    seat: &mut Seat,
    network: &N,
    peer: Node,
    keys: Keys,
) -> Sent
    ensures sends { Sends D.is_to_send
        (IsReceivedBy (N.leads network.now) N.Reader.remaining N.Writer.contents)
        peer keys.from seat.old seat.new result }
    ensures parted { IsParted keys.end result }
{
    let Ok(found) = desk.next_send(rt, peer, keys.from) else {
        return Sent::NoMemory;
    };
    match found {
        Some((key, message)) => {
            if key >= keys.end {
                drop(message);
                return Sent::Left(key);
            }
            let outgoing = Outgoing {
                network,
                peer,
                key,
                message: &message,
            };
            send(rt, alloc, desk, seat, &outgoing)
        }
        None => Sent::Nothing,
    }
}
