//! One message over one connection.
ghost use Rattle.std.specs.Prelude.{◌≡◌, ◌++◌, ◌∷◌, [], MatchResult, IfErr, IfOk};
ghost use Rattle.wire.specs.Messages.{message_text};
ghost use Rattle.exchanges.specs.Exchanges.{Exchanges};
ghost use Rattle.sessions.specs.Delivering.{IsEnded, IsOtherEnd, end_of, is_cut};
ghost use Rattle.sessions.specs.Sending.{IsReceivedBy};

use crate::elapsed::have_passed;
use crate::network::Network;
use exchanges::{Counted, Exchange, exchange};
use std::alloc::Global;
use std::io::{Read, Write};
use std::marker::Model;
use std::rt::Clock as SystemClock;
use std::time::Instant;
use units::Node;
use wire::{Message, Reply};

/// After fewer than that many seconds, a message whose connection was cut is sent again at once.
const QUICK_CUT: u64 = 1;

/// A message with its key, and the node that it is sent to over that network.
#[derive(Drop)]
pub(crate) struct Outgoing<'a, N: Network> {
    pub(crate) network: &'a N,
    pub(crate) peer: Node,
    pub(crate) key: usize,
    pub(crate) message: &'a Message,
}

/// A message with its key, and the node that it was sent to: it replied, over a connection that was made with it, that
/// the message was received. Only `Outgoing::deliver` makes one.
#[derive(Drop)]
pub(crate) struct Delivered<'a, N: Network> {
    network: &'a N,
    peer: Node,
    key: usize,
    message: &'a Message,
}

impl<'a, N: Network> Model for Delivered<'a, N> {
    ghost use Rattle.sessions.specs.Sending.{DeliveredView, IsReceivedBy};

    ghost Value = { DeliveredView N };

    ghost view = { λ d. record { network = d.network.now; peer = d.peer; key = d.key; message = d.message.now } };

    ghost invariant = { λ d. IsReceivedBy
        (N.leads d.network.now) N.Reader.remaining N.Writer.contents d.peer d.message.now };
}

/// Why a message wasn't delivered.
#[derive(Clone, Copy, Debug, PartialEq, Eq)]
pub(crate) enum Undelivered {
    /// No connection could be made.
    NoConnection,
    /// The exchange ended in that way.
    Ended(Exchange),
}

impl<'a, N: Network> Delivered<'a, N> {
    /// The key of the message.
    pub(crate) fn key(&self) -> usize
        ensures key { result ≡ self.now.key }
        ensures received { IsReceivedBy
            (N.leads self.now.network) N.Reader.remaining N.Writer.contents self.now.peer self.now.message }
    {
        self.key
    }
}

/// One exchange of the message. Fails with its end, unless it ended with the reply that the message was received.
fn deliver_over<R: Read, W: Write>(
    alloc: Global,
    reader: &mut Counted<R>,
    writer: &mut Counted<W>,
    message: &Message,
) -> Result<(), Exchange>
    ensures end { MatchResult result (λ _. Unit {0}) IsOtherEnd }
    ensures exchange { Exchanges R.remaining W.contents reader.old reader.new writer.old writer.new
        (message_text message.now ++ 10 ∷ []) (end_of result) }
{
    match exchange(alloc, reader, writer, message) {
        Exchange::Answered(Reply::Received) => Ok(()),
        end => Err(end),
    }
}

/// Whether the exchange ended because its connection was cut before a whole line was read.
fn was_cut(end: Exchange) -> bool
    ensures { result ≡ is_cut end }
{
    match end {
        Exchange::WriteFault(_) => true,
        Exchange::ReadFault => true,
        Exchange::PeerEnded => true,
        Exchange::Answered(_) => false,
        Exchange::BadReply => false,
        Exchange::NoMemory => false,
    }
}

impl<'a, N: Network> Outgoing<'a, N> {
    /// As `deliver`; but if its connection was cut in less than `QUICK_CUT` seconds, the message is sent once more, over
    /// a further connection, since a peer may close a connection just as it is used. A cut that took longer may be a
    /// read that timed out, and a further one would hold the sender as long again. If no further connection could be
    /// made, this fails as the first exchange did.
    pub(crate) fn deliver_or_retry<R: SystemClock>(
        &self,
        rt: &R,
        alloc: Global,
    ) -> Result<Delivered<'a, N>, Undelivered>
        ensures value { IfOk result
            (λ delivered. delivered ≡ record {
              network = self.now.network.now;
              peer = self.now.peer;
              key = self.now.key;
              message = self.now.message.now;
            }) }
        ensures received { IfOk result
            (λ _. IsReceivedBy (N.leads self.now.network.now) N.Reader.remaining N.Writer.contents self.now.peer
            self.now.message.now) }
    {
        let begun = Instant::now(rt).ok();
        match self.deliver(alloc) {
            Ok(delivered) => Ok(delivered),
            Err(Undelivered::NoConnection) => Err(Undelivered::NoConnection),
            Err(Undelivered::Ended(end)) => {
                if was_cut(end) && !have_passed(rt, begun, QUICK_CUT) {
                    return self.deliver_again(alloc, end);
                }
                Err(Undelivered::Ended(end))
            }
        }
    }

    /// As `deliver`, after an exchange that had that end. If no connection could be made, it fails with that end.
    fn deliver_again(
        &self,
        alloc: Global,
        before: Exchange,
    ) -> Result<Delivered<'a, N>, Undelivered>
        ensures value { IfOk result
            (λ delivered. delivered ≡ record {
              network = self.now.network.now;
              peer = self.now.peer;
              key = self.now.key;
              message = self.now.message.now;
            }) }
        ensures received { IfOk result
            (λ _. IsReceivedBy (N.leads self.now.network.now) N.Reader.remaining N.Writer.contents self.now.peer
            self.now.message.now) }
        ensures connected { IfErr result IsEnded }
    {
        match self.deliver(alloc) {
            Ok(delivered) => Ok(delivered),
            Err(Undelivered::NoConnection) => Err(Undelivered::Ended(before)),
            Err(Undelivered::Ended(end)) => Err(Undelivered::Ended(end)),
        }
    }

    /// One exchange of the message over a connection of its own. Fails if no connection could be made, or if the peer
    /// didn't reply that the message was received.
    fn deliver(&self, alloc: Global) -> Result<Delivered<'a, N>, Undelivered>
        ensures value { IfOk result
            (λ delivered. delivered ≡ record {
              network = self.now.network.now;
              peer = self.now.peer;
              key = self.now.key;
              message = self.now.message.now;
            }) }
        ensures received { IfOk result
            (λ _. IsReceivedBy (N.leads self.now.network.now) N.Reader.remaining N.Writer.contents self.now.peer
            self.now.message.now) }
    {
        let Some((reader, writer)) = self.network.connect(self.peer) else {
            return Err(Undelivered::NoConnection);
        };
        let mut reader = Counted::new(reader);
        let mut writer = Counted::new(writer);
        match deliver_over(alloc, &mut reader, &mut writer, self.message) {
            Ok(()) => Ok(Delivered {
                network: self.network,
                peer: self.peer,
                key: self.key,
                message: self.message,
            }),
            Err(end) => Err(Undelivered::Ended(end)),
        }
    }
}
