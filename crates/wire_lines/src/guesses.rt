//! Guesses of the message or record that a text writes, if it has exactly the written form: the most common messages
//! and records. Keys and the signs between them are counted and not looked at, since the caller compares the text with
//! the text written for the guess.
ghost use Rattle.std.specs.Prelude.{◌<◌};

use status::{Content, Moment, Order, Status, TransactionId};
use std::alloc::Global;
use std::str::from_utf8;
use units::limits::MOST_BLOCKS;
use units::{Block, Code, Items, Node, RawBlock, cut, number};
use wire::{Body, Input, Message, NotifiedStatus, Number, Proposal, ProposalStatus};

/// How many quotation marks come before the text of a member: two around its key, and the one that begins the text.
const MARKS_BEFORE_A_TEXT: u32 = 3;

/// A text that is read from its front.
#[derive(Drop)]
struct Front<'a> {
    rest: &'a str,
}

impl<'a> Front<'a> {
    /// The text; `None` if it isn't UTF-8.
    fn new(text: &'a [u8]) -> Option<Front<'a>> {
        let rest = from_utf8(text).ok()?;
        Some(Front { rest })
    }

    /// Goes on after these characters, if they come next. Returns whether they do.
    fn skip(&mut self, word: &str) -> bool {
        match self.rest.strip_prefix(word) {
            Some(rest) => {
                self.rest = rest;
                true
            }
            None => false,
        }
    }

    /// The text before the next such character. Goes on after it.
    fn before(&mut self, end: char) -> Option<&'a str>
        requires { end < 128 }
    {
        let (found, rest) = cut(self.rest, end)?;
        self.rest = rest;
        Some(found)
    }

    /// The text of the next member.
    fn text(&mut self) -> Option<&'a str> {
        for _ in 0..MARKS_BEFORE_A_TEXT {
            self.before('"')?;
        }
        self.before('"')
    }

    /// The number of the next member, which isn't the last one.
    fn number(&mut self) -> Option<u64> {
        self.before(':')?;
        let digits = self.before(',')?;
        number(digits)
    }

    fn node(&mut self) -> Option<Node> {
        let text = self.text()?;
        Node::read(text)
    }

    fn code(&mut self) -> Option<Code> {
        let text = self.text()?;
        Code::read(text)
    }

    fn id(&mut self) -> Option<TransactionId> {
        let text = self.text()?;
        TransactionId::read(text)
    }

    /// The list of the next member.
    fn list(&mut self) -> Option<Front<'a>> {
        self.before('[')?;
        let rest = self.before(']')?;
        Some(Front { rest })
    }

    /// The next text of a list; `None` after the last one.
    fn item(&mut self) -> Option<&'a str> {
        self.before('"')?;
        self.before('"')
    }

    /// The blocks of the next member: at most `MOST_BLOCKS`.
    fn blocks(&mut self, alloc: Global) -> Option<Items<Block>> {
        let mut list = self.list()?;
        let mut blocks = Vec::new(alloc);
        for _ in 0..=MOST_BLOCKS {
            let Some(text) = list.item() else {
                return Some(Items::from_vec(blocks));
            };
            let block = Block::read(text).ok()?;
            blocks.push(block).ok()?;
        }
        None
    }

    /// The same for blocks as they were ordered.
    fn ordered(&mut self, alloc: Global) -> Option<Items<RawBlock>> {
        let mut list = self.list()?;
        let mut blocks = Vec::new(alloc);
        for _ in 0..=MOST_BLOCKS {
            let Some(text) = list.item() else {
                return Some(Items::from_vec(blocks));
            };
            let block = RawBlock::read(text)?;
            blocks.push(block).ok()?;
        }
        None
    }
}

fn proposal_status(text: &str) -> Option<ProposalStatus> {
    match Status::read(text)? {
        Status::Proposed => Some(ProposalStatus::Proposed),
        Status::Checked => Some(ProposalStatus::Checked),
        _ => None,
    }
}

fn notified_status(text: &str) -> Option<NotifiedStatus> {
    match Status::read(text)? {
        Status::Accepted => Some(NotifiedStatus::Accepted),
        Status::Cancelled => Some(NotifiedStatus::Cancelled),
        Status::Completed => Some(NotifiedStatus::Completed),
        _ => None,
    }
}

/// The fields of a proposal before the acquirer.
#[derive(Clone, Copy)]
struct Sides {
    account: u64,
    from: Node,
    status: ProposalStatus,
    to: Node,
    to_account: u64,
}

fn read_sides(front: &mut Front<'_>) -> Option<Sides> {
    let account = front.number()?;
    let _call = front.text()?;
    let from = front.node()?;
    let status = proposal_status(front.text()?)?;
    let to = front.node()?;
    let to_account = front.number()?;
    Some(Sides {
        account,
        from,
        status,
        to,
        to_account,
    })
}

fn proposal(alloc: Global, front: &mut Front<'_>) -> Option<Message> {
    let sides = read_sides(front)?;
    let acquirer = front.code()?;
    let id = front.id()?;
    let units = front.blocks(alloc)?;
    let content = Content::new(sides.account, acquirer, sides.to_account, units)?;
    let body = Body::Proposal(Proposal {
        status: sides.status,
        content,
    });
    Some(Message {
        from: sides.from,
        to: sides.to,
        id,
        body,
    })
}

/// A notification without codes, read from after them.
fn notification(front: &mut Front<'_>) -> Option<Message> {
    let from = front.node()?;
    let notified = notified_status(front.text()?)?;
    let to = front.node()?;
    let id = front.id()?;
    let body = Body::Notification(notified);
    Some(Message { from, to, id, body })
}

fn message(alloc: Global, front: &mut Front<'_>) -> Option<Message> {
    if front.skip("{\"call\":\"AcceptNotification\",\"codes\":[]") {
        notification(front)
    } else {
        proposal(alloc, front)
    }
}

/// A message that this line may write.
pub(crate) fn guess_message(alloc: Global, line: &[u8]) -> Option<Message> {
    let mut front = Front::new(line)?;
    message(alloc, &mut front)
}

/// A message that was received, read from after the key.
fn received(alloc: Global, front: &mut Front<'_>) -> Option<Input> {
    let message = message(alloc, front)?;
    let moment = Moment::new(front.number()?)?;
    Some(Input::Received { message, moment })
}

/// An acknowledgement, read from before its key.
fn acknowledgement(front: &mut Front<'_>) -> Option<Input> {
    let key = Number::new(front.number()?)?;
    Some(Input::Ack(key))
}

/// An order to transfer units.
fn order(alloc: Global, front: &mut Front<'_>) -> Option<Input> {
    let account = front.number()?;
    let _input = front.text()?;
    let to_account = front.number()?;
    let acquirer = front.code()?;
    let units = front.ordered(alloc)?;
    let order = Order::new(account, acquirer, to_account, units)?;
    Some(Input::Propose(order))
}

/// An input whose record this text may be.
pub(crate) fn guess_input(alloc: Global, text: &[u8]) -> Option<Input> {
    let mut front = Front::new(text)?;
    if front.skip("{\"input\":\"received\",\"message\":") {
        received(alloc, &mut front)
    } else if front.skip("{\"input\":\"ack\",") {
        acknowledgement(&mut front)
    } else {
        order(alloc, &mut front)
    }
}
