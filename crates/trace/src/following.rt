//! The events of a run one after another, and the lines of the transaction's records.
ghost use Rattle.std.specs.Prelude.{◌≡◌, ◌≤◌, [], IfOk, None, OnOk, Some, drop, length, option_copied, option_map, slice_get};
ghost use Rattle.protocol.specs.Claims.{whole};
ghost use Rattle.protocol.specs.Weave.{Placed};
ghost use Rattle.protocol.specs.World.{World as Place, opening, station};
ghost use Rattle.protocol.specs.declared.event.Outcome.TheVariants.{Recorded};
ghost use Rattle.status.specs.Status.{same_status};
ghost use Rattle.trace.specs.Followed.{HasFollowed, HasLines, KnowsSent, is_traced, place_of, sent_about};
ghost use Rattle.trace.specs.Lines.{AreRowLines, IsTrace};
ghost use Rattle.trace.specs.Rows.{given, names, row_of, rows, same_standing, standing};

use crate::sent::{Sent, acknowledges, add_sent, is_same_id};
use crate::text::push_row;
use protocol::scheme::Scheme;
use protocol::{Outcome, Posted, WorldEvent};
use report::{Form, end_line};
use status::{Status, TransactionId};
use std::alloc::Global;
use units::{NoMemory, Node};
use wire::Input;
use world::{ReachedWorld, World};

/// The world that some events led to, and the lines of the transaction's records among those of these events.
pub(crate) struct Tracing {
    pub alloc: Global,
    pub id: TransactionId,
    pub form: Form,
    pub world: ReachedWorld,
    /// The messages about the transaction in the world's bag.
    pub sent: Vec<Sent>,
    pub text: Vec<u8>,
}

// Written out, since a derived destructor is proved anew in each function that drops a value.
impl Drop for Tracing {
    fn drop(self) {
        let Tracing {
            alloc: _,
            id: _,
            form: _,
            world,
            sent,
            text,
        } = self;
        drop(world);
        drop(sent);
        drop(text);
    }
}

/// The node to which the event gives an input, if it gives one.
fn receiver(world: &World, event: &WorldEvent) -> Option<Node>
    ensures { result ≡ option_map (λ r. r.node) (given world.now event.now) }
{
    match event {
        WorldEvent::Take { node, .. } => Some(*node),
        WorldEvent::Deliver { message, .. } => {
            let posted = world.bag_message(*message)?;
            Some(posted.message.to)
        }
        _ => None,
    }
}

/// The record at that place of the node's journal, if there is one.
fn record_at(world: &World, node: Node, place: u64) -> Option<&Input>
    ensures { option_copied result ≡ slice_get (whole (station world.now node)) place }
{
    let journal = world.journal(node)?;
    journal.get(place as usize)
}

/// Whether the input is a message about the transaction, or a request for its cancellation.
fn names(id: TransactionId, input: &Input) -> bool
    ensures { result ≡ names id input.now }
{
    match input {
        Input::Request(named) => is_same_id(*named, id),
        Input::Received { message, .. } => is_same_id(message.id, id),
        _ => false,
    }
}

fn is_same_status(a: Status, b: Status) -> bool
    ensures { result ≡ same_status a b }
{
    a == b
}

fn is_same_standing(a: Option<Status>, b: Option<Status>) -> bool
    ensures { result ≡ same_standing a b }
{
    match (a, b) {
        (Some(a), Some(b)) => is_same_status(a, b),
        (None, None) => true,
        _ => false,
    }
}

/// Whether the input is a record of the transaction, whose status at the node was `before` and is `now`.
fn is_traced(
    sent: &[Sent],
    id: TransactionId,
    node: Node,
    input: &Input,
    before: Option<Status>,
    now: Option<Status>,
) -> bool
    ensures { result ≡ is_traced sent.now id node input.now before now }
{
    names(id, input) || acknowledges(sent, node, input) || !is_same_standing(before, now)
}

/// The place at which an input was recorded, if it was recorded.
fn place_of(outcome: Outcome) -> Option<u64>
    ensures { result ≡ place_of outcome }
{
    match outcome {
        Outcome::Recorded(place) => Some(place),
        _ => None,
    }
}

/// The messages of the bag from that number on.
fn bag_from(world: &World, first: usize) -> &[Posted]
    requires { first ≤ length world.now.bag }
    ensures { result.now ≡ drop first world.now.bag }
{
    &world.bag()[first..]
}

impl Tracing {
    /// The opening world, in which nothing is recorded.
    fn new(
        alloc: Global,
        scheme: &Scheme,
        id: TransactionId,
        form: Form,
    ) -> Result<Tracing, NoMemory>
        ensures id { IfOk result (λ t. t.id ≡ id) }
        ensures form { IfOk result (λ t. t.form ≡ form) }
        ensures world { IfOk result (λ t. t.world ≡ opening scheme.now) }
        ensures sent { IfOk result KnowsSent }
        ensures text { IfOk result (λ t. t.text.items ≡ []) }
    {
        Ok(Tracing {
            alloc,
            id,
            form,
            world: ReachedWorld::new(alloc, scheme)?,
            sent: Vec::new(alloc),
            text: Vec::new(alloc),
        })
    }

    /// Adds the line of the record at that place of the node's journal, if it is of the transaction. `before` is the
    /// transaction's status at the node before the record.
    fn add_record(&mut self, node: Node, place: u64, before: Option<Status>) -> Result<(), NoMemory>
        ensures lines { (w : Place) (r : Placed) → r.node ≡ node
            → slice_get (whole (station self.old.world node)) place ≡ Some r.input
            → before ≡ standing w node self.old.id → self.old.sent.items ≡ sent_about self.old.id w.bag
            → OnOk result (HasLines self.old.form self.old.text.items self.new.text.items
            (row_of w self.old.world self.old.id r (Recorded place))) }
        ensures same { OnOk result ((self.new.id ≡ self.old.id) × (self.new.world ≡ self.old.world)
            × (self.new.sent.items ≡ self.old.sent.items) × (self.new.form ≡ self.old.form)) }
    {
        let Some(input) = record_at(self.world.as_world(), node, place) else {
            return Ok(());
        };
        let now = self.world.as_world().status(node, self.id);
        if is_traced(self.sent.as_slice(), self.id, node, input, before, now) {
            let text = &mut self.text;
            push_row(self.alloc, text, self.form, node, place, input, now)?;
        }
        Ok(())
    }

    /// Follows an event that gives the node an input. Such an event posts nothing.
    fn give(&mut self, node: Node, event: &WorldEvent) -> Result<(), NoMemory>
        requires sent { KnowsSent self.old }
        requires given { option_map (λ r. r.node) (given self.old.world event.now) ≡ Some node }
        ensures { OnOk result (HasFollowed self.old self.new event.now) }
    {
        let before = self.world.as_world().status(node, self.id);
        let outcome = self.world.apply(event)?;
        if let Some(place) = place_of(outcome) {
            self.add_record(node, place, before)?;
        }
        Ok(())
    }

    /// Follows an event that gives no node an input.
    fn pass(&mut self, event: &WorldEvent) -> Result<(), NoMemory>
        requires sent { KnowsSent self.old }
        requires given { option_map (λ r. r.node) (given self.old.world event.now) ≡ None }
        ensures { OnOk result (HasFollowed self.old self.new event.now) }
    {
        let before = self.world.as_world().bag().len();
        self.world.apply(event)?;
        add_sent(
            &mut self.sent,
            self.id,
            bag_from(self.world.as_world(), before),
        )?;
        Ok(())
    }

    /// Follows an event.
    fn follow(&mut self, event: &WorldEvent) -> Result<(), NoMemory>
        requires sent { KnowsSent self.old }
        ensures { OnOk result (HasFollowed self.old self.new event.now) }
    {
        match receiver(self.world.as_world(), event) {
            Some(node) => self.give(node, event),
            None => self.pass(event),
        }
    }

    /// Follows all the events.
    fn follow_all(&mut self, events: &[WorldEvent]) -> Result<(), NoMemory>
        requires sent { KnowsSent self.old }
        ensures { OnOk result (HasLines self.old.form self.old.text.items self.new.text.items
            (rows self.old.world self.old.id events.now)) }
    {
        for event in events {
            self.follow(event)?;
        }
        Ok(())
    }

    /// The text of the lines.
    fn into_text(self) -> Vec<u8>
        ensures { result ≡ self.text }
    {
        let Tracing {
            alloc: _,
            id: _,
            form: _,
            world,
            sent,
            text,
        } = self;
        drop(world);
        drop(sent);
        text
    }
}

/// The lines of the records of the transaction in the run of these events from the opening world.
fn lines_of(
    alloc: Global,
    scheme: &Scheme,
    events: &[WorldEvent],
    id: TransactionId,
    form: Form,
) -> Result<Vec<u8>, NoMemory>
    ensures { IfOk result (λ v. AreRowLines form v.items (rows (opening scheme.now) id events.now)) }
{
    let mut tracing = Tracing::new(alloc, scheme, id, form)?;
    match tracing.follow_all(events) {
        Ok(()) => Ok(tracing.into_text()),
        Err(NoMemory) => {
            drop(tracing);
            Err(NoMemory)
        }
    }
}

/// The trace of the transaction in the run of these events from the opening world.
///
/// # Errors
///
/// Fails with `NoMemory` where there is no room for the text or for the world, and where `push_row` does.
pub(crate) fn trace_text(
    alloc: Global,
    scheme: &Scheme,
    events: &[WorldEvent],
    id: TransactionId,
    form: Form,
) -> Result<Vec<u8>, NoMemory>
    ensures { IfOk result (λ v. IsTrace form v.items (rows (opening scheme.now) id events.now)) }
{
    let mut text = lines_of(alloc, scheme, events, id, form)?;
    text.extend_from_slice(end_line(form))?;
    Ok(text)
}
