//! The command `chart`: a written list of events as Mermaid's sequence diagram.

ghost use Rattle.std.specs.Prelude.{◌≡◌, ◌++◌, ◌||◌, ◌&&◌, ◌==◌, ◌∷◌, [], ℕ, List, codes, flat_map, map, option_copied, IfErr, IfOk, OnOk, string_bytes};
ghost use Rattle.std.specs.BTreeSet.{contains};
ghost use Rattle.std.specs.Io.KnownBytes.{Appends};
ghost use Rattle.std.specs.List.{list_any};
ghost use Rattle.std.specs.Ordering.{nat_cmp};
ghost use Rattle.units.specs.Code.{same_node};
ghost use Rattle.units.specs.declared.code.Node.{Node};
ghost use Rattle.protocol.specs.Scheme.{Scheme};
ghost use Rattle.protocol.specs.World.{opening, run};
ghost use Rattle.protocol.specs.declared.event.WorldEvent.{WorldEvent};
ghost use Rattle.chart.specs.ChartLines.{lost_line, participant_line, wide_note_line};
ghost use Rattle.chart.specs.Chart.{HasDrawn, Happening, IsChart, IsDrawn, arrives, delivers, event_nodes, first_ones, is_delivered, lost, message_of, parties};
ghost use Rattle.event_reports.specs.Rehearsal.{Reports, FailsSo};
ghost use Rattle.report.specs.Table.{IsSafeTable};
ghost use Rattle.report.specs.declared.form.Form.TheVariants.{Lines};

use crate::events::push_event;
use crate::messages::push_lost;
use crate::table::{push_participant, push_wide_note};
use command_faults::OpFault;
use event_reports::{Reporter, report_input};
use protocol::scheme::Scheme;
use protocol::{Outcome, Posted, WorldEvent};
use report::{Form, push_table};
use std::alloc::Global;
use std::collections::BTreeSet;
use std::io::{Read, Write};
use units::{NoMemory, Node};
use wire::Message;
use world::{ReachedWorld, World};

/// The drawing of the events so far.
#[derive(Drop)]
struct Drawing {
    /// The nodes that they name, each once.
    nodes: Vec<Node>,
    /// The numbers in the bag of the messages that arrived.
    delivered: BTreeSet<u64>,
    lines: String,
}

/// The world that the events so far lead to, and their drawing.
#[derive(Drop)]
struct Sketch {
    alloc: Global,
    world: ReachedWorld,
    drawing: Drawing,
}

fn has_node(nodes: &[Node], node: Node) -> bool
    ensures { result ≡ list_any (λ n. same_node n node) nodes.now }
{
    nodes.iter().any(|n| *n == node)
}

/// Adds a node, unless it is there.
fn add_node(nodes: &mut Vec<Node>, node: Node) -> Result<(), NoMemory>
    ensures { OnOk result ((ns : List Node) → nodes.old.items ≡ first_ones ns
        → nodes.new.items ≡ first_ones (ns ++ node ∷ [])) }
{
    if !has_node(nodes.as_slice(), node) {
        nodes.push(node)?;
    }
    Ok(())
}

/// Adds the sender and the receiver of a message, unless they are there.
fn add_parties(nodes: &mut Vec<Node>, message: &Message) -> Result<(), NoMemory>
    ensures { OnOk result ((ns : List Node) → nodes.old.items ≡ first_ones ns
        → nodes.new.items ≡ first_ones (ns ++ parties message.now)) }
{
    add_node(nodes, message.from)?;
    add_node(nodes, message.to)?;
    Ok(())
}

/// Adds the nodes of an event, unless they are there.
fn add_nodes(
    nodes: &mut Vec<Node>,
    message: Option<&Message>,
    event: &WorldEvent,
) -> Result<(), NoMemory>
    ensures { OnOk result ((ns : List Node) → nodes.old.items ≡ first_ones ns
        → nodes.new.items ≡ first_ones (ns ++ event_nodes (option_copied message.entry) event.now)) }
{
    match event {
        WorldEvent::Take { node, .. }
        | WorldEvent::Commit { node, .. }
        | WorldEvent::Post { node, .. }
        | WorldEvent::Crash { node, .. }
        | WorldEvent::Restart { node } => add_node(nodes, *node),
        WorldEvent::Deliver { .. } => match message {
            Some(message) => add_parties(nodes, message),
            None => add_node(nodes, Node::Itl),
        },
    }
}

fn arrives(outcome: Outcome) -> bool
    ensures { result ≡ arrives outcome }
{
    match outcome {
        Outcome::NotPossible => false,
        _ => true,
    }
}

/// Marks a number in the bag, if the delivered message arrives.
fn mark_delivered(
    delivered: &mut BTreeSet<u64>,
    number: u64,
    outcome: Outcome,
) -> Result<(), NoMemory>
    ensures { OnOk result ((k : ℕ)
        → contains nat_cmp delivered.new k ≡ (contains nat_cmp delivered.old k || (arrives outcome && (number == k)))) }
{
    if arrives(outcome) {
        delivered.insert(number)?;
    }
    Ok(())
}

/// Marks the number in the bag of the message that arrives by the event, if one does.
fn mark(delivered: &mut BTreeSet<u64>, event: &WorldEvent, outcome: Outcome) -> Result<(), NoMemory>
    ensures { OnOk result ((k : ℕ)
        → contains nat_cmp delivered.new k ≡ (contains nat_cmp delivered.old k || delivers k event.now outcome)) }
{
    match event {
        WorldEvent::Deliver { message, .. } => mark_delivered(delivered, *message, outcome),
        _ => Ok(()),
    }
}

impl Drawing {
    /// Draws an event and its outcome. `message` is the one with a delivery's number in the bag.
    fn add(
        &mut self,
        message: Option<&Message>,
        event: &WorldEvent,
        outcome: Outcome,
    ) -> Result<(), NoMemory>
        ensures { OnOk result ((hs : List Happening)
            → IsDrawn hs self.old.nodes.items (contains nat_cmp self.old.delivered) (string_bytes self.old.lines)
            → IsDrawn (hs ++ record { event = event.now; outcome = outcome; message = option_copied message.entry } ∷
            [])
            self.new.nodes.items (contains nat_cmp self.new.delivered) (string_bytes self.new.lines)) }
    {
        add_nodes(&mut self.nodes, message, event)?;
        mark(&mut self.delivered, event, outcome)?;
        push_event(&mut self.lines, message, event, outcome)?;
        Ok(())
    }
}

/// The message with a delivery's number in the bag.
fn message_of<'a>(world: &'a World, event: &WorldEvent) -> Option<&'a Message>
    ensures { option_copied result ≡ message_of world.now event.now }
{
    match event {
        WorldEvent::Deliver { message, .. } => {
            let posted = world.bag_message(*message)?;
            Some(&posted.message)
        }
        _ => None,
    }
}

/// The messages of the bag that never arrived.
fn lost<'a>(
    alloc: Global,
    delivered: &BTreeSet<u64>,
    bag: &'a [Posted],
) -> Result<Vec<&'a Message>, NoMemory>
    ensures { IfOk result (λ v. (hs : List Happening)
        → ((k : ℕ) → contains nat_cmp delivered.now k ≡ is_delivered hs k)
        → map (λ m. m.now) v.items ≡ lost hs bag.now) }
{
    let mut lost = Vec::new(alloc);
    for (number, posted) in bag.iter().enumerate() {
        if !delivered.contains(&(number as u64)) {
            lost.push(&posted.message)?;
        }
    }
    Ok(lost)
}

/// Adds the senders and receivers of the messages, unless they are there.
fn add_all_parties(nodes: &mut Vec<Node>, messages: &[&Message]) -> Result<(), NoMemory>
    ensures { OnOk result ((ns : List Node) → nodes.old.items ≡ first_ones ns
        → nodes.new.items ≡ first_ones (ns ++ flat_map parties (map (λ m. m.now) messages.now))) }
{
    for message in messages {
        add_parties(nodes, *message)?;
    }
    Ok(())
}

fn push_participants(text: &mut String, nodes: &[Node]) -> Result<(), NoMemory>
    ensures { OnOk result (string_bytes text.new ≡ string_bytes text.old ++ flat_map participant_line nodes.now) }
{
    for node in nodes {
        push_participant(text, *node)?;
    }
    Ok(())
}

fn push_all_lost(text: &mut String, messages: &[&Message]) -> Result<(), NoMemory>
    ensures { OnOk result (string_bytes text.new ≡ string_bytes text.old ++ flat_map lost_line (map
        (λ m. m.now) messages.now)) }
{
    for message in messages {
        push_lost(text, *message)?;
    }
    Ok(())
}

/// The diagram's nodes and its lines, without the note of the table.
fn push_lines(
    text: &mut String,
    nodes: &[Node],
    lines: &str,
    messages: &[&Message],
) -> Result<(), NoMemory>
    ensures { OnOk result (string_bytes text.new
        ≡ string_bytes text.old ++ codes "sequenceDiagram\n" ++ flat_map participant_line nodes.now
        ++ lines.now ++ flat_map lost_line (map (λ m. m.now) messages.now)) }
{
    text.push_str("sequenceDiagram\n")?;
    push_participants(text, nodes)?;
    text.push_str(lines)?;
    push_all_lost(text, messages)?;
    Ok(())
}

/// Adds the table of a world as a note over the nodes. After `NoMemory` the text may have a part of it.
fn push_table_note(
    alloc: Global,
    text: &mut String,
    nodes: &[Node],
    world: &World,
) -> Result<(), NoMemory>
    ensures { (scheme : Scheme) (events : List WorldEvent) → world.now ≡ run (opening scheme) events
        → OnOk result
        ((table : List ℕ) × IsSafeTable Lines scheme events table
        × (string_bytes text.new ≡ string_bytes text.old ++ wide_note_line nodes.now table)) }
{
    let mut table = String::new(alloc);
    push_table(alloc, &mut table, world, Form::Lines)?;
    push_wide_note(alloc, text, nodes, table.as_str())?;
    Ok(())
}

impl Drawing {
    /// The chart: the drawing, the messages that never arrived, and the table of the world that the events lead to.
    fn text(self, alloc: Global, world: &World) -> Result<String, NoMemory>
        ensures { IfOk result (λ text. (scheme : Scheme) (events : List WorldEvent)
            → HasDrawn scheme events world.now self.nodes.items (contains nat_cmp self.delivered)
            (string_bytes self.lines)
            → IsChart scheme events (string_bytes text)) }
    {
        let Drawing {
            mut nodes,
            delivered,
            lines,
        } = self;
        let never = lost(alloc, &delivered, world.bag())?;
        add_all_parties(&mut nodes, never.as_slice())?;
        add_node(&mut nodes, Node::Itl)?;
        let mut text = String::new(alloc);
        push_lines(
            &mut text,
            nodes.as_slice(),
            lines.as_str(),
            never.as_slice(),
        )?;
        push_table_note(alloc, &mut text, nodes.as_slice(), world)?;
        Ok(text)
    }
}

impl Reporter for Sketch {
    ghost use Rattle.std.specs.Prelude.{string_bytes};
    ghost use Rattle.std.specs.BTreeSet.{contains};
    ghost use Rattle.std.specs.Ordering.{nat_cmp};
    ghost use Rattle.chart.specs.Chart.{HasDrawn, IsChart};

    ghost was_told = { λ r scheme events. HasDrawn scheme events r.world r.drawing.nodes.items
        (contains nat_cmp r.drawing.delivered) (string_bytes r.drawing.lines) };

    ghost is_report = { IsChart };

    fn new(alloc: Global, scheme: &Scheme) -> Result<Sketch, NoMemory> {
        let drawing = Drawing {
            nodes: Vec::new(alloc),
            delivered: BTreeSet::new(alloc),
            lines: String::new(alloc),
        };
        Ok(Sketch {
            alloc,
            world: ReachedWorld::new(alloc, scheme)?,
            drawing,
        })
    }

    fn tell(&mut self, _number: u64, event: &WorldEvent) -> Result<(), NoMemory> {
        let outcome = self.world.apply(event)?;
        let message = message_of(self.world.as_world(), event);
        self.drawing.add(message, event, outcome)?;
        Ok(())
    }

    fn text(self) -> Result<String, NoMemory> {
        let Sketch {
            alloc,
            world,
            drawing,
        } = self;
        let text = drawing.text(alloc, world.as_world());
        drop(world);
        text
    }
}

/// Reads the whole input, and then writes its chart.
pub fn chart<R: Read, W: Write>(
    alloc: Global,
    reader: &mut R,
    writer: &mut W,
) -> Result<(), OpFault>
    ensures ok { OnOk result ((text : List ℕ) × Reports IsChart (R.remaining reader.old) (R.remaining reader.new) text
        × Appends (W.contents writer.old) (W.contents writer.new) text) }
    ensures err { IfErr result
        (λ e. FailsSo IsChart e (R.remaining reader.old) (R.remaining reader.new) (W.contents writer.old)
        (W.contents writer.new)) }
{
    report_input::<Sketch, R, W>(alloc, reader, writer)
}
