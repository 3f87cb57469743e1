//! The notes of one thread.
ghost use Rattle.std.specs.Prelude.{◌≡◌, [], if◌then◌else◌, max, nat_lt, None, Some, OnOk, OnErr};
ghost use Rattle.units.specs.RefusalCodes.{out_of_memory};
ghost use Rattle.node_state.specs.Rooms.{TellNoRecord};
ghost use Rattle.node_state.specs.Telling.{kept};

use crate::notes::{Asked, Lengths, Note, Ticket, Told, is_unjudged};
use crate::state::{Receipt, Taken};
use protocol::Stepped;
use status::TransactionId;
use std::alloc::Global;
use std::marker::Model;
use std::mem;
use units::NoMemory;
use wire::Input;

/// The notes of one thread: the records that it made, and the other results that it got about the journal.
#[derive(Debug)]
pub struct Seat {
    tickets: Vec<Ticket>,
    notes: Vec<Note>,
    seen: usize,
    lengths: Lengths,
    confirmed: usize,
    prepared: Option<Asked>,
}

// Written out, since a derived destructor is proved anew in each crate that lets a value go.
impl Drop for Seat {
    fn drop(self) {
        let Seat {
            tickets,
            notes,
            seen: _,
            lengths: _,
            confirmed: _,
            prepared,
        } = self;
        drop(tickets);
        drop(notes);
        drop(prepared);
    }
}

impl Model for Seat {
    ghost use Rattle.std.specs.Prelude.{vec_capacity, vec_len};
    ghost use Rattle.node_state.specs.Rooms.{HasRoom, TellNoRecord};
    ghost use Rattle.node_state.specs.Views.{SeatView};

    ghost Value = { SeatView };

    ghost view = { λ s. record {
      tickets = s.tickets.items;
      notes = s.notes.items;
      seen = s.seen;
      lengths = s.lengths;
      confirmed = s.confirmed;
      prepared = s.prepared;
    } };

    ghost invariant = { λ s. HasRoom s.prepared (vec_len s.tickets) (vec_capacity s.tickets) (vec_len s.notes)
        (vec_capacity s.notes) × TellNoRecord s.notes.items };
}

impl Seat {
    /// A seat without notes. Takes no memory.
    pub fn new(alloc: Global) -> Seat
        ensures { result ≡ record
            { tickets = []; notes = []; seen = 0; lengths = Lengths.Grew; confirmed = 0; prepared = None } }
    {
        Seat {
            tickets: Vec::new(alloc),
            notes: Vec::new(alloc),
            seen: 0,
            lengths: Lengths::Grew,
            confirmed: 0,
            prepared: None,
        }
    }

    /// Makes room for the result of this input, before a state is given it. Fails with `NoMemory`, and the seat is as
    /// it was.
    pub fn prepare_input(&mut self, input: &Input) -> Result<(), NoMemory>
        ensures ok { OnOk result (self.new ≡ record self.old { prepared = Some (Asked.Take input.now) }) }
        ensures err { OnErr result (self.new ≡ self.old) }
    {
        let asked = Asked::Take(input.copy()?);
        self.prepare(asked)
    }

    /// Makes room for the result of this query, before a state is asked. Fails with `NoMemory`, and the seat is as it
    /// was.
    pub fn prepare_query(&mut self, id: TransactionId) -> Result<(), NoMemory>
        ensures ok { OnOk result (self.new ≡ record self.old { prepared = Some (Asked.Query id) }) }
        ensures err { OnErr result (self.new ≡ self.old) }
    {
        self.prepare(Asked::Query(id))
    }

    fn prepare(&mut self, asked: Asked) -> Result<(), NoMemory>
        ensures ok { OnOk result (self.new ≡ record self.old { prepared = Some asked }) }
        ensures err { OnErr result (self.new ≡ self.old) }
    {
        if self.tickets.reserve(1).is_err() || self.notes.reserve(1).is_err() {
            drop(asked);
            return Err(NoMemory);
        }
        drop(mem::replace(&mut self.prepared, Some(asked)));
        Ok(())
    }

    /// Keeps the result of the question for which the seat made room: a recorded input as a ticket, refusals
    /// `NODE_STOPPED` and `OUT_OF_MEMORY` not at all, and everything else as a note. Takes no memory.
    pub fn keep(&mut self, taken: &Taken)
        requires { self.old.prepared ≡ Some taken.now.asked }
        ensures { self.new ≡ kept self.old taken.now }
    {
        let length = taken.length();
        if let Some(asked) = self.prepared.take() {
            match taken.told() {
                Told::Step(Stepped::Recorded(place)) => match asked {
                    Asked::Take(input) => {
                        self.tickets.push_reserved(Ticket { place, input });
                    }
                    Asked::Query(_) => {}
                },
                Told::Refused(refusal) if is_unjudged(refusal) => drop(asked),
                told => {
                    self.notes.push_reserved(Note {
                        asked,
                        told,
                        length,
                    });
                }
            }
        }
        self.see(length);
    }

    /// Keeps only the length that the journal had at a call for which memory ran out. It needs no room. Takes no
    /// memory.
    pub fn keep_length(&mut self, taken: &Taken)
        requires { taken.now.told ≡ Told.Refused (record { code = out_of_memory }) }
        ensures { self.new ≡ kept self.old taken.now }
    {
        drop(self.prepared.take());
        self.see(taken.length());
    }

    /// Keeps that the journal had this length.
    fn see(&mut self, length: usize)
        ensures { self.new ≡ record self.old {
          seen = max self.old.seen length;
          lengths = if nat_lt length self.old.seen then Lengths.Fell else self.old.lengths;
        } }
    {
        if length < self.seen {
            self.lengths = Lengths::Fell;
        }
        self.seen = self.seen.max(length);
    }

    /// Forgets the notes, but not the tickets: for a thread whose other results nobody reports.
    pub fn forget_notes(&mut self)
        ensures { self.new ≡ record self.old { notes = [] } }
    {
        self.notes.clear();
    }

    /// Keeps that the records of this receipt are committed.
    pub fn confirm(&mut self, receipt: &Receipt)
        ensures { self.new ≡ record self.old { confirmed = max self.old.confirmed receipt.now.length } }
    {
        self.confirmed = self.confirmed.max(receipt.taken().length());
    }

    /// The inputs that were recorded, with their places.
    pub fn tickets(&self) -> &[Ticket]
        ensures { result.now ≡ self.now.tickets }
    {
        self.tickets.as_slice()
    }

    /// The other results that the seat noted. No note is of an input that was recorded.
    pub fn notes(&self) -> &[Note]
        ensures value { result.now ≡ self.now.notes }
        ensures no_record { TellNoRecord self.now.notes }
    {
        self.notes.as_slice()
    }

    /// Whether the lengths that it noted ever fell.
    pub fn lengths(&self) -> Lengths
        ensures { result ≡ self.now.lengths }
    {
        self.lengths
    }

    /// The greatest length that was confirmed to it.
    pub fn confirmed(&self) -> usize
        ensures { result ≡ self.now.confirmed }
    {
        self.confirmed
    }
}
