//! The connections that a port holds, and the bytes that have come on them.
ghost use Rattle.std.specs.Prelude.{◌≡◌, ◌⊎◌, Some, drop, true};
ghost use Rattle.connections.specs.Waiting.{EndsLate, SparesOthers, first_number};

use crate::arriving::{Arrival, Arriving};
use crate::waiting::Connections;
use std::net::TcpStream;
use std::time::Instant;

/// The connections of a port that no session has.
#[derive(Drop)]
pub struct Held {
    pub connections: Connections<Arriving>,
    /// Room for the bytes of one read: one more than a line may have.
    pub piece: Vec<u8>,
    /// Whether peers may have connected that the last accept left.
    pub is_behind: bool,
}

impl Held {
    /// Reads what has come on the connection with that number, if it waits for a line. If the line is whole, the
    /// connection is for a session. If it has ended or failed, or if it sends no more and its line isn't whole, it is
    /// closed.
    pub fn look_at(&mut self, number: usize, sends_no_more: bool)
        ensures others { SparesOthers number self.old.connections.waiting.entries self.new.connections.waiting.entries }
        ensures gone { sends_no_more ≡ true → first_number self.old.connections.waiting.entries ≡ Some number
            → self.new.connections.waiting.entries ≡ drop 1 self.old.connections.waiting.entries }
        ensures next { self.new.connections.next ≡ self.old.connections.next }
    {
        let Some(arriving) = self.connections.get(number) else {
            return;
        };
        match arriving.read_on(&mut self.piece) {
            Arrival::Line(length) => self.connections.line_came(number, length),
            Arrival::Part if !sends_no_more => {}
            _ => drop(self.connections.take(number)),
        }
    }

    /// Closes those that have waited too long for a line, up to `most`. A connection whose line has come nevertheless
    /// is for a session: no accept had looked at it in time.
    pub fn end_late(&mut self, now: Instant, most: usize)
        ensures { EndsLate now most self.old.connections.waiting.entries self.new.connections.waiting.entries }
    {
        for _ in 0..most {
            match self.connections.late(now) {
                Some(number) => self.look_at(number, true),
                None => return,
            }
        }
    }

    /// Whether an accept has work to do at once.
    pub fn has_work(&self) -> bool {
        self.is_behind || self.connections.has_line()
    }

    /// Another handle of the connection. If the system has none, the one that has waited longest for a line is closed
    /// first. `None` if there is still none.
    pub fn second_handle(&mut self, stream: &TcpStream) -> Option<TcpStream>
        ensures waiting { (self.new.connections.waiting.entries ≡ self.old.connections.waiting.entries)
            ⊎ (self.new.connections.waiting.entries ≡ drop 1 self.old.connections.waiting.entries) }
        ensures ready { self.new.connections.ready ≡ self.old.connections.ready }
    {
        if let Ok(handle) = stream.try_clone() {
            return Some(handle);
        }
        drop(self.connections.take_longest());
        stream.try_clone().ok()
    }
}
