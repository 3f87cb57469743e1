//! Settling: whether the notes of the seats are those that a single thread would have made.
//!
//! Threads call a desk at the same time, and each keeps its results in a seat of its own: a ticket for each record, and
//! a note for anything else, with the length that the journal had then. The order of the calls isn't known afterwards.
//! The journal and all seats together show whether a single thread could have made the same calls, one after another,
//! along the journal:
//!
//! - each record since the opening has exactly one ticket, with its place and its input, in one of the seats;
//! - each note is the node's result after as many of the first records of the journal as the note's length says;
//! - the lengths that a seat noted never fell, so that the calls of each seat come in their own order;
//! - all that was confirmed to a seat is committed.
//!
//! The notes are sorted by their lengths first, so that one core goes along the journal once and meets each of them.
ghost use Rattle.std.specs.Prelude.{◌≡◌, ◌↔◌, ◌<◌, ◌≤◌, ℕ, [], length, All, Any, IfErr, IfOk, IsTrue, MatchBool, MatchResult};
ghost use Rattle.settling.specs.Covering.{AllFit, Covers, Fits, NoneMissing, NoneTwice, SomeDiffers};
ghost use Rattle.settling.specs.Settling.{IsBeyond, IsUncovered, IsWithin, Settles, Stood, life_of};
ghost use Rattle.node_state.specs.Views.{committed_records};

use crate::counting::{check_missing, check_twice, counts_of};
use crate::judging::find_unborne;
use crate::life::{Life, Settled, Unsettled};
use node_state::{Lengths, Seat, State, Ticket};
use protocol::{NodeCore, ReplayFault};

/// Checks that each place since the opening is named by exactly one ticket.
fn check_places<C: NodeCore>(state: &State<C>, seats: &[Seat]) -> Result<(), Unsettled>
    ensures { MatchResult result (λ _. NoneMissing state.now seats.now × NoneTwice state.now seats.now)
        (IsUncovered state.now seats.now) }
{
    let opening = state.opening();
    let counts = counts_of(state.alloc(), seats, opening, state.journal().len())?;
    if let Err(place) = check_missing(counts.as_slice(), opening) {
        return Err(Unsettled::Missing(place));
    }
    if let Err(place) = check_twice(counts.as_slice(), opening) {
        return Err(Unsettled::Twice(place));
    }
    Ok(())
}

fn fits<C: NodeCore>(state: &State<C>, ticket: &Ticket) -> bool
    ensures { IsTrue result ↔ Fits state.now ticket.now }
{
    match state.journal().get(ticket.place) {
        Some(input) => state.opening() <= ticket.place && input.same(&ticket.input),
        None => false,
    }
}

/// Fails with the place of a ticket that doesn't fit.
fn check_tickets<C: NodeCore>(state: &State<C>, tickets: &[Ticket]) -> Result<(), usize>
    ensures { MatchResult result (λ _. All (Fits state.now) tickets.now)
        (λ place. Any (λ t. (t.place ≡ place) × (Fits state.now t → ⊥)) tickets.now) }
{
    for ticket in tickets {
        if !fits(state, ticket) {
            return Err(ticket.place);
        }
    }
    Ok(())
}

/// The same, for the tickets of all seats.
fn check_fit<C: NodeCore>(state: &State<C>, seats: &[Seat]) -> Result<(), usize>
    ensures { MatchResult result (λ _. AllFit state.now seats.now) (λ place. SomeDiffers state.now seats.now place) }
{
    for seat in seats {
        check_tickets(state, seat.tickets())?;
    }
    Ok(())
}

/// Checks that the tickets of the seats are the records since the opening.
fn check_cover<C: NodeCore>(state: &State<C>, seats: &[Seat]) -> Result<(), Unsettled>
    ensures { MatchResult result (λ _. Covers state.now seats.now) (IsUncovered state.now seats.now) }
{
    check_places(state, seats)?;
    match check_fit(state, seats) {
        Ok(()) => Ok(()),
        Err(place) => Err(Unsettled::Differs(place)),
    }
}

/// Fails with a length that was confirmed and isn't committed.
fn check_confirmed(seats: &[Seat], committed: usize) -> Result<(), usize>
    ensures { MatchResult result (λ _. All (IsWithin committed) seats.now)
        (λ len. Any (IsBeyond committed len) seats.now) }
{
    for seat in seats {
        if seat.confirmed() > committed {
            return Err(seat.confirmed());
        }
    }
    Ok(())
}

fn has_fallen(seats: &[Seat]) -> bool
    ensures { MatchBool result (Any (λ s. s.lengths ≡ Lengths.Fell) seats.now) (All Stood seats.now) }
{
    for seat in seats {
        if matches!(seat.lengths(), Lengths::Fell) {
            return true;
        }
    }
    false
}

/// As `settle`, by a core of the caller's in place of the state's: each note is compared with the result of that core,
/// at its node under its scheme, so that a caller who can't name the state's scheme still names this one. The core has
/// no record, and is returned with the committed ones.
///
/// Also fails with `NotRecorded` at the first record of the journal that the core doesn't record at its place after
/// those before it, if that record is committed or a note was made after it. A note before it that isn't borne out is
/// reported first, as `Untrue`.
pub fn settle_with<C: NodeCore>(
    mut core: C,
    state: &State<C>,
    seats: &[Seat],
) -> Result<Settled<C>, Unsettled>
    requires { C.journal_of core ≡ [] }
    ensures settles { Settles (C.scheme_of core) (C.node_of core) state.now seats.now (life_of result) }
    ensures core { IfOk result (λ s. (C.scheme_of s.core ≡ C.scheme_of core) × (C.node_of s.core ≡ C.node_of core)
        × (C.journal_of s.core ≡ committed_records state.now)) }
{
    check_cover(state, seats)?;
    let committed = state.committed_count();
    if let Err(length) = check_confirmed(seats, committed) {
        return Err(Unsettled::NotCommitted(length));
    }
    if has_fallen(seats) {
        return Err(Unsettled::Fell);
    }
    match find_unborne(&mut core, state, seats) {
        Ok(None) => Ok(Settled {
            life: Life {
                opening: state.opening(),
                records: state.journal().len(),
                committed,
            },
            core,
        }),
        Ok(Some(length)) => Err(Unsettled::Untrue(length)),
        Err(ReplayFault::NotRecorded(place)) => Err(Unsettled::NotRecorded(place)),
        Err(ReplayFault::NoMemory) => Err(Unsettled::NoMemory),
    }
}

/// How long the journal is, if the notes of the seats are those that a single thread would have made along the journal:
/// each record since the opening has exactly one ticket, with its input; all that was confirmed is committed; no seat
/// noted a shorter journal than before; and the journal bears out each note.
///
/// Fails with the first fault in the order of `Unsettled`, if there is one, and with `NoMemory` if memory ran out;
/// never with `NotRecorded`, since the node has recorded its own journal. Takes time in proportion to the records and
/// the notes, except for sorting the notes by length.
pub fn settle<C: NodeCore>(state: &State<C>, seats: &[Seat]) -> Result<Life, Unsettled>
    ensures settles { Settles state.now.scheme state.now.node state.now seats.now result }
    ensures own { IfErr result (λ e. (place : ℕ) → e ≡ Unsettled.NotRecorded place → ⊥) }
{
    let core = state.fresh()?;
    // Its clause says that the state's core has recorded these, so a fresh one records them too.
    let _journal = state.journal();
    match settle_with(core, state, seats) {
        Ok(settled) => Ok(settled.life),
        Err(fault) => Err(fault),
    }
}
