//! How often the seats' tickets name each place.
ghost use Rattle.std.specs.Prelude.{◌≡◌, ℕ, ◌+◌, ◌-◌, ◌<◌, ◌≤◌, ◌==◌, ◌^◌, cond, count_by, length, IfOk, MatchResult};
ghost use Rattle.settling.specs.Counts.{CountsFrom};
ghost use Rattle.settling.specs.Covering.{times_named};

use node_state::{Seat, Ticket};
use std::alloc::Global;
use units::NoMemory;

/// Counts a place, if it is one of those from the opening on.
fn count_place(counts: &mut [usize], opening: usize, place: usize)
    ensures len { length counts.new ≡ length counts.old }
    ensures counts { (times : ℕ → ℕ) → CountsFrom opening times counts.old
        → CountsFrom opening (λ p. times p + cond (place == p) 1 0) counts.new }
{
    if opening <= place && place - opening < counts.len() {
        let at = place - opening;
        if counts[at] < 2 {
            counts[at] += 1;
        }
    }
}

/// Counts the places that these tickets name.
fn count_tickets(counts: &mut [usize], opening: usize, tickets: &[Ticket])
    ensures len { length counts.new ≡ length counts.old }
    ensures counts { (times : ℕ → ℕ) → CountsFrom opening times counts.old
        → CountsFrom opening (λ p. times p + count_by (λ t. t.place == p) tickets.now) counts.new }
{
    for ticket in tickets {
        count_place(counts, opening, ticket.place);
    }
}

/// Counts the places that the tickets of these seats name.
fn count_seats(counts: &mut [usize], opening: usize, seats: &[Seat])
    ensures len { length counts.new ≡ length counts.old }
    ensures counts { (times : ℕ → ℕ) → CountsFrom opening times counts.old
        → CountsFrom opening (λ p. times p + times_named seats.now p) counts.new }
{
    for seat in seats {
        count_tickets(counts, opening, seat.tickets());
    }
}

/// How often the tickets of the seats name each of the places from `opening` up to `records`: never, once, or 2 for
/// more often. Goes through the tickets once. Fails with `NoMemory`.
pub(crate) fn counts_of(
    alloc: Global,
    seats: &[Seat],
    opening: usize,
    records: usize,
) -> Result<Vec<usize>, NoMemory>
    ensures len { IfOk result (λ counts. length counts.items ≡ records - opening) }
    ensures counts { IfOk result (λ counts. CountsFrom opening (times_named seats.now) counts.items) }
{
    let mut counts = vec![in alloc; 0; records.saturating_sub(opening)]?;
    count_seats(counts.as_mut_slice(), opening, seats);
    Ok(counts)
}

/// Fails with the first place that is never named.
pub(crate) fn check_missing(counts: &[usize], opening: usize) -> Result<(), usize>
    requires { opening + length counts.now < 2 ^ 64 }
    ensures { (times : ℕ → ℕ) → CountsFrom opening times counts.now → MatchResult result
        (λ _. (place : ℕ) → opening ≤ place → place < opening + length counts.now → 0 < times place)
        (λ place. (opening ≤ place) × (place < opening + length counts.now) × (times place ≡ 0)) }
{
    for k in 0..counts.len() {
        if counts[k] == 0 {
            return Err(opening + k);
        }
    }
    Ok(())
}

/// Fails with the first place that is named more than once.
pub(crate) fn check_twice(counts: &[usize], opening: usize) -> Result<(), usize>
    requires { opening + length counts.now < 2 ^ 64 }
    ensures { (times : ℕ → ℕ) → CountsFrom opening times counts.now → MatchResult result
        (λ _. (place : ℕ) → opening ≤ place → place < opening + length counts.now → times place ≤ 1)
        (λ place. (opening ≤ place) × (place < opening + length counts.now) × (1 < times place)) }
{
    for k in 0..counts.len() {
        if counts[k] > 1 {
            return Err(opening + k);
        }
    }
    Ok(())
}
