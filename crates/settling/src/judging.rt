//! Whether the journal bears out the notes of the seats.
ghost use Rattle.std.specs.Prelude.{◌≡◌, ◌↔◌, ◌++◌, ◌⊎◌, ◌≤◌, [], None, length, take, map, flat_map, All, Any, IfErr, IfOk, OnErr, OnOk, MatchOption, IsTrue, IsPermutation};
ghost use Rattle.protocol.specs.Cores.{HasFault};
ghost use Rattle.units.specs.RefusalCodes.{out_of_memory};
ghost use Rattle.node_state.specs.Expected.{expected, told_of};
ghost use Rattle.node_state.specs.Rooms.{IsNoRecord, TellNoRecord};
ghost use Rattle.settling.specs.Settling.{AllBorne, Bears, SomeUnborne};
ghost use Rattle.node_state.specs.Views.{committed_records};

use node_state::{Asked, Note, Seat, State, Told, tell};
use protocol::{NodeCore, ReplayFault, Stepped, resume};
use std::alloc::Global;
use units::refusal_code::OUT_OF_MEMORY;
use units::{NoMemory, Refusal};
use wire::Input;

fn lacks_memory(returned: &Result<Stepped, Refusal>) -> bool
    ensures { IsTrue result ↔ (returned.now ≡ Err (record { code = out_of_memory })) }
{
    match returned {
        Ok(_) => false,
        Err(refusal) => refusal.code == OUT_OF_MEMORY,
    }
}

/// The expected result of a question after the core's journal. If it isn't that an input was recorded, the journal is
/// as it was.
fn ask<C: NodeCore>(core: &mut C, asked: &Asked) -> Result<Told, NoMemory>
    ensures scheme { C.scheme_of core.new ≡ C.scheme_of core.old }
    ensures node { C.node_of core.new ≡ C.node_of core.old }
    ensures told { IfOk result
        (λ told. told ≡ expected (C.scheme_of core.old) (C.node_of core.old) (C.journal_of core.old) asked.now) }
    ensures journal { IfOk result (λ told. IsNoRecord told → C.journal_of core.new ≡ C.journal_of core.old) }
    ensures memory { OnErr result (C.journal_of core.new ≡ C.journal_of core.old) }
{
    match asked {
        Asked::Take(input) => {
            let returned = core.step(input);
            if lacks_memory(&returned) {
                return Err(NoMemory);
            }
            Ok(tell(returned))
        }
        Asked::Query(id) => Ok(Told::Status(core.status_of(*id))),
    }
}

/// Whether the result in the note is the expected one after the core's journal.
fn is_expected<C: NodeCore>(core: &mut C, note: &Note) -> Result<bool, NoMemory>
    requires { IsNoRecord note.now.told }
    ensures scheme { C.scheme_of core.new ≡ C.scheme_of core.old }
    ensures node { C.node_of core.new ≡ C.node_of core.old }
    ensures expected { IfOk result
        (λ b. IsTrue b ↔ (expected (C.scheme_of core.old) (C.node_of core.old) (C.journal_of core.old) note.now.asked
        ≡ note.now.told)) }
    ensures journal { IfOk result (λ b. IsTrue b → C.journal_of core.new ≡ C.journal_of core.old) }
    ensures memory { OnErr result (C.journal_of core.new ≡ C.journal_of core.old) }
{
    let told = ask(core, &note.asked)?;
    Ok(told == note.told)
}

fn is_no_record(told: Told) -> bool
    ensures { IsTrue result ↔ IsNoRecord told }
{
    match told {
        Told::Step(Stepped::Recorded(_)) => false,
        Told::Step(Stepped::Repeat) => true,
        Told::Step(Stepped::Late) => true,
        Told::Status(_) => true,
        Told::Refused(_) => true,
    }
}

/// The same for any note. A note that tells of a record isn't judged, and the result is false.
pub(crate) fn is_true<C: NodeCore>(core: &mut C, note: &Note) -> Result<bool, NoMemory>
    ensures scheme { C.scheme_of core.new ≡ C.scheme_of core.old }
    ensures node { C.node_of core.new ≡ C.node_of core.old }
    ensures expected { IfOk result (λ b. IsTrue b ↔ (IsNoRecord note.now.told
        × (expected (C.scheme_of core.old) (C.node_of core.old) (C.journal_of core.old) note.now.asked
        ≡ note.now.told))) }
    ensures journal { IfOk result (λ b. IsTrue b → C.journal_of core.new ≡ C.journal_of core.old) }
    ensures memory { OnErr result (C.journal_of core.new ≡ C.journal_of core.old) }
{
    if is_no_record(note.told) {
        is_expected(core, note)
    } else {
        Ok(false)
    }
}

/// Begins anew if the core has more records than that.
fn rewind<C: NodeCore>(core: &mut C, records: usize) -> Result<(), NoMemory>
    ensures scheme { C.scheme_of core.new ≡ C.scheme_of core.old }
    ensures node { C.node_of core.new ≡ C.node_of core.old }
    ensures journal { OnOk result ((C.journal_of core.new ≡ C.journal_of core.old) ⊎ (C.journal_of core.new ≡ [])) }
    ensures short { OnOk result (length (C.journal_of core.new) ≤ records) }
{
    if core.records() > records {
        *core = core.fresh()?;
    }
    Ok(())
}

/// Brings a core that has the first records of the journal to the first `records` of them.
fn bring<C: NodeCore>(core: &mut C, journal: &[Input], records: usize) -> Result<(), ReplayFault>
    requires within { records ≤ length journal.now }
    requires front { C.journal_of core.old ≡ take (length (C.journal_of core.old)) journal.now }
    ensures scheme { C.scheme_of core.new ≡ C.scheme_of core.old }
    ensures node { C.node_of core.new ≡ C.node_of core.old }
    ensures journal { OnOk result (C.journal_of core.new ≡ take records journal.now) }
    ensures fault { IfErr result (HasFault (C.scheme_of core.old) (C.node_of core.old) journal.now) }
{
    rewind(core, records)?;
    let start = core.records();
    match resume(core, &journal[start..records]) {
        Ok(()) => Ok(()),
        Err(fault) => Err(fault),
    }
}

/// Whether the journal bears the note out: it is long enough, and the note's result is the expected one after as many
/// records as the note's length says. The core has the first records of the journal before the call, and also after it
/// if the result is true.
fn is_borne<C: NodeCore>(core: &mut C, journal: &[Input], note: &Note) -> Result<bool, ReplayFault>
    requires no_record { IsNoRecord note.now.told }
    requires front { C.journal_of core.old ≡ take (length (C.journal_of core.old)) journal.now }
    ensures scheme { C.scheme_of core.new ≡ C.scheme_of core.old }
    ensures node { C.node_of core.new ≡ C.node_of core.old }
    ensures borne { IfOk result
        (λ b. IsTrue b ↔ Bears (C.scheme_of core.old) (C.node_of core.old) journal.now note.now) }
    ensures front { IfOk result (λ b. IsTrue b
        → C.journal_of core.new ≡ take (length (C.journal_of core.new)) journal.now) }
    ensures fault { IfErr result (HasFault (C.scheme_of core.old) (C.node_of core.old) journal.now) }
{
    if note.length > journal.len() {
        return Ok(false);
    }
    bring(core, journal, note.length)?;
    match is_expected(core, note) {
        Ok(expected) => Ok(expected),
        Err(NoMemory) => Err(ReplayFault::NoMemory),
    }
}

/// The length of the first note that the journal doesn't bear out, or `None` if it bears all out. The core has no
/// record before the call, and the first records of the journal after it if all are borne out.
fn unborne_of<C: NodeCore>(
    core: &mut C,
    journal: &[Input],
    notes: &[&Note],
) -> Result<Option<usize>, ReplayFault>
    requires empty { C.journal_of core.old ≡ [] }
    requires no_record { All (λ note. IsNoRecord note.now.told) notes.now }
    ensures found { IfOk result (λ found. MatchOption found
        (All (λ note. Bears (C.scheme_of core.old) (C.node_of core.old) journal.now note.now) notes.now)
        (λ len. Any (λ note. (note.now.length ≡ len)
        × (Bears (C.scheme_of core.old) (C.node_of core.old) journal.now note.now → ⊥)) notes.now)) }
    ensures scheme { C.scheme_of core.new ≡ C.scheme_of core.old }
    ensures node { C.node_of core.new ≡ C.node_of core.old }
    ensures front { IfOk result (λ found. found ≡ None
        → C.journal_of core.new ≡ take (length (C.journal_of core.new)) journal.now) }
    ensures fault { IfErr result (HasFault (C.scheme_of core.old) (C.node_of core.old) journal.now) }
{
    for note in notes {
        if !is_borne(core, journal, note)? {
            return Ok(Some(note.length));
        }
    }
    Ok(None)
}

fn add_notes<'a>(all: &mut Vec<&'a Note>, notes: &'a [Note]) -> Result<(), NoMemory>
    ensures { OnOk result (map (λ note. note.now) all.new.items ≡ map (λ note. note.now) all.old.items ++ notes.now) }
{
    for note in notes {
        all.push(note)?;
    }
    Ok(())
}

/// The notes of all seats.
fn notes_of(alloc: Global, seats: &[Seat]) -> Result<Vec<&Note>, NoMemory>
    ensures notes { IfOk result (λ all. map (λ note. note.now) all.items ≡ flat_map (λ seat. seat.notes) seats.now) }
    ensures no_record { IfOk result (λ all. TellNoRecord (map (λ note. note.now) all.items)) }
{
    let mut all = Vec::new(alloc);
    for seat in seats {
        add_notes(&mut all, seat.notes())?;
    }
    Ok(all)
}

/// The same, from the least length to the greatest.
fn notes_by_length(alloc: Global, seats: &[Seat]) -> Result<Vec<&Note>, NoMemory>
    ensures notes { IfOk result
        (λ all. IsPermutation (flat_map (λ seat. seat.notes) seats.now) (map (λ note. note.now) all.items)) }
    ensures no_record { IfOk result (λ all. TellNoRecord (map (λ note. note.now) all.items)) }
{
    let mut all = notes_of(alloc, seats)?;
    all.sort_unstable_by_key(|note| note.length);
    Ok(all)
}

/// The length of a note that the journal of the state doesn't bear out, at the core's node under its scheme, or `None`
/// if it bears out all notes of the seats; then the core has the first records of the journal. Goes through the journal
/// once. Fails with the first record of the journal that the core doesn't record at its place, and with `NoMemory`.
fn judge<C: NodeCore>(
    core: &mut C,
    state: &State<C>,
    seats: &[Seat],
) -> Result<Option<usize>, ReplayFault>
    requires { C.journal_of core.old ≡ [] }
    ensures found { IfOk result (λ found. MatchOption found
        (All (AllBorne (C.scheme_of core.old) (C.node_of core.old) state.now.journal) seats.now)
        (λ len. Any (SomeUnborne (C.scheme_of core.old) (C.node_of core.old) state.now.journal len) seats.now)) }
    ensures scheme { C.scheme_of core.new ≡ C.scheme_of core.old }
    ensures node { C.node_of core.new ≡ C.node_of core.old }
    ensures front { IfOk result (λ found. found ≡ None
        → C.journal_of core.new ≡ take (length (C.journal_of core.new)) state.now.journal) }
    ensures fault { IfErr result (HasFault (C.scheme_of core.old) (C.node_of core.old) state.now.journal) }
{
    let notes = notes_by_length(state.alloc(), seats)?;
    unborne_of(core, state.journal(), notes.as_slice())
}

/// As `judge`, and if the journal bears out all notes the core has the committed records afterwards. They are recorded
/// once, unless a part of the journal isn't committed.
pub(crate) fn find_unborne<C: NodeCore>(
    core: &mut C,
    state: &State<C>,
    seats: &[Seat],
) -> Result<Option<usize>, ReplayFault>
    requires { C.journal_of core.old ≡ [] }
    ensures found { IfOk result (λ found. MatchOption found
        (All (AllBorne (C.scheme_of core.old) (C.node_of core.old) state.now.journal) seats.now)
        (λ len. Any (SomeUnborne (C.scheme_of core.old) (C.node_of core.old) state.now.journal len) seats.now)) }
    ensures scheme { C.scheme_of core.new ≡ C.scheme_of core.old }
    ensures node { C.node_of core.new ≡ C.node_of core.old }
    ensures committed { IfOk result (λ found. found ≡ None → C.journal_of core.new ≡ committed_records state.now) }
    ensures fault { IfErr result (HasFault (C.scheme_of core.old) (C.node_of core.old) state.now.journal) }
{
    let found = judge(core, state, seats)?;
    if found.is_none() {
        bring(core, state.journal(), state.committed_count())?;
    }
    Ok(found)
}
