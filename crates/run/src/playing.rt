//! The lines of a script, one after another, at the desks of all nodes.
ghost use Rattle.std.specs.Prelude.{◌≡◌, ◌<◌, ◌++◌, ◌∷◌, [], true, false, All, List, length, IfNone, IfOk, IfSome, OnOk, Some};
ghost use Rattle.protocol.specs.Registries.{nodes, index_of};
ghost use Rattle.serving.specs.Answers.{is_possible};
ghost use Rattle.serving.specs.Heard.{AllGrow, IsHeard};
ghost use Rattle.serving.specs.Orders.{HaveOrders, IsPlayed};
ghost use Rattle.serving.specs.declared.answer.ScriptAnswer.{ScriptAnswer as AnAnswer};
ghost use Rattle.input_lines.specs.declared.script_line.ScriptLine.{ScriptLine as ALine};

use desk::{Seat, SharedNode};
use input_lines::ScriptLine;
use protocol::index_of;
use protocol::scheme::Scheme;
use serving::{ScriptAnswer, Watch, ask_copy, takes, tell_committed};
use std::alloc::Global;
use std::rt::Clock as SystemClock;
use std::sync::Wait;
use units::NoMemory;

/// The index of the line's node, if the line is possible.
fn index_for(scheme: &Scheme, line: &ScriptLine) -> Option<usize>
    ensures some { IfSome result (λ at. (index_of scheme.now line.now.node ≡ Some at)
        × (at < length (nodes scheme.now)) × (is_possible scheme.now line.now.node line.now.instruction ≡ true)) }
    ensures none { IfNone result (is_possible scheme.now line.now.node line.now.instruction ≡ false) }
{
    if takes(line.node, &line.instruction) {
        index_of(scheme, line.node)
    } else {
        None
    }
}

/// The answer to a line, at these desks of all nodes.
fn play<D: SharedNode, P: Watch, R: Wait + SystemClock>(
    rt: &R,
    scheme: &Scheme,
    desks: &[D],
    seats: &mut [Seat],
    line: &ScriptLine,
    watch: &mut P,
) -> ScriptAnswer
    requires desks { length desks.now ≡ length (nodes scheme.now) }
    requires seats { length seats.old ≡ length (nodes scheme.now) }
    ensures heard { IsHeard scheme.now seats.new line.now result }
    ensures grow { AllGrow seats.old seats.new }
    ensures orders { (lines : List ALine) (answers : List AnAnswer) → length answers ≡ length lines
        → HaveOrders scheme.now lines answers seats.old
        → HaveOrders scheme.now (lines ++ line.now ∷ []) (answers ++ result ∷ []) seats.new }
    ensures count { length seats.new ≡ length seats.old }
{
    match index_for(scheme, line) {
        Some(at) => {
            let seat = &mut seats[at];
            ScriptAnswer::Told(ask_copy(rt, &desks[at], seat, &line.instruction, desks, watch))
        }
        None => ScriptAnswer::NotPossible,
    }
}

fn push(answers: &mut Vec<ScriptAnswer>, answer: ScriptAnswer) -> Result<(), NoMemory>
    ensures { OnOk result (answers.new.items ≡ answers.old.items ++ answer ∷ []) }
{
    answers.push(answer)?;
    Ok(())
}

/// Plays the lines one after another at these desks of all nodes, and returns the answer to each. Each seat is replaced
/// by the one after the last line, and the watch is called for each line after it was played. Fails with `NoMemory` if
/// memory runs out for the answers, before the first line.
pub(crate) fn play_all<D: SharedNode, P: Watch, R: Wait + SystemClock>(
    rt: &R,
    alloc: Global,
    scheme: &Scheme,
    desks: &[D],
    seats: &mut [Seat],
    lines: &[ScriptLine],
    watch: &mut P,
) -> Result<Vec<ScriptAnswer>, NoMemory>
    requires desks { length desks.now ≡ length (nodes scheme.now) }
    requires seats { length seats.old ≡ length (nodes scheme.now) }
    requires none { All (λ s. (s.tickets ≡ []) × (s.notes ≡ [])) seats.old }
    ensures played { IfOk result (λ v. IsPlayed scheme.now lines.now v.items seats.new) }
    ensures count { length seats.new ≡ length seats.old }
{
    let mut answers = Vec::with_capacity(alloc, lines.len())?;
    for line in lines {
        let answer = play(rt, scheme, desks, seats, line, watch);
        push(&mut answers, answer)?;
        tell_committed(rt, desks, watch);
        watch.answered();
    }
    Ok(answers)
}
