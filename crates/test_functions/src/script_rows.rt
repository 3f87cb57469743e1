use crate::same::assert_same;
use command_faults::OpFault;
use input_lines::{
    Instruction, ScriptLine, WordsFault, instruction_of, read_script, script_line_of,
};
use protocol::wire::Input;
use std::alloc::Global;
use std::process::Abort;
use std::test::Fail;
use test_support::again;

/// The kind of a line of a script, or of a node's operator.
#[derive(Clone, Copy, Debug, PartialEq, Eq)]
enum Kind {
    Propose,
    Request,
    Open,
    Close,
    CleanUp,
    Eligible,
    Status,
    Until(u64),
    Other,
}

fn kind_of(instruction: &Instruction) -> Kind {
    match instruction {
        Instruction::Status(_) => Kind::Status,
        Instruction::Until { turns, .. } => Kind::Until(*turns),
        Instruction::Order(input) => match input {
            Input::Propose(_) => Kind::Propose,
            Input::Request(_) => Kind::Request,
            Input::OpenAccount(_) => Kind::Open,
            Input::CloseAccount(_) => Kind::Close,
            Input::CleanUp(_) => Kind::CleanUp,
            Input::Eligible { .. } => Kind::Eligible,
            Input::Ack(_) | Input::Received { .. } => Kind::Other,
        },
    }
}

/// The lines of the script, read from its start.
fn script(alloc: Global, text: &str) -> Result<Vec<ScriptLine>, OpFault> {
    let mut reader = text.as_bytes();
    read_script(alloc, &mut reader)
}

const LINES: &str = "propose NZ 1 JP 7 NZ:1:1-100:AAU
request NZ NZ1
open NZ 2
close NZ 2
clean-up 2012-05-02T00:00:00Z
eligible NZ no
status NZ NZ1
until JP NZ1 Completed 1
until JP NZ1 Completed 1000000
";

const KINDS: &[Kind] = &[
    Kind::Propose,
    Kind::Request,
    Kind::Open,
    Kind::Close,
    Kind::CleanUp,
    Kind::Eligible,
    Kind::Status,
    Kind::Until(1),
    Kind::Until(1_000_000),
];

/// Asserts that the lines are of these kinds.
fn assert_kinds(rt: &impl Abort, lines: &[ScriptLine], kinds: &[Kind]) {
    assert_same(rt, lines.len(), kinds.len());
    for (line, kind) in lines.iter().zip(kinds) {
        assert_same(rt, kind_of(&line.instruction), *kind);
    }
}

#[test]
fn reads_each_line(rt: HostRuntime) -> Result<(), Fail> {
    let lines = again!(script(rt.alloc(), LINES), Err(OpFault::NoMemory) => ());
    let lines = lines.map_err(|_| "no script")?;
    assert_kinds(&rt, lines.as_slice(), KINDS);
    drop(lines);
    Ok(())
}

/// The line of that text.
fn line_of(alloc: Global, text: &str) -> Result<ScriptLine, WordsFault> {
    again!(script_line_of(alloc, text.as_bytes()), Err(WordsFault::NoMemory) => ())
}

/// The text is a line of that kind.
fn assert_kind(rt: &impl Abort, alloc: Global, text: &str, kind: Kind) {
    let line = line_of(alloc, text).expect(rt, "a line");
    assert_same(rt, kind_of(&line.instruction), kind);
    drop(line);
}

#[test]
fn reads_a_line_by_itself(rt: HostRuntime) {
    for (text, kind) in LINES.lines().zip(KINDS) {
        assert_kind(&rt, rt.alloc(), text, *kind);
    }
    let fault = line_of(rt.alloc(), "ack NZ 0").err();
    assert_same(&rt, fault, Some(WordsFault::Order));
}

/// Lines of a node's operator, without the node's name. The name after `eligible` is that of a registry, as in a script.
const OPERATOR_LINES: [(&str, Kind); 9] = [
    ("propose 1 JP 7 NZ:1:1-100:AAU", Kind::Propose),
    ("request NZ1", Kind::Request),
    ("open 2", Kind::Open),
    ("close 2", Kind::Close),
    ("clean-up 2012-05-02T00:00:00Z", Kind::CleanUp),
    ("eligible NZ no", Kind::Eligible),
    ("status NZ1", Kind::Status),
    ("until NZ1 Completed 1", Kind::Until(1)),
    ("until NZ1 Completed 1000000", Kind::Until(1_000_000)),
];

/// The order or the question that an operator writes by that text.
fn instruction(alloc: Global, text: &str) -> Result<Instruction, WordsFault> {
    again!(instruction_of(alloc, text.as_bytes()), Err(WordsFault::NoMemory) => ())
}

/// The text is an operator's line of that kind.
fn assert_instruction(rt: &impl Abort, alloc: Global, text: &str, kind: Kind) {
    let instruction = instruction(alloc, text).expect(rt, "an instruction");
    assert_same(rt, kind_of(&instruction), kind);
    drop(instruction);
}

#[test]
fn reads_a_line_of_an_operator(rt: HostRuntime) {
    for (text, kind) in OPERATOR_LINES {
        assert_instruction(&rt, rt.alloc(), text, kind);
    }
}

/// A line of no known verb, and orders and a question with the name of a node.
const NO_INSTRUCTIONS: [&str; 5] = [
    "ack 0",
    "propose NZ 1 JP 7 NZ:1:1-100:AAU",
    "open NZ 2",
    "status NZ NZ1",
    "until JP NZ1 Completed 1",
];

#[test]
fn a_line_that_is_no_instruction(rt: HostRuntime) {
    for text in NO_INSTRUCTIONS {
        let fault = instruction(rt.alloc(), text).err();
        assert_same(&rt, fault, Some(WordsFault::Order));
    }
}
