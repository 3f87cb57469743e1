//! The orders that a node takes.
ghost use Rattle.std.specs.Prelude.{◌≡◌};
ghost use Rattle.protocol.specs.Scheme.{Scheme as AScheme};
ghost use Rattle.protocol.specs.World.{is_order, opening};
ghost use Rattle.serving.specs.Answers.{takes};

use input_lines::Instruction;
use protocol::wire::Input;
use units::Node;

/// Whether a node of that kind takes the order.
fn is_order(node: Node, input: &Input) -> bool
    ensures { (scheme : AScheme) → result ≡ is_order (opening scheme) node input.now }
{
    match input {
        Input::Propose(_) | Input::Request(_) | Input::OpenAccount(_) | Input::CloseAccount(_) =>
            matches!(node, Node::Registry(_)),
        Input::CleanUp(_) | Input::Eligible { .. } => matches!(node, Node::Itl),
        Input::Ack(_) | Input::Received { .. } => false,
    }
}

/// Whether a node of that kind takes such an order. Each node answers questions.
pub fn takes(node: Node, instruction: &Instruction) -> bool
    ensures { (scheme : AScheme) → result ≡ takes scheme node instruction.now }
{
    match instruction {
        Instruction::Order(input) => is_order(node, input),
        Instruction::Status(_) | Instruction::Until { .. } => true,
    }
}
