//! The nodes of a scheme and their indices: the log, then the registries in the scheme's order; and tests of a node.
ghost use Rattle.std.specs.Prelude.{◌≡◌, ◌<◌, IfOk, Some, length, slice_get};
ghost use Rattle.units.specs.Code.{same_node};
ghost use Rattle.units.specs.declared.code.Node.TheVariants.{Itl, Registry};
ghost use Rattle.protocol.specs.Registries.{nodes, index_of};

use scheme::Scheme;
use std::alloc::Global;
use units::{Code, NoMemory, Node};

/// The nodes of the scheme: the log, then the registries in the scheme's order. Fails with `NoMemory` where memory ran
/// out.
pub fn nodes_of(alloc: Global, scheme: &Scheme) -> Result<Vec<Node>, NoMemory>
    ensures { IfOk result (λ v. v.items ≡ nodes scheme.now) }
{
    let mut nodes = Vec::new(alloc);
    nodes.push(Node::Itl)?;
    for member in scheme.registries() {
        nodes.push(Node::Registry(member.code))?;
    }
    Ok(nodes)
}

/// The index of that node among the nodes of the scheme, counted from 0: the log's is 0, then come the registries in
/// the scheme's order.
pub fn index_of(scheme: &Scheme, node: Node) -> Option<usize>
    ensures { result ≡ index_of scheme.now node }
{
    match node {
        Node::Itl => Some(0),
        Node::Registry(code) => {
            let index = scheme.index_of(code)?;
            Some(index + 1)
        }
    }
}

/// The node at that index among the nodes of the scheme. The index must be less than their number.
pub fn node_at(scheme: &Scheme, index: usize) -> Node
    requires { index < length (nodes scheme.now) }
    ensures { slice_get (nodes scheme.now) index ≡ Some result }
{
    if index == 0 {
        return Node::Itl;
    }
    Node::Registry(scheme.registries()[index - 1].code)
}

/// Whether the node is the log.
pub fn is_log(node: Node) -> bool
    ensures { result ≡ same_node node Itl }
{
    node == Node::Itl
}

/// Whether the node is the registry of that code.
pub fn is_registry(node: Node, code: Code) -> bool
    ensures { result ≡ same_node node (Registry code) }
{
    node == Node::Registry(code)
}
