//! The core of a registry, or of the log.

use log_core::LogCore;
use protocol::{NodeCore, Stepped};
use records::Records;
use registry_core::RegistryCore;
use scheme::Scheme;
use status::{Status, TransactionId};
use std::alloc::Global;
use units::{NoMemory, Node, Refusal};
use wire::Input;

/// The core of a registry, or of the log.
#[derive(Debug, Drop)]
pub enum Core {
    Registry(RegistryCore),
    Log(LogCore),
}

impl Core {
    ghost use Rattle.std.specs.Prelude.{◌≡◌, [], IfOk};
    ghost use Rattle.world.specs.Cores.{journal_of, node_of, scheme_of};

    /// The core of that node under that scheme, which has recorded nothing yet; or `NoMemory`.
    pub fn new(alloc: Global, scheme: &Scheme, node: Node) -> Result<Core, NoMemory>
        ensures { IfOk result (λ c. (scheme_of c ≡ scheme.now) × (node_of c ≡ node) × (journal_of c ≡ [])) }
    {
        match node {
            Node::Itl => Ok(Core::Log(LogCore::new(alloc, scheme)?)),
            Node::Registry(code) => Ok(Core::Registry(RegistryCore::new(alloc, scheme, code)?)),
        }
    }
}

impl NodeCore for Core {
    ghost use Rattle.world.specs.Cores as cores;

    ghost scheme_of = { cores.scheme_of };

    ghost node_of = { cores.node_of };

    ghost journal_of = { cores.journal_of };

    ghost lacked_memory = { λ _ _. Unit {0} };

    fn node(&self) -> Node {
        match self {
            Core::Registry(core) => core.node(),
            Core::Log(core) => core.node(),
        }
    }

    fn recorded(&self) -> &Records {
        match self {
            Core::Registry(core) => core.recorded(),
            Core::Log(core) => core.recorded(),
        }
    }

    fn step(&mut self, input: &Input) -> Result<Stepped, Refusal> {
        match self {
            Core::Registry(core) => core.step(input),
            Core::Log(core) => core.step(input),
        }
    }

    fn status_of(&self, id: TransactionId) -> Option<Status> {
        match self {
            Core::Registry(core) => core.status_of(id),
            Core::Log(core) => core.status_of(id),
        }
    }

    fn fresh(&self) -> Result<Core, NoMemory> {
        match self {
            Core::Registry(core) => Ok(Core::Registry(core.fresh()?)),
            Core::Log(core) => Ok(Core::Log(core.fresh()?)),
        }
    }
}
