//! Exports of a node's records into new stores.
ghost use Rattle.std.specs.Prelude.{◌≡◌, OnOk};
ghost use Rattle.stores.specs.Records.{written};

use crate::archive::Archive;
use one_node::{Exporter, NotExported};
use stores::NodeStore;
use units::Node;
use wire::Input;

/// Exports into new stores of an archive.
#[derive(Clone, Copy)]
pub(crate) struct Exports<'a, A> {
    archive: &'a A,
}

impl<'a, A> Exports<'a, A> {
    /// Exports into new stores of that archive.
    pub(crate) fn new(archive: &'a A) -> Exports<'a, A>
        ensures { result.archive ≡ archive.entry }
    {
        Exports { archive }
    }
}

/// Appends the records to the store, which has none yet.
///
/// # Errors
///
/// Fails with `NotExported` if the store has a record, or if it failed.
fn fill<S: NodeStore>(store: &mut S, records: &[Input]) -> Result<(), NotExported>
    ensures whose { S.whose store.new ≡ S.whose store.old }
    ensures filled { OnOk result (S.is_honest store.new → S.content store.new ≡ written records.now) }
{
    let Ok(first) = store.load_page(0, 1) else {
        return Err(NotExported);
    };
    if !first.is_empty() {
        return Err(NotExported);
    }
    match store.append(records) {
        Ok(()) => Ok(()),
        Err(_) => Err(NotExported),
    }
}

impl<A: Archive> Exporter for Exports<'_, A> {
    ghost use Rattle.commands.specs.Standing.{IsExported};

    ghost holds = { λ e n path inputs. IsExported A.Archive e.archive.now A.Store.NodeStore path n inputs };

    fn export(&self, path: &str, node: Node, records: &[Input]) -> Result<(), NotExported> {
        let Ok(mut store) = self.archive.make_store(path, node) else {
            return Err(NotExported);
        };
        if fill(&mut store, records).is_err() {
            drop(store);
            return Err(NotExported);
        }
        match self.archive.close(store) {
            Ok(()) => Ok(()),
            Err(_) => Err(NotExported),
        }
    }
}
