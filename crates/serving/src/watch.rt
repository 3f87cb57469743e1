//! Watching the progress of a script.

use desk::SharedNode;
use std::sync::Wait;

/// Is called while a script is played. It changes no result of the script.
pub trait Watch {
    /// One more line was answered.
    fn answered(&mut self);

    /// Whether it wants the count of committed records now. It is called at each line, and again and again while a line
    /// waits for its answer.
    fn wants_count(&mut self) -> bool;

    /// All nodes together have committed this many records, those of the opening included.
    fn committed(&mut self, records: usize);
}

/// Passes on how many records the nodes at these desks have committed, if the watch wants to know.
pub fn tell_committed<D: SharedNode, P: Watch, R: Wait>(rt: &R, desks: &[D], watch: &mut P) {
    if !watch.wants_count() {
        return;
    }
    let mut records: usize = 0;
    for desk in desks {
        records = records.saturating_add(desk.committed_count(rt));
    }
    watch.committed(records);
}

/// A watch that does nothing.
#[derive(Clone, Copy, Debug)]
pub struct Nobody;

impl Watch for Nobody {
    fn answered(&mut self) {}

    fn wants_count(&mut self) -> bool {
        false
    }

    fn committed(&mut self, _records: usize) {}
}

impl weave::Watch for Nobody {
    fn read(&mut self, _records: usize) {}

    fn woven(&mut self) {}

    fn finished(&mut self) {}
}
