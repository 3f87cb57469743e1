use crate::given::Given::{self, Message};
use crate::journals::{ACCEPTED, ASKED, CHECKED, NONE, PROPOSED, TOLD_JP, assert_fault};
use crate::worked_nodes::registry;
use command_faults::OpFault;
use protocol::units::Node;
use test_support::texts;

/// The proposal at the log, with one unit fewer.
const FEWER: Given = Message(texts::PROPOSED_99);

#[test]
fn another_proposal_came_to_the_log(rt: HostRuntime) {
    let node = Node::Itl;
    let journals: [&[Given]; 3] = [&[FEWER], NONE, &[PROPOSED]];
    assert_fault(&rt, rt.alloc(), journals, OpFault::Stuck { node, place: 0 });
}

#[test]
fn nobody_told_jp(rt: HostRuntime) {
    let node = registry(&rt, "JP");
    let journals: [&[Given]; 3] = [&[ASKED, ACCEPTED], &[CHECKED, TOLD_JP], &[PROPOSED]];
    assert_fault(&rt, rt.alloc(), journals, OpFault::Stuck { node, place: 1 });
}
