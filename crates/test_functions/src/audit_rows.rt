use crate::given::Given;
use crate::journals::{
    ACCEPTED, ASKED, CHECKED, COMPLETED, IN_TRANSIT, NONE, OPENING, PROPOSED, TOLD_JP, TOLD_NZ,
    assert_fault, assert_table,
};
use crate::worked_nodes::registry;
use command_faults::OpFault;
use desk::stores::StoreFault;
use protocol::units::Node;
use test_support::texts::TABLE;

const LOG: &[Given] = &[ASKED, ACCEPTED, COMPLETED];

const JP: &[Given] = &[CHECKED, TOLD_JP];

const NZ: &[Given] = &[PROPOSED, TOLD_NZ];

#[test]
fn one_transfer(rt: HostRuntime) {
    assert_table(&rt, rt.alloc(), [LOG, JP, NZ], TABLE);
}

#[test]
fn in_transit(rt: HostRuntime) {
    assert_table(&rt, rt.alloc(), [LOG, &JP[..1], NZ], IN_TRANSIT);
}

#[test]
fn empty_stores(rt: HostRuntime) {
    assert_table(&rt, rt.alloc(), [NONE, NONE, NONE], OPENING);
}

#[test]
fn a_store_is_empty(rt: HostRuntime) {
    let node = Node::Itl;
    assert_fault(
        &rt,
        rt.alloc(),
        [LOG, JP, NONE],
        OpFault::Stuck { node, place: 0 },
    );
}

#[test]
fn a_record_that_is_not_recorded_is_damage(rt: HostRuntime) {
    let node = registry(&rt, "JP");
    let fault = StoreFault::Damaged(0);
    assert_fault(
        &rt,
        rt.alloc(),
        [LOG, &[TOLD_JP], NZ],
        OpFault::Store { node, fault },
    );
}
