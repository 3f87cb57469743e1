use crate::cores::{ROOM, walk};
use crate::given::Given::{self, Event, Message};
use crate::given::{PROPOSE, PROPOSE_SIXTY};
use crate::named::{id, unit};
use crate::registries::registry;
use crate::same::{assert_same, assert_same_in};
use crate::worlds::{
    Line, assert_bag, assert_journal, assert_owed, assert_stands, assert_stocks, assert_transfers,
    assert_unit, world_of,
};
use protocol::Outcome::{Recorded, Refused};
use protocol::status::Status::Completed;
use registry_core::RegistryCore;
use std::process::Abort;
use test_support::texts::{
    ACCEPTED, ACCEPTED_TO_NZ, CHECKED, COMPLETED, COMPLETED_TO_JP, PROPOSED,
};

/// The events of the example `one_transfer`. Those before the last two are the example `in_transit`.
const ONE_TRANSFER: [&str; 20] = [
    PROPOSE,
    "commit NZ 1",
    "post NZ 0",
    "deliver 0 2012-05-01T00:00:00Z",
    "commit ITL 1",
    "post ITL 0",
    "deliver 1 2012-05-01T00:00:00Z",
    "commit JP 1",
    "post JP 0",
    "deliver 2 2012-05-01T00:00:00Z",
    "commit ITL 1",
    "post ITL 1",
    "deliver 3 2012-05-01T00:00:00Z",
    "commit NZ 1",
    "post NZ 1",
    "deliver 4 2012-05-01T00:00:00Z",
    "commit ITL 1",
    "post ITL 2",
    "deliver 5 2012-05-01T00:00:00Z",
    "commit JP 1",
];

/// NZ's order to transfer its hundred units.
const HUNDRED: Given = Event(PROPOSE);

const SIX_POSTED: &[(&str, u64, &str)] = &[
    ("NZ", 0, PROPOSED),
    ("ITL", 0, CHECKED),
    ("JP", 0, ACCEPTED),
    ("ITL", 1, ACCEPTED_TO_NZ),
    ("NZ", 1, COMPLETED),
    ("ITL", 2, COMPLETED_TO_JP),
];

const LOG: &[Given] = &[Message(PROPOSED), Message(ACCEPTED), Message(COMPLETED)];

const JP: &[Given] = &[Message(CHECKED), Message(COMPLETED_TO_JP)];

const NZ: &[Given] = &[HUNDRED, Message(ACCEPTED_TO_NZ)];

const NO_LINES: &[Line] = &[];

const NO_TRANSFERS: &[&str] = &[];

/// All units in JP's account.
const AT_JP: &[(&str, &[Line])] = &[("JP", &[(7, "NZ:1:1-100:AAU", None)]), ("NZ", NO_LINES)];

#[test]
fn one_transfer(rt: HostRuntime) {
    let alloc = rt.alloc();
    let world = world_of(&rt, alloc, &ONE_TRANSFER);
    assert_same(&rt, world.scheme().records(), 1000);
    let all = [
        ("NZ", Some(Completed)),
        ("ITL", Some(Completed)),
        ("JP", Some(Completed)),
    ];
    assert_stands(&rt, &world, "NZ1", &all);
    assert_journal(&rt, alloc, &world, "ITL", LOG, 3);
    assert_journal(&rt, alloc, &world, "JP", JP, 2);
    assert_journal(&rt, alloc, &world, "NZ", NZ, 2);
    assert_bag(&rt, alloc, &world, SIX_POSTED);
    assert_stocks(&rt, alloc, &world, AT_JP);
    assert_transfers(&rt, alloc, &world, &["NZ1"], NO_TRANSFERS);
    drop(world);
}

#[test]
fn owed_in_transit(rt: HostRuntime) {
    let alloc = rt.alloc();
    let world = world_of(&rt, alloc, &ONE_TRANSFER[..18]);
    assert_stocks(&rt, alloc, &world, &[("JP", NO_LINES), ("NZ", NO_LINES)]);
    assert_transfers(&rt, alloc, &world, &["NZ1"], &["NZ1"]);
    assert_owed(&rt, alloc, &world, "NZ:1:1-1:AAU", &["NZ1"]);
    assert_owed(&rt, alloc, &world, "NZ:1:100-100:AAU", &["NZ1"]);
    assert_owed(&rt, alloc, &world, "NZ:1:101-101:AAU", NO_TRANSFERS);
    assert_unit(&rt, &world, "NZ", "NZ:1:1-1:AAU", false, false);
    assert_unit(&rt, &world, "JP", "NZ:1:1-1:AAU", false, false);
    drop(world);
}

/// NZ's order for the first sixty units.
const SIXTY: Given = Event(PROPOSE_SIXTY);

/// The line of an order for one of these units and for all others.
const PROPOSE_OVERLAPPING: &str = "propose NZ 1 JP 7 NZ:1:60-100:AAU";

const OVERLAPPING: Given = Event(PROPOSE_OVERLAPPING);

/// A unit, as a block; whether the registry holds it; the transfer that reserves it; and whether it is spendable there.
type UnitRow = (&'static str, bool, Option<&'static str>, bool);

fn assert_units(rt: &impl Abort, registry: &RegistryCore, rows: &[UnitRow]) {
    for (block, held, reserving, spendable) in rows {
        let unit = unit(rt, *block);
        let reserver = reserving.map(|text| id(rt, text));
        assert_same_in(rt, registry.held(&unit), *held, *block);
        assert_same_in(rt, registry.reserving(&unit), reserver, *block);
        assert_same_in(rt, registry.spendable(&unit), *spendable, *block);
    }
}

const SOME_RESERVED: &[UnitRow] = &[
    ("NZ:1:1-1:AAU", true, Some("NZ1"), false),
    ("NZ:1:60-60:AAU", true, Some("NZ1"), false),
    ("NZ:1:61-61:AAU", true, None, true),
    ("NZ:1:101-101:AAU", false, None, false),
];

#[test]
fn units_at_the_registry_of_a_reserved_overlap(rt: HostRuntime) {
    let alloc = rt.alloc();
    let mut nz = registry(&rt, alloc, "NZ", ROOM);
    let orders = [(SIXTY, Recorded(0)), (OVERLAPPING, Refused(106))];
    walk(&rt, alloc, &mut nz, &orders);
    assert_units(&rt, &nz, SOME_RESERVED);
    drop(nz);
}
