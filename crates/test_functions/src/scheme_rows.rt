use crate::cores::{ROOM, scheme};
use crate::same::assert_same;
use protocol::scheme::{Allotment, Holder, Scheme, SchemeFault, SchemeRegistry};
use protocol::units::{Block, Code, Kind, NoMemory, Period, Unit, UnitMap};
use std::alloc::Global;
use std::process::Abort;
use test_support::{READING, again};

const JP: &str =
    r#"{"accounts":[7,8],"allotted":[],"code":"JP","eligible":true,"kinds":["AAU","CER"]}"#;

const NZ: &str =
    r#"{"accounts":[1,2],"allotted":[{"account":1,"units":["NZ:1:1-100:AAU"]}],"code":"NZ","eligible":true,"kinds":["AAU","RMU","ERU","CER","tCER","lCER"]}"#;

fn text_of(rt: &impl Abort, alloc: Global, registries: &str) -> String {
    format!(in alloc; "{{\"records\":1000,\"registries\":[{registries}]}}").expect(rt, READING)
}

/// The result of reading the text.
fn read_text(alloc: Global, text: &str) -> Result<Scheme, SchemeFault> {
    again!(Scheme::read(alloc, text.as_bytes()), Err(SchemeFault::NoMemory) => ())
}

fn read(rt: &impl Abort, alloc: Global, registries: &str) -> Result<Scheme, SchemeFault> {
    read_text(alloc, text_of(rt, alloc, registries).as_str())
}

fn registry(rt: &impl Abort, alloc: Global, code: &str, accounts: &str, allotted: &str) -> String {
    let text = format!(in alloc;
        "{{\"accounts\":[{accounts}],\"allotted\":[{allotted}],\"code\":\"{code}\",\"eligible\":false,\"kinds\":[]}}"
    );
    text.expect(rt, READING)
}

/// Asserts the fault of JP and a registry NZ of those accounts and allotments, or that they have none.
fn assert_beside_jp(
    rt: &impl Abort,
    alloc: Global,
    accounts: &str,
    allotted: &str,
    wanted: Option<SchemeFault>,
) {
    let nz = registry(rt, alloc, "NZ", accounts, allotted);
    let both = format!(in alloc; "{JP},{nz}").expect(rt, READING);
    assert_same(rt, read(rt, alloc, both.as_str()).err(), wanted);
}

/// The texts of that number of numbers from 1 on, between `before` and `after`.
fn repeated(rt: &impl Abort, alloc: Global, count: u64, before: &str, after: &str) -> String {
    let mut text = String::new(alloc);
    for i in 1..=count {
        let comma = if i > 1 { "," } else { "" };
        let next = format!(in alloc; "{comma}{before}{i}{after}").expect(rt, READING);
        text.push_str(next.as_str()).expect(rt, READING);
    }
    text
}

/// The registry has that code and these accounts, and is eligible.
fn assert_member(rt: &impl Abort, member: &SchemeRegistry, code: &str, accounts: &[u64]) {
    let code = Code::read(code).expect(rt, "two letters");
    assert_same(rt, member.code, code);
    assert!(rt; member.accounts.as_slice() == accounts);
    assert!(rt; member.eligible);
}

/// The allotment is a hundred units in account 1.
fn assert_allotment(rt: &impl Abort, allotment: &Allotment) {
    let block = Block::read("NZ:1:1-100:AAU").expect(rt, "a block");
    assert_same(rt, allotment.account, 1);
    assert_same(rt, allotment.units.as_slice(), [block].as_slice());
}

/// The scheme is that of JP and NZ.
fn assert_worked(rt: &impl Abort, scheme: &Scheme) {
    assert_same(rt, scheme.records(), 1000);
    let registries = scheme.registries();
    assert_same(rt, registries.len(), 2);
    let (jp, nz) = (&registries[0], &registries[1]);
    assert_member(rt, jp, "JP", &[7, 8]);
    assert_member(rt, nz, "NZ", &[1, 2]);
    assert_same(rt, jp.kinds.as_slice(), [Kind::Aau, Kind::Cer].as_slice());
    assert_same(rt, nz.kinds.as_slice().len(), 6);
    assert_same(rt, jp.allotted.as_slice().len(), 0);
    assert_same(rt, nz.allotted.as_slice().len(), 1);
    for allotment in nz.allotted.as_slice() {
        assert_allotment(rt, allotment);
    }
}

/// The scheme of these registries is that of JP and NZ, and so is its copy.
fn assert_read(rt: &impl Abort, alloc: Global, first: &str, second: &str) {
    let registries = format!(in alloc; "{first},{second}").expect(rt, READING);
    let scheme = read(rt, alloc, registries.as_str()).expect(rt, "a scheme");
    let copy = again!(scheme.copy(alloc), Err(NoMemory) => ());
    let copy = copy.expect(rt, "memory");
    assert_worked(rt, &scheme);
    assert_worked(rt, &copy);
    drop(copy);
    drop(scheme);
}

#[test]
fn a_scheme_is_read_and_copied(rt: HostRuntime) {
    assert_read(&rt, rt.alloc(), JP, NZ);
    assert_read(&rt, rt.alloc(), NZ, JP);
}

/// The unit of that number, among those that NZ allotted in the first period.
fn unit(origin: Code, number: u64) -> Unit {
    let period = Period::First;
    Unit {
        origin,
        period,
        number,
    }
}

/// The scheme and its allotments both have that holder of the unit, or none.
fn assert_holder(
    rt: &impl Abort,
    scheme: &Scheme,
    allotments: &UnitMap<Holder>,
    unit: &Unit,
    wanted: Option<Holder>,
) {
    assert_same(rt, scheme.allotted(unit), wanted);
    assert_same(rt, allotments.get(unit), wanted);
}

#[test]
fn a_holder_is_found(rt: HostRuntime) {
    let registry = Code::read("NZ").expect(&rt, "two letters");
    let (account, kind) = (1, Kind::Aau);
    let holder = Holder {
        registry,
        account,
        kind,
    };
    let scheme = scheme(&rt, rt.alloc(), ROOM);
    let allotments = again!(scheme.allotments(rt.alloc()), Err(NoMemory) => ());
    let allotments = allotments.expect(&rt, "memory");
    assert!(rt; scheme.member(registry).is_some());
    let (last, next) = (unit(registry, 100), unit(registry, 101));
    assert_holder(&rt, &scheme, &allotments, &last, Some(holder));
    assert_holder(&rt, &scheme, &allotments, &next, None);
    drop(allotments);
    drop(scheme);
}

#[test]
fn what_is_no_scheme(rt: HostRuntime) {
    let empty = read_text(rt.alloc(), "");
    assert_same(&rt, empty.err(), Some(SchemeFault::NotJson));
    let list = read_text(rt.alloc(), "[]");
    assert_same(&rt, list.err(), Some(SchemeFault::Shape));
}

#[test]
fn the_limit_of_allotments(rt: HostRuntime) {
    for (count, wanted) in [
        (10_000, SchemeFault::AllotmentOverlap),
        (10_001, SchemeFault::TooMany),
    ] {
        let before = "{\"account\":1,\"units\":[\"NZ:2:1";
        let allotted = repeated(&rt, rt.alloc(), count, before, "-9999999:AAU\"]}");
        assert_beside_jp(&rt, rt.alloc(), "1", allotted.as_str(), Some(wanted));
    }
}
