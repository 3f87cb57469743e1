use crate::named::code;
use crate::same::assert_same;
use protocol::status::{Moment, MomentFault, TransactionId};
use protocol::units::NoMemory;
use test_support::again;

#[test]
fn moment_texts(rt: HostRuntime) {
    let read = Moment::read("2012-05-01T00:00:00Z");
    assert_same(&rt, read.ok().map(|m| m.seconds), Some(1_335_830_400));
    assert_same(
        &rt,
        Moment::read("2012-05-01T00:00:00.5Z").err(),
        Some(MomentFault::Text),
    );
    assert_same(
        &rt,
        Moment::read("1970-01-01T00:00:00Z").ok(),
        Moment::new(0),
    );
    assert_same(
        &rt,
        Moment::read("9998-12-31T23:59:59Z").ok(),
        Moment::new(253_370_764_799),
    );
}

#[test]
fn an_identifier_is_written_as_it_was_read(rt: HostRuntime) {
    let id = TransactionId::new(code(&rt, "NZ"), 999_999).expect(&rt, "the last number");
    assert_same(&rt, TransactionId::read("NZ999999"), Some(id));
    let written = again!(id.write(rt.alloc()), Err(NoMemory) => ());
    let written = written.expect(&rt, "memory");
    assert_same(&rt, written.as_str(), "NZ999999");
}
