use crate::same::assert_same;
use protocol::wire::{Reply, ReplyCode, ReplyFault};
use std::alloc::Global;
use test_support::again;

const TEXTS: &[(u16, &str)] = &[
    (0, r#"{"code":0,"result":"received"}"#),
    (41, r#"{"code":41,"result":"refused"}"#),
    (42, r#"{"code":42,"result":"refused"}"#),
    (43, r#"{"code":43,"result":"refused"}"#),
    (44, r#"{"code":44,"result":"refused"}"#),
    (45, r#"{"code":45,"result":"refused"}"#),
    (46, r#"{"code":46,"result":"refused"}"#),
    (47, r#"{"code":47,"result":"refused"}"#),
    (48, r#"{"code":48,"result":"refused"}"#),
    (49, r#"{"code":49,"result":"refused"}"#),
    (50, r#"{"code":50,"result":"refused"}"#),
];

/// `Received` for 0, and a refusal for every other number that has one.
fn reply(number: u16) -> Option<Reply> {
    if number == 0 {
        return Some(Reply::Received);
    }
    Some(Reply::Refused(ReplyCode::new(number)?))
}

/// The result of reading the line.
fn read(alloc: Global, line: &str) -> Result<Reply, ReplyFault> {
    again!(Reply::read(alloc, line.as_bytes()), Err(ReplyFault::NoMemory) => ())
}

#[test]
fn a_reply_is_written_and_read_back(rt: HostRuntime) {
    let alloc = rt.alloc();
    for (number, text) in TEXTS {
        let reply = reply(*number).expect(&rt, "a reply's number");
        assert_same(&rt, reply.write().as_slice(), text.as_bytes());
        assert_same(&rt, read(alloc, text), Ok(reply));
    }
}

#[test]
fn blanks_and_another_order_are_read(rt: HostRuntime) {
    let alloc = rt.alloc();
    let line = " { \"result\" : \"refused\",\t\"code\":46 } ";
    assert_same(&rt, read(alloc, line).ok(), reply(46));
}

const NO_REPLIES: &[&str] = &[
    "",
    "{}",
    "[]",
    r#"{"code":0}"#,
    r#"{"code":0,"result":"refused"}"#,
    r#"{"code":46,"result":"received"}"#,
    r#"{"code":40,"result":"refused"}"#,
    r#"{"code":51,"result":"refused"}"#,
    r#"{"code":65582,"result":"refused"}"#,
    r#"{"code":0.0,"result":"received"}"#,
    r#"{"code":"46","result":"refused"}"#,
    r#"{"code":0,"id":1,"result":"received"}"#,
    r#"{"code":0,"result":"received""#,
    r#"{"code":0,"result":"received"}}"#,
];

#[test]
fn what_is_no_reply_is_told(rt: HostRuntime) {
    let alloc = rt.alloc();
    for line in NO_REPLIES {
        assert_same(&rt, read(alloc, line), Err(ReplyFault::NotReply));
    }
    assert!(rt; ReplyCode::new(40).is_none() && ReplyCode::new(51).is_none());
}
