//! Tags: values from RFC 4231, and files of keys with each fault.

use protocol::units::{Code, Node};
use std::alloc::Global;
use tags::{Keys, KeysFault, MOST_KEYS, TAG_DIGITS, hmac, split_tagged};
use test_support::{READING, again};

/// A test case of RFC 4231, section 4: the key, the data in two parts, and the first digits of the HMAC-SHA-256.
struct Case {
    key: &'static [u8],
    first: &'static [u8],
    second: &'static [u8],
    digits: &'static [u8],
}

/// The test cases 1 to 7, in their order.
const CASES: [Case; 7] = [
    Case {
        key: &[0x0b; 20],
        first: b"Hi ",
        second: b"There",
        digits: b"b0344c61d8db38535ca8afceaf0bf12b881dc200c9833da726e9376c2e32cff7",
    },
    Case {
        key: b"Jefe",
        first: b"what do ya want ",
        second: b"for nothing?",
        digits: b"5bdcc146bf60754e6a042426089575c75a003f089d2739839dec58b964ec3843",
    },
    Case {
        key: &[0xaa; 20],
        first: &[0xdd; 20],
        second: &[0xdd; 30],
        digits: b"773ea91e36800e46854db8ebd09181a72959098b3ef8c122d9635514ced565fe",
    },
    Case {
        key: &[
            1, 2, 3, 4, 5, 6, 7, 8, 9, 10, 11, 12, 13, 14, 15, 16, 17, 18, 19, 20, 21, 22, 23, 24,
            25,
        ],
        first: &[0xcd; 50],
        second: b"",
        digits: b"82558a389a443c0ea4cc819899f2083a85f0faa3e578f8077a2e3ff46729665b",
    },
    Case {
        key: &[0x0c; 20],
        first: b"",
        second: b"Test With Truncation",
        digits: b"a3b6167473100ee06e0c796c2955552b",
    },
    Case {
        key: &[0xaa; 131],
        first: b"Test Using Larger Than Block-Size Key",
        second: b" - Hash Key First",
        digits: b"60e431591ee0b67f0d8a26aacbf5b77f8e0bc6213728c5140546040f0ee37f54",
    },
    Case {
        key: &[0xaa; 131],
        first: b"This is a test using a larger than block-size key and a larger than block-size data. ",
        second: b"The key needs to be hashed before being used by the HMAC algorithm.",
        digits: b"9b09ffa71b942fcb27635fbcd5b0e944bfdc63644f0713938a7f51535c3a35e2",
    },
];

#[test]
fn gives_the_values_of_rfc_4231(rt: HostRuntime) {
    for case in &CASES {
        let mut digits = [0u8; TAG_DIGITS];
        let code = hmac(case.key, &[case.first, case.second]);
        assert!(rt; hex::encode_to_slice(code.as_slice(), &mut digits).is_ok());
        assert!(rt; digits.starts_with(case.digits));
    }
}

/// The registry of that code, or the log if it is no code.
fn registry(first: u8, second: u8) -> Node {
    match Code::new(first, second) {
        Some(code) => Node::Registry(code),
        None => Node::Itl,
    }
}

/// The text of a file of keys, and the result of reading it.
struct File {
    text: &'static [u8],
    fault: Option<KeysFault>,
}

const FILES: [File; 14] = [
    File {
        text: b"ITL 000102030405060708090a0b0c0d0e0f101112131415161718191a1b1c1d1e1f\n",
        fault: None,
    },
    File {
        text: b"ITL 000102030405060708090A0B0c0d0e0f101112131415161718191a1b1c1d1e1f\n\
            GB 202102030405060708090a0b0c0d0e0f101112131415161718191a1b1c1d1e1f",
        fault: None,
    },
    File {
        text: b"",
        fault: Some(KeysFault::Empty),
    },
    File {
        text: b"\n",
        fault: Some(KeysFault::Form(1)),
    },
    File {
        text: b"ITL 000102030405060708090a0b0c0d0e0f101112131415161718191a1b1c1d1e1f\n\n",
        fault: Some(KeysFault::Form(2)),
    },
    File {
        text: b"ITL 000102030405060708090a0b0c0d0e0f101112131415161718191a1b1c1d1e1f\r\n",
        fault: Some(KeysFault::Form(1)),
    },
    File {
        text: b"ITL 000102030405060708090a0b0c0d0e0f101112131415161718191a1b1c1d1e1g\n",
        fault: Some(KeysFault::Form(1)),
    },
    File {
        text: b"ITL 000102030405060708090a0b0c0d0e0f101112131415161718191a1b1c1d1e1f00\n",
        fault: Some(KeysFault::Form(1)),
    },
    File {
        text: b"gb 000102030405060708090a0b0c0d0e0f101112131415161718191a1b1c1d1e1f\n",
        fault: Some(KeysFault::Form(1)),
    },
    File {
        text: b"GB  00102030405060708090a0b0c0d0e0f101112131415161718191a1b1c1d1e1f\n",
        fault: Some(KeysFault::Form(1)),
    },
    File {
        text: b"ITL 000102030405060708090a0b0c0d0e0f101112131415161718191a1b1c1d1e1f\n\
            GB 202102030405060708090a0b0c0d0e0f101112131415161718191a1b1c1d1e1f\n\
            ITL 000102030405060708090a0b0c0d0e0f101112131415161718191a1b1c1d1e1f\n",
        fault: Some(KeysFault::Twice(3)),
    },
    File {
        text: b"ITL 000102030405060708090a0b0c0d0e0f101112131415161718191a1b1c1d1e1f\n\
            DE202102030405060708090a0b0c0d0e0f101112131415161718191a1b1c1d1e1f\n\
            ITL\n",
        fault: Some(KeysFault::Form(2)),
    },
    File {
        text: b"ITL 000102030405060708090a0b0c0d0e0f101112131415161718191a1b1c1d1e1f\n\
            GB 000102030405060708090A0B0C0D0E0F101112131415161718191A1B1C1D1E1F\n",
        fault: Some(KeysFault::Same(2)),
    },
    File {
        text: b"DE 202122030405060708090a0b0c0d0e0f101112131415161718191a1b1c1d1e1f\n\
            GB 202102030405060708090a0b0c0d0e0f101112131415161718191a1b1c1d1e1f\n\
            DE 202102030405060708090a0b0c0d0e0f101112131415161718191a1b1c1d1e1f\n",
        fault: Some(KeysFault::Twice(3)),
    },
];

/// The result of reading the text of a file.
fn keys_of(alloc: Global, text: &[u8]) -> Result<Keys, KeysFault> {
    again!(Keys::read(alloc, text), Err(KeysFault::NoMemory) => ())
}

#[test]
fn reads_files_of_keys(rt: HostRuntime) {
    for file in &FILES {
        assert_eq!(rt; keys_of(rt.alloc(), file.text).err(), file.fault);
    }
}

/// A key in a file, and the tags of a message and of its reply under it, as another program computes them.
#[test]
fn tags_messages_and_replies(rt: HostRuntime) {
    let file = b"ITL 000102030405060708090a0b0c0d0e0f101112131415161718191a1b1c1d1e1f";
    let keys = keys_of(rt.alloc(), file).expect(&rt, "keys");
    assert!(rt; keys.key_of(registry(b'D', b'E')).is_none());
    let key = keys.key_of(Node::Itl).expect(&rt, "a key");
    let gb = registry(b'G', b'B');
    let message = b"b583faa09fe16cb8554c3dfac417310c7fd05eb00c48d715787b5bad4bbaf61b";
    let reply = b"f5949ec859c0143c144b9914d2536a10091822fed19ca1570685e69274e21cf5";
    assert!(rt; key.message_tag(Node::Itl, gb, b"text").is_written(message));
    assert!(rt;
        key.reply_tag(Node::Itl, gb, b"text", b"reply")
            .is_written(reply)
    );
    assert!(rt; !key.message_tag(gb, Node::Itl, b"text").is_written(message));
}

/// More lines than a file of keys may have.
#[test]
fn refuses_too_many_keys(rt: HostRuntime) {
    let mut file = Vec::new(rt.alloc());
    for i in 0..=MOST_KEYS as u8 {
        file.push(b'A' + i / 26).expect(&rt, READING);
        file.push(b'A' + i % 26).expect(&rt, READING);
        file.push(b' ').expect(&rt, READING);
        file.extend_from_slice(&[b'0'; 62]).expect(&rt, READING);
        file.push(b'0' + i / 10).expect(&rt, READING);
        file.push(b'0' + i % 10).expect(&rt, READING);
        file.push(b'\n').expect(&rt, READING);
    }
    assert_eq!(rt;
        keys_of(rt.alloc(), file.as_slice()).err(),
        Some(KeysFault::TooMany)
    );
}

#[test]
fn splits_a_line_behind_its_tag(rt: HostRuntime) {
    let line = b"f5949ec859c0143c144b9914d2536a10091822fed19ca1570685e69274e21cf5 text";
    let parts = split_tagged(line.as_slice()).expect(&rt, "a split");
    assert_eq!(rt; parts.1, b"text".as_slice());
    assert!(rt; split_tagged(b"f5949ec8 text").is_none());
}
