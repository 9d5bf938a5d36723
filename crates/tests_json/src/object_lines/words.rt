//! The objects of words that are no token, and which objects are wanted.

use crate::compare::same;
use crate::object_lines::seen::head;
use arrayvec::ArrayVec;
use pmb_json_objects::{Head, OBJECT, bad_token_line, is_wanted};
use pmb_places::Place;

#[test]
fn a_word_is_told_up_to_32_bytes(rt: HostRuntime) {
    let place = Place { line: 2, column: 7 };
    let mut out = ArrayVec::<u8, OBJECT>::new();
    bad_token_line(&mut out, head(5, place, None), b"b\"\\\x00\xff~");
    same(
        &rt,
        "a short word",
        out.as_slice(),
        &b"{\"at\":5,\"line\":2,\"column\":7,\"kind\":\"bad_token\",\"word\":\"b\\u0022\\u005c\\u0000\\u00ff~\"}\n"[..],
    );
    out.clear();
    bad_token_line(
        &mut out,
        head(0, place, Some("2024-05-01T12:30:00Z")),
        b"0123456789abcdef0123456789ABCDEFg",
    );
    same(
        &rt,
        "a long word",
        out.as_slice(),
        &b"{\"at\":0,\"line\":2,\"column\":7,\"time\":\"2024-05-01T12:30:00Z\",\"kind\":\"bad_token\",\"word\":\"0123456789abcdef0123456789ABCDEF\"}\n"[..],
    );
}

#[test]
fn the_program_of_the_doc(rt: HostRuntime) {
    let head = Head {
        at: 5,
        place: Place { line: 2, column: 7 },
        time: Some(b"0.25"),
    };
    let mut out = ArrayVec::<u8, OBJECT>::new();
    bad_token_line(&mut out, head, b"b\"");
    let line =
        b"{\"at\":5,\"line\":2,\"column\":7,\"time\":\"0.25\",\"kind\":\"bad_token\",\"word\":\"b\\u0022\"}\n";
    same(&rt, "an error", out.as_slice(), &line[..]);
}

#[test]
fn the_devices_named_are_wanted(rt: HostRuntime) {
    same(&rt, "no list", is_wanted(&[], Some(0x58)), true);
    same(&rt, "no list, no device", is_wanted(&[], None), true);
    same(
        &rt,
        "in the list",
        is_wanted(&[0x59, 0x58], Some(0x58)),
        true,
    );
    same(
        &rt,
        "not in the list",
        is_wanted(&[0x59, 0x5a], Some(0x58)),
        false,
    );
    same(&rt, "a list, no device", is_wanted(&[0x59], None), true);
}
