//! Whole objects.

use crate::compare::same;
use arrayvec::ArrayVec;
use pmb_json_text::{
    ItemOrder, begin, begin_array, bool_member, end, end_array, hex_member, null_member,
    number_member, text_item, text_member,
};

#[test]
fn no_member(rt: HostRuntime) {
    let mut out = ArrayVec::<u8, 8>::new();
    begin(&mut out);
    end(&mut out);
    same(&rt, "no members", out.as_slice(), &b"{}\n"[..]);
}

#[test]
fn one_member_of_each_kind(rt: HostRuntime) {
    let mut out = ArrayVec::<u8, 256>::new();
    begin(&mut out);
    number_member(&mut out, ItemOrder::First, "at", 12);
    text_member(&mut out, ItemOrder::Later, "kind", b"write");
    hex_member(&mut out, ItemOrder::Later, "bytes", &[0x00, 0x18, 0xaf]);
    bool_member(&mut out, ItemOrder::Later, "pec", true);
    bool_member(&mut out, ItemOrder::Later, "paged", false);
    null_member(&mut out, ItemOrder::Later, "device");
    end(&mut out);
    same(
        &rt,
        "each kind",
        out.as_slice(),
        &b"{\"at\":12,\"kind\":\"write\",\"bytes\":\"0018af\",\"pec\":true,\"paged\":false,\"device\":null}\n"[..],
    );
}

#[test]
fn strings_without_a_byte(rt: HostRuntime) {
    let mut out = ArrayVec::<u8, 128>::new();
    begin(&mut out);
    text_member(&mut out, ItemOrder::First, "text", b"");
    hex_member(&mut out, ItemOrder::Later, "bytes", &[]);
    end(&mut out);
    same(
        &rt,
        "empty ones",
        out.as_slice(),
        &b"{\"text\":\"\",\"bytes\":\"\"}\n"[..],
    );
}

#[test]
fn arrays_of_none_one_and_three(rt: HostRuntime) {
    let mut out = ArrayVec::<u8, 256>::new();
    begin(&mut out);
    begin_array(&mut out, ItemOrder::First, "none");
    end_array(&mut out);
    begin_array(&mut out, ItemOrder::Later, "one");
    text_item(&mut out, ItemOrder::First, b"VOUT");
    end_array(&mut out);
    begin_array(&mut out, ItemOrder::Later, "three");
    text_item(&mut out, ItemOrder::First, b"VOUT");
    text_item(&mut out, ItemOrder::Later, b"");
    text_item(&mut out, ItemOrder::Later, b"a \"b\"");
    end_array(&mut out);
    end(&mut out);
    same(
        &rt,
        "arrays",
        out.as_slice(),
        &b"{\"none\":[],\"one\":[\"VOUT\"],\"three\":[\"VOUT\",\"\",\"a \\u0022b\\u0022\"]}\n"[..],
    );
}

#[test]
fn lines_follow_what_is_there(rt: HostRuntime) {
    let mut out = ArrayVec::<u8, 128>::new();
    begin(&mut out);
    number_member(&mut out, ItemOrder::First, "a", 1);
    end(&mut out);
    begin(&mut out);
    number_member(&mut out, ItemOrder::First, "b", 2);
    end(&mut out);
    same(
        &rt,
        "two lines",
        out.as_slice(),
        &b"{\"a\":1}\n{\"b\":2}\n"[..],
    );
}
