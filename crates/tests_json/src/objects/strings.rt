//! Strings: each byte as it stands in one.

use crate::compare::same;
use arrayvec::ArrayVec;
use pmb_json_text::{ItemOrder, begin, end, text_member};

/// The first of sixteen bytes, and how the sixteen stand in a string.
#[rattlefmt::skip]
static BYTES: [(u8, &str); 16] = [
    (0x00, "\\u0000\\u0001\\u0002\\u0003\\u0004\\u0005\\u0006\\u0007\\u0008\\u0009\\u000a\\u000b\\u000c\\u000d\\u000e\\u000f"),
    (0x10, "\\u0010\\u0011\\u0012\\u0013\\u0014\\u0015\\u0016\\u0017\\u0018\\u0019\\u001a\\u001b\\u001c\\u001d\\u001e\\u001f"),
    (0x20, " !\\u0022#$%&'()*+,-./"),
    (0x30, "0123456789:;<=>?"),
    (0x40, "@ABCDEFGHIJKLMNO"),
    (0x50, "PQRSTUVWXYZ[\\u005c]^_"),
    (0x60, "`abcdefghijklmno"),
    (0x70, "pqrstuvwxyz{|}~\\u007f"),
    (0x80, "\\u0080\\u0081\\u0082\\u0083\\u0084\\u0085\\u0086\\u0087\\u0088\\u0089\\u008a\\u008b\\u008c\\u008d\\u008e\\u008f"),
    (0x90, "\\u0090\\u0091\\u0092\\u0093\\u0094\\u0095\\u0096\\u0097\\u0098\\u0099\\u009a\\u009b\\u009c\\u009d\\u009e\\u009f"),
    (0xa0, "\\u00a0\\u00a1\\u00a2\\u00a3\\u00a4\\u00a5\\u00a6\\u00a7\\u00a8\\u00a9\\u00aa\\u00ab\\u00ac\\u00ad\\u00ae\\u00af"),
    (0xb0, "\\u00b0\\u00b1\\u00b2\\u00b3\\u00b4\\u00b5\\u00b6\\u00b7\\u00b8\\u00b9\\u00ba\\u00bb\\u00bc\\u00bd\\u00be\\u00bf"),
    (0xc0, "\\u00c0\\u00c1\\u00c2\\u00c3\\u00c4\\u00c5\\u00c6\\u00c7\\u00c8\\u00c9\\u00ca\\u00cb\\u00cc\\u00cd\\u00ce\\u00cf"),
    (0xd0, "\\u00d0\\u00d1\\u00d2\\u00d3\\u00d4\\u00d5\\u00d6\\u00d7\\u00d8\\u00d9\\u00da\\u00db\\u00dc\\u00dd\\u00de\\u00df"),
    (0xe0, "\\u00e0\\u00e1\\u00e2\\u00e3\\u00e4\\u00e5\\u00e6\\u00e7\\u00e8\\u00e9\\u00ea\\u00eb\\u00ec\\u00ed\\u00ee\\u00ef"),
    (0xf0, "\\u00f0\\u00f1\\u00f2\\u00f3\\u00f4\\u00f5\\u00f6\\u00f7\\u00f8\\u00f9\\u00fa\\u00fb\\u00fc\\u00fd\\u00fe\\u00ff"),
];

/// Sixteen bytes from one on.
fn sixteen(first: u8) -> [u8; 16] {
    let mut bytes = [first; 16];
    for i in 0..16_u8 {
        bytes[usize::from(i)] = first.wrapping_add(i);
    }
    bytes
}

/// The line of an object with one string.
fn line(bytes: &[u8; 16]) -> ArrayVec<u8, 128> {
    let mut out = ArrayVec::new();
    begin(&mut out);
    text_member(&mut out, ItemOrder::First, "s", bytes);
    end(&mut out);
    out
}

/// What that line is to be.
fn wanted(inside: &str) -> ArrayVec<u8, 128> {
    let mut out = ArrayVec::new();
    let _ = out.try_extend_from_slice(b"{\"s\":\"");
    let _ = out.try_extend_from_slice(inside.as_bytes());
    let _ = out.try_extend_from_slice(b"\"}\n");
    out
}

/// The rows of the table. A call keeps the proof of a loop over them from carrying the table.
fn rows() -> &'static [(u8, &'static str)] {
    &BYTES
}

#[test]
fn each_byte_stands_in_a_string(rt: HostRuntime) {
    for (first, inside) in rows() {
        let line = line(&sixteen(*first));
        same(&rt, first, line.as_slice(), wanted(inside).as_slice());
    }
}
