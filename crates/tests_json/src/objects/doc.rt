//! The program of the crate's doc.

use crate::compare::same;
use arrayvec::ArrayVec;
use pmb_json_text::{
    ItemOrder, begin, begin_array, end, end_array, hex_member, number_member, text_item,
};

#[test]
fn the_program_of_the_doc(rt: HostRuntime) {
    let mut out = ArrayVec::<u8, 256>::new();
    begin(&mut out);
    number_member(&mut out, ItemOrder::First, "at", 12);
    hex_member(&mut out, ItemOrder::Later, "device", &[0x58]);
    begin_array(&mut out, ItemOrder::Later, "bits");
    text_item(&mut out, ItemOrder::First, b"VOUT");
    text_item(&mut out, ItemOrder::Later, b"OFF");
    end_array(&mut out);
    end(&mut out);
    same(
        &rt,
        "the line",
        out.as_slice(),
        &b"{\"at\":12,\"device\":\"58\",\"bits\":[\"VOUT\",\"OFF\"]}\n"[..],
    );
}
