//! How the data of each form go over the bus, by hand from SMBus 3.0 section 6.5.
use crate::compare::{ensure, same};
use pmb_table::Form;

/// The bytes that rows take their data from.
const BYTES: [u8; 9] = [0x06, 0xd3, 0x00, 0x01, 0x02, 0x03, 0x04, 0x05, 0x06];

/// A form, and how many bytes of data it takes; none where a count tells.
const LENGTHS: [(Form, Option<usize>); 6] = [
    (Form::Zero, Some(0)),
    (Form::One, Some(1)),
    (Form::Two, Some(2)),
    (Form::Four, Some(4)),
    (Form::Eight, Some(8)),
    (Form::Block, None),
];

#[test]
fn each_form_takes_its_length(rt: HostRuntime) {
    for (form, length) in LENGTHS {
        same(&rt, form, form.length(), length);
        for count in 0..=9 {
            let taken = match length {
                Some(length) => count == length,
                None => true,
            };
            same(&rt, (form, count), form.takes(count), taken);
            same(&rt, (form, count), form.fits(&BYTES[..count]), taken);
        }
        same(&rt, form, form.takes(255), length.is_none());
        ensure(&rt, form, !form.takes(256));
    }
}

#[test]
fn blocks_have_a_count_in_front(rt: HostRuntime) {
    same(&rt, "no bytes", Form::Block.count(&[]), Some(0));
    same(&rt, "six bytes", Form::Block.count(&BYTES[..6]), Some(6));
    same(&rt, "255 bytes", Form::Block.count(&[0x5a; 255]), Some(255));
    same(&rt, "zero", Form::Zero.count(&[]), None);
    same(&rt, "two", Form::Two.count(&BYTES[..2]), None);
    same(&rt, "eight", Form::Eight.count(&BYTES[..8]), None);
}

/// A form, the first bytes of a wire, and how many it has.
const WIRES: [(Form, &[u8], usize); 9] = [
    (Form::Zero, &[], 0),
    (Form::One, &[0x06], 1),
    (Form::Two, &[], 2),
    (Form::Two, &[0x06, 0xd3], 2),
    (Form::Four, &[0x06], 4),
    (Form::Eight, &[], 8),
    (Form::Block, &[], 1),
    (Form::Block, &[0x00], 1),
    (Form::Block, &[0xff, 0x06, 0xd3], 256),
];

#[test]
fn wires_have_their_length(rt: HostRuntime) {
    for (form, bytes, length) in WIRES {
        same(&rt, (form, bytes), form.wire_length(bytes), length);
    }
}

#[test]
fn data_stand_behind_the_count(rt: HostRuntime) {
    let word: [u8; 2] = [0x06, 0xd3];
    ensure(&rt, "zero", Form::Zero.data_within(&[]).is_empty());
    same(
        &rt,
        "two",
        Form::Two.data_within(&[0x06, 0xd3]),
        word.as_slice(),
    );
    ensure(
        &rt,
        "a block of none",
        Form::Block.data_within(&[0x00]).is_empty(),
    );
    same(
        &rt,
        "a block of two",
        Form::Block.data_within(&[0x02, 0x06, 0xd3]),
        word.as_slice(),
    );
}
