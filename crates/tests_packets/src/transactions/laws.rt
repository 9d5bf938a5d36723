//! The laws of `pmb_transaction`, and the program of its documentation.

use crate::compare::same;
use arrayvec::ArrayVec;
use pmb_transaction::{Part, Transaction, laws};
use std::test::Fail;

#[test]
fn calls_each_law() {
    laws::one_packet();
    laws::one_transaction();
    laws::packet_is_not_empty();
    laws::packet_ends_with_stop();
    laws::no_packet_begins_another();
    laws::one_capture();
    laws::one_list_of_events();
    laws::packets_are_bytes();
}

// The program at the head of `pmb_transaction`.
#[test]
fn tells_a_write(rt: HostRuntime) -> Result<(), Fail> {
    let mut bytes = ArrayVec::new();
    bytes.extend([0x00, 0x18])?;
    let part = Part {
        addr: 0x58,
        code: 0x21,
        bytes,
        pec: true,
    };
    let mut parts = ArrayVec::new();
    parts.push(part);
    let set_vout = Transaction::Write { parts };
    match &set_vout {
        Transaction::Write { parts } => same(&rt, "one part", parts.len(), 1),
        _ => assert!(rt; false, "a write"),
    }
    same(&rt, "a copy", set_vout.clone()?, set_vout);
    Ok(())
}
