//! The program of `pmb_canonical`'s documentation, and its law.

use crate::compare::same;
use pmb_canonical::{CanonicalReader, TakenPacket, laws};
use pmb_line::line_of;
use pmb_table::{Profile, SAMPLE};
use pmb_transaction_slot::TransactionSlot;
use std::test::Fail;

#[test]
fn takes_a_write(rt: HostRuntime) -> Result<(), Fail> {
    let profile = Profile::from_toml(rt.alloc(), SAMPLE.as_bytes())?;
    let mut canonical = CanonicalReader::new();
    let mut kept = TransactionSlot::new();
    let taken = canonical.take(&mut kept, &profile, b"S b0 A 03 A P\nS b0 ");
    same(
        &rt,
        "a packet",
        taken,
        Some(TakenPacket {
            used: 14,
            events: 6,
        }),
    );
    same(
        &rt,
        "its line",
        line_of(kept.last()).as_str(),
        "write 58 03",
    );
    same(
        &rt,
        "no whole packet",
        canonical.take(&mut kept, &profile, b"S b0 "),
        None,
    );
    Ok(())
}

#[test]
fn calls_the_law() {
    laws::canonical_packets_are_read();
}
