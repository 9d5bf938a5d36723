//! The program of `pmb_reader`'s documentation, and its laws.

use crate::compare::same;
use pmb_bus::{Event, Kinds};
use pmb_line::line_of;
use pmb_reader::{Reader, Took, laws};
use pmb_table::{Profile, SAMPLE};
use std::test::Fail;

#[test]
fn reads_a_refused_address(rt: HostRuntime) -> Result<(), Fail> {
    let profile = Profile::from_toml(rt.alloc(), SAMPLE.as_bytes())?;
    let mut reader = Reader::new(&profile);
    for event in [Event::Start, Event::Byte(0x40), Event::Nack] {
        same(&rt, event, reader.take(event), Took::Continues);
    }
    same(&rt, "what may follow", reader.expected(), Kinds::STOP);
    same(&rt, "its end", reader.take(Event::Stop), Took::Packet);
    same(
        &rt,
        "its line",
        line_of(reader.packet()).as_str(),
        "refused 20",
    );
    Ok(())
}

#[test]
fn calls_each_law() {
    laws::reading_begins();
    laws::reading_goes_on();
    laws::reading_accepts();
    laws::reading_refuses();
    laws::reading_is_held();
    laws::reading_resumes();
    laws::pieces_go_on();
    laws::pieces_are_accepted();
    laws::pieces_are_refused();
    laws::pieces_are_held();
    laws::reading_ends();
    laws::reading_is_truncated();
    laws::captures_are_read_back();
}
