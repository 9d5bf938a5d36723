//! What a capture reads as, told as text: a line for each transaction and each refusal.

use pmb_bus::{Event, Kinds};
use pmb_line::line_of;
use pmb_reader::{Outcome, Reader, Refusal};
use std::alloc::{AllocError, Global};

static NAMES: [(Kinds, &str); 5] = [
    (Kinds::START, "Start"),
    (Kinds::BYTE, "Byte"),
    (Kinds::ACK, "Ack"),
    (Kinds::NACK, "Nack"),
    (Kinds::STOP, "Stop"),
];

/// Tells a kind if it might have come, and whether none was told yet.
fn tell_kind(
    text: &mut String,
    refusal: Refusal,
    kind: Kinds,
    name: &str,
    is_first: bool,
) -> Result<bool, AllocError> {
    if !refusal.expected.contains(kind) {
        return Ok(is_first);
    }
    text.push_str(if is_first { " " } else { " or " })?;
    text.push_str(name)?;
    Ok(false)
}

fn tell_refusal(text: &mut String, alloc: Global, refusal: Refusal) -> Result<(), AllocError> {
    let at = refusal.at;
    let reason = refusal.reason;
    text.push_str(format!(in alloc; "refusal at {at}: {reason:?}, expected")?.as_str())?;
    let mut is_first = true;
    for (kind, name) in &NAMES {
        is_first = tell_kind(text, refusal, *kind, name, is_first)?;
    }
    text.push_str("\n")
}

/// Hands on a piece of a capture. After a refusal, which is asked for three times, the reader
/// passes over.
pub(crate) fn tell_piece(
    text: &mut String,
    alloc: Global,
    reader: &mut Reader,
    events: &[Event],
) -> Result<(), AllocError> {
    let mut rest = events;
    for _ in 0..events.len().saturating_add(events.len()).saturating_add(1) {
        let feed = reader.feed(rest);
        rest = rest.get(feed.used..).unwrap_or(&[]);
        match feed.outcome {
            Outcome::More => return Ok(()),
            Outcome::Packet(transaction) => {
                text.push_str(line_of(&transaction).as_str())?;
                text.push_str("\n")?;
            }
            Outcome::Refused(refusal) => {
                tell_refusal(text, alloc, refusal)?;
                for _ in 0..3u8 {
                    if reader.feed(rest).used != 0 || reader.finish() != Err(refusal) {
                        text.push_str("not held\n")?;
                    }
                }
                reader.resync();
            }
        }
    }
    text.push_str("no end\n")
}

/// What is told at the end of a capture.
pub(crate) fn tell_end(
    text: &mut String,
    alloc: Global,
    reader: &Reader,
) -> Result<(), AllocError> {
    match reader.finish() {
        Ok(()) => Ok(()),
        Err(refusal) => tell_refusal(text, alloc, refusal),
    }
}
