//! What is said of protocol errors and bad tokens of a capture.
//!
//! Its rows: `tests/rows/explanations.txt`.

use crate::events::{EventPlace, event_at};
use crate::explain_run::Run;
use crate::matter::{line_at, line_of};
use crate::report::{Report, Where};
use pmb_corrections::{Correction, append_marked, push, token_correction};
use std::fmt::Write;

/// What is said of a fault of a capture, if its place is in what was kept.
pub(crate) fn capture_correction(run: Run<'_, '_, '_>, report: &Report) -> Option<Correction> {
    let capture = run.matter;
    match report.place {
        Where::Byte(at) => {
            let (line, at) = line_at(capture, usize::try_from(at).ok()?)?;
            Some(token_correction(line, at))
        }
        Where::Column(number, column) => {
            let line = line_of(capture, number)?;
            let at = usize::try_from(column).ok()?.checked_sub(1)?;
            Some(token_correction(line, at))
        }
        Where::Event(number) => {
            let place = event_at(capture, number)?;
            let (line, at) = line_at(capture, place.at)?;
            let mut lines = Correction::new();
            append_marked(&mut lines, line, at);
            if !append_other_form(run, report, &place, &mut lines) {
                append_reason(report, &place, is_byte_at(line, at), &mut lines);
            }
            push(&mut lines, "\n");
            Some(lines)
        }
        Where::Line(..) | Where::Same | Where::Request | Where::Words | Where::Profile => None,
    }
}

/// Writes that an address of 7 bits stands in place of its byte, if the profile has a device with it and
/// none with the address of the byte.
fn append_other_form(
    run: Run<'_, '_, '_>,
    report: &Report,
    place: &EventPlace,
    lines: &mut Correction,
) -> bool {
    if report.name.as_str() != "UnknownDevice" {
        return false;
    }
    let Some(bus) = run.bus else {
        return false;
    };
    let last = place.last.unwrap_or(0);
    let address = last / 2;
    if last >= 0x80
        || bus.profile().device(last).is_none()
        || bus.profile().device(address).is_some()
    {
        return false;
    }
    let byte = last.saturating_mul(2);
    let _ = write!(
        lines,
        "{last:02x} is the byte of the address {address:02x}; to write to {last:02x} it is {byte:02x}"
    );
    true
}

/// Whether a word of a line is a byte.
fn is_byte_at(line: &[u8], at: usize) -> bool {
    match line.get(at..) {
        Some([high, low, ..]) => high.is_ascii_hexdigit() && low.is_ascii_hexdigit(),
        _ => false,
    }
}

/// Writes what is wrong with an event.
fn append_reason(report: &Report, place: &EventPlace, is_byte: bool, lines: &mut Correction) {
    let last = place.last.unwrap_or(0);
    let address = last / 2;
    match report.name.as_str() {
        "ReadFirst" => push(lines, "a read without a command before it"),
        "BadRestart" => push(
            lines,
            "not the device that got the command, or one that the group has already",
        ),
        "BadPec" if is_byte => {
            let code = place.code;
            let _ = write!(lines, "the packet error code is {code:02x} here");
        }
        "BadPec" => {
            let code = place.leg_code_before;
            let _ = write!(lines, "the packet error code is {code:02x}, not {last:02x}");
        }
        "UnknownDevice" => {
            let _ = write!(
                lines,
                "{last:02x} addresses {address:02x}, and the profile has no such device"
            );
        }
        "UnknownCommand" => {
            let _ = write!(lines, "the device has no command {last:02x}, or not here");
        }
        "TooLong" => push(lines, "the reply has ended"),
        "TooShort" => push(lines, "the reply goes on: ACK, and the next byte"),
        _ => {
            push(lines, "expected here: ");
            push(lines, report.expected.as_str());
        }
    }
}
