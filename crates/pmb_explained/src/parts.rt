//! The parts of a line, and which of them a profile has no packet for.
//!
//! Its rows: `tests/rows/explanations.txt`.

use arrayvec::ArrayVec;
use pmb_corrections::{Correction, append_marked, push};
use pmb_line::{Token, Words, token_of};
use pmb_table::{DeviceProfile, Form, PecMode, Profile, Shape};
use std::fmt::Write;

/// A part of a line: an address, a command code and data.
#[derive(Clone, Copy, Default)]
struct Part {
    /// Where the address stands in the line, and the address.
    address_at: usize,
    address: u8,
    /// Where the command code stands, if there is one, and the code.
    code_at: usize,
    code: Option<u8>,
    /// How many bytes of data there are.
    count: usize,
    /// Where `pec` stands, if it is there.
    pec_at: Option<usize>,
    /// Where the part ends.
    end: usize,
}

/// The parts of a line, as far as its words are bytes, `pec` and `+`; at a colon the reply begins, whose
/// bytes are data of the part.
type Parts = ArrayVec<Part, 16>;

/// What a line would have a command do.
#[derive(Clone, Copy, PartialEq, Eq)]
enum Way {
    Write,
    Read,
    Call,
}

/// What would be right in place of a line that spells a transaction or a request without a packet.
pub(crate) fn part_correction(profile: &Profile, line: &[u8], fault: &str) -> Option<Correction> {
    let mut words = Words::of(line);
    let way = match words.next_word()?.text {
        b"write" | b"set" => Way::Write,
        b"read" | b"get" => Way::Read,
        b"call" => Way::Call,
        b"refused" => Way::Write,
        _ => return None,
    };
    let parts = parts_of(words);
    for (number, part) in parts.as_slice().iter().enumerate() {
        let before = parts.as_slice().get(..number).unwrap_or(&[]);
        if let Some(lines) = of_part(profile, line, fault, way, part, before) {
            return Some(lines);
        }
    }
    None
}

/// The parts of what follows the first word of a line.
fn parts_of(rest: Words<'_>) -> Parts {
    let mut words = rest;
    let mut parts = Parts::new();
    let mut part = Part::default();
    let mut has_address = false;
    while let Some(word) = words.next_word() {
        let end = word.at.saturating_add(word.text.len());
        match token_of(word.text) {
            Some(Token::Byte(byte)) => {
                if !has_address {
                    part.address = byte;
                    part.address_at = word.at;
                    has_address = true;
                } else if part.code.is_none() {
                    part.code = Some(byte);
                    part.code_at = word.at;
                } else {
                    part.count = part.count.saturating_add(1);
                }
            }
            Some(Token::Pec) => part.pec_at = Some(word.at),
            Some(Token::Plus) => {
                let _ = parts.try_push(part);
                part = Part::default();
                has_address = false;
            }
            Some(Token::Colon) => part.count = 0,
            Some(Token::Write)
            | Some(Token::Read)
            | Some(Token::Call)
            | Some(Token::Refused)
            | Some(Token::Alert)
            | Some(Token::Nobody)
            | None => {}
        }
        part.end = end;
    }
    let _ = parts.try_push(part);
    parts
}

/// What would be right in place of a part that has this fault, if it has it.
fn of_part(
    profile: &Profile,
    line: &[u8],
    fault: &str,
    way: Way,
    part: &Part,
    before: &[Part],
) -> Option<Correction> {
    let mut lines = Correction::new();
    if fault == "AddressTwice" {
        for other in before {
            if other.address == part.address {
                append_marked(&mut lines, line, part.address_at);
                push(
                    &mut lines,
                    "an earlier part has this address: two lines, not one group\n",
                );
                return Some(lines);
            }
        }
        return None;
    }
    let Some(device) = profile.device(part.address) else {
        if fault != "UnknownDevice" {
            return None;
        }
        append_marked(&mut lines, line, part.address_at);
        append_unknown(profile, part.address, &mut lines);
        return Some(lines);
    };
    let code = part.code?;
    let Some(entry) = device.entry(code) else {
        if fault != "UnknownCommand" {
            return None;
        }
        append_marked(&mut lines, line, part.code_at);
        let address = part.address;
        let _ = write!(
            lines,
            "the profile of {address:02x} has no command {code:02x}\n"
        );
        return Some(lines);
    };
    let name = entry.name.as_str();
    match fault {
        "NotAllowed" => {
            if form_of(&entry.shape, way).is_some() {
                return None;
            }
            append_marked(&mut lines, line, part.code_at);
            append_ways(name, &entry.shape, &mut lines);
            Some(lines)
        }
        "WrongLength" => {
            let length = form_of(&entry.shape, way)?.length()?;
            if part.count == length {
                return None;
            }
            append_marked(&mut lines, line, part.end);
            append_length(name, length, part.count, way, &mut lines);
            Some(lines)
        }
        "NotAQuantity" => {
            append_marked(&mut lines, line, part.code_at);
            let _ = write!(
                lines,
                "{name} is no number here: read {:02x} {code:02x} has its bytes\n",
                part.address
            );
            Some(lines)
        }
        "PecMode" => of_pec(line, device, part),
        _ => None,
    }
}

/// The form of a command that is written, read or called.
fn form_of(shape: &Shape, way: Way) -> Option<Form> {
    match way {
        Way::Write => shape.write,
        Way::Read => shape.read,
        Way::Call => shape.call,
    }
}

/// Writes that a profile has no device at an address, and which may have been meant.
fn append_unknown(profile: &Profile, address: u8, lines: &mut Correction) {
    let seven = address / 2;
    if address >= 0x80 || profile.device(seven).is_some() {
        let _ = write!(
            lines,
            "an address has 7 bits: {address:02x} is the 8-bit form of {seven:02x}\n"
        );
        return;
    }
    push(lines, "the profile has no such device");
    let mut is_first = true;
    for index in 0..profile.len().min(8) {
        if let Some(device) = profile.device_at(index) {
            push(lines, if is_first { ", but " } else { ", " });
            is_first = false;
            let _ = write!(lines, "{:02x}", device.address());
        }
    }
    if profile.len() > 8 {
        push(lines, " ..");
    }
    push(lines, "\n");
}

/// Writes in which ways a command goes.
fn append_ways(name: &str, shape: &Shape, lines: &mut Correction) {
    push(lines, name);
    push(lines, " can only be ");
    let mut is_first = true;
    for (form, word) in [
        (shape.write, "written"),
        (shape.read, "read"),
        (shape.call, "called"),
    ] {
        if form.is_some() {
            push(lines, if is_first { "" } else { " or " });
            push(lines, word);
            is_first = false;
        }
    }
    push(lines, "\n");
}

/// Writes how many bytes a command takes, and how many there are.
fn append_length(name: &str, length: usize, count: usize, way: Way, lines: &mut Correction) {
    let what = match way {
        Way::Write => "takes",
        Way::Read => "gives",
        Way::Call => "takes and gives",
    };
    let bytes = if length == 1 { "byte" } else { "bytes" };
    let are = if count == 1 { "is" } else { "are" };
    let _ = write!(
        lines,
        "{name} {what} {length} {bytes}, and here {are} {count}"
    );
    if count == length.saturating_add(1) {
        push(lines, "; a packet error code is the word pec");
    } else if length == 2 && count < 2 && way == Way::Write {
        push(lines, ", the low one first; pmb run has set for quantities");
    }
    push(lines, "\n");
}

/// What would be right in place of `pec`, by what the profile says of the device.
fn of_pec(line: &[u8], device: &DeviceProfile, part: &Part) -> Option<Correction> {
    let mut lines = Correction::new();
    let address = part.address;
    match (device.pec(), part.pec_at) {
        (PecMode::Off, Some(at)) => {
            append_marked(&mut lines, line, at);
            let _ = write!(
                lines,
                "{address:02x} has pec = \"off\" in the profile: no pec\n"
            );
            Some(lines)
        }
        (PecMode::On, None) => {
            append_marked(&mut lines, line, part.end);
            let _ = write!(
                lines,
                "{address:02x} has pec = \"on\" in the profile: pec is missing\n"
            );
            Some(lines)
        }
        _ => None,
    }
}
