//! What would be right in place of a FORMAT.
//!
//! Its rows: `tests/rows/explanations.txt`.

use crate::likeness::nearest;
use crate::marked::{Correction, append_word, push};
use pmb_convert::{FormatFault, parse_format};
use std::alloc::Global;
use std::fmt::Write;

/// All forms of FORMAT.
const FORMATS: &str =
    "  FORMAT is linear11, linear11:E, ulinear16:E, slinear16:E, vout:HH, half, direct:M,B,R, \
     udirect:M,B,R or vid:TABLE\n";

/// What comes before the colon of a FORMAT, or all of it.
const HEADS: &[&str] = &[
    "linear11",
    "ulinear16",
    "slinear16",
    "vout",
    "half",
    "direct",
    "udirect",
    "vid",
];

/// The VID tables.
const TABLES: &[&str] = &["vr11", "vr12", "vr13", "imvp9", "amd625mv", "nvidia195mv"];

/// Names that others have for formats, without `-`, `_` and blanks, and what they are here.
#[rattlefmt::skip]
const OTHER_NAMES: &[(&str, &str)] = &[
    ("l11", "linear11"), ("lin11", "linear11"), ("linear", "linear11"), ("lin", "linear11"),
    ("slinear11", "linear11"), ("literal", "linear11"), ("literal11", "linear11"), ("linear5s11s", "linear11"),
    ("linear16", "vout:HH, with VOUT_MODE, or ulinear16:E, with its exponent"),
    ("l16", "vout:HH, with VOUT_MODE, or ulinear16:E, with its exponent"),
    ("lin16", "vout:HH, with VOUT_MODE, or ulinear16:E, with its exponent"),
    ("u16", "ulinear16:E, with the exponent of VOUT_MODE"),
    ("ulinear16", "ulinear16:E, with the exponent of VOUT_MODE"),
    ("slinear16", "slinear16:E, with the exponent of VOUT_MODE"),
    ("vout", "vout:HH, with VOUT_MODE in two hexadecimal digits, such as vout:17"),
    ("voutmode", "vout:HH, with VOUT_MODE in two hexadecimal digits, such as vout:17"),
    ("direct", "direct:M,B,R, with the coefficients, such as direct:3,2,1"),
    ("udirect", "udirect:M,B,R, with the coefficients, such as udirect:3,2,1"),
    ("vid", "vid:TABLE, such as vid:vr12"),
    ("vr11", "vid:vr11"), ("vr12", "vid:vr12"), ("vr13", "vid:vr13"), ("imvp9", "vid:imvp9"),
    ("amd625mv", "vid:amd625mv"), ("nvidia195mv", "vid:nvidia195mv"),
    ("ieee", "half"), ("ieee754", "half"), ("ieeehalf", "half"), ("fp16", "half"), ("float16", "half"),
    ("f16", "half"), ("half16", "half"), ("float", "half"), ("binary16", "half"), ("halfprecision", "half"),
];

/// The exponents below 0, with what stands in bits 4:0 of VOUT_MODE for them.
#[rattlefmt::skip]
const SMALL_EXPONENTS: &[(u8, &str)] = &[
    (0x1f, "-1"), (0x1e, "-2"), (0x1d, "-3"), (0x1c, "-4"), (0x1b, "-5"), (0x1a, "-6"), (0x19, "-7"), (0x18, "-8"),
    (0x17, "-9"), (0x16, "-10"), (0x15, "-11"), (0x14, "-12"), (0x13, "-13"), (0x12, "-14"), (0x11, "-15"),
    (0x10, "-16"),
];

/// What would be right in place of a text that names no format.
pub fn format_correction(alloc: Global, word: &str, fault: FormatFault) -> Correction {
    let mut text = Correction::new();
    push(&mut text, "  ");
    append_word(&mut text, word.as_bytes());
    push(&mut text, ": ");
    match fault {
        FormatFault::BadFormat => {
            bad_format(alloc, word, &mut text);
            push(&mut text, "\n");
            push(&mut text, FORMATS);
        }
        FormatFault::BadExponent => push(&mut text, "an exponent is from -16 to 15\n"),
        FormatFault::ZeroSlope => push(
            &mut text,
            "M is 0, and no number has a code then: X = (Y * 10^-R - B) / M\n",
        ),
        FormatFault::BadScale => push(&mut text, "R is a power of ten, from -9 to 9\n"),
        FormatFault::Relative => push(
            &mut text,
            "bit 7 says that limits are factors of VOUT_COMMAND; bits 6 to 0 name their format\n",
        ),
        FormatFault::Vid => push(
            &mut text,
            "bits 6:5 say VID, but not which table: vid:vr11, vid:vr12, vid:vr13, vid:imvp9, vid:amd625mv or \
             vid:nvidia195mv\n",
        ),
        FormatFault::Ieee => push(&mut text, "bits 6:5 say IEEE half precision: half\n"),
        FormatFault::NoCoefficients => push(
            &mut text,
            "bits 6:5 say DIRECT, whose coefficients are in the data sheet: direct:M,B,R\n",
        ),
    }
    text
}

/// What is wrong with a text that is no format's, and what may have been meant.
fn bad_format(alloc: Global, word: &str, text: &mut Correction) {
    if let Some(meant) = other_name(word) {
        did_you_mean(meant, text);
        return;
    }
    if let Some((head, rest)) = word.split_once(':') {
        if after_colon(alloc, head, rest, text) {
            return;
        }
    }
    match nearest(alloc, word.split(':').next().unwrap_or(word), HEADS) {
        Some(head) => did_you_mean(other_name(head).unwrap_or(head), text),
        None => push(text, "this is no format"),
    }
}

fn did_you_mean(meant: &str, text: &mut Correction) {
    push(text, "did you mean ");
    push(text, meant);
    push(text, "?");
}

/// What a name of others is here, in either case and with or without `-`, `_` and blanks.
fn other_name(word: &str) -> Option<&'static str> {
    for (name, meant) in OTHER_NAMES {
        if is_same_name(word.as_bytes(), name.as_bytes()) {
            return Some(*meant);
        }
    }
    if is_same_name(word.as_bytes(), b"linear11") {
        return Some("linear11");
    }
    if is_same_name(word.as_bytes(), b"half") {
        return Some("half");
    }
    None
}

/// Whether a word is a name, but for the case of its letters, and for `-`, `_` and blanks.
fn is_same_name(word: &[u8], name: &[u8]) -> bool {
    let mut left = name;
    for byte in word {
        if *byte == b'-' || *byte == b'_' || *byte == b' ' || *byte == b'.' {
            continue;
        }
        match left {
            [first, rest @ ..] if first.eq_ignore_ascii_case(byte) => left = rest,
            _ => return false,
        }
    }
    left.is_empty()
}

/// Writes what is wrong after the colon of a format, if that is what is wrong.
fn after_colon(alloc: Global, head: &str, rest: &str, text: &mut Correction) -> bool {
    let Some(head) = head_of(head) else {
        return false;
    };
    match head {
        "linear11" | "ulinear16" | "slinear16" => exponent(head, rest, text),
        "vout" => mode(rest, text),
        "direct" | "udirect" => coefficients(head, rest, text),
        "vid" => table(alloc, rest, text),
        _ => did_you_mean(head, text),
    }
    true
}

/// The format that comes before a colon, in either case.
fn head_of(head: &str) -> Option<&'static str> {
    for known in HEADS {
        if known.eq_ignore_ascii_case(head) {
            return Some(*known);
        }
    }
    None
}

/// What an exponent is.
fn exponent(head: &str, rest: &str, text: &mut Correction) {
    push(
        text,
        "the exponent is a decimal number from -16 to 15, without + and blanks: ",
    );
    push(text, head);
    push(text, ":-9");
    let _ = rest;
}

/// What VOUT_MODE is, and the one of an exponent.
fn mode(rest: &str, text: &mut Correction) {
    if let Some(bits) = small_exponent(rest) {
        let _ = write!(
            text,
            "after vout comes VOUT_MODE; the one of this exponent is {bits:02x}: vout:{bits:02x}"
        );
        return;
    }
    if let Some(digits) = two_digits(rest) {
        push(text, "without 0x and h: vout:");
        push(text, digits);
        return;
    }
    push(
        text,
        "after vout comes VOUT_MODE, in two hexadecimal digits: vout:17",
    );
}

/// What stands in bits 4:0 for an exponent from -16 to -1.
fn small_exponent(rest: &str) -> Option<u8> {
    for (bits, digits) in SMALL_EXPONENTS {
        if rest == *digits {
            return Some(*bits);
        }
    }
    None
}

/// Two hexadecimal digits with `0x` before or `h` after them.
fn two_digits(rest: &str) -> Option<&str> {
    let digits = without_radix(rest);
    if digits.len() == 2
        && digits
            .as_bytes()
            .iter()
            .all(|byte| byte.is_ascii_hexdigit())
    {
        return Some(digits);
    }
    None
}

/// A text without `0x` before it or `h` after it.
pub(crate) fn without_radix(text: &str) -> &str {
    if let Some(rest) = text.strip_prefix("0x") {
        return rest;
    }
    if let Some(rest) = text.strip_prefix("0X") {
        return rest;
    }
    if let Some(rest) = text.strip_suffix("h") {
        return rest;
    }
    text.strip_suffix("H").unwrap_or(text)
}

/// What coefficients are.
fn coefficients(head: &str, rest: &str, text: &mut Correction) {
    let count = rest.split(',').count();
    if count != 3 {
        let _ = write!(
            text,
            "three numbers are needed, M, B and R, with commas between them: {head}:3,2,1"
        );
        return;
    }
    if rest.as_bytes().contains(&b' ') {
        push(text, "no blanks: ");
        push(text, head);
        push(text, ":");
        for byte in rest.as_bytes() {
            if *byte != b' ' {
                let _ = text.try_push(char::from(*byte & 0x7f));
            }
        }
        return;
    }
    push(
        text,
        "M and B are whole numbers from -32768 to 32767, and R one from -9 to 9, in decimal and without +",
    );
}

/// Which VID table may have been meant.
fn table(alloc: Global, rest: &str, text: &mut Correction) {
    for known in TABLES {
        if is_same_name(rest.as_bytes(), known.as_bytes()) {
            push(text, "did you mean vid:");
            push(text, *known);
            push(text, "?");
            return;
        }
    }
    let _ = alloc;
    push(
        text,
        "TABLE is vr11, vr12, vr13, imvp9, amd625mv or nvidia195mv, with steps of 6.25, 5, 10, 10, 6.25 and 5 mV",
    );
}
