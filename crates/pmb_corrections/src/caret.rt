//! A line as it is shown, with a mark under one of its bytes.
//!
//! Its rows: `tests/rows/explanations.txt`.

ghost use Rattle.std.specs.Prelude.{◌≡◌, ◌+◌, ◌*◌, ◌≤◌, ◌++◌, ◌∷◌, [], length, replicate};
ghost use Rattle.pmb_corrections.specs.Marked.{blank, marked, marked_in_window, shown, shown_byte, start_of};
ghost use Rattle.hex.specs.Hex.{encode_lower};

use arrayvec::ArrayVec;

/// How many bytes of a line are shown at most.
const WIDTH: usize = 72;

/// How many of them come before the byte with the mark, where the line is longer.
const BEFORE: usize = 48;

/// Two lines with a mark: 72 bytes of at most 4 characters each, as many blanks, and what frames them.
pub type TwoLines = ArrayVec<u8, 640>;

/// A line, and under the byte at `at` a mark; where the line has no byte there, the mark stands after its
/// end. Of a line of more than 72 bytes those are shown that are around the mark.
pub fn marked_line(line: &[u8], at: usize) -> TwoLines
    ensures { result.items ≡ marked_in_window line.now at }
{
    let start = start_of(line.len(), at);
    let rest = &line[start..];
    two_lines(&rest[..rest.len().min(WIDTH)], at.saturating_sub(start))
}

/// From which byte on a line of a length is shown with a mark.
fn start_of(length: usize, at: usize) -> usize
    ensures start { result ≡ start_of length at }
    ensures within { result ≤ length }
{
    if length <= WIDTH || at <= BEFORE {
        0
    } else {
        at.min(length).saturating_sub(BEFORE)
    }
}

/// Bytes, and a line with a mark under one of them or after their end.
fn two_lines(bytes: &[u8], at: usize) -> TwoLines
    requires { length bytes.now ≤ 72 }
    ensures { result.items ≡ marked bytes.now at }
{
    let blanks = width(&bytes[..at.min(bytes.len())]);
    let mut text = TwoLines::new();
    append(&mut text, b"  ");
    append_shown(&mut text, bytes);
    append(&mut text, b"\n  ");
    append_blanks(&mut text, blanks);
    append(&mut text, b"^ ");
    text
}

/// How many characters bytes take where they are shown.
fn width(bytes: &[u8]) -> usize
    requires { length bytes.now ≤ 72 }
    ensures width { result ≡ length (shown bytes.now) }
    ensures short { result ≤ 4 * length bytes.now }
{
    let mut text = TwoLines::new();
    append_shown(&mut text, bytes);
    text.len()
}

/// Appends bytes as they are shown.
fn append_shown(text: &mut TwoLines, bytes: &[u8])
    requires { length text.old.items + 4 * length bytes.now ≤ 640 }
    ensures text { text.new.items ≡ text.old.items ++ shown bytes.now }
    ensures short { length text.new.items ≤ length text.old.items + 4 * length bytes.now }
{
    for byte in bytes {
        append_byte(text, *byte);
    }
}

/// Appends a byte as it is shown.
fn append_byte(text: &mut TwoLines, byte: u8)
    requires { length text.old.items + 4 ≤ 640 }
    ensures text { text.new.items ≡ text.old.items ++ shown_byte byte }
    ensures short { length text.new.items ≤ length text.old.items + 4 }
{
    if byte == b'\t' {
        append(text, b" ");
    } else if byte < 0x20 || byte > 0x7e {
        append(text, b"\\x");
        append(text, &digits_of(byte));
    } else {
        append(text, &[byte]);
    }
}

/// The two digits of a byte.
fn digits_of(byte: u8) -> [u8; 2]
    ensures { result ≡ encode_lower (byte ∷ []) }
{
    let mut two = [0; 2];
    let _ = hex::encode_to_slice([byte], &mut two);
    two
}

/// Appends that many blanks.
fn append_blanks(text: &mut TwoLines, count: usize)
    requires { length text.old.items + count ≤ 640 }
    ensures text { text.new.items ≡ text.old.items ++ replicate count blank }
    ensures long { length text.new.items ≡ length text.old.items + count }
{
    for _ in 0..count {
        text.push(b' ');
    }
}

/// Appends a text, which fits.
fn append(text: &mut TwoLines, more: &[u8])
    requires { length text.old.items + length more.now ≤ 640 }
    ensures { text.new.items ≡ text.old.items ++ more.now }
{
    let _ = text.try_extend_from_slice(more);
}
