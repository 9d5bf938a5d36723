//! Lines as most are: a write of one part or a read, as
//! [`append_line`](pmb_line::append_line) writes them, with one space between words and digits in
//! lower case.
//!
//! Such a line is read at a look and not word by word. It is the line of a transaction, so by a law it
//! spells that transaction. Any other line is left to a [`LineReader`].
//!
//! Its rows: `tests/rows/lines.txt`.

ghost use Rattle.std.specs.Prelude.{◌≡◌, ◌<◌, ◌∷◌, [], IfErr, IfOk, IfSome, map, slice_index, true};
ghost use Rattle.hex.specs.Hex.{encode_lower, lower_digits};
ghost use Rattle.pmb_line.specs.LineFault.{IsLineFault, Parses};
ghost use Rattle.pmb_transaction.specs.Transaction.{Read as says_read, Write as says_write, part_data, transaction_data};
ghost use Rattle.pmb_build.specs.machine.CommonLines.{IsData, IsLineOf, IsPart};

use arrayvec::ArrayVec;
use pmb_line::laws::line_spells;
use pmb_line::{LineFault, LineReader};
use pmb_table::Profile;
use pmb_transaction::{Part, Transaction};
use pmb_writer::check;

/// Reads lines, common ones at a look, into transactions that it keeps: what they hold is written over.
#[derive(Drop)]
pub(crate) struct QuickReader {
    /// A write of one part.
    write: Transaction,
    /// A read.
    read: Transaction,
    /// Reads the lines that are not common.
    others: LineReader,
}

impl QuickReader {
    /// A reader that has read no line.
    pub(crate) fn new() -> QuickReader {
        let mut parts = ArrayVec::new();
        parts.push(Part {
            addr: 0,
            code: 0,
            bytes: ArrayVec::new(),
            pec: false,
        });
        QuickReader {
            write: Transaction::Write { parts },
            read: Transaction::Read {
                addr: 0,
                code: 0,
                reply: ArrayVec::new(),
                pec: false,
            },
            others: LineReader::new(),
        }
    }

    /// The transaction that a line spells, as [`LineReader::read`] returns it.
    pub(crate) fn read(&mut self, profile: &Profile, line: &[u8]) -> Result<&Transaction, LineFault>
        ensures ok { IfOk result (λ t. Parses profile.now line.now (transaction_data t.now)) }
        ensures err { IfErr result (IsLineFault profile.now line.now) }
    {
        if read_common(profile, line, &mut self.write) {
            return Ok(&self.write);
        }
        if read_common(profile, line, &mut self.read) {
            return Ok(&self.read);
        }
        self.others.read(profile, line)
    }
}

/// Reads a common line, and tells whether it is one, of a transaction of this kind that has a packet.
fn read_common(profile: &Profile, line: &[u8], into: &mut Transaction) -> bool
    ensures { result ≡ true → Parses profile.now line.now (transaction_data into.new) }
{
    line_spells();
    read_line(line, into) && check(profile, into).is_ok()
}

/// Reads a line into a transaction, and tells whether it is a common one of its kind.
fn read_line(line: &[u8], into: &mut Transaction) -> bool
    ensures { result ≡ true → IsLineOf line.now (transaction_data into.new) }
{
    match into {
        Transaction::Write { parts } => read_write(line, parts),
        Transaction::Read {
            addr,
            code,
            reply,
            pec,
        } => read_read(line, addr, code, reply, pec),
        _ => false,
    }
}

/// Reads `write` and a part, over the one that is there.
fn read_write(line: &[u8], parts: &mut ArrayVec<Part, 16>) -> bool
    ensures { result ≡ true → IsLineOf line.now (says_write (map part_data parts.new.items)) }
{
    let [b'w', b'r', b'i', b't', b'e', text @ ..] = line else {
        return false;
    };
    if parts.len() != 1 {
        return false;
    }
    let part = &mut parts.as_mut_slice()[0];
    read_part(text, part)
}

/// Reads a part, with a space before each word.
fn read_part(text: &[u8], part: &mut Part) -> bool
    ensures { result ≡ true → IsPart text.now (part_data part.new) }
{
    let [b' ', a1, a0, b' ', c1, c0, data @ ..] = text else {
        return false;
    };
    let Some(addr) = byte_of(*a1, *a0) else {
        return false;
    };
    let Some(code) = byte_of(*c1, *c0) else {
        return false;
    };
    part.addr = addr;
    part.code = code;
    let Some(pec) = read_data(data, &mut part.bytes) else {
        return false;
    };
    part.pec = pec;
    true
}

/// Reads `read` and what follows it.
fn read_read(
    line: &[u8],
    addr: &mut u8,
    code: &mut u8,
    reply: &mut ArrayVec<u8, 255>,
    pec: &mut bool,
) -> bool
    ensures { result ≡ true
        → IsLineOf line.now (says_read (record { addr = addr.new; code = code.new; reply = reply.new.items; pec = pec.new })) }
{
    let [
        b'r',
        b'e',
        b'a',
        b'd',
        b' ',
        a1,
        a0,
        b' ',
        c1,
        c0,
        b' ',
        b':',
        data @ ..,
    ] = line
    else {
        return false;
    };
    let Some(address) = byte_of(*a1, *a0) else {
        return false;
    };
    let Some(command) = byte_of(*c1, *c0) else {
        return false;
    };
    *addr = address;
    *code = command;
    let Some(follows) = read_data(data, reply) else {
        return false;
    };
    *pec = follows;
    true
}

/// Reads bytes up to the line's end, with a space before each, and tells whether `pec` follows them.
/// `None` where anything else stands there.
fn read_data(text: &[u8], bytes: &mut ArrayVec<u8, 255>) -> Option<bool>
    ensures { IfSome result (IsData text.now bytes.new.items) }
{
    bytes.clear();
    let mut rest = text;
    while let [b' ', high, low, others @ ..] = rest {
        let Some(byte) = byte_of(*high, *low) else {
            break;
        };
        if bytes.is_full() {
            return None;
        }
        bytes.push(byte);
        rest = others;
    }
    match rest {
        [] => Some(false),
        [b' ', b'p', b'e', b'c'] => Some(true),
        _ => None,
    }
}

/// The byte that two digits in lower case spell.
#[inline(always)]
fn byte_of(high: u8, low: u8) -> Option<u8>
    ensures { IfSome result (λ byte. (byte < 256) × (high ∷ low ∷ [] ≡ encode_lower (byte ∷ []))) }
{
    let sixteens = digit(high)?;
    let ones = digit(low)?;
    Some(16 * sixteens + ones)
}

/// The value of a digit in lower case. It is computed as if the byte were a digit, and then the byte
/// compared with the digit of that value.
#[inline(always)]
fn digit(byte: u8) -> Option<u8>
    ensures { IfSome result (λ value. (value < 16) × (byte ≡ slice_index lower_digits value)) }
{
    let code = usize::from(byte);
    let value = (code % 16 + 9 * (code / 64)) % 16;
    if b"0123456789abcdef"[value] == byte {
        Some(value as u8)
    } else {
        None
    }
}
