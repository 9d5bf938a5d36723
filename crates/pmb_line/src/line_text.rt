//! Lines as they are written.
//!
//! Its rows: `tests_lines`, `src/lines/rows.rt` and `long.rt`; `tests/rows/captures.txt`.

ghost use Rattle.std.specs.Prelude.{◌≡◌, ◌+◌, ◌*◌, ◌≤◌, ◌++◌, ◌∷◌, [], length, map, codes, true, false};
ghost use Rattle.std.specs.List.{flat_map};
ghost use Rattle.pmb_transaction.specs.Transaction.{part_data, transaction_data};
ghost use Rattle.pmb_line.specs.machine.LineText.{behind};
ghost use Rattle.pmb_line.specs.Spelling.{line, mark, bytes as bytes_tokens, part as part_tokens, parts as parts_tokens, part_before};

use crate::byte_text::append_byte;
use arrayvec::{ArrayString, ArrayVec};
use pmb_transaction::{Part, Transaction};

/// The line of a transaction.
pub type Line = ArrayString<12544>;

/// The line that is written for a transaction: lower-case digits, a space between each two words,
/// no comment, no LF.
pub fn line_of(transaction: &Transaction) -> Line
    ensures { result.bytes ≡ line (transaction_data transaction.now) }
{
    let mut bytes = ArrayVec::<u8, 12544>::new();
    append_line(transaction, &mut bytes);
    let text = str::from_utf8(bytes.as_slice()).unwrap();
    let mut line = Line::new();
    line.push_str(text);
    line
}

/// Appends the line of a transaction, as [`line_of`] writes it. There must be room for 12,544
/// bytes, the most that one has.
pub fn append_line<const N: usize>(transaction: &Transaction, out: &mut ArrayVec<u8, N>)
    requires { length out.old.items + 12544 ≤ N }
    ensures line { out.new.items ≡ out.old.items ++ line (transaction_data transaction.now) }
    ensures longer { length out.new.items ≤ length out.old.items + 12544 }
{
    match transaction {
        Transaction::Write { parts } => {
            append(out, b"write");
            append_parts(out, parts.as_slice());
        }
        Transaction::Read {
            addr,
            code,
            reply,
            pec,
        } => {
            append(out, b"read");
            append_bytes(out, &[*addr, *code]);
            append(out, b" :");
            append_bytes(out, reply.as_slice());
            append_mark(out, b" pec", *pec);
        }
        Transaction::Call {
            addr,
            code,
            bytes,
            reply,
            pec,
        } => {
            append(out, b"call");
            append_bytes(out, &[*addr, *code]);
            append_bytes(out, bytes.as_slice());
            append(out, b" :");
            append_bytes(out, reply.as_slice());
            append_mark(out, b" pec", *pec);
        }
        Transaction::Refused {
            parts,
            addr,
            sent,
            at_read,
        } => {
            append(out, b"refused");
            append_parts_before(out, parts.as_slice());
            append_bytes(out, &[*addr]);
            append_bytes(out, sent.as_slice());
            append_mark(out, b" read", *at_read);
        }
        Transaction::Alert { byte, pec } => {
            append(out, b"alert");
            append_bytes(out, &[*byte]);
            append_mark(out, b" pec", *pec);
        }
        Transaction::NoAlert => append(out, b"alert none"),
    }
}

// Appends a short text. Each caller names it, so that the compiler makes a move or two of the
// pushes.
#[inline]
fn append<const N: usize>(out: &mut ArrayVec<u8, N>, text: &[u8])
    requires { length out.old.items + length text.now ≤ N }
    ensures { out.new.items ≡ out.old.items ++ text.now }
{
    for byte in text {
        out.push(*byte);
    }
}

// Appends a space and two digits for each byte.
fn append_bytes<const N: usize>(out: &mut ArrayVec<u8, N>, bytes: &[u8])
    requires { length out.old.items + 3 * length bytes.now ≤ N }
    ensures text { out.new.items ≡ out.old.items ++ behind (bytes_tokens bytes.now) }
    ensures len { length out.new.items ≡ length out.old.items + 3 * length bytes.now }
{
    for byte in bytes {
        append_byte(out, *byte);
    }
}

// Appends the word if the flag is set.
#[inline]
fn append_mark<const N: usize>(out: &mut ArrayVec<u8, N>, word: &[u8], is_so: bool)
    requires { length out.old.items + length word.now ≤ N }
    ensures marked { is_so ≡ true → out.new.items ≡ out.old.items ++ word.now }
    ensures unmarked { is_so ≡ false → out.new.items ≡ out.old.items }
    ensures longer { length out.new.items ≤ length out.old.items + length word.now }
{
    if is_so {
        append(out, word);
    }
}

fn append_part<const N: usize>(out: &mut ArrayVec<u8, N>, part: &Part)
    requires { length out.old.items + 775 ≤ N }
    ensures text { out.new.items ≡ out.old.items ++ behind (part_tokens (part_data part.now)) }
    ensures len { length out.new.items ≤ length out.old.items + 775 }
{
    append_bytes(out, &[part.addr, part.code]);
    append_bytes(out, part.bytes.as_slice());
    append_mark(out, b" pec", part.pec);
}

// Appends parts with ` +` between each two.
fn append_parts<const N: usize>(out: &mut ArrayVec<u8, N>, parts: &[Part])
    requires { length out.old.items + 777 * length parts.now ≤ N }
    ensures text { out.new.items ≡ out.old.items ++ behind (parts_tokens (map part_data parts.now)) }
    ensures longer { length out.new.items ≤ length out.old.items + 777 * length parts.now }
{
    let [first, rest @ ..] = parts else {
        return;
    };
    append_part(out, first);
    for part in rest {
        append(out, b" +");
        append_part(out, part);
    }
}

// Appends parts with ` +` after each.
fn append_parts_before<const N: usize>(out: &mut ArrayVec<u8, N>, parts: &[Part])
    requires { length out.old.items + 777 * length parts.now ≤ N }
    ensures text { out.new.items ≡ out.old.items ++ behind (flat_map part_before (map part_data parts.now)) }
    ensures len { length out.new.items ≤ length out.old.items + 777 * length parts.now }
{
    for part in parts {
        append_part(out, part);
        append(out, b" +");
    }
}
