//! Parts that are written over in place.
//!
//! A part has room for 255 bytes, which is cleared where one is made or dropped. So the parts of a
//! write stay when the next one begins, and are written over one after the other; those that are
//! left over are dropped at its end.

ghost use Rattle.std.specs.Prelude.{◌≡◌, ◌<◌, ◌≤◌, ◌+◌, ◌++◌, ◌∷◌, [], length, map, take};
ghost use Rattle.std.specs.Option.{option_to_list};
ghost use Rattle.pmb_transaction.specs.Transaction.{part_data};
ghost use Rattle.pmb_transaction_slot.specs.TransactionKind.{parts_of};

use arrayvec::ArrayVec;
use pmb_transaction::{Part, Transaction};

/// Copies a byte over others. The second of two goes by `pop`, since `truncate` calls `memset`.
#[inline(always)]
fn copy_one<const N: usize>(byte: u8, into: &mut ArrayVec<u8, N>)
    requires { 0 < N }
    ensures { into.new.items ≡ byte ∷ [] }
{
    if into.len() == 2 {
        into.pop();
    }
    into.truncate(1);
    if let Some(place) = into.get_mut(0) {
        *place = byte;
        return;
    }
    into.push(byte);
}

/// Copies two bytes over others.
#[inline(always)]
fn copy_two<const N: usize>(first: u8, second: u8, into: &mut ArrayVec<u8, N>)
    requires { 2 ≤ N }
    ensures { into.new.items ≡ first ∷ second ∷ [] }
{
    into.truncate(2);
    if into.len() == 2 {
        let places = into.as_mut_slice();
        places[0] = first;
        places[1] = second;
        return;
    }
    into.pop();
    into.push(first);
    into.push(second);
}

/// Copies any number of bytes over others.
#[inline(never)]
fn copy_many<const N: usize>(bytes: &[u8], into: &mut ArrayVec<u8, N>)
    requires { length bytes.now ≤ N }
    ensures { into.new.items ≡ bytes.now }
{
    into.clear();
    let _ = into.try_extend_from_slice(bytes);
}

/// Copies bytes over others. Most data are one byte or two, for which calls of `memset` and `memcpy`
/// would cost some 60 instructions; byte by byte they cost a dozen.
#[inline(always)]
pub(crate) fn copy_bytes<const N: usize>(bytes: &[u8], into: &mut ArrayVec<u8, N>)
    requires { length bytes.now ≤ N }
    ensures { into.new.items ≡ bytes.now }
{
    match bytes {
        [] => into.clear(),
        [byte] => copy_one(*byte, into),
        [first, second] => copy_two(*first, *second, into),
        _ => copy_many(bytes, into),
    }
}

/// Makes a part one of these.
#[inline]
fn write_over(part: &mut Part, addr: u8, code: u8, data_bytes: &[u8], pec: bool)
    requires { length data_bytes.now ≤ 255 }
    ensures { part_data part.new ≡ record { addr = addr; code = code; bytes = data_bytes.now; pec = pec } }
{
    part.addr = addr;
    part.code = code;
    copy_bytes(data_bytes, &mut part.bytes);
    part.pec = pec;
}

/// Puts a part after the first ones, in place of the one that stands there, if one does.
#[inline]
pub(crate) fn put_part<const N: usize>(
    parts: &mut ArrayVec<Part, N>,
    at: usize,
    addr: u8,
    code: u8,
    data_bytes: &[u8],
    pec: bool,
)
    requires inside { at ≤ length parts.old.items }
    requires room { at < N }
    requires fits { length data_bytes.now ≤ 255 }
    ensures put { map part_data (take (at + 1) parts.new.items) ≡ map part_data (take at parts.old.items)
        ++ record { addr = addr; code = code; bytes = data_bytes.now; pec = pec } ∷ [] }
    ensures inside { at + 1 ≤ length parts.new.items }
{
    if at == parts.len() {
        // A blank one is cleared in its place. One with its data would be made elsewhere and copied.
        parts.push(Part::default());
    }
    let Some(part) = parts.get_mut(at) else {
        unreachable!()
    };
    write_over(part, addr, code, data_bytes, pec);
}

/// The first parts of a write.
pub(crate) fn front_parts(write: &Transaction, count: usize) -> &[Part]
    requires { count ≤ length (parts_of write.now) }
    ensures { map part_data result.now ≡ take count (parts_of write.now) }
{
    match write {
        Transaction::Write { parts } => &parts.as_slice()[..count],
        _ => &[],
    }
}

/// Copies parts over others.
pub(crate) fn copy_parts<const N: usize>(parts: &[Part], into: &mut ArrayVec<Part, N>)
    requires { length parts.now ≤ N }
    ensures { map part_data into.new.items ≡ map part_data parts.now }
{
    for (i, part) in parts.iter().enumerate() {
        put_part(
            into,
            i,
            part.addr,
            part.code,
            part.bytes.as_slice(),
            part.pec,
        );
    }
    into.truncate(parts.len());
}

/// Copies bytes that were taken, and the one that was refused, if one was.
pub(crate) fn copy_sent(taken: &[u8], refused: Option<u8>, into: &mut ArrayVec<u8, 258>)
    requires { length (taken.now ++ option_to_list refused) ≤ 258 }
    ensures { into.new.items ≡ taken.now ++ option_to_list refused }
{
    copy_bytes(taken, into);
    if let Some(byte) = refused {
        into.push(byte);
    }
}
