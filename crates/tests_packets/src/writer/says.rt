//! Transactions as rows tell them, and what is answered to them.

use arrayvec::ArrayVec;
use pmb_bus::event_text;
use pmb_table::Profile;
use pmb_transaction::{Part, Transaction};
use pmb_writer::{check, events_of};
use std::alloc::{AllocError, Global};

/// A part: address, code, data, and whether a packet error code follows.
pub(crate) struct Share(
    pub(crate) u8,
    pub(crate) u8,
    pub(crate) &'static [u8],
    pub(crate) bool,
);

/// A transaction: its fields in the order in which the type has them.
pub(crate) enum Say {
    Write(&'static [Share]),
    Read(u8, u8, &'static [u8], bool),
    Call(u8, u8, &'static [u8], &'static [u8], bool),
    Refused(&'static [Share], u8, &'static [u8], bool),
    Alert(u8, bool),
    NoAlert,
}

/// A name, a transaction, and the text of its packet or the name of its first fault.
pub(crate) type Row = (&'static str, Say, &'static str);

/// The rows of a table. A call keeps the proof of a loop over them from carrying the table.
pub(crate) fn rows_of(table: &'static [Row]) -> &'static [Row] {
    table
}

/// Bytes in a list with room for them.
pub(crate) fn list<const N: usize>(bytes: &[u8]) -> ArrayVec<u8, N> {
    let mut list = ArrayVec::new();
    let _ = list.try_extend_from_slice(bytes);
    list
}

fn parts<const N: usize>(shares: &[Share]) -> ArrayVec<Part, N> {
    let mut parts = ArrayVec::new();
    for share in shares {
        let _ = parts.try_push(Part {
            addr: share.0,
            code: share.1,
            bytes: list(share.2),
            pec: share.3,
        });
    }
    parts
}

/// The transaction that a row tells.
pub(crate) fn transaction(say: &Say) -> Transaction {
    match say {
        Say::Write(shares) => Transaction::Write {
            parts: parts(shares),
        },
        Say::Read(addr, code, reply, pec) => Transaction::Read {
            addr: *addr,
            code: *code,
            reply: list(reply),
            pec: *pec,
        },
        Say::Call(addr, code, bytes, reply, pec) => Transaction::Call {
            addr: *addr,
            code: *code,
            bytes: list(bytes),
            reply: list(reply),
            pec: *pec,
        },
        Say::Refused(shares, addr, sent, at_read) => Transaction::Refused {
            parts: parts(shares),
            addr: *addr,
            sent: list(sent),
            at_read: *at_read,
        },
        Say::Alert(byte, pec) => Transaction::Alert {
            byte: *byte,
            pec: *pec,
        },
        Say::NoAlert => Transaction::NoAlert,
    }
}

/// The canonical capture text of a transaction's packet, or the name of its first fault.
pub(crate) fn answer(
    alloc: Global,
    profile: &Profile,
    transaction: &Transaction,
) -> Result<String, AllocError> {
    let mut text = String::new(alloc);
    match check(profile, transaction) {
        Ok(()) => {
            for event in events_of(profile, transaction) {
                text.push_str(event_text(event).as_str())?;
            }
            Ok(text)
        }
        Err(fault) => format!(in alloc; "{fault}"),
    }
}
