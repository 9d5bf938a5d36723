//! The transactions that rows tell.

use arrayvec::ArrayVec;
use pmb_transaction::{Part, Transaction};

/// A part: address, code, data, and whether it carries a packet error code.
pub(crate) type PartRow = (u8, u8, &'static [u8], bool);

/// A transaction.
#[derive(Clone, Copy)]
pub(crate) enum Said {
    Write(&'static [PartRow]),
    Read {
        addr: u8,
        code: u8,
        reply: &'static [u8],
        pec: bool,
    },
    Call {
        addr: u8,
        code: u8,
        bytes: &'static [u8],
        reply: &'static [u8],
        pec: bool,
    },
    Refused {
        parts: &'static [PartRow],
        addr: u8,
        sent: &'static [u8],
        at_read: bool,
    },
    Alert {
        byte: u8,
        pec: bool,
    },
    NoAlert,
}

/// As many of the items as there is room for.
fn bounded<const N: usize>(items: &[u8]) -> ArrayVec<u8, N> {
    let mut list = ArrayVec::new();
    for item in items {
        let _ = list.try_push(*item);
    }
    list
}

fn parts<const N: usize>(rows: &[PartRow]) -> ArrayVec<Part, N> {
    let mut list = ArrayVec::new();
    for (addr, code, bytes, pec) in rows {
        let part = Part {
            addr: *addr,
            code: *code,
            bytes: bounded(bytes),
            pec: *pec,
        };
        let _ = list.try_push(part);
    }
    list
}

impl Said {
    pub(crate) fn transaction(&self) -> Transaction {
        match *self {
            Said::Write(rows) => Transaction::Write { parts: parts(rows) },
            Said::Read {
                addr,
                code,
                reply,
                pec,
            } => Transaction::Read {
                addr,
                code,
                reply: bounded(reply),
                pec,
            },
            Said::Call {
                addr,
                code,
                bytes,
                reply,
                pec,
            } => Transaction::Call {
                addr,
                code,
                bytes: bounded(bytes),
                reply: bounded(reply),
                pec,
            },
            Said::Refused {
                parts: rows,
                addr,
                sent,
                at_read,
            } => Transaction::Refused {
                parts: parts(rows),
                addr,
                sent: bounded(sent),
                at_read,
            },
            Said::Alert { byte, pec } => Transaction::Alert { byte, pec },
            Said::NoAlert => Transaction::NoAlert,
        }
    }
}
