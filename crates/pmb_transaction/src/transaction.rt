//! What a packet says. Its rows: `tests_packets`, `src/transactions/packet_rows.rt` and
//! `no_packet_rows.rt`; `tests_lines`, `src/lines/rows.rt`; `tests/rows/captures.txt`.

use crate::part::Part;
use arrayvec::ArrayVec;

/// What one packet says, from its START to its STOP.
///
/// Data and replies hold neither the count of a block nor a packet error code; `pec` says whether
/// the packet carries one. Addresses have seven bits.
#[derive(Clone, Debug, Drop, PartialEq, Eq)]
pub enum Transaction {
    /// A write to one device, or to a group of up to 16, all of which act at the STOP (PMBus Part I
    /// 1.3 section 5.2.3).
    Write {
        parts: ArrayVec<Part, 16>,
    },
    /// A read (SMBus 3.0 sections 6.5.5, 6.5.7, 6.5.11 and 6.5.13).
    Read {
        addr: u8,
        code: u8,
        reply: ArrayVec<u8, 255>,
        pec: bool,
    },
    /// A process call (SMBus 3.0 sections 6.5.6 and 6.5.8).
    Call {
        addr: u8,
        code: u8,
        bytes: ArrayVec<u8, 255>,
        reply: ArrayVec<u8, 255>,
        pec: bool,
    },
    /// A packet in which NACK was answered after complete parts of a group, in a leg to the
    /// address `addr`. Where `at_read` is false, `sent` are the bytes after the address, the last
    /// of which was refused; where nothing was sent it was the address itself, which no device need
    /// have. Where `at_read` is true all of `sent` was taken, and to be read was refused.
    Refused {
        parts: ArrayVec<Part, 15>,
        addr: u8,
        sent: ArrayVec<u8, 258>,
        at_read: bool,
    },
    /// The answer of a device at the Alert Response Address: a byte with its own address in bits 7
    /// to 1, and any value in bit 0 (SMBus 3.0 appendix A).
    Alert {
        byte: u8,
        pec: bool,
    },
    /// No device answered at the Alert Response Address.
    NoAlert,
}
