//! A request: what a host is asked to do.
//!
//! Its rows: `tests_lines`, `src/requests/rows.rt`; `tests/rows/requests.txt`.

use arrayvec::ArrayVec;
use pmb_quantity::Quantity;
use pmb_transaction::Part;

/// What a host is asked to do: one packet. Addresses have seven bits, and data hold neither the count of
/// a block nor a packet error code; `pec` says whether the packet carries one.
#[derive(Clone, Debug, Drop)]
pub enum Request {
    /// A write to one device, or to a group of up to 16 (PMBus Part I 1.3 section 5.2.3).
    Write {
        parts: ArrayVec<Part, 16>,
    },
    /// A read.
    Read {
        addr: u8,
        code: u8,
        pec: bool,
    },
    /// A process call.
    Call {
        addr: u8,
        code: u8,
        bytes: ArrayVec<u8, 255>,
        pec: bool,
    },
    /// A write of the code nearest to a quantity, in the format of the command. That of an output
    /// voltage is named by `mode`, the device's VOUT_MODE.
    Set {
        addr: u8,
        code: u8,
        value: Quantity,
        mode: Option<u8>,
        pec: bool,
    },
    /// A read of a quantity, in the format of the command.
    Get {
        addr: u8,
        code: u8,
        mode: Option<u8>,
        pec: bool,
    },
}
