//! Transactions that are kept in place while packets are read.
//!
//! A [`TransactionSlot`] has the parts of the packet under way and the transaction whose packet ended last. It
//! keeps one transaction of each kind and writes over it, so that a packet costs what it holds, and
//! neither the room of a transaction nor that of a part is cleared for one.
//!
//! ```rust
//! let mut kept = TransactionSlot::new();
//! kept.begin();
//! kept.push_part(0x58, 0x21, &[0x00, 0x10], true);
//! kept.end_write();
//! assert_eq!(rt; line_of(kept.last()).as_str(), "write 58 21 00 10 pec");
//! ```
#![tactic(auto)]

mod parts;
mod transaction_kind;
mod transaction_slot;

pub use transaction_kind::{
    TransactionKind, make_alert, make_call, make_no_alert, make_read, make_refused, make_write,
};
pub use transaction_slot::TransactionSlot;
