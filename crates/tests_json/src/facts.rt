//! The facts of transactions.

ghost use Rattle.pmb_facts.specs.Stands.{IsShort};

use pmb_facts::What;
use pmb_transaction::Transaction;

/// The fact of a transaction: of a group that of its last part, or of the leg that was refused.
pub(crate) fn last_fact(transaction: &Transaction) -> What<'_>
    ensures { IsShort result }
{
    match transaction {
        Transaction::Write { parts } => {
            let count = parts.len() as u64;
            match parts.as_slice().last() {
                Some(written) => What::Write {
                    part: count,
                    parts: count,
                    written,
                },
                None => What::NoAlert,
            }
        }
        Transaction::Read {
            addr,
            code,
            reply,
            pec,
        } => What::Read {
            addr: *addr,
            code: *code,
            reply: reply.as_slice(),
            pec: *pec,
        },
        Transaction::Call {
            addr,
            code,
            bytes,
            reply,
            pec,
        } => What::Call {
            addr: *addr,
            code: *code,
            sent: bytes.as_slice(),
            reply: reply.as_slice(),
            pec: *pec,
        },
        Transaction::Alert { byte, pec } => What::Alert {
            byte: *byte,
            pec: *pec,
        },
        Transaction::NoAlert => What::NoAlert,
        Transaction::Refused {
            parts,
            addr,
            sent,
            at_read,
        } => What::Refused {
            parts: parts.len() as u64 + 1,
            addr: *addr,
            sent: sent.as_slice(),
            at_read: *at_read,
        },
    }
}
