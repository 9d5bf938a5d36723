//! Transactions of a kind, to be written over in place.
//!
//! A transaction has room for the most that one of its kind holds, and that room is cleared where the
//! transaction is made. So one that is of the kind already stays, and only what the next one holds is
//! written.

ghost use Rattle.std.specs.Prelude.{◌≡◌, false, []};
ghost use Rattle.pmb_transaction.specs.Transaction.{Read as says_read, Call as says_call, Refused as says_refused, Alert as says_alert, transaction_data};
ghost use Rattle.pmb_transaction_slot.specs.TransactionKind.{IsWrite, IsRead, IsCall, IsRefused, IsAlert, parts_of};

use arrayvec::ArrayVec;
use pmb_transaction::Transaction;

/// The kinds of transactions.
#[derive(Clone, Copy)]
pub enum TransactionKind {
    Write,
    Read,
    Call,
    Refused,
    Alert,
    NoAlert,
}

/// Makes a transaction a write, unless it is one. Its parts stay.
#[inline]
pub fn make_write(transaction: &mut Transaction)
    ensures kind { IsWrite transaction.new }
    ensures same { IsWrite transaction.old → transaction.new ≡ transaction.old }
    ensures parts { parts_of transaction.new ≡ parts_of transaction.old }
{
    if let Transaction::Write { .. } = transaction {
        return;
    }
    *transaction = Transaction::Write {
        parts: ArrayVec::new(),
    };
}

/// Makes a transaction a read, unless it is one.
#[inline]
pub fn make_read(transaction: &mut Transaction)
    ensures kind { IsRead transaction.new }
    ensures same { IsRead transaction.old → transaction.new ≡ transaction.old }
    ensures fresh { (IsRead transaction.old → ⊥) → transaction_data transaction.new ≡ says_read (record { addr = 0; code = 0; reply = []; pec = false }) }
{
    if let Transaction::Read { .. } = transaction {
        return;
    }
    *transaction = Transaction::Read {
        addr: 0,
        code: 0,
        reply: ArrayVec::new(),
        pec: false,
    };
}

/// Makes a transaction a call, unless it is one.
#[inline]
pub fn make_call(transaction: &mut Transaction)
    ensures kind { IsCall transaction.new }
    ensures same { IsCall transaction.old → transaction.new ≡ transaction.old }
    ensures fresh { (IsCall transaction.old → ⊥) → transaction_data transaction.new ≡ says_call (record { addr = 0; code = 0; bytes = []; reply = []; pec = false }) }
{
    if let Transaction::Call { .. } = transaction {
        return;
    }
    *transaction = Transaction::Call {
        addr: 0,
        code: 0,
        bytes: ArrayVec::new(),
        reply: ArrayVec::new(),
        pec: false,
    };
}

/// Makes a transaction a refused one, unless it is one.
#[inline]
pub fn make_refused(transaction: &mut Transaction)
    ensures kind { IsRefused transaction.new }
    ensures same { IsRefused transaction.old → transaction.new ≡ transaction.old }
    ensures fresh { (IsRefused transaction.old → ⊥) → transaction_data transaction.new ≡ says_refused (record { parts = []; addr = 0; sent = []; at_read = false }) }
{
    if let Transaction::Refused { .. } = transaction {
        return;
    }
    *transaction = Transaction::Refused {
        parts: ArrayVec::new(),
        addr: 0,
        sent: ArrayVec::new(),
        at_read: false,
    };
}

/// Makes a transaction an answer at the Alert Response Address, unless it is one.
#[inline]
pub fn make_alert(transaction: &mut Transaction)
    ensures kind { IsAlert transaction.new }
    ensures same { IsAlert transaction.old → transaction.new ≡ transaction.old }
    ensures fresh { (IsAlert transaction.old → ⊥) → transaction_data transaction.new ≡ says_alert (record { byte = 0; pec = false }) }
{
    if let Transaction::Alert { .. } = transaction {
        return;
    }
    *transaction = Transaction::Alert {
        byte: 0,
        pec: false,
    };
}

/// Makes a transaction one in which nobody answered there, unless it is one.
#[inline]
pub fn make_no_alert(transaction: &mut Transaction)
    ensures { transaction.new ≡ Transaction.NoAlert }
{
    if let Transaction::NoAlert = transaction {
        return;
    }
    *transaction = Transaction::NoAlert;
}
