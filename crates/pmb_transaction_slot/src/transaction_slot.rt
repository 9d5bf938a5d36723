//! The transactions that are kept, one of each kind, and a write that has no part but one.
//!
//! The parts of the packet under way are the first ones of the kept write. Of a kept transaction of
//! another kind nothing counts until its packet ends.
//!
//! Its rows: `tests_reader`, `src/canonical/rows.rt` and `src/reader/rows.rt`.

ghost use Rattle.std.specs.Prelude.{◌≡◌, ◌<◌, ◌≤◌, ◌++◌, [], ◌∷◌, length, nat_eq};
ghost use Rattle.std.specs.List.{list_any};
ghost use Rattle.std.specs.Option.{option_to_list};
ghost use Rattle.pmb_transaction.specs.Transaction.{Write as says_write, Read as says_read, Call as says_call, Refused as says_refused, Alert as says_alert, NoAlert as says_no_alert, transaction_data};
ghost use Rattle.pmb_transaction.specs.Packet.{addresses};

use crate::parts::{copy_bytes, copy_parts, copy_sent, front_parts, put_part};
use crate::transaction_kind::{
    TransactionKind, make_alert, make_call, make_read, make_refused, make_write,
};
use pmb_transaction::Transaction;
use std::marker::Model;

/// Which of those that are kept ended last.
#[derive(Clone, Copy)]
enum Last {
    /// The write in `single`.
    Single,
    /// That of a kind.
    Of(TransactionKind),
}

/// The parts of the packet under way, and the transaction whose packet ended last.
#[derive(Drop)]
pub struct TransactionSlot {
    /// Its first parts are those of the packet under way.
    write: Transaction,
    /// How many these are.
    count: usize,
    /// The write of one part that `end_single` keeps: the parts of `write` stay where they are.
    single: Transaction,
    read: Transaction,
    call: Transaction,
    refused: Transaction,
    alert: Transaction,
    /// Always `NoAlert`.
    no_alert: Transaction,
    /// Which of them ended last.
    last: Last,
}

impl Model for TransactionSlot {
    ghost use Rattle.pmb_transaction_slot.specs.TransactionSlot.{KeptData};

    ghost Value = { KeptData };

    ghost use Rattle.pmb_transaction_slot.specs.machine.TransactionSlot.{kept_data, IsKept};

    ghost view = { kept_data };

    ghost invariant = { IsKept };
}

impl TransactionSlot {
    /// No part, and no packet that ended.
    pub fn new() -> TransactionSlot
        ensures { result ≡ record { parts = []; last = says_no_alert } }
    {
        TransactionSlot {
            write: Transaction::NoAlert,
            count: 0,
            single: Transaction::NoAlert,
            read: Transaction::NoAlert,
            call: Transaction::NoAlert,
            refused: Transaction::NoAlert,
            alert: Transaction::NoAlert,
            no_alert: Transaction::NoAlert,
            last: Last::Of(TransactionKind::NoAlert),
        }
    }

    /// The transaction whose packet ended last.
    #[inline]
    pub fn last(&self) -> &Transaction
        ensures { transaction_data result.now ≡ self.now.last }
    {
        match self.last {
            Last::Single => &self.single,
            Last::Of(TransactionKind::Write) => &self.write,
            Last::Of(TransactionKind::Read) => &self.read,
            Last::Of(TransactionKind::Call) => &self.call,
            Last::Of(TransactionKind::Refused) => &self.refused,
            Last::Of(TransactionKind::Alert) => &self.alert,
            Last::Of(TransactionKind::NoAlert) => &self.no_alert,
        }
    }

    /// Gives it away.
    pub fn take_last(&mut self) -> Transaction
        ensures { transaction_data result ≡ self.old.last }
    {
        self.count = 0;
        match self.last {
            Last::Single => std::mem::replace(&mut self.single, Transaction::NoAlert),
            Last::Of(TransactionKind::Write) => std::mem::replace(
                &mut self.write,
                Transaction::NoAlert,
            ),
            Last::Of(TransactionKind::Read) => std::mem::replace(
                &mut self.read,
                Transaction::NoAlert,
            ),
            Last::Of(TransactionKind::Call) => std::mem::replace(
                &mut self.call,
                Transaction::NoAlert,
            ),
            Last::Of(TransactionKind::Refused) => std::mem::replace(
                &mut self.refused,
                Transaction::NoAlert,
            ),
            Last::Of(TransactionKind::Alert) => std::mem::replace(
                &mut self.alert,
                Transaction::NoAlert,
            ),
            Last::Of(TransactionKind::NoAlert) => Transaction::NoAlert,
        }
    }

    /// Begins a packet without parts.
    #[inline]
    pub fn begin(&mut self)
        ensures { self.new.parts ≡ [] }
    {
        self.count = 0;
    }

    /// How many parts the packet under way has.
    #[inline]
    pub fn part_count(&self) -> usize
        ensures { result ≡ length self.now.parts }
    {
        self.count
    }

    /// Whether one of them has an address.
    pub fn has_part_at(&self, addr: u8) -> bool
        ensures { result ≡ list_any (nat_eq addr) (addresses self.now.parts) }
    {
        for part in front_parts(&self.write, self.count) {
            if part.addr == addr {
                return true;
            }
        }
        false
    }

    /// Adds a part.
    #[inline(always)]
    pub fn push_part(&mut self, addr: u8, code: u8, data_bytes: &[u8], pec: bool)
        requires room { length self.old.parts < 16 }
        requires fits { length data_bytes.now ≤ 255 }
        ensures { self.new.parts ≡ self.old.parts ++ record { addr = addr; code = code; bytes = data_bytes.now; pec = pec } ∷ [] }
    {
        let count = self.count;
        make_write(&mut self.write);
        let Transaction::Write { parts } = &mut self.write else {
            unreachable!()
        };
        put_part(parts, count, addr, code, data_bytes, pec);
        self.count = count + 1;
    }

    /// The packet was the write of its parts.
    #[inline]
    pub fn end_write(&mut self)
        ensures { self.new.last ≡ says_write self.old.parts }
    {
        self.last = Last::Of(TransactionKind::Write);
        let count = self.count;
        make_write(&mut self.write);
        let Transaction::Write { parts } = &mut self.write else {
            unreachable!()
        };
        parts.truncate(count);
    }

    /// The packet was the write of one part, which is given here and was not added before.
    #[inline]
    pub fn end_single(&mut self, address: u8, command: u8, data_bytes: &[u8], with_pec: bool)
        requires { length data_bytes.now ≤ 255 }
        ensures { self.new.last
            ≡ says_write (record { addr = address; code = command; bytes = data_bytes.now; pec = with_pec } ∷ []) }
    {
        self.last = Last::Single;
        make_write(&mut self.single);
        let Transaction::Write { parts } = &mut self.single else {
            unreachable!()
        };
        put_part(parts, 0, address, command, data_bytes, with_pec);
        parts.truncate(1);
    }

    /// The packet was a read.
    #[inline]
    pub fn end_read(&mut self, address: u8, command: u8, data_bytes: &[u8], with_pec: bool)
        requires { length data_bytes.now ≤ 255 }
        ensures { self.new.last
            ≡ says_read (record { addr = address; code = command; reply = data_bytes.now; pec = with_pec }) }
    {
        self.last = Last::Of(TransactionKind::Read);
        make_read(&mut self.read);
        let Transaction::Read {
            addr,
            code,
            reply,
            pec,
        } = &mut self.read
        else {
            unreachable!()
        };
        *addr = address;
        *code = command;
        copy_bytes(data_bytes, reply);
        *pec = with_pec;
    }

    /// The packet was a call.
    pub fn end_call(
        &mut self,
        address: u8,
        command: u8,
        sent: &[u8],
        data_bytes: &[u8],
        with_pec: bool,
    )
        requires sent { length sent.now ≤ 255 }
        requires reply { length data_bytes.now ≤ 255 }
        ensures { self.new.last
            ≡ says_call (record { addr = address; code = command; bytes = sent.now; reply = data_bytes.now; pec = with_pec }) }
    {
        self.last = Last::Of(TransactionKind::Call);
        make_call(&mut self.call);
        let Transaction::Call {
            addr,
            code,
            bytes,
            reply,
            pec,
        } = &mut self.call
        else {
            unreachable!()
        };
        *addr = address;
        *code = command;
        copy_bytes(sent, bytes);
        copy_bytes(data_bytes, reply);
        *pec = with_pec;
    }

    /// The packet was refused after its parts, where these bytes were taken, and the next one not,
    /// or to be read was refused.
    pub fn end_refused(&mut self, address: u8, taken: &[u8], refused: Option<u8>, to_read: bool)
        requires parts { length self.old.parts ≤ 15 }
        requires sent { length (taken.now ++ option_to_list refused) ≤ 258 }
        ensures { self.new.last
            ≡ says_refused (record { parts = self.old.parts; addr = address; sent = taken.now ++ option_to_list refused; at_read = to_read }) }
    {
        self.last = Last::Of(TransactionKind::Refused);
        let front = front_parts(&self.write, self.count);
        make_refused(&mut self.refused);
        let Transaction::Refused {
            parts,
            addr,
            sent,
            at_read,
        } = &mut self.refused
        else {
            unreachable!()
        };
        copy_parts(front, parts);
        *addr = address;
        copy_sent(taken, refused, sent);
        *at_read = to_read;
    }

    /// A device answered at the Alert Response Address.
    pub fn end_alert(&mut self, answered: u8, with_pec: bool)
        ensures { self.new.last ≡ says_alert (record { byte = answered; pec = with_pec }) }
    {
        self.last = Last::Of(TransactionKind::Alert);
        make_alert(&mut self.alert);
        let Transaction::Alert { byte, pec } = &mut self.alert else {
            unreachable!()
        };
        *byte = answered;
        *pec = with_pec;
    }

    /// No device answered there.
    pub fn end_no_alert(&mut self)
        ensures { self.new.last ≡ says_no_alert }
    {
        self.last = Last::Of(TransactionKind::NoAlert);
    }
}
