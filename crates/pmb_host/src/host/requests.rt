//! A host for each sort of request.
//!
//! Its rows: `tests_host`, `src/host/ends.rt`, `src/host/faults.rt`.

ghost use Rattle.std.specs.Prelude.{◌≡◌, [], ◌∷◌, MatchResult, map};
ghost use Rattle.pmb_request.specs.Request.{CallBytes, Get, ReadBytes, Set, WriteParts};
ghost use Rattle.pmb_host.specs.Rules.{IsFault};
ghost use Rattle.pmb_host.specs.Task.{read_by, word_bytes};
ghost use Rattle.pmb_transaction.specs.Transaction.{Write, part_data, transaction_data};
ghost use Rattle.pmb_host.specs.Host.{IsNewHost};

use super::Host;
use crate::checks::{check_call, check_get, check_read, check_set};
use crate::reply::Incoming;
use crate::step::HostFault;
use arrayvec::ArrayVec;
use pmb_table::Profile;
use pmb_transaction::{Part, Transaction};
use pmb_value::Quantity;
use pmb_writer::check;

/// A write of one part.
fn write_of(addr: u8, code: u8, word: u16, pec: bool) -> Transaction
    ensures { transaction_data result ≡ Write (record { addr = addr; code = code; bytes = word_bytes word; pec = pec } ∷ []) }
{
    let mut bytes = ArrayVec::new();
    let _ = bytes.try_extend_from_slice(&word.to_le_bytes());
    let mut parts = ArrayVec::new();
    parts.push(Part {
        addr,
        code,
        bytes,
        pec,
    });
    Transaction::Write { parts }
}

/// A read whose reply is still empty.
fn read_of(addr: u8, code: u8, pec: bool) -> Transaction
    ensures { transaction_data result ≡ read_by (record { addr = addr; code = code; pec = pec }) }
{
    Transaction::Read {
        addr,
        code,
        reply: ArrayVec::new(),
        pec,
    }
}

impl<'p> Host<'p> {
    /// One that writes parts, where they have a packet.
    pub(super) fn writer(
        profile: &'p Profile,
        parts: ArrayVec<Part, 16>,
    ) -> Result<Host<'p>, HostFault>
        ensures { MatchResult result (IsNewHost profile.now (WriteParts (map part_data parts.items))) (IsFault profile.now (WriteParts (map part_data parts.items))) }
    {
        let transaction = Transaction::Write { parts };
        match check(profile, &transaction) {
            Ok(()) => Ok(Host::of(profile, transaction, None, None)),
            Err(invalid) => Err(HostFault::Invalid(invalid)),
        }
    }

    /// One that reads.
    pub(super) fn reader(
        profile: &'p Profile,
        addr: u8,
        code: u8,
        pec: bool,
    ) -> Result<Host<'p>, HostFault>
        ensures { MatchResult result (IsNewHost profile.now (ReadBytes (record { addr = addr; code = code; pec = pec }))) (IsFault profile.now (ReadBytes (record { addr = addr; code = code; pec = pec }))) }
    {
        match check_read(profile, addr, code, pec) {
            Ok(form) => {
                let reply = Incoming::new(form, pec);
                Ok(Host::of(profile, read_of(addr, code, pec), Some(reply), None))
            }
            Err(invalid) => Err(HostFault::Invalid(invalid)),
        }
    }

    /// One that calls.
    pub(super) fn caller(
        profile: &'p Profile,
        addr: u8,
        code: u8,
        bytes: ArrayVec<u8, 255>,
        pec: bool,
    ) -> Result<Host<'p>, HostFault>
        ensures { MatchResult result (IsNewHost profile.now (CallBytes (record { addr = addr; code = code; pec = pec }) bytes.items))
            (IsFault profile.now (CallBytes (record { addr = addr; code = code; pec = pec }) bytes.items)) }
    {
        match check_call(profile, addr, code, bytes.as_slice(), pec) {
            Ok(form) => {
                let transaction = Transaction::Call {
                    addr,
                    code,
                    bytes,
                    reply: ArrayVec::new(),
                    pec,
                };
                let reply = Incoming::new(form, pec);
                Ok(Host::of(profile, transaction, Some(reply), None))
            }
            Err(invalid) => Err(HostFault::Invalid(invalid)),
        }
    }

    /// One that writes the word of a quantity.
    pub(super) fn setter(
        profile: &'p Profile,
        addr: u8,
        code: u8,
        value: &Quantity,
        mode: Option<u8>,
        pec: bool,
    ) -> Result<Host<'p>, HostFault>
        ensures { MatchResult result (IsNewHost profile.now (Set (record { addr = addr; code = code; pec = pec }) value.now mode))
            (IsFault profile.now (Set (record { addr = addr; code = code; pec = pec }) value.now mode)) }
    {
        match check_set(profile, addr, code, value, mode, pec) {
            Ok(word) => Ok(Host::of(profile, write_of(addr, code, word, pec), None, None)),
            Err(fault) => Err(fault),
        }
    }

    /// One that reads a quantity.
    pub(super) fn getter(
        profile: &'p Profile,
        addr: u8,
        code: u8,
        mode: Option<u8>,
        pec: bool,
    ) -> Result<Host<'p>, HostFault>
        ensures { MatchResult result (IsNewHost profile.now (Get (record { addr = addr; code = code; pec = pec }) mode))
            (IsFault profile.now (Get (record { addr = addr; code = code; pec = pec }) mode)) }
    {
        match check_get(profile, addr, code, mode, pec) {
            Ok((number, form)) => {
                let reply = Incoming::new(form, pec);
                Ok(Host::of(profile, read_of(addr, code, pec), Some(reply), Some(number)))
            }
            Err(fault) => Err(fault),
        }
    }
}
