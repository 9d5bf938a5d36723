//! PAGE and VOUT_MODE of the devices of a bus.
//!
//! Its rows: `tests_lines`, `src/notes/contexts.rt` and `rows.rt`; `tests/rows/captures.txt`.

ghost use Rattle.std.specs.Prelude.{◌≡◌, ◌+◌, ◌<◌, ◌++◌, ◌∷◌, [], List, fold, length, map, option_map, slice_get, Some};
ghost use Rattle.pmb_command.specs.Parts.{DeviceParts, device_with};
ghost use Rattle.pmb_transaction.specs.Transaction.{TransactionData, part_data, transaction_data};
ghost use Rattle.pmb_note.specs.Paging.{PagingData, after_told, after_transaction, first_paging, told_by_part};
ghost use Rattle.pmb_note.specs.Context.{HasSeen, mode as mode_after, page as page_after};
ghost use Rattle.pmb_note.specs.machine.Standing.{Keeps, mode_in, paging_in};

use crate::paging::{Paging, is_paging};
use arrayvec::ArrayVec;
use pmb_table::Profile;
use pmb_table::laws::accepted_bus;
use pmb_transaction::{Part, Transaction};

/// How many addresses of seven bits there are.
const ADDRESSES: u8 = 128;

/// PAGE and VOUT_MODE of each device of a profile, as the transactions on the bus tell them. It takes
/// no memory from an allocator, whatever it is given.
///
/// A complete part of a write tells the bytes that it wrote, also in a refused packet, and a read
/// tells its reply. What was sent in a leg that was refused changes nothing, even where the bytes
/// before the last are a whole write.
#[derive(Drop)]
pub struct Context<'p> {
    pub(crate) profile: &'p Profile,
    /// Of the device at each address; no values that mean anything where there is none.
    pagings: ArrayVec<Paging, 128>,
}

impl<'p> Context<'p> {
    /// The context before all transactions: PAGE is 0, and VOUT_MODE on each page is the one of the
    /// profile.
    pub fn new(profile: &'p Profile) -> Context<'p>
        ensures { HasSeen result profile.now [] }
    {
        accepted_bus(profile);
        let mut pagings = ArrayVec::new();
        for address in 0..ADDRESSES {
            pagings.push(first_paging(profile, address));
        }
        Context { profile, pagings }
    }

    /// Takes the next transaction.
    #[inline(always)]
    pub fn observe(&mut self, transaction: &Transaction)
        ensures { (profile : List DeviceParts) (ts : List TransactionData) → HasSeen self.old profile ts
            → HasSeen self.new profile (ts ++ transaction_data transaction.now ∷ []) }
    {
        take_transaction(self.profile, self.pagings.as_mut_slice(), transaction);
    }

    /// The value of PAGE of the device with an address, ffh for all pages, also where it has no page of
    /// that number; `None` where the profile has no such device.
    pub fn page(&self, addr: u8) -> Option<u8>
        ensures { (profile : List DeviceParts) (ts : List TransactionData) → HasSeen self.now profile ts
            → result ≡ page_after profile ts addr }
    {
        match self.paging(addr) {
            Some(paging) => Some(paging.page()),
            None => None,
        }
    }

    /// The VOUT_MODE of the device with an address, on the page that is selected; where all are, the
    /// one that they share. `None` where the pages don't share one, where the device has no page of
    /// the number that PAGE has, and where the profile has no such device.
    pub fn mode(&self, addr: u8) -> Option<u8>
        ensures { (profile : List DeviceParts) (ts : List TransactionData) → HasSeen self.now profile ts
            → result ≡ mode_after profile ts addr }
    {
        match self.paging(addr) {
            Some(paging) => paging.mode(),
            None => None,
        }
    }

    /// The VOUT_MODE that is kept of the selected page at an address.
    pub(crate) fn kept_mode(&self, addr: u8) -> Option<u8>
        ensures { result ≡ mode_in self.now addr }
    {
        match self.kept(addr) {
            Some(paging) => paging.mode(),
            None => None,
        }
    }

    // What is kept at an address.
    fn kept(&self, addr: u8) -> Option<&Paging>
        ensures { option_map (λ paging. paging.now) result ≡ slice_get self.now.pagings.items addr }
    {
        self.pagings.as_slice().get(usize::from(addr))
    }

    // PAGE and VOUT_MODE of the device with an address.
    fn paging(&self, addr: u8) -> Option<&Paging>
        ensures { option_map (λ paging. paging.now) result ≡ paging_in self.now addr }
    {
        match self.profile.device(addr) {
            Some(_) => self.kept(addr),
            None => None,
        }
    }
}

// The first values of the device with an address, if there is one.
fn first_paging(profile: &Profile, address: u8) -> Paging
    ensures { (device : DeviceParts) → device_with address profile.now ≡ Some device → result ≡ first_paging device }
{
    match profile.device(address) {
        Some(device) => Paging::new(device),
        None => Paging::default(),
    }
}

// Takes what a transaction tells. Few tell anything, so that the look at its kind stands in the caller.
#[inline(always)]
fn take_transaction(profile: &Profile, pagings: &mut [Paging], transaction: &Transaction)
    ensures { (now : DeviceParts → PagingData) → Keeps pagings.old profile.now now
        → Keeps pagings.new profile.now (λ device. after_transaction device (now device) (transaction_data transaction.now)) }
{
    match transaction {
        Transaction::Write { parts } => take_parts(profile, pagings, parts.as_slice()),
        Transaction::Refused { parts, .. } => take_parts(profile, pagings, parts.as_slice()),
        Transaction::Read {
            addr,
            code,
            reply,
            ..
        } => take_bytes(profile, pagings, *addr, *code, reply.as_slice()),
        Transaction::Call { .. } | Transaction::Alert { .. } | Transaction::NoAlert => {}
    }
}

// Takes what complete parts tell.
fn take_parts(profile: &Profile, pagings: &mut [Paging], parts: &[Part])
    ensures { (now : DeviceParts → PagingData) → Keeps pagings.old profile.now now
        → Keeps pagings.new profile.now (λ device. fold (after_told device) (now device) (map told_by_part (map part_data parts.now))) }
{
    for part in parts {
        take_bytes(
            profile,
            pagings,
            part.addr,
            part.code,
            part.bytes.as_slice(),
        );
    }
}

// Takes bytes of the register with a code of the device with an address. Few packets tell PAGE or
// VOUT_MODE, so that the test alone stands in each caller.
#[inline]
fn take_bytes(profile: &Profile, pagings: &mut [Paging], addr: u8, code: u8, bytes: &[u8])
    ensures { (now : DeviceParts → PagingData) → Keeps pagings.old profile.now now
        → Keeps pagings.new profile.now (λ device. after_told device (now device) (record { addr = addr; code = code; bytes = bytes.now })) }
{
    let [value] = bytes else {
        return;
    };
    if is_paging(code) {
        take_value(profile, pagings, addr, code, *value);
    }
}

// Takes a value of one byte of the register with a code of the device with an address.
#[inline(never)]
fn take_value(profile: &Profile, pagings: &mut [Paging], addr: u8, code: u8, value: u8)
    ensures { (now : DeviceParts → PagingData) → Keeps pagings.old profile.now now
        → Keeps pagings.new profile.now (λ device. after_told device (now device) (record { addr = addr; code = code; bytes = value ∷ [] })) }
{
    let Some(device) = profile.device(addr) else {
        return;
    };
    let place = usize::from(addr);
    if place < pagings.len() {
        pagings[place].take(device, code, value);
    }
}
