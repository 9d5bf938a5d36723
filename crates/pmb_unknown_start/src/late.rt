//! What is known of PAGE, VOUT_MODE and PHASE of the devices of a bus.
//!
//! Its rows: `tests_lines`, `src/late/starts.rt`, `phases.rt` and `also.rt`; `tests_json`,
//! `src/fields/contexts.rt`.

ghost use Rattle.std.specs.Prelude.{◌≡◌, ◌++◌, ◌∷◌, ◌+◌, ◌<◌, [], List, false, length, map, option_map, Some, take};
ghost use Rattle.pmb_command.specs.Parts.{DeviceParts, device_with};
ghost use Rattle.pmb_transaction.specs.Transaction.{part_data, transaction_data};
ghost use Rattle.pmb_unknown_start.specs.declared.start.Start.{Start as StartData};
ghost use Rattle.pmb_unknown_start.specs.declared.start.Start.TheVariants.{Late as LateStart};
ghost use Rattle.pmb_unknown_start.specs.Late.{HasSeen, is_assumed as is_assumed_after, mode as mode_after, page as page_after, phase as phase_after};
ghost use Rattle.pmb_unknown_start.specs.Past.{PastData, Said, Dropped};
ghost use Rattle.pmb_unknown_start.specs.machine.Keeping.{Keeps, KeptData, first_kept, kept, kept_after, kept_at, kept_dropped, kept_parts, kept_read, kept_write, written_to};

use crate::kept::{Kept, is_phase};
use crate::known::is_paging;
use crate::mode::{KnownMode, is_unknown};
use crate::restores::untells_mode;
use crate::start::Start;
use arrayvec::ArrayVec;
use pmb_table::Profile;
use pmb_table::laws::accepted_bus;
use pmb_transaction::{Part, Transaction};

/// How many addresses of seven bits there are.
const ADDRESSES: u8 = 128;

/// What is known of PAGE, VOUT_MODE and PHASE of each device of a profile, as the transactions on the
/// bus tell them, where the first of them may not be the first on the bus. It takes no memory from an
/// allocator, whatever it is given.
///
/// A PAGE that is not known is one of the device's pages, or ffh. So a VOUT_MODE that is told then is
/// that of a device's only page, and of several pages those stay known that had the same one.
///
/// After a write of RESTORE_DEFAULT_ALL, RESTORE_DEFAULT_CODE, RESTORE_USER_ALL or RESTORE_USER_CODE
/// (12h, 14h, 16h, 18h), and of one of these or VOUT_MODE by PAGE_PLUS_WRITE (05h), VOUT_MODE of that
/// device is untold: it is unknown again with [`Start::Late`], and keeps its last value with another
/// start.
///
/// After a line that was dropped ([`Late::drop_line`]) PAGE and VOUT_MODE of each device are unknown
/// again with [`Start::Late`], and PAGE alone with [`Start::LateFixedMode`]. With [`Start::AllKnown`]
/// they keep their last values, which are then assumed; but PAGE is unknown where it was one that the
/// device lacks.
///
/// PHASE is not known at first with any start, nor after a line that was dropped.
///
/// What is written at an address of its key `also` a device takes as if it came to its own, if it has such
/// a write. What is read there tells nothing of it. A packet that reaches a device at two of its addresses,
/// which PMBus forbids, counts for that device as a line that was dropped.
#[derive(Drop)]
pub struct Late<'p> {
    profile: &'p Profile,
    start: Start,
    /// Of the device at each address; nothing that means anything where there is none.
    known: ArrayVec<Kept, 128>,
    /// The same, had the capture begun in the middle. They are two lists, since one of both would take twice the
    /// stack where it is made.
    told: ArrayVec<Kept, 128>,
}

impl<'p> Late<'p> {
    /// What is known before all transactions.
    pub fn new(profile: &'p Profile, start: Start) -> Late<'p>
        ensures { HasSeen result profile.now start [] }
    {
        Late {
            profile,
            start,
            known: all_first(profile, start),
            told: all_first(profile, Start::Late),
        }
    }

    /// Takes the next transaction.
    pub fn observe(&mut self, transaction: &Transaction)
        ensures { (profile : List DeviceParts) (start : StartData) (past : List PastData) → HasSeen self.old profile start past
            → HasSeen self.new profile start (past ++ Said (transaction_data transaction.now) ∷ []) }
    {
        let known = self.known.as_mut_slice();
        take_transaction(self.profile, known, self.start, transaction);
        let told = self.told.as_mut_slice();
        take_transaction(self.profile, told, Start::Late, transaction);
    }

    /// A line of the capture was dropped, or a packet refused, and what it did is not known.
    pub fn drop_line(&mut self)
        ensures { (profile : List DeviceParts) (start : StartData) (past : List PastData) → HasSeen self.old profile start past
            → HasSeen self.new profile start (past ++ Dropped ∷ []) }
    {
        forget_each(self.known.as_mut_slice(), self.start);
        forget_each(self.told.as_mut_slice(), Start::Late);
    }

    /// The value of PAGE of the device with an address, ffh for all pages, also where it has no page of
    /// that number; `None` where it is not known, and where the profile has no such device.
    pub fn page(&self, addr: u8) -> Option<u8>
        ensures { (profile : List DeviceParts) (start : StartData) (past : List PastData) → HasSeen self.now profile start past
            → result ≡ page_after start profile past addr }
    {
        match self.of_device(addr) {
            Some(kept) => kept.known().page(),
            None => None,
        }
    }

    /// What is known of the VOUT_MODE of the device with an address, on the page that is selected;
    /// where all are, or PAGE is not known, of the one that they share.
    pub fn mode(&self, addr: u8) -> KnownMode
        ensures { (profile : List DeviceParts) (start : StartData) (past : List PastData) → HasSeen self.now profile start past
            → result ≡ mode_after start profile past addr }
    {
        match self.of_device(addr) {
            Some(kept) => kept.known().mode(),
            None => KnownMode::NoPage,
        }
    }

    /// The value of PAGE with [`Start::Late`]. Where it is known, it is the same with each start; else
    /// PAGE is assumed, if it is known with another one.
    pub fn page_late(&self, addr: u8) -> Option<u8>
        ensures { (profile : List DeviceParts) (start : StartData) (past : List PastData) → HasSeen self.now profile start past
            → result ≡ page_after LateStart profile past addr }
    {
        match self.late_of_device(addr) {
            Some(kept) => kept.known().page(),
            None => None,
        }
    }

    /// What would be known of this VOUT_MODE with [`Start::Late`]. Unless it is [`KnownMode::Unknown`], it
    /// is the same with each start; else VOUT_MODE is assumed, if it is known with another one.
    pub fn mode_late(&self, addr: u8) -> KnownMode
        ensures { (profile : List DeviceParts) (start : StartData) (past : List PastData) → HasSeen self.now profile start past
            → result ≡ mode_after LateStart profile past addr }
    {
        match self.late_of_device(addr) {
            Some(kept) => kept.known().mode(),
            None => KnownMode::NoPage,
        }
    }

    /// Whether this VOUT_MODE is assumed: with [`Start::Late`] it would be [`KnownMode::Unknown`].
    pub fn is_assumed(&self, addr: u8) -> bool
        ensures { (profile : List DeviceParts) (start : StartData) (past : List PastData) → HasSeen self.now profile start past
            → result ≡ is_assumed_after profile past addr }
    {
        is_unknown(self.mode_late(addr))
    }

    /// The value of PHASE of the device with an address, ffh for all phases: the last one that was
    /// written to it or read from it since the last line that was dropped. `None` where none was, where
    /// the device has no phases, and where the profile has no such device.
    pub fn phase(&self, addr: u8) -> Option<u8>
        ensures { (profile : List DeviceParts) (start : StartData) (past : List PastData) → HasSeen self.now profile start past
            → result ≡ phase_after profile past addr }
    {
        let device = self.profile.device(addr)?;
        if !device.phases().is_some() {
            return None;
        }
        match self.of_device(addr) {
            Some(kept) => kept.phase(),
            None => None,
        }
    }

    // What is kept of the device with an address.
    fn of_device(&self, addr: u8) -> Option<&Kept>
        ensures { (profile : List DeviceParts) (start : StartData) (past : List PastData) → HasSeen self.now profile start past
            → option_map (λ one. one.now) result ≡ option_map (λ device. kept start device past) (device_with addr profile) }
    {
        kept_at(self.profile, self.known.as_slice(), addr)
    }

    // .. had the capture begun in the middle.
    fn late_of_device(&self, addr: u8) -> Option<&Kept>
        ensures { (profile : List DeviceParts) (start : StartData) (past : List PastData) → HasSeen self.now profile start past
            → option_map (λ one. one.now) result ≡ option_map (λ device. kept LateStart device past) (device_with addr profile) }
    {
        kept_at(self.profile, self.told.as_slice(), addr)
    }
}

// A line was dropped: forgets what a start does then, of the device at each address.
fn forget_each(kept: &mut [Kept], start: Start)
    ensures { (profile : List DeviceParts) (now : DeviceParts → KeptData) → Keeps kept.old profile now
        → Keeps kept.new profile (λ device. kept_dropped start (now device)) }
{
    for one in kept.iter_mut() {
        one.drop_line(start);
    }
}

// What is known at first of the device at each address. It is not inlined, so that what it is made of is off
// the stack after it.
#[inline(never)]
fn all_first(profile: &Profile, start: Start) -> ArrayVec<Kept, 128>
    ensures { Keeps result.items profile.now (first_kept start) }
{
    accepted_bus(profile);
    let mut kept = ArrayVec::new();
    for address in 0..ADDRESSES {
        kept.push(first(profile, address, start));
    }
    kept
}

// What is known at first of the device with an address, if there is one.
fn first(profile: &Profile, address: u8, start: Start) -> Kept
    ensures { (device : DeviceParts) → device_with address profile.now ≡ Some device → result ≡ first_kept start device }
{
    match profile.device(address) {
        Some(device) => Kept::new(device, start),
        None => Kept::default(),
    }
}

// .. in a list.
fn kept_at<'k>(profile: &Profile, kept: &'k [Kept], addr: u8) -> Option<&'k Kept>
    ensures { option_map (λ one. one.now) result ≡ kept_at kept.now profile.now addr }
{
    match profile.device(addr) {
        Some(_) => kept.get(usize::from(addr)),
        None => None,
    }
}

// Takes what a transaction tells.
fn take_transaction(profile: &Profile, kept: &mut [Kept], start: Start, transaction: &Transaction)
    ensures { (now : DeviceParts → KeptData) → Keeps kept.old profile.now now
        → Keeps kept.new profile.now (λ device. kept_after start device (now device) (transaction_data transaction.now)) }
{
    match transaction {
        Transaction::Write { parts } => take_parts(profile, kept, start, parts.as_slice()),
        Transaction::Refused { parts, .. } => take_parts(profile, kept, start, parts.as_slice()),
        Transaction::Read {
            addr,
            code,
            reply,
            ..
        } => take_read(profile, kept, *addr, *code, reply.as_slice()),
        Transaction::Call { .. } | Transaction::Alert { .. } | Transaction::NoAlert => {}
    }
}

// Takes bytes of the register with a code that the device with an address replied.
fn take_read(profile: &Profile, kept: &mut [Kept], addr: u8, code: u8, bytes: &[u8])
    ensures { (now : DeviceParts → KeptData) → Keeps kept.old profile.now now
        → Keeps kept.new profile.now (λ device. kept_read device (now device) (record { addr = addr; code = code; bytes = bytes.now })) }
{
    let Some(device) = profile.device(addr) else {
        return;
    };
    let place = usize::from(addr);
    if place < kept.len() {
        kept[place].take(device, code, bytes);
    }
}

// Takes what complete parts of a packet wrote: of each device that takes some.
fn take_parts(profile: &Profile, kept: &mut [Kept], start: Start, parts: &[Part])
    ensures { (now : DeviceParts → KeptData) → Keeps kept.old profile.now now
        → Keeps kept.new profile.now (λ device. kept_parts start device (map part_data parts.now) (now device)) }
{
    if !may_tell(parts) {
        return;
    }
    for i in 0..profile.len() {
        take_parts_at(profile, kept, start, i, parts);
    }
}

// Whether complete parts may change what is kept of a device that takes some.
#[inline]
fn may_tell(parts: &[Part]) -> bool
    ensures { result ≡ false → (start : StartData) (device : DeviceParts) (k : KeptData) → kept_parts start device (map part_data parts.now) k ≡ k }
{
    match parts {
        [only] => is_followed(only.code, only.bytes.as_slice()),
        _ => true,
    }
}

// Whether a write with a code and these data changes what is kept of a device that takes it.
#[inline]
fn is_followed(code: u8, bytes: &[u8]) -> bool
    ensures { result ≡ false → (start : StartData) (device : DeviceParts) (k : KeptData) → kept_write start device code bytes.now k ≡ k }
{
    is_paging(code) || is_phase(code) || untells_mode(code, bytes)
}

// Takes what complete parts wrote, of the device at an index, if it is one.
fn take_parts_at(profile: &Profile, kept: &mut [Kept], start: Start, i: usize, parts: &[Part])
    requires { i < length profile.now }
    ensures { (now : DeviceParts → KeptData)
        → Keeps kept.old profile.now (written_to (take i profile.now) (λ device. kept_parts start device (map part_data parts.now) (now device)) now)
        → Keeps kept.new profile.now (written_to (take (i + 1) profile.now) (λ device. kept_parts start device (map part_data parts.now) (now device)) now) }
{
    let Some(device) = profile.device_at(i) else {
        return;
    };
    let place = usize::from(device.address());
    if place < kept.len() {
        kept[place].take_parts(device, start, parts);
    }
}
