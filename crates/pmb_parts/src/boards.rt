//! From the profiles of parts to that of their board.
//!
//! Its rows: `.ci/boards`.

ghost use Rattle.std.specs.Prelude.{IfOk, OnOk, IsTrue, IsSome};
ghost use Rattle.std.specs.List.{AllByRecursion};
ghost use Rattle.pmb_command.specs.Parts.{device_with};
ghost use Rattle.pmb_parts.specs.Board.{IsBoard};

use crate::cut::next_table;
use crate::fault::BoardFault;
use crate::text::{put_byte, put_comments, put_gap, put_lines, put_table_at};
use pmb_keys::FaultKind;
use pmb_table::{BusProfile, Profile, ProfileFault};
use std::alloc::{AllocError, Global};

/// How many bytes a profile has at most.
const MOST_PROFILE: usize = 1_048_576;

/// How many addresses of 7 bits there are.
const ADDRESSES: usize = 128;

/// A part of a board: its profile, a TOML text, and its address on the board, of 7 bits.
#[derive(Clone, Copy)]
pub struct Part<'t> {
    pub text: &'t [u8],
    pub address: u8,
}

/// What the parts so far give.
#[derive(Drop)]
struct Sections {
    /// The first tables, each with the comments at the top of its text.
    parts: Vec<u8>,
    /// Further tables.
    further: Vec<u8>,
    /// For each address whether a further table has it.
    taken: [bool; ADDRESSES],
    /// For each address whether a part ignores it.
    ignored: [bool; ADDRESSES],
}

/// The profile of a board of these parts.
///
/// Of each part it has the comments at the top and the first table, at the part's address. Further tables
/// come last, each address once: the first that has it. `ignore` has the addresses of all parts.
///
/// # Errors
///
/// `Memory`; `Part` and `Tables`, with the part's place; `Board`, `TooLong` and `Refused`, of what comes out.
pub fn board(alloc: Global, parts: &[Part<'_>]) -> Result<Vec<u8>, BoardFault>
    ensures { IfOk result (λ text. IsBoard parts.now text.items) }
{
    let mut sections = Sections {
        parts: Vec::new(alloc),
        further: Vec::new(alloc),
        taken: [false; ADDRESSES],
        ignored: [false; ADDRESSES],
    };
    for (place, part) in parts.iter().enumerate() {
        sections.take(alloc, place, part.text, part.address)?;
    }
    let Ok(text) = sections.join(alloc) else {
        return Err(BoardFault::Memory);
    };
    check(alloc, text.as_slice(), parts)?;
    Ok(text)
}

impl Sections {
    /// Takes the text of a part.
    fn take(
        &mut self,
        alloc: Global,
        place: usize,
        text: &[u8],
        address: u8,
    ) -> Result<(), BoardFault> {
        let bus = match BusProfile::from_toml(alloc, text) {
            Ok(bus) => bus,
            Err(fault) if fault.what == FaultKind::OutOfMemory => return Err(BoardFault::Memory),
            Err(fault) => return Err(BoardFault::Part { part: place, fault }),
        };
        self.ignore(&bus);
        match self.take_tables(bus.profile(), text, address) {
            Ok(true) => Ok(()),
            Ok(false) => Err(BoardFault::Tables { part: place }),
            Err(_) => Err(BoardFault::Memory),
        }
    }

    /// Ignores the addresses that a part ignores.
    fn ignore(&mut self, bus: &BusProfile) {
        let Some(ignored) = bus.ignored() else {
            return;
        };
        for address in 0..128u8 {
            if ignored.contains(address) {
                self.ignored[address as usize] = true;
            }
        }
    }

    /// Takes the tables of a text, and returns whether they are those of the devices.
    fn take_tables(
        &mut self,
        profile: &Profile,
        text: &[u8],
        address: u8,
    ) -> Result<bool, AllocError> {
        let Some(first) = next_table(text) else {
            return Ok(false);
        };
        put_gap(&mut self.parts)?;
        put_comments(&mut self.parts, first.before, true)?;
        let mut is_known = put_table_at(&mut self.parts, first.table, address)?;
        let mut rest = first.rest;
        for place in 1..profile.len() {
            match (next_table(rest), profile.device_at(place)) {
                (Some(next), Some(device)) => {
                    self.take_further(device.address(), next.before, next.table)?;
                    rest = next.rest;
                }
                _ => is_known = false,
            }
        }
        Ok(is_known && next_table(rest).is_none())
    }

    /// Takes a further table, unless another one has its address.
    fn take_further(
        &mut self,
        address: u8,
        comments: &[u8],
        table: &[u8],
    ) -> Result<(), AllocError> {
        match self.taken.get_mut(address as usize) {
            Some(taken) if !*taken => *taken = true,
            _ => return Ok(()),
        }
        put_gap(&mut self.further)?;
        put_comments(&mut self.further, comments, false)?;
        put_lines(&mut self.further, table)
    }

    /// The whole text.
    fn join(&self, alloc: Global) -> Result<Vec<u8>, AllocError> {
        let mut text = Vec::new(alloc);
        self.put_ignored(&mut text)?;
        put_gap(&mut text)?;
        text.extend_from_slice(self.parts.as_slice())?;
        if !self.further.is_empty() {
            put_gap(&mut text)?;
            text.extend_from_slice(self.further.as_slice())?;
        }
        Ok(text)
    }

    /// Appends the addresses that are ignored, if there are some.
    fn put_ignored(&self, text: &mut Vec<u8>) -> Result<(), AllocError> {
        for address in 0..128u8 {
            if self.ignored[address as usize] {
                text.extend_from_slice(if text.is_empty() {
                    b"ignore = ["
                } else {
                    b", "
                })?;
                put_byte(text, address)?;
            }
        }
        if text.is_empty() {
            return Ok(());
        }
        text.extend_from_slice(b"]\n")
    }
}

/// Whether a text is a profile that is accepted and has a device at each address.
fn check(alloc: Global, text: &[u8], parts: &[Part<'_>]) -> Result<(), BoardFault>
    ensures { OnOk result (IsBoard parts.now text.now) }
{
    if text.len() > MOST_PROFILE {
        return Err(BoardFault::TooLong);
    }
    match BusProfile::from_toml(alloc, text) {
        Ok(bus) => {
            if has_devices(bus.profile(), parts) {
                Ok(())
            } else {
                Err(BoardFault::Refused)
            }
        }
        Err(fault) => Err(fault_of(fault)),
    }
}

/// The fault of what comes out.
fn fault_of(fault: ProfileFault) -> BoardFault {
    if fault.what == FaultKind::OutOfMemory {
        BoardFault::Memory
    } else {
        BoardFault::Board(fault)
    }
}

/// Whether a profile has a device at the address of each part.
fn has_devices(profile: &Profile, parts: &[Part<'_>]) -> bool
    ensures { IsTrue result → AllByRecursion (λ part. IsSome (device_with part.address profile.now)) parts.now }
{
    for part in parts {
        if !has_device(profile, part.address) {
            return false;
        }
    }
    true
}

/// Whether a profile has a device at an address.
fn has_device(profile: &Profile, address: u8) -> bool
    ensures { IsTrue result → IsSome (device_with address profile.now) }
{
    profile.device(address).is_some()
}
