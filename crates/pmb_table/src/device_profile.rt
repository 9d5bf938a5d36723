//! A device of a bus, as a profile describes it.
//!
//! Its rows: `tests_commands`, `src/parts.rt`, `src/sample.rt`; `tests/rows/profiles.txt`.

ghost use Rattle.std.specs.Prelude.{◌≡◌, ◌<◌, ◌≤◌, find, length, map, nat_eq, option_map, slice_get, true, IfSome, Some};
ghost use Rattle.std.specs.List.{AllByRecursion, list_any};
ghost use Rattle.pmb_command.specs.Bus.{HasTableForEach, IsDevice, IsEntry, IsInitial};
ghost use Rattle.pmb_command.specs.Names.{IsUnit, is_name};
ghost use Rattle.std.specs.Option.{option_and_then};
ghost use Rattle.pmb_command.specs.Entry.{entry_parts};
ghost use Rattle.pmb_command.specs.Forms.{has_write, is_own_page, takes_data};
ghost use Rattle.pmb_command.specs.Parts.{HaveOwnCodes, command_with, initial_on, is_phased, name_of_bit, named_bits};
ghost use Rattle.pmb_keys.specs.CommandView.{bit_parts, command_parts};
ghost use Rattle.pmb_table.specs.Profile.{device_parts};
ghost use Rattle.pmb_keys.specs.DeviceKeysView.{keys_parts};
ghost use Rattle.pmb_keys.specs.VidView.{vid_parts};

use crate::command_map::CommandMap;
use pmb_coefficients::Direct;
use pmb_command::{Entry, Form, Name, PecMode};
use pmb_keys::{Addresses, Command, DeviceKeys, Modes, NamedBit, VidTables};
use std::marker::Model;

/// The code of PAGE (PMBus Part II 1.3 section 11.10).
const PAGE: u8 = 0x00;

/// The value of PAGE that selects all pages.
const ALL_PAGES: u8 = 0xff;

/// A device of a bus: its address, how it speaks, and its commands, no two of which have one code.
#[derive(Debug, Drop)]
pub struct DeviceProfile {
    /// The address, in its lower 7 bits.
    address: u8,
    name: Option<Name>,
    pec: PecMode,
    pages: u8,
    /// VOUT_MODE of each page at first.
    modes: Modes,
    vout_direct: Option<Direct>,
    vid: Option<VidTables>,
    phases: Option<u8>,
    /// Whether it keeps to WRITE_PROTECT.
    protect: bool,
    /// The other addresses at which its part takes what is written.
    also: Addresses,
    commands: CommandMap,
}

impl Model for DeviceProfile {
    ghost use Rattle.std.specs.Prelude.{option_map};
    ghost use Rattle.pmb_command.specs.Bus.{IsDevice};
    ghost use Rattle.pmb_command.specs.Parts.{DeviceParts};
    ghost use Rattle.pmb_keys.specs.VidView.{vid_parts};

    ghost Value = { DeviceParts };

    ghost view = { λ d. record {
      address = d.address;
      name = option_map (λ name. name.bytes) d.name;
      pec = d.pec;
      pages = d.pages;
      modes = d.modes.items;
      vout_direct = d.vout_direct;
      vid = option_map vid_parts d.vid;
      phases = d.phases;
      protect = d.protect;
      also = d.also;
      commands = d.commands;
    } };

    ghost invariant = { λ d. IsDevice (record {
      address = d.address;
      name = option_map (λ name. name.bytes) d.name;
      pec = d.pec;
      pages = d.pages;
      modes = d.modes.items;
      vout_direct = d.vout_direct;
      vid = option_map vid_parts d.vid;
      phases = d.phases;
      protect = d.protect;
      also = d.also;
      commands = d.commands;
    }) };
}

/// The unit of a command's numbers.
fn unit_of(command: &Command) -> Option<&str>
    ensures { option_map (λ unit. unit.now) result ≡ (command_parts command.now).unit }
{
    command.unit()
}

/// The bits of a command's status register that have names of their own.
fn bits_of(command: &Command) -> &[NamedBit]
    ensures { map bit_parts result.now ≡ (command_parts command.now).bits }
{
    command.bits()
}

/// The first of some bits that is this one.
fn find_bit(bits: &[NamedBit], bit: u8) -> Option<&NamedBit>
    ensures { option_map (λ b. bit_parts b.now) result ≡ find (λ b. nat_eq b.bit bit) (map bit_parts bits.now) }
{
    for named in bits {
        if named.bit == bit {
            return Some(named);
        }
    }
    None
}

/// Whether a command that is written in a form takes so many bytes of data.
fn takes_data(form: Option<Form>, length: usize) -> bool
    ensures { result ≡ takes_data form length }
{
    match form {
        Some(form) => form.takes(length),
        None => false,
    }
}

impl DeviceProfile {
    /// The device of these keys and commands.
    pub(crate) fn new(keys: DeviceKeys, commands: CommandMap) -> Self
        requires { IsDevice (device_parts (keys_parts keys) commands) }
        ensures { result ≡ device_parts (keys_parts keys.entry) commands }
    {
        DeviceProfile {
            address: keys.address,
            name: keys.name,
            pec: keys.pec,
            pages: keys.pages,
            modes: keys.modes,
            vout_direct: keys.vout_direct,
            vid: keys.vid,
            phases: keys.phases,
            protect: keys.protect,
            also: keys.also,
            commands,
        }
    }

    /// The address, of 7 bits.
    pub fn address(&self) -> u8
        ensures address { result ≡ self.now.address }
        ensures seven_bits { self.now.address < 128 }
    {
        self.address
    }

    /// The name, where the profile gives one: 1 to 32 characters from 20h to 7eh.
    pub fn name(&self) -> Option<&str>
        ensures { option_map (λ name. name.now) result ≡ self.now.name }
    {
        match &self.name {
            Some(name) => Some(name.as_str()),
            None => None,
        }
    }

    /// Whether packets carry a packet error code.
    pub fn pec(&self) -> PecMode
        ensures { result ≡ self.now.pec }
    {
        self.pec
    }

    /// The number of pages, 1 to 32.
    pub fn pages(&self) -> u8
        ensures { result ≡ self.now.pages }
    {
        self.pages
    }

    /// The value of VOUT_MODE at first on each page, from page 0 on.
    pub fn modes(&self) -> &[u8]
        ensures { result.now ≡ self.now.modes }
    {
        self.modes.as_slice()
    }

    /// The value of VOUT_MODE at first on page 0. Where VOUT_MODE has one value for all pages, it is
    /// that value.
    pub fn vout_mode(&self) -> u8
        ensures { slice_get self.now.modes 0 ≡ Some result }
    {
        self.modes.as_slice()[0]
    }

    /// The coefficients of the output voltage under the DIRECT format of VOUT_MODE, where there are
    /// any.
    pub fn vout_direct(&self) -> Option<Direct>
        ensures { result ≡ self.now.vout_direct }
    {
        self.vout_direct
    }

    /// The VID tables of its output voltages, where the profile tells them.
    pub fn vid(&self) -> Option<&VidTables>
        ensures vid { option_map (λ vid. vid_parts vid.now) result ≡ self.now.vid }
        ensures each { HasTableForEach self.now.pages self.now.vid }
    {
        self.vid.as_ref()
    }

    /// How many phases it has, 1 to 255, where the profile says.
    pub fn phases(&self) -> Option<u8>
        ensures phases { result ≡ self.now.phases }
        ensures within { IfSome result (λ n. (1 ≤ n) × (n ≤ 255)) }
    {
        self.phases
    }

    /// Whether it keeps to WRITE_PROTECT: a write that its value disables does nothing.
    pub fn protects(&self) -> bool
        ensures { result ≡ self.now.protect }
    {
        self.protect
    }

    /// The other addresses at which its part takes what is written, as a part that has a global address
    /// beside its own does. Each is that of a device of the profile.
    pub fn also(&self) -> &Addresses
        ensures { result.now ≡ self.now.also }
    {
        &self.also
    }

    /// Whether its part takes what is written at this other address, too.
    pub fn listens(&self, address: u8) -> bool
        ensures { result ≡ list_any (nat_eq address) self.now.also }
    {
        self.also.contains(address)
    }

    /// How many commands there are.
    pub fn len(&self) -> usize
        ensures len { result ≡ length self.now.commands }
        ensures own_codes { HaveOwnCodes self.now.commands }
        ensures accepted { IsDevice self.now }
    {
        self.commands.len()
    }

    /// The command with a code.
    pub fn entry(&self, code: u8) -> Option<&Entry>
        ensures entry { option_map (λ e. entry_parts e.now) result ≡ option_map (λ c. c.entry) (command_with code self.now.commands) }
        ensures accepted { IfSome result (λ e. IsEntry (entry_parts e.now)) }
    {
        match self.commands.get(code) {
            Some(command) => Some(&command.entry),
            None => None,
        }
    }

    /// Whether the device has such a write: the command, in a form that takes these data, and of PAGE a
    /// value that is one of its own pages or ffh.
    pub fn has_write(&self, code: u8, bytes: &[u8]) -> bool
        ensures { result ≡ has_write self.now code bytes.now }
    {
        match self.entry(code) {
            Some(entry) => {
                takes_data(entry.shape.write, bytes.len())
                    && (code != PAGE || self.is_own_page(bytes))
            }
            None => false,
        }
    }

    // Whether the value of PAGE is a page of the device, or ffh for all of them.
    fn is_own_page(&self, bytes: &[u8]) -> bool
        ensures { result ≡ is_own_page self.now bytes.now }
    {
        match bytes.first() {
            Some(page) => *page < self.pages || *page == ALL_PAGES,
            None => false,
        }
    }

    /// The command at an index: the standard ones in the order of their codes, where the device has
    /// them, then those that the profile adds, in its order.
    pub fn entry_at(&self, index: usize) -> Option<&Entry>
        ensures entry { option_map (λ e. entry_parts e.now) result ≡ option_map (λ c. c.entry) (slice_get self.now.commands index) }
        ensures accepted { IfSome result (λ e. IsEntry (entry_parts e.now)) }
    {
        match self.commands.at(index) {
            Some(command) => Some(&command.entry),
            None => None,
        }
    }

    /// The bytes that the register of a code begins with on a page, where the profile says.
    pub fn initial(&self, code: u8, page: u8) -> Option<&[u8]>
        ensures bytes { option_map (λ bytes. bytes.now) result ≡ option_and_then (λ c. initial_on page c.initial) (command_with code self.now.commands) }
        ensures accepted { IfSome result (λ bytes. IfSome (command_with code self.now.commands) (λ c. IsInitial c.entry bytes.now)) }
    {
        match self.commands.get(code) {
            Some(command) => match &command.initial {
                Some(initial) => initial.on(page),
                None => None,
            },
            None => None,
        }
    }

    /// The command with a code, and what the profile says of it.
    pub fn command(&self, code: u8) -> Option<&Command>
        ensures { option_map (λ c. command_parts c.now) result ≡ command_with code self.now.commands }
    {
        self.commands.get(code)
    }

    /// The unit of the numbers of the command with a code, 1 to 16 characters from 20h to 7eh: the
    /// profile's, or that of the standard command which it is.
    pub fn unit(&self, code: u8) -> Option<&str>
        ensures unit { option_map (λ unit. unit.now) result ≡ option_and_then (λ c. c.unit) (command_with code self.now.commands) }
        ensures accepted { IfSome result (λ unit. IsUnit unit.now) }
    {
        match self.commands.get(code) {
            Some(command) => unit_of(command),
            None => None,
        }
    }

    /// The bits of the status register of a code that the profile names, from the lowest up.
    pub fn bits(&self, code: u8) -> &[NamedBit]
        ensures bits { map bit_parts result.now ≡ named_bits (command_with code self.now.commands) }
        ensures few { length result.now ≤ 16 }
        ensures names { AllByRecursion (λ b. is_name b.name.bytes ≡ true) result.now }
    {
        match self.commands.get(code) {
            Some(command) => bits_of(command),
            None => &[],
        }
    }

    /// The name that the profile gives a bit of the status register of a code, counted from 0 at the
    /// lowest.
    pub fn bit_name(&self, code: u8, bit: u8) -> Option<&str>
        ensures { option_map (λ name. name.now) result ≡ name_of_bit bit (named_bits (command_with code self.now.commands)) }
    {
        let named = find_bit(self.bits(code), bit)?;
        Some(named.name.as_str())
    }

    /// Whether the profile says that the command with a code has a value for each phase.
    pub fn is_phased(&self, code: u8) -> bool
        ensures { result ≡ is_phased (command_with code self.now.commands) }
    {
        match self.commands.get(code) {
            Some(command) => command.phased,
            None => false,
        }
    }
}
