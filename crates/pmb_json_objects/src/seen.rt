//! What is known where a packet begins.
//!
//! Its rows: `tests_json`, `src/object_lines/seen.rt`; `tests/rows/json_objects.txt`.

ghost use Rattle.std.specs.Prelude.{◌≡◌, option_map};
ghost use Rattle.pmb_command.specs.Parts.{device_with};
ghost use Rattle.pmb_keys.specs.CommandView.{command_parts};
ghost use Rattle.pmb_json_objects.specs.Seen.{SeenData, basis_at, command_at, late_voltages, mode_at, page_at, page_basis_at, phase_at};
ghost use Rattle.pmb_json_objects.specs.Sees.{Sees};
ghost use Rattle.pmb_voltage.specs.Voltage.{voltages_data};

use pmb_decimal::Digits;
use pmb_json_fields::Basis;
use pmb_keys::Command;
use pmb_table::{DeviceProfile, Profile};
use pmb_unknown_start::{KnownMode, Late};
use pmb_voltage::Voltages;

/// What is known where a packet begins: the devices, and what was told before of PAGE, PHASE and
/// VOUT_MODE. Numbers get that many digits after the point.
#[derive(Clone, Copy)]
pub struct Seen<'s> {
    pub digits: Digits,
    pub profile: &'s Profile,
    pub late: &'s Late<'s>,
}

impl<'s> Seen<'s> {
    /// The device with an address.
    pub(crate) fn device(&self, addr: u8) -> Option<&DeviceProfile>
        ensures { (known : SeenData) → Sees self.now known → option_map (λ d. d.now) result ≡ device_with addr known.profile }
    {
        self.profile.device(addr)
    }

    /// The command with a code of the device with an address.
    pub(crate) fn command(&self, addr: u8, code: u8) -> Option<&Command>
        ensures { (known : SeenData) → Sees self.now known → option_map (λ c. command_parts c.now) result ≡ command_at known addr code }
    {
        match self.profile.device(addr) {
            Some(device) => device.command(code),
            None => None,
        }
    }

    /// PAGE of the device with an address, where it is known.
    pub(crate) fn page(&self, addr: u8) -> Option<u8>
        ensures { (known : SeenData) → Sees self.now known → result ≡ page_at known addr }
    {
        self.late.page(addr)
    }

    /// PHASE of the device with an address, where it is known.
    pub(crate) fn phase(&self, addr: u8) -> Option<u8>
        ensures { (known : SeenData) → Sees self.now known → result ≡ phase_at known addr }
    {
        self.late.phase(addr)
    }

    /// What is known of the VOUT_MODE that its output voltages are read by.
    pub(crate) fn mode(&self, addr: u8) -> KnownMode
        ensures { (known : SeenData) → Sees self.now known → result ≡ mode_at known addr }
    {
        self.late.mode(addr)
    }

    /// What PAGE of the device with an address rests on: it is assumed where it would not be known, had the
    /// capture begun in the middle.
    pub fn page_basis(&self, addr: u8) -> Basis
        ensures { (known : SeenData) → Sees self.now known → result ≡ page_basis_at known addr }
    {
        Basis::of(self.late.page_late(addr).is_none())
    }

    /// What the format of its output voltages rests on: it is assumed where VOUT_MODE would not be known then,
    /// nor, where that names VID, the table.
    pub fn basis(&self, addr: u8) -> Basis
        ensures { (known : SeenData) → Sees self.now known → result ≡ basis_at known addr }
    {
        match self.profile.device(addr) {
            Some(device) => Basis::of(self.late_voltages(addr, device).is_open()),
            None => Basis::Told,
        }
    }

    // What would be known of that format, had the capture begun in the middle.
    fn late_voltages<'d>(&self, addr: u8, device: &'d DeviceProfile) -> Voltages<'d>
        ensures { (known : SeenData) → Sees self.now known → voltages_data result ≡ late_voltages known addr device.now }
    {
        Voltages {
            mode: self.late.mode_late(addr),
            page: self.late.page_late(addr),
            coefficients: device.vout_direct(),
            vid: device.vid(),
        }
    }
}
