//! A profile with the addresses that it ignores.
//!
//! Its rows: `tests/rows/profiles.txt`.

ghost use Rattle.std.specs.Prelude.{◌≡◌, ◌⊎◌, ◌≤◌, [], false, length, option_map, Ok, Err, IfOk, IfErr, IsUtf8};
ghost use Rattle.toml.specs.View.{view, items_view, table_view};
ghost use Rattle.pmb_keys.specs.Rules.{bind};
ghost use Rattle.pmb_table.specs.Profile.{AreApart, SaysBus, at_top, device_array_rule, devices_of, ignored_addresses, array_needs_memory, profile_of, top_keys, top_needs_memory};
ghost use Rattle.pmb_table.specs.machine.Top.{top_parts};

use crate::device_reader::read_devices;
use crate::document::read_table;
use crate::fault::ProfileFault;
use crate::place;
use crate::profile::Profile;
use pmb_keys::{Addresses, FaultKind, array_of, only, present, read_ignored};
use std::alloc::Global;
use std::marker::Model;
use toml::{Table, Value};

/// How many devices a profile may have.
const MAX_DEVICES: usize = 64;

/// The devices of a bus, and the addresses on it that a profile ignores: those of devices that speak
/// no PMBus. None of them is a device's.
#[derive(Debug, Drop)]
pub struct BusProfile {
    profile: Profile,
    /// The addresses, where the profile has a key for them.
    ignored: Option<Addresses>,
}

impl Model for BusProfile {
    ghost use Rattle.pmb_table.specs.Profile.{AreApart, ProfileParts, ignored_addresses};

    ghost Value = { ProfileParts };

    ghost view = { λ b. record { devices = b.profile; ignored = b.ignored } };

    ghost invariant = { λ b. AreApart (ignored_addresses b.ignored) b.profile };
}

/// What the keys at the top of a profile say.
#[derive(Drop)]
struct Top<'a> {
    /// The values of the devices.
    devices: &'a [Value],
    ignored: Option<Addresses>,
}

/// The values of an array of devices.
fn array_rule(value: &Value) -> Result<&[Value], FaultKind>
    ensures read { bind result (λ values. Ok (items_view values.now)) ≡ device_array_rule (view value.now) }
    ensures few { IfOk result (λ values. length values.now ≤ 64) }
{
    let values = array_of(value)?;
    if values.len() <= MAX_DEVICES {
        Ok(values)
    } else {
        Err(FaultKind::TooManyDevices)
    }
}

/// The keys at the top of a document's table.
fn read_top(table: &Table) -> Result<Top<'_>, FaultKind>
    ensures read { bind result (λ top. Ok (top_parts top)) ≡ top_keys (table_view table.now) }
    ensures few { IfOk result (λ top. length top.devices.now ≤ 64) }
{
    only(table, &["device", "ignore"])?;
    let devices = array_rule(present(table, "device")?)?;
    let ignored = read_ignored(table)?;
    Ok(Top { devices, ignored })
}

/// Reads the devices of their values, where these addresses are ignored.
fn read_apart(alloc: Global, ignored: &Addresses, values: &[Value]) -> Result<Profile, ProfileFault>
    requires { length values.now ≤ 64 }
    ensures read { (result ≡ Err (at_top FaultKind.OutOfMemory)) ⊎ (result ≡ devices_of ignored.now (items_view values.now)) }
    ensures no_memory { array_needs_memory ignored.now (items_view values.now) ≡ false → result ≡ devices_of ignored.now (items_view values.now) }
    ensures apart { IfOk result (λ profile. AreApart ignored.now profile) }
{
    match read_devices(alloc, ignored, values) {
        Ok(devices) => Ok(Profile::from_devices(devices)),
        Err(fault) => Err(fault),
    }
}

/// Reads the profile of what its top says.
fn read_profile(alloc: Global, top: Top) -> Result<BusProfile, ProfileFault>
    requires { length top.devices.now ≤ 64 }
    ensures read { (result ≡ Err (at_top FaultKind.OutOfMemory)) ⊎ (result ≡ bind (devices_of (ignored_addresses top.entry.ignored) (items_view top.entry.devices.now)) (λ devices. Ok (record { devices = devices; ignored = top.entry.ignored }))) }
    ensures no_memory { array_needs_memory (ignored_addresses top.entry.ignored) (items_view top.entry.devices.now) ≡ false → result ≡ bind (devices_of (ignored_addresses top.entry.ignored) (items_view top.entry.devices.now)) (λ devices. Ok (record { devices = devices; ignored = top.entry.ignored })) }
{
    let Top { devices, ignored } = top;
    match ignored {
        Some(ignored) => match read_apart(alloc, &ignored, devices) {
            Ok(profile) => Ok(BusProfile {
                profile,
                ignored: Some(ignored),
            }),
            Err(fault) => Err(fault),
        },
        None => match read_apart(alloc, &Addresses::none(), devices) {
            Ok(profile) => Ok(BusProfile {
                profile,
                ignored: None,
            }),
            Err(fault) => Err(fault),
        },
    }
}

/// Reads the profile of a document's table. A fault at its top, or of the keys of the first device, is
/// told before memory is taken, and without devices none is taken.
fn read_document(alloc: Global, table: &Table) -> Result<BusProfile, ProfileFault>
    ensures read { (result ≡ Err (at_top FaultKind.OutOfMemory)) ⊎ (result ≡ profile_of (table_view table.now)) }
    ensures top { IfErr (top_keys (table_view table.now)) (λ what. result ≡ Err (at_top what)) }
    ensures no_memory { top_needs_memory (top_keys (table_view table.now)) ≡ false → result ≡ profile_of (table_view table.now) }
{
    match read_top(table) {
        Ok(top) => read_profile(alloc, top),
        Err(what) => Err(place::outside(what)),
    }
}

impl BusProfile {
    /// Reads a profile, a TOML document in UTF-8. Where several things are wrong with it, the fault
    /// is the first one in the order of the rules, with the device and the command that it lies in.
    /// Where memory is refused before any fault is found, the answer is `OutOfMemory`, without a
    /// place; a text that is not UTF-8 is `NotToml` whatever memory there is.
    pub fn from_toml(alloc: Global, text: &[u8]) -> Result<BusProfile, ProfileFault>
        ensures says { (result ≡ Err (at_top FaultKind.OutOfMemory)) ⊎ SaysBus text.now result }
        ensures utf8 { ¬ IsUtf8 text.now → result ≡ Err (at_top FaultKind.NotToml) }
    {
        match read_table(alloc, text) {
            Ok(table) => read_document(alloc, &table),
            Err(what) => Err(place::outside(what)),
        }
    }

    /// The devices.
    pub fn profile(&self) -> &Profile
        ensures profile { result.now ≡ self.now.devices }
        ensures apart { AreApart (ignored_addresses self.now.ignored) self.now.devices }
    {
        &self.profile
    }

    /// The devices alone.
    pub fn into_profile(self) -> Profile
        ensures { result ≡ self.devices }
    {
        self.profile
    }

    /// The addresses that are ignored; `None` where the profile has no key for them.
    pub fn ignored(&self) -> Option<&Addresses>
        ensures { option_map (λ i. i.now) result ≡ self.now.ignored }
    {
        match &self.ignored {
            Some(ignored) => Some(ignored),
            None => None,
        }
    }
}
