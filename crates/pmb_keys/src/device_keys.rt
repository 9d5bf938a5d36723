//! What a table of a profile says of one device, apart from its commands.
//!
//! Its rows: `tests_tasks`, `src/profiles.rt`; `tests/rows/profiles.txt`.

ghost use Rattle.std.specs.Prelude.{◌≡◌, ◌≤◌, false, true, Ok, IfOk, IfSome, codes, length, nat_eq, option_map};
ghost use Rattle.pmb_command.specs.Bus.{HasTableForEach, IsDeviceAddress};
ghost use Rattle.pmb_command.specs.Names.{IsDeviceName};
ghost use Rattle.pmb_command.specs.Parts.{IsNew};
ghost use Rattle.std.specs.List.{list_any};
ghost use Rattle.toml.specs.Data.{no_items, as_bool, as_array, as_table};
ghost use Rattle.toml.specs.View.{view, items_view, table_view};
ghost use Rattle.pmb_keys.specs.Rules.{bind, named, typed, required, optional, defaulted};
ghost use Rattle.pmb_keys.specs.CommandRules.{word_rule};
ghost use Rattle.pmb_keys.specs.DeviceKeys.{address_rule, pec_words, pages_rule, phases_rule, coefficients_rule, device_keys, other_keys};
ghost use Rattle.pmb_keys.specs.DeviceKeysView.{keys_parts};
ghost use Rattle.pmb_keys.specs.VidView.{vid_parts};

use crate::addresses::{Addresses, read_also};
use crate::device_name::read_name;
use crate::fault::FaultKind;
use crate::modes::{Modes, read_modes};
use crate::rules;
use crate::unsigned_key::{of_words, read_flag};
use crate::vid::{VidTables, read_vid};
use pmb_coefficients::Direct;
use pmb_command::{Name, PecMode};
use toml::{Table, Value};

/// The Alert Response Address (SMBus 3.0 appendix C), which no device has as its own.
const ALERT_RESPONSE_ADDRESS: u8 = 0x0c;

/// What the keys of a device say.
#[derive(Drop)]
pub struct DeviceKeys<'a> {
    pub address: u8,
    pub pec: PecMode,
    pub pages: u8,
    /// VOUT_MODE of each page at first.
    pub modes: Modes,
    /// Whether the device has the standard commands.
    pub standard: bool,
    pub vout_direct: Option<Direct>,
    /// The values of its commands.
    pub commands: &'a [Value],
    pub name: Option<Name>,
    /// The VID tables of its output voltages.
    pub vid: Option<VidTables>,
    /// How many phases it has, 1 to 255, where it says.
    pub phases: Option<u8>,
    /// Whether it keeps to WRITE_PROTECT.
    pub protect: bool,
    /// The other addresses at which its part takes what is written.
    pub also: Addresses,
}

/// The keys of a value's table, where earlier devices have the addresses `taken`, no device has one that
/// is ignored, and the tables of all devices name those in `named`.
pub fn read_device_keys<'a>(
    value: &'a Value,
    taken: &[u8],
    ignored: &Addresses,
    named: &Addresses,
) -> Result<DeviceKeys<'a>, FaultKind>
    ensures read { bind result (λ k. Ok (keys_parts k)) ≡ bind (typed as_table (view value.entry.now)) (device_keys taken.now ignored.now named.now) }
    ensures address { IfOk result (λ k. IsDeviceAddress k.address) }
    ensures own_address { IfOk result (λ k. IsNew k.address taken.now) }
    ensures not_ignored { IfOk result (λ k. IsNew k.address ignored.now) }
    ensures pages { IfOk result (λ k. (1 ≤ k.pages) × (k.pages ≤ 32)) }
    ensures mode_of_each { IfOk result (λ k. length k.modes.items ≡ k.pages) }
    ensures name { IfOk result (λ k. IfSome (option_map (λ n. n.bytes) k.name) IsDeviceName) }
    ensures tables { IfOk result (λ k. HasTableForEach k.pages (option_map vid_parts k.vid)) }
    ensures phases { IfOk result (λ k. IfSome k.phases (λ n. (1 ≤ n) × (n ≤ 255))) }
{
    device_keys(rules::table_of(value)?, taken, ignored, named)
}

/// The keys of a device's table, each ruled in its turn.
fn device_keys<'a>(
    table: &'a Table,
    taken: &[u8],
    ignored: &Addresses,
    named: &Addresses,
) -> Result<DeviceKeys<'a>, FaultKind>
    ensures read { bind result (λ k. Ok (keys_parts k)) ≡ device_keys taken.now ignored.now named.now (table_view table.now) }
    ensures address { IfOk result (λ k. IsDeviceAddress k.address) }
    ensures own_address { IfOk result (λ k. IsNew k.address taken.now) }
    ensures not_ignored { IfOk result (λ k. IsNew k.address ignored.now) }
    ensures pages { IfOk result (λ k. (1 ≤ k.pages) × (k.pages ≤ 32)) }
    ensures mode_of_each { IfOk result (λ k. length k.modes.items ≡ k.pages) }
    ensures name { IfOk result (λ k. IfSome (option_map (λ n. n.bytes) k.name) IsDeviceName) }
    ensures tables { IfOk result (λ k. HasTableForEach k.pages (option_map vid_parts k.vid)) }
    ensures phases { IfOk result (λ k. IfSome k.phases (λ n. (1 ≤ n) × (n ≤ 255))) }
{
    let known = [
        "address",
        "pec",
        "pages",
        "vout_mode",
        "standard",
        "vout_direct",
        "command",
        "name",
        "vid",
        "phases",
        "protect",
        "also",
    ];
    rules::only(table, &known)?;
    let address = address(table, taken, ignored)?;
    let pec = pec(table)?;
    other_keys(table, address, pec, named)
}

/// The keys of a device's table that may be there, each ruled in its turn, after those that have
/// to be.
fn other_keys<'a>(
    table: &'a Table,
    address: u8,
    pec: PecMode,
    named: &Addresses,
) -> Result<DeviceKeys<'a>, FaultKind>
    ensures read { bind result (λ k. Ok (keys_parts k)) ≡ other_keys named.now address pec (table_view table.now) }
    ensures address { IfOk result (λ k. k.address ≡ address) }
    ensures pages { IfOk result (λ k. (1 ≤ k.pages) × (k.pages ≤ 32)) }
    ensures mode_of_each { IfOk result (λ k. length k.modes.items ≡ k.pages) }
    ensures name { IfOk result (λ k. IfSome (option_map (λ n. n.bytes) k.name) IsDeviceName) }
    ensures tables { IfOk result (λ k. HasTableForEach k.pages (option_map vid_parts k.vid)) }
    ensures phases { IfOk result (λ k. IfSome k.phases (λ n. (1 ≤ n) × (n ≤ 255))) }
{
    let pages = pages(table)?;
    let modes = read_modes(table, pages)?;
    let standard = standard(table)?;
    let vout_direct = vout_direct(table)?;
    let commands = commands(table)?;
    let name = read_name(table)?;
    let vid = read_vid(table, pages)?;
    let phases = phases(table)?;
    let protect = protect(table)?;
    let also = read_also(table, named)?;
    Ok(DeviceKeys {
        address,
        pec,
        pages,
        modes,
        standard,
        vout_direct,
        commands,
        name,
        vid,
        phases,
        protect,
        also,
    })
}

/// The address of a device, which has to give it.
fn address(table: &Table, taken: &[u8], ignored: &Addresses) -> Result<u8, FaultKind>
    ensures read { result ≡ required (address_rule taken.now ignored.now) (codes "address") (table_view table.now) }
    ensures address { IfOk result IsDeviceAddress }
    ensures own_address { IfOk result (λ a. IsNew a taken.now) }
    ensures not_ignored { IfOk result (λ a. IsNew a ignored.now) }
{
    address_rule(rules::present(table, "address")?, taken, ignored)
}

/// An address of 7 bits that is not reserved (SMBus 3.0 appendix C), or BadAddress; no earlier
/// device's, or AddressTwice; and none that is ignored, or BadValue.
fn address_rule(value: &Value, taken: &[u8], ignored: &Addresses) -> Result<u8, FaultKind>
    ensures read { result ≡ address_rule taken.now ignored.now (view value.now) }
    ensures address { IfOk result IsDeviceAddress }
    ensures own_address { IfOk result (λ a. IsNew a taken.now) }
    ensures not_ignored { IfOk result (λ a. IsNew a ignored.now) }
{
    let address = match rules::natural_within(0x08, 0x77, rules::integer_of(value)?) {
        Some(address) => address,
        None => return Err(FaultKind::BadAddress),
    };
    if address == ALERT_RESPONSE_ADDRESS {
        return Err(FaultKind::BadAddress);
    }
    if is_taken(address, taken) {
        return Err(FaultKind::AddressTwice);
    }
    if ignored.contains(address) {
        return Err(FaultKind::BadValue);
    }
    Ok(address)
}

/// Whether an earlier device has an address.
fn is_taken(address: u8, taken: &[u8]) -> bool
    ensures { result ≡ list_any (nat_eq address) taken.now }
{
    for other in taken {
        if address == *other {
            return true;
        }
    }
    false
}

/// Whether packets carry a packet error code, which a device has to say.
fn pec(table: &Table) -> Result<PecMode, FaultKind>
    ensures { result ≡ required (word_rule FaultKind.BadValue pec_words) (codes "pec") (table_view table.now) }
{
    pec_rule(rules::present(table, "pec")?)
}

/// One of the words, or BadValue.
fn pec_rule(value: &Value) -> Result<PecMode, FaultKind>
    ensures { result ≡ word_rule FaultKind.BadValue pec_words (view value.now) }
{
    match pec_word(rules::text_of(value)?) {
        Some(pec) => Ok(pec),
        None => Err(FaultKind::BadValue),
    }
}

/// The words for [`PecMode`].
fn pec_word(text: &str) -> Option<PecMode>
    ensures { result ≡ named pec_words text.now }
{
    match text {
        "off" => Some(PecMode::Off),
        "on" => Some(PecMode::On),
        "optional" => Some(PecMode::Optional),
        _ => None,
    }
}

/// The number of pages: 1 unless the device says another.
fn pages(table: &Table) -> Result<u8, FaultKind>
    ensures read { result ≡ defaulted pages_rule 1 (codes "pages") (table_view table.now) }
    ensures within { IfOk result (λ p. (1 ≤ p) × (p ≤ 32)) }
{
    match rules::find(table, "pages") {
        Some(value) => pages_rule(value),
        None => Ok(1),
    }
}

/// A number of pages: 1 to 32, or BadPages.
fn pages_rule(value: &Value) -> Result<u8, FaultKind>
    ensures read { result ≡ pages_rule (view value.now) }
    ensures within { IfOk result (λ p. (1 ≤ p) × (p ≤ 32)) }
{
    match rules::natural_within(1, 32, rules::integer_of(value)?) {
        Some(pages) => Ok(pages),
        None => Err(FaultKind::BadPages),
    }
}

/// A number of phases: 1 to 255, or BadValue.
fn phases_rule(value: &Value) -> Result<u8, FaultKind>
    ensures read { result ≡ phases_rule (view value.now) }
    ensures within { IfOk result (λ n. (1 ≤ n) × (n ≤ 255)) }
{
    match rules::natural_within(1, 255, rules::integer_of(value)?) {
        Some(phases) => Ok(phases),
        None => Err(FaultKind::BadValue),
    }
}

/// The number of phases, where the device says one.
fn phases(table: &Table) -> Result<Option<u8>, FaultKind>
    ensures read { result ≡ optional phases_rule (codes "phases") (table_view table.now) }
    ensures within { IfOk result (λ p. IfSome p (λ n. (1 ≤ n) × (n ≤ 255))) }
{
    match rules::find(table, "phases") {
        Some(value) => Ok(Some(phases_rule(value)?)),
        None => Ok(None),
    }
}

/// Whether the device has the standard commands: it has, unless it says no.
fn standard(table: &Table) -> Result<bool, FaultKind>
    ensures { result ≡ defaulted (typed as_bool) true (codes "standard") (table_view table.now) }
{
    match rules::find(table, "standard") {
        Some(value) => rules::flag_of(value),
        None => Ok(true),
    }
}

/// Whether the device keeps to WRITE_PROTECT: it doesn't, unless it says so.
fn protect(table: &Table) -> Result<bool, FaultKind>
    ensures { result ≡ defaulted (typed as_bool) false (codes "protect") (table_view table.now) }
{
    match rules::find(table, "protect") {
        Some(value) => rules::flag_of(value),
        None => Ok(false),
    }
}

/// The coefficients for a VOUT_MODE that is DIRECT, where the device gives them.
fn vout_direct(table: &Table) -> Result<Option<Direct>, FaultKind>
    ensures { result ≡ optional coefficients_rule (codes "vout_direct") (table_view table.now) }
{
    match rules::find(table, "vout_direct") {
        Some(value) => Ok(Some(coefficients_rule(value)?)),
        None => Ok(None),
    }
}

/// The coefficients of a table that has nothing else.
fn coefficients_rule(value: &Value) -> Result<Direct, FaultKind>
    ensures { result ≡ coefficients_rule (view value.now) }
{
    let table = rules::table_of(value)?;
    rules::only(table, &["m", "b", "r", "unsigned"])?;
    let direct = rules::coefficients(table)?;
    Ok(of_words(read_flag(table)?, direct))
}

/// The values of the commands: none unless the device has some.
fn commands(table: &Table) -> Result<&[Value], FaultKind>
    ensures { bind result (λ commands. Ok (items_view commands.now)) ≡ defaulted (typed as_array) no_items (codes "command") (table_view table.now) }
{
    match rules::find(table, "command") {
        Some(value) => rules::array_of(value),
        None => Ok(&[]),
    }
}
