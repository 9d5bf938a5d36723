//! Sets of addresses of 7 bits that keys of a profile list: those that it ignores, since they are of
//! devices that speak no PMBus, and the others at which a device's part takes what is written.
//!
//! A packet looks its address up, so there is a flag for each address, and the array of the key is
//! gone through once.
//!
//! Its rows: `tests/rows/profiles.txt`.

ghost use Rattle.std.specs.Prelude.{◌≡◌, ◌<◌, Ok, [], IfOk, IfSome, codes, nat_eq};
ghost use Rattle.std.specs.List.{list_any};
ghost use Rattle.toml.specs.View.{items_view, table_view, view};
ghost use Rattle.pmb_keys.specs.Rules.{bind, defaulted, each_of, optional};
ghost use Rattle.pmb_keys.specs.Addresses.{addresses_among, also_address, also_rule, ignore_rule, listed_address, named_address, named_addresses};

use crate::fault::FaultKind;
use crate::rules::{array_of, find, integer_of, natural_within};
use arrayvec::ArrayVec;
use std::marker::Model;
use toml::{Table, Value};

/// How many addresses of 7 bits there are.
const ADDRESSES: usize = 128;

/// A set of addresses of 7 bits.
#[derive(Debug, Drop)]
pub struct Addresses {
    /// For each address whether it is in the set.
    flags: [bool; ADDRESSES],
}

impl Model for Addresses {
    ghost use Rattle.std.specs.Prelude.{ℕ, List};
    ghost use Rattle.pmb_keys.specs.machine.Addresses.{marked};

    ghost Value = { List ℕ };

    ghost view = { λ i. marked i.flags };
}

/// An address of 7 bits, or BadValue.
fn listed_address(value: &Value) -> Result<u8, FaultKind>
    ensures read { result ≡ listed_address (view value.now) }
    ensures small { IfOk result (λ address. address < 128) }
{
    match natural_within(0, 127, integer_of(value)?) {
        Some(address) => Ok(address),
        None => Err(FaultKind::BadValue),
    }
}

/// The addresses that the items of an array name.
fn ignored_items(items: &[Value]) -> Result<Addresses, FaultKind>
    ensures { result ≡ bind (each_of listed_address (items_view items.now)) (λ addresses. Ok (addresses_among addresses)) }
{
    let mut flags = [false; ADDRESSES];
    for item in items {
        let address = listed_address(item)?;
        flags[address as usize] = true;
    }
    Ok(Addresses { flags })
}

/// The addresses that a value names: an array of integers from 0 to 127.
fn ignore_rule(value: &Value) -> Result<Addresses, FaultKind>
    ensures { result ≡ ignore_rule (view value.now) }
{
    ignored_items(array_of(value)?)
}

/// The addresses that the table of a profile ignores, where it has a key for them.
pub fn read_ignored(table: &Table) -> Result<Option<Addresses>, FaultKind>
    ensures { result ≡ optional ignore_rule (codes "ignore") (table_view table.now) }
{
    match find(table, "ignore") {
        Some(value) => Ok(Some(ignore_rule(value)?)),
        None => Ok(None),
    }
}

/// The address that the table of a device names, if it is of 7 bits.
fn named_address(value: &Value) -> Option<u8>
    ensures named { result ≡ named_address (view value.now) }
    ensures small { IfSome result (λ address. address < 128) }
{
    let table = value.as_table()?;
    let number = find(table, "address")?.as_integer()?;
    natural_within(0, 127, number)
}

/// The addresses that the tables of devices name. What is no table, or has no such address, names none.
pub fn named_addresses(values: &[Value]) -> Addresses
    ensures { result ≡ named_addresses (items_view values.now) }
{
    let mut flags = [false; ADDRESSES];
    for value in values {
        if let Some(address) = named_address(value) {
            flags[address as usize] = true;
        }
    }
    Addresses { flags }
}

/// An address of 7 bits that the table of a device names, or BadValue.
fn also_address(value: &Value, named: &Addresses) -> Result<u8, FaultKind>
    ensures read { result ≡ also_address named.now (view value.now) }
    ensures small { IfOk result (λ address. address < 128) }
{
    let address = listed_address(value)?;
    if named.contains(address) {
        Ok(address)
    } else {
        Err(FaultKind::BadValue)
    }
}

/// The addresses that the items of an array list, each of which the table of a device names.
fn also_items(items: &[Value], named: &Addresses) -> Result<Addresses, FaultKind>
    ensures { result ≡ bind (each_of (also_address named.now) (items_view items.now)) (λ addresses. Ok (addresses_among addresses)) }
{
    let mut flags = [false; ADDRESSES];
    for item in items {
        let address = also_address(item, named)?;
        flags[address as usize] = true;
    }
    Ok(Addresses { flags })
}

/// The addresses that a value lists: an array of integers from 0 to 127 that tables of devices name.
fn also_rule(value: &Value, named: &Addresses) -> Result<Addresses, FaultKind>
    ensures { result ≡ also_rule named.now (view value.now) }
{
    also_items(array_of(value)?, named)
}

/// The other addresses at which a device's part takes what is written: none unless its table lists some.
pub(crate) fn read_also(table: &Table, named: &Addresses) -> Result<Addresses, FaultKind>
    ensures { result ≡ defaulted (also_rule named.now) [] (codes "also") (table_view table.now) }
{
    match find(table, "also") {
        Some(value) => also_rule(value, named),
        None => Ok(Addresses::none()),
    }
}

impl Addresses {
    /// No addresses.
    #[tactic(auto, unfolding(crate::specs::machine::Addresses::marked))]
    pub fn none() -> Self
        ensures { result ≡ [] }
    {
        Addresses {
            flags: [false; ADDRESSES],
        }
    }

    /// Whether an address is one of them.
    pub fn contains(&self, address: u8) -> bool
        ensures { result ≡ list_any (nat_eq address) self.now }
    {
        (address as usize) < ADDRESSES && self.flags[address as usize]
    }

    /// The addresses, ascending.
    pub fn addresses(&self) -> ArrayVec<u8, ADDRESSES>
        ensures { result.items ≡ self.now }
    {
        let mut addresses = ArrayVec::new();
        for address in 0u8..128 {
            if self.flags[address as usize] {
                addresses.push(address);
            }
        }
        addresses
    }
}
