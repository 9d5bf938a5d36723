//! How the keys of a TOML table are ruled.
//!
//! Its rows: `tests_tasks`, `src/profiles.rt`; `tests/rows/profiles.txt`.

ghost use Rattle.std.specs.Prelude.{◌≡◌, ◌≢◌, pos, negsuc, ◌≤ℤ◌, map, option_map, Ok, IfOk, IfSome, ◌≤◌, codes};
ghost use Rattle.std.specs.List.{list_any, list_all};
ghost use Rattle.toml.specs.Data.{as_str, as_integer, as_bool, as_array, as_table, get_member};
ghost use Rattle.toml.specs.View.{view, items_view, table_view};
ghost use Rattle.std.specs.Str.{bytes_eq};
ghost use Rattle.pmb_keys.specs.Rules.{bind, or_fault, unless, natural_within, keys_of, only, typed};
ghost use Rattle.pmb_keys.specs.CommandRules.{byte_rule, is_slope, is_offset, is_scale, coefficient, coefficients};

use crate::fault::FaultKind;
use pmb_coefficients::Direct;
use toml::{Table, Value};

/// The numbers from 0 to 31, as keys of a table name them.
pub(crate) static DECIMALS: [&str; 32] = [
    "0", "1", "2", "3", "4", "5", "6", "7", "8", "9", "10", "11", "12", "13", "14", "15", "16",
    "17", "18", "19", "20", "21", "22", "23", "24", "25", "26", "27", "28", "29", "30", "31",
];

/// The number that a value is, or WrongType.
pub(crate) fn integer_of(value: &Value) -> Result<i64, FaultKind>
    ensures { result ≡ typed as_integer (view value.now) }
{
    match value.as_integer() {
        Some(number) => Ok(number),
        None => Err(FaultKind::WrongType),
    }
}

/// The truth value that a value is, or WrongType.
pub(crate) fn flag_of(value: &Value) -> Result<bool, FaultKind>
    ensures { result ≡ typed as_bool (view value.now) }
{
    match value.as_bool() {
        Some(flag) => Ok(flag),
        None => Err(FaultKind::WrongType),
    }
}

/// The text that a value is, or WrongType.
pub(crate) fn text_of(value: &Value) -> Result<&str, FaultKind>
    ensures { bind result (λ text. Ok text.now) ≡ typed as_str (view value.now) }
{
    match value.as_str() {
        Some(text) => Ok(text),
        None => Err(FaultKind::WrongType),
    }
}

/// The table that a value is, or WrongType.
pub(crate) fn table_of(value: &Value) -> Result<&Table, FaultKind>
    ensures { bind result (λ table. Ok (table_view table.now)) ≡ typed as_table (view value.now) }
{
    match value.as_table() {
        Some(table) => Ok(table),
        None => Err(FaultKind::WrongType),
    }
}

/// The items of the array that a value is, or WrongType.
pub fn array_of(value: &Value) -> Result<&[Value], FaultKind>
    ensures { bind result (λ items. Ok (items_view items.now)) ≡ typed as_array (view value.now) }
{
    match value.as_array() {
        Some(items) => Ok(items.as_slice()),
        None => Err(FaultKind::WrongType),
    }
}

/// The value at a key, where it is there.
pub(crate) fn find<'a>(table: &'a Table, key: &str) -> Option<&'a Value>
    ensures { option_map (λ value. view value.now) result ≡ get_member key.now (table_view table.now) }
{
    table.get(key)
}

/// The value at a key that has to be there, or MissingKey.
pub fn present<'a>(table: &'a Table, key: &str) -> Result<&'a Value, FaultKind>
    ensures { bind result (λ value. Ok (view value.now)) ≡ or_fault FaultKind.MissingKey (get_member key.now (table_view table.now)) }
{
    match find(table, key) {
        Some(value) => Ok(value),
        None => Err(FaultKind::MissingKey),
    }
}

/// Whether a text is one of some words.
fn is_among(words: &[&str], text: &str) -> bool
    ensures { result ≡ list_any (bytes_eq text.now) (map (λ word. word.now) words.now) }
{
    for word in words {
        if text == *word {
            return true;
        }
    }
    false
}

/// Whether a table has no other keys than these.
pub(crate) fn has_only(table: &Table, known: &[&str]) -> bool
    ensures { result ≡ list_all (λ key. list_any (bytes_eq key) (map (λ word. word.now) known.now)) (keys_of (table_view table.now)) }
{
    table.keys().all(|key| is_among(known, key.as_str()))
}

/// UnknownKey where a table has another key than these.
pub fn only(table: &Table, known: &[&str]) -> Result<(), FaultKind>
    ensures { result ≡ only (map (λ word. word.now) known.now) (table_view table.now) }
{
    if has_only(table, known) {
        Ok(())
    } else {
        Err(FaultKind::UnknownKey)
    }
}

/// A number, where it is within the two.
pub(crate) fn natural_within(least: u8, most: u8, number: i64) -> Option<u8>
    ensures value { result ≡ natural_within least most number }
    ensures within { IfSome result (λ n. (least ≤ n) × (n ≤ most)) }
{
    if i64::from(least) <= number && number <= i64::from(most) {
        Some(number as u8)
    } else {
        None
    }
}

/// A number from 0 to 255, or BadValue.
pub(crate) fn byte_rule(value: &Value) -> Result<u8, FaultKind>
    ensures { result ≡ byte_rule (view value.now) }
{
    match natural_within(0, 255, integer_of(value)?) {
        Some(byte) => Ok(byte),
        None => Err(FaultKind::BadValue),
    }
}

/// The coefficients of a table that has to give them, each ruled in its turn.
pub(crate) fn coefficients(table: &Table) -> Result<Direct, FaultKind>
    ensures { result ≡ coefficients (table_view table.now) }
{
    let m = slope(table)?;
    let b = offset(table)?;
    let r = scale(table)?;
    match Direct::new(m, b, r) {
        Ok(direct) => Ok(direct),
        // Never so: each is within its range here.
        Err(_) => Err(FaultKind::BadCoefficients),
    }
}

/// The slope of a table that has to give one.
pub(crate) fn slope(table: &Table) -> Result<i16, FaultKind>
    ensures value { result ≡ coefficient is_slope (codes "m") (table_view table.now) }
    ensures some { IfOk result (λ m. m ≢ pos 0) }
{
    slope_rule(present(table, "m")?)
}

/// The offset of a table that has to give one.
pub(crate) fn offset(table: &Table) -> Result<i16, FaultKind>
    ensures { result ≡ coefficient is_offset (codes "b") (table_view table.now) }
{
    offset_rule(present(table, "b")?)
}

/// The exponent of ten of a table that has to give one.
pub(crate) fn scale(table: &Table) -> Result<i8, FaultKind>
    ensures value { result ≡ coefficient is_scale (codes "r") (table_view table.now) }
    ensures within { IfOk result (λ r. (negsuc 8 ≤ℤ r) × (r ≤ℤ pos 9)) }
{
    scale_rule(present(table, "r")?)
}

/// A slope is a number of 16 bits other than 0.
fn slope_rule(value: &Value) -> Result<i16, FaultKind>
    ensures some { IfOk result (λ m. m ≢ pos 0) }
    ensures value { result ≡ bind (typed as_integer (view value.now)) (λ z. bind (unless FaultKind.BadCoefficients (is_slope z)) (λ _. Ok z)) }
{
    match integer_of(value)? {
        number @ (-32768..=-1 | 1..=32767) => Ok(number as i16),
        _ => Err(FaultKind::BadCoefficients),
    }
}

/// An offset is a number of 16 bits.
fn offset_rule(value: &Value) -> Result<i16, FaultKind>
    ensures { result ≡ bind (typed as_integer (view value.now)) (λ z. bind (unless FaultKind.BadCoefficients (is_offset z)) (λ _. Ok z)) }
{
    match integer_of(value)? {
        number @ -32768..=32767 => Ok(number as i16),
        _ => Err(FaultKind::BadCoefficients),
    }
}

/// An exponent of ten is from -9 to 9.
fn scale_rule(value: &Value) -> Result<i8, FaultKind>
    ensures within { IfOk result (λ r. (negsuc 8 ≤ℤ r) × (r ≤ℤ pos 9)) }
    ensures value { result ≡ bind (typed as_integer (view value.now)) (λ z. bind (unless FaultKind.BadCoefficients (is_scale z)) (λ _. Ok z)) }
{
    match integer_of(value)? {
        number @ -9..=9 => Ok(number as i8),
        _ => Err(FaultKind::BadCoefficients),
    }
}
