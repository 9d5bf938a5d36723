//! The fields that rows of a table have of a number.

ghost use Rattle.std.specs.Prelude.{◌≡◌, ◌==◌, ◌<◌, ◌≤◌, ◌^◌, [], ◌∷◌, ◌++◌, IsTrue, find, length, map, option_map};
ghost use Rattle.std.specs.Option.{option_copied};
ghost use Rattle.std.specs.List.{list_all, list_any};
ghost use Rattle.pmb_meaning.specs.Field.{field_parts, value_parts};
ghost use Rattle.pmb_meaning.specs.Meaning.{applies, named, row_field, rows_fields, said};
ghost use Rattle.pmb_meaning.specs.machine.Rows.{condition_parts, listed_field, named_parts, row_parts, sense_parts};
ghost use Rattle.pmb_meaning.specs.machine.Sound.{is_sound_condition, is_sound_row, is_wide_enough};

use crate::bits::picked;
use crate::field::{Field, Value};
use crate::layout::{Condition, Named, Row, Sense};
use arrayvec::ArrayVec;
use pmb_format::twos_complement;

/// What a number is named, if it is.
fn named(names: &'static [Named], number: u32) -> Option<Value<'static>>
    ensures { option_map value_parts result ≡ named (map named_parts names.now) number }
{
    match find_named(names, number) {
        Some(found) => Some(found.1),
        None => None,
    }
}

/// The first of some names that is a number's.
fn find_named(names: &'static [Named], number: u32) -> Option<&'static Named>
    ensures { option_copied result ≡ find (λ x. (named_parts x).number == number) names.now }
{
    names.iter().find(|named| u32::from(named.0) == number)
}

/// What bits say, that many.
fn said(sense: &Sense, width: u8, number: u32) -> Value<'static>
    requires wide { IsTrue (is_wide_enough (sense_parts sense.now) width) }
    requires fits { number < 2 ^ width }
    requires small { number < 2 ^ 24 }
    ensures { value_parts result ≡ said (sense_parts sense.now) width number }
{
    match *sense {
        Sense::Flag => Value::Truth(number == 1),
        Sense::Signed => Value::Number(twos_complement(u32::from(width), number as u16)),
        Sense::NumberOr(names) => match named(names, number) {
            Some(value) => value,
            None => Value::Number(number as i32),
        },
        Sense::Choice(names) => match named(names, number) {
            Some(value) => value,
            None => Value::Word("reserved"),
        },
        Sense::Code => Value::Code((number % 256) as u8),
        Sense::Mask => Value::Bits((number % 256) as u8, (number / 256 % 256) as u8),
    }
}

/// Whether there is a field.
fn applies(condition: &Condition, number: u64) -> bool
    requires { IsTrue (is_sound_condition (condition_parts condition.now)) }
    ensures { result ≡ applies (condition_parts condition.now) number }
{
    match *condition {
        Condition::Always => true,
        Condition::Among(low, width, numbers) => is_among(numbers, picked(number, low, width)),
    }
}

/// Whether a number is one of some.
fn is_among(numbers: &[u8], number: u32) -> bool
    ensures { result ≡ list_any (λ k. k == number) numbers.now }
{
    numbers.iter().any(|k| u32::from(*k) == number)
}

/// The field of a row.
fn field(row: &Row, number: u64) -> Option<Field<'static>>
    requires { IsTrue (is_sound_row (row_parts row.now)) }
    ensures { listed_field result ≡ row_field number (row_parts row.now) }
{
    if applies(&row.4, number) {
        Some(Field {
            key: row.0,
            value: said(&row.3, row.2, picked(number, row.1, row.2)),
        })
    } else {
        None
    }
}

/// The fields of rows.
pub(crate) fn rows_fields<'a>(rows: &'static [Row], number: u64) -> ArrayVec<Field<'a>, 6>
    requires few { length rows.now ≤ 6 }
    requires sound { IsTrue (list_all is_sound_row (map row_parts rows.now)) }
    ensures fields { map field_parts result.items ≡ rows_fields (map row_parts rows.now) number }
    ensures few { length result.items ≤ length rows.now }
{
    let mut fields = ArrayVec::new();
    for row in rows {
        if let Some(field) = field(row, number) {
            fields.push(field);
        }
    }
    fields
}
