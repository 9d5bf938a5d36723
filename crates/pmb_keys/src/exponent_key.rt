//! What a command's table says of the exponent of its numbers.
//!
//! Its rows: `tests/rows/forms.txt`.

ghost use Rattle.std.specs.Prelude.{◌≡◌, Ok, IfOk, codes, pos, negsuc, ◌≤ℤ◌};
ghost use Rattle.toml.specs.Data.{as_integer};
ghost use Rattle.toml.specs.View.{table_view, view};
ghost use Rattle.pmb_coefficients.specs.Exponent.{IsExponent};
ghost use Rattle.pmb_command.specs.declared.entry.Kind.TheVariants.{Number};
ghost use Rattle.pmb_value.specs.declared.number_format.NumberFormat.TheVariants as formats;
ghost use Rattle.pmb_keys.specs.Rules.{bind, required, unless};
ghost use Rattle.pmb_keys.specs.CommandRules.{exponent_rule, exponent_value, fixed_exponent, has_exponent, is_exponent, is_linear11};

use crate::fault::FaultKind;
use crate::rules::{find, integer_of, present};
use pmb_command::Kind;
use pmb_value::{Linear11Fixed, NumberFormat, VoutFormat};
use toml::{Table, Value};

/// Whether the data are numbers in LINEAR11.
const fn is_linear11(kind: &Kind) -> bool
    ensures { result ≡ is_linear11 kind.now }
{
    matches!(
        kind,
        Kind::Number(NumberFormat::Linear11 | NumberFormat::Linear11Fixed(_))
    )
}

/// Whether the data are numbers in a format whose exponent the key has told already.
const fn has_exponent(kind: &Kind) -> bool
    ensures { result ≡ has_exponent kind.now }
{
    matches!(
        kind,
        Kind::Number(NumberFormat::Word(VoutFormat::Unsigned(_) | VoutFormat::Signed(_)))
    )
}

/// A number from -16 to 15, or BadValue.
fn exponent_within(number: i64) -> Result<i8, FaultKind>
    ensures read { result ≡ bind (unless FaultKind.BadValue (is_exponent number)) (λ _. Ok number) }
    ensures within { IfOk result IsExponent }
{
    match number {
        exponent @ -16..=15 => Ok(exponent as i8),
        _ => Err(FaultKind::BadValue),
    }
}

/// The exponent that a value is, or WrongType or BadValue.
fn exponent_value(value: &Value) -> Result<i8, FaultKind>
    ensures read { result ≡ exponent_value (view value.now) }
    ensures within { IfOk result IsExponent }
{
    exponent_within(integer_of(value)?)
}

/// The exponent of a table that has to give one.
pub(crate) fn required_exponent(table: &Table) -> Result<i8, FaultKind>
    ensures read { result ≡ required exponent_value (codes "exponent") (table_view table.now) }
    ensures within { IfOk result IsExponent }
{
    exponent_value(present(table, "exponent")?)
}

/// LINEAR11 with a number as its exponent, or BadValue.
fn fixed_kind(number: i64) -> Result<Kind, FaultKind>
    ensures { result ≡ bind (unless FaultKind.BadValue (is_exponent number)) (λ _. Ok (Number (formats.Linear11Fixed number))) }
{
    match Linear11Fixed::new(exponent_within(number)?) {
        Ok(format) => Ok(Kind::Number(NumberFormat::Linear11Fixed(format))),
        Err(_) => unreachable!(),
    }
}

/// LINEAR11 with the exponent that a value fixes.
fn fixed_exponent(kind: &Kind, value: &Value) -> Result<Kind, FaultKind>
    ensures { result ≡ fixed_exponent kind.now (view value.now) }
{
    let number = integer_of(value)?;
    if !is_linear11(kind) {
        return Err(FaultKind::UnknownKey);
    }
    fixed_kind(number)
}

/// A command's kind, with the exponent where the key `exponent` fixes one.
pub(crate) fn read_exponent(kind: Kind, table: &Table) -> Result<Kind, FaultKind>
    ensures { result ≡ exponent_rule kind (table_view table.now) }
{
    let Some(value) = find(table, "exponent") else {
        return Ok(kind);
    };
    if has_exponent(&kind) {
        Ok(kind)
    } else {
        fixed_exponent(&kind, value)
    }
}
