//! What a command's table says of its kind.
//!
//! Its rows: `tests/rows/forms.txt`, `tests/rows/profiles.txt`.

ghost use Rattle.std.specs.Prelude.{◌≡◌, Ok, codes};
ghost use Rattle.toml.specs.Data.{get_member};
ghost use Rattle.toml.specs.View.{table_view};
ghost use Rattle.pmb_keys.specs.Rules.{bind, defaulted};
ghost use Rattle.pmb_keys.specs.CommandRules.{word_rule, kind_words, absent_of, no_coefficients, plain_kind, direct_kind, linear16_kind, kind_rule};
ghost use Rattle.pmb_value.specs.declared.vout.VoutFormat.TheVariants.{Signed, Unsigned};
ghost use Rattle.pmb_keys.specs.machine.KindWords.{rule_of};

use crate::exponent_key::required_exponent;
use crate::fault::FaultKind;
use crate::rules::{coefficients, find, integer_of, text_of};
use crate::words::{KindWord, kind_word};
use pmb_command::Kind;
use pmb_value::{NumberFormat, Slinear16, Ulinear16, VoutFormat};
use toml::Table;

/// What the key `kind` says.
fn read_word(base: Kind, table: &Table) -> Result<KindWord, FaultKind>
    ensures { bind result (λ word. Ok (rule_of word)) ≡ defaulted (word_rule FaultKind.BadValue kind_words) (plain_kind base) (codes "kind") (table_view table.now) }
{
    let Some(value) = find(table, "kind") else {
        return Ok(KindWord::Plain(base));
    };
    match kind_word(text_of(value)?) {
        Some(word) => Ok(word),
        None => Err(FaultKind::BadValue),
    }
}

/// Refuses a coefficient of a command with another kind.
fn refuse_coefficient(table: &Table, key: &str) -> Result<(), FaultKind>
    ensures { result ≡ absent_of (get_member key.now (table_view table.now)) }
{
    let Some(value) = find(table, key) else {
        return Ok(());
    };
    integer_of(value)?;
    Err(FaultKind::UnknownKey)
}

/// Refuses the coefficients of a command with another kind.
fn refuse_coefficients(table: &Table) -> Result<(), FaultKind>
    ensures { result ≡ no_coefficients (table_view table.now) }
{
    refuse_coefficient(table, "m")?;
    refuse_coefficient(table, "b")?;
    refuse_coefficient(table, "r")
}

/// A kind that goes without coefficients.
fn plain_kind(kind: Kind, table: &Table) -> Result<Kind, FaultKind>
    ensures { result ≡ plain_kind kind (table_view table.now) }
{
    refuse_coefficients(table)?;
    Ok(kind)
}

/// DIRECT, whose coefficients have to be there.
fn direct_kind(table: &Table) -> Result<Kind, FaultKind>
    ensures { result ≡ direct_kind (table_view table.now) }
{
    let direct = coefficients(table)?;
    Ok(Kind::Number(NumberFormat::Word(VoutFormat::Direct(direct))))
}

/// ULINEAR16, whose exponent has to be there.
fn unsigned_kind(table: &Table) -> Result<Kind, FaultKind>
    ensures { result ≡ linear16_kind Unsigned (table_view table.now) }
{
    refuse_coefficients(table)?;
    let exponent = required_exponent(table)?;
    Ok(Kind::Number(NumberFormat::Word(VoutFormat::Unsigned(Ulinear16::of(exponent)))))
}

/// SLINEAR16, whose exponent has to be there.
fn signed_kind(table: &Table) -> Result<Kind, FaultKind>
    ensures { result ≡ linear16_kind Signed (table_view table.now) }
{
    refuse_coefficients(table)?;
    let exponent = required_exponent(table)?;
    Ok(Kind::Number(NumberFormat::Word(VoutFormat::Signed(Slinear16::of(exponent)))))
}

/// The kind of a word, with its coefficients or its exponent.
fn worded_kind(word: KindWord, table: &Table) -> Result<Kind, FaultKind>
    ensures { result ≡ rule_of word (table_view table.now) }
{
    match word {
        KindWord::Plain(kind) => plain_kind(kind, table),
        KindWord::ByCoefficients => direct_kind(table),
        KindWord::UnsignedByExponent => unsigned_kind(table),
        KindWord::SignedByExponent => signed_kind(table),
    }
}

/// The kind of a command, where that of the base stays without a key.
pub(crate) fn read_kind(base: Kind, table: &Table) -> Result<Kind, FaultKind>
    ensures { result ≡ kind_rule base (table_view table.now) }
{
    match read_word(base, table) {
        Ok(word) => worded_kind(word, table),
        Err(fault) => Err(fault),
    }
}
