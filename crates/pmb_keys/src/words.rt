//! The words for forms and kinds.
//!
//! Its rows: `tests/rows/forms.txt`, `tests/rows/profiles.txt`.

ghost use Rattle.std.specs.Prelude.{◌≡◌, option_map};
ghost use Rattle.pmb_keys.specs.Rules.{named};
ghost use Rattle.pmb_keys.specs.CommandRules.{write_forms, read_forms, call_forms, kind_words};
ghost use Rattle.pmb_keys.specs.machine.KindWords.{rule_of};

use pmb_command::{Form, Kind};
use pmb_value::{NumberFormat, VidTable};

/// What a kind's word says: a kind, or that coefficients or an exponent tell the rest.
#[derive(Clone, Copy)]
pub(crate) enum KindWord {
    Plain(Kind),
    ByCoefficients,
    UnsignedByExponent,
    SignedByExponent,
}

/// The form that a word of `write` names.
pub(crate) fn write_form(text: &str) -> Option<Option<Form>>
    ensures { result ≡ named write_forms text.now }
{
    match text {
        "none" => Some(None),
        "zero" => Some(Some(Form::Zero)),
        "one" => Some(Some(Form::One)),
        "two" => Some(Some(Form::Two)),
        "four" => Some(Some(Form::Four)),
        "eight" => Some(Some(Form::Eight)),
        "block" => Some(Some(Form::Block)),
        _ => None,
    }
}

/// The form that a word of `read` names.
pub(crate) fn read_form(text: &str) -> Option<Option<Form>>
    ensures { result ≡ named read_forms text.now }
{
    match text {
        "none" => Some(None),
        "one" => Some(Some(Form::One)),
        "two" => Some(Some(Form::Two)),
        "four" => Some(Some(Form::Four)),
        "eight" => Some(Some(Form::Eight)),
        "block" => Some(Some(Form::Block)),
        _ => None,
    }
}

/// The form that a word of `call` names.
pub(crate) fn call_form(text: &str) -> Option<Option<Form>>
    ensures { result ≡ named call_forms text.now }
{
    match text {
        "none" => Some(None),
        "two" => Some(Some(Form::Two)),
        "block" => Some(Some(Form::Block)),
        _ => None,
    }
}

/// A VID table.
fn vid_word(table: VidTable) -> KindWord
    ensures { result ≡ KindWord.Plain (Kind.Number (NumberFormat.Vid table)) }
{
    KindWord::Plain(Kind::Number(NumberFormat::Vid(table)))
}

/// What a word of `kind` says.
pub(crate) fn kind_word(text: &str) -> Option<KindWord>
    ensures { option_map rule_of result ≡ named kind_words text.now }
{
    match text {
        "raw" => Some(KindWord::Plain(Kind::Raw)),
        "linear11" => Some(KindWord::Plain(Kind::Number(NumberFormat::Linear11))),
        "vout" => Some(KindWord::Plain(Kind::Vout)),
        "vout_signed" => Some(KindWord::Plain(Kind::VoutSigned)),
        "direct" => Some(KindWord::ByCoefficients),
        "status" => Some(KindWord::Plain(Kind::Status)),
        "half" => Some(KindWord::Plain(Kind::Number(NumberFormat::Half))),
        "ulinear16" => Some(KindWord::UnsignedByExponent),
        "slinear16" => Some(KindWord::SignedByExponent),
        "vid:vr11" => Some(vid_word(VidTable::Vr11)),
        "vid:vr12" => Some(vid_word(VidTable::Vr12)),
        "vid:vr13" => Some(vid_word(VidTable::Vr13)),
        "vid:imvp9" => Some(vid_word(VidTable::Imvp9)),
        "vid:amd625mv" => Some(vid_word(VidTable::Amd625mv)),
        "vid:nvidia195mv" => Some(vid_word(VidTable::Nvidia195mv)),
        "text" => Some(KindWord::Plain(Kind::Text)),
        _ => None,
    }
}
