//! Members whose value is a text, and why a word has no value.
//!
//! Its rows: `tests_json`, `src/fields/voltages.rt` and `contexts.rt`.

ghost use Rattle.std.specs.Prelude.{◌≡◌, ◌+◌, ◌*◌, ◌≤◌, ◌∷◌, [], IsTrue, length};
ghost use Rattle.pmb_json_text.specs.Json.{string};
ghost use Rattle.pmb_json_text.specs.Member.{is_key, named};
ghost use Rattle.pmb_json_fields.specs.Value.{no_voltage_name, raw_members, word_fault_name};
ghost use Rattle.pmb_json_fields.specs.machine.Written.{Appends};

use arrayvec::ArrayVec;
use pmb_json_text::{ItemOrder, TEXT_MEMBER, text_member};
use pmb_value::WordFault;
use pmb_voltage::NoVoltage;

/// Appends a member whose value is a text.
#[inline(always)]
pub(crate) fn append_text<const N: usize>(out: &mut ArrayVec<u8, N>, key: &str, text: &[u8])
    requires key { IsTrue (is_key key.now) }
    requires room { length out.old.items + (TEXT_MEMBER + 6 * length text.now) ≤ N }
    ensures { Appends (named key.now (string text.now) ∷ []) (TEXT_MEMBER + 6 * length text.now) out.old.items out.new.items }
{
    text_member(out, ItemOrder::Later, key, text);
}

/// Appends why a word has no value.
pub(crate) fn append_raw<const N: usize>(out: &mut ArrayVec<u8, N>, why: &str)
    requires short { length why.now ≤ 12 }
    requires room { length out.old.items + 94 ≤ N }
    ensures { Appends (raw_members why.now) 94 out.old.items out.new.items }
{
    append_text(out, "raw", why.as_bytes());
}

/// Why a word has no value in its format.
pub(crate) fn word_fault_name(fault: WordFault) -> &'static str
    ensures name { result.now ≡ word_fault_name fault }
    ensures short { length result.now ≤ 12 }
{
    match fault {
        WordFault::NotANumber => "nan",
        WordFault::NoCode => "code",
        WordFault::Off => "off",
    }
}

/// Why an output voltage has no format.
pub(crate) fn no_voltage_name(why: NoVoltage) -> &'static str
    ensures name { result.now ≡ no_voltage_name why }
    ensures short { length result.now ≤ 12 }
{
    match why {
        NoVoltage::Unknown => "unknown",
        NoVoltage::Page => "page",
        NoVoltage::Vid => "vid",
        NoVoltage::Relative => "relative",
        NoVoltage::Coefficients => "coefficients",
    }
}
