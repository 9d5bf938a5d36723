//! Texts.
//!
//! Its rows: `tests_commands`, `src/command_data.rt`.

ghost use Rattle.std.specs.Prelude.{◌≡◌, ◌≤◌, IfSome, length, nat_eq, option_map};
ghost use Rattle.std.specs.List.{list_all, list_any};
ghost use Rattle.pmb_command.specs.Entry.{entry_parts};
ghost use Rattle.pmb_command.specs.Names.{is_printable};
ghost use Rattle.pmb_command_data.specs.Text.{has_text, is_block, is_text_code, is_text_kind, text_codes, text_of};

use crate::standard::is_plain_standard;
use pmb_command::{Entry, Form, Kind};

/// The standard's commands whose block is a text: MFR_ID, MFR_MODEL, MFR_REVISION, MFR_LOCATION,
/// MFR_DATE, MFR_SERIAL, IC_DEVICE_ID, IC_DEVICE_REV (PMBus Part II 1.3 section 22.2).
fn is_text_code(code: u8) -> bool
    ensures { result ≡ is_text_code code }
{
    matches!(code, 0x99..=0x9e | 0xad | 0xae)
}

/// Whether a kind is `text`.
fn is_text_kind(kind: Kind) -> bool
    ensures { result ≡ is_text_kind kind }
{
    matches!(kind, Kind::Text)
}

/// Whether a form is a block.
fn is_block(form: Option<Form>) -> bool
    ensures { result ≡ is_block form }
{
    matches!(form, Some(Form::Block))
}

/// Whether a command's data of a form are characters.
fn has_text(entry: &Entry, form: Option<Form>) -> bool
    ensures { result ≡ has_text (entry_parts entry.now) form }
{
    is_text_kind(entry.kind)
        || (is_text_code(entry.code) && (is_block(form) && is_plain_standard(entry)))
}

/// Whether a byte is a printable character of ASCII.
fn is_printable(byte: u8) -> bool
    ensures { result ≡ is_printable byte }
{
    matches!(byte, b' '..=b'~')
}

/// Whether all bytes are printable characters of ASCII.
fn are_printable(bytes: &[u8]) -> bool
    ensures { result ≡ list_all is_printable bytes.now }
{
    bytes.iter().all(|byte| is_printable(*byte))
}

/// The data of a command as a text, where they are one: of the kind `text`, or a block of one of
/// the standard's commands for texts, if all bytes are 20h to 7eh. `form` is the form in which they
/// go.
pub fn text<'b>(entry: &Entry, form: Option<Form>, bytes: &'b [u8]) -> Option<&'b [u8]>
    ensures text { option_map (λ text. text.now) result ≡ text_of (entry_parts entry.now) form bytes.now }
    ensures short { IfSome result (λ text. length text.now ≤ length bytes.now) }
{
    if has_text(entry, form) && are_printable(bytes) {
        Some(bytes)
    } else {
        None
    }
}
