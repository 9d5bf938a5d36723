//! Data that are a text.
//!
//! Its rows: `tests_json`, `src/fields/profiles.rt`.

ghost use Rattle.std.specs.Prelude.{◌≡◌, ◌+◌, ◌≤◌, length};
ghost use Rattle.pmb_keys.specs.CommandView.{command_parts};
ghost use Rattle.pmb_command_data.specs.Text.{text_of};
ghost use Rattle.pmb_json_fields.specs.Value.{form_of, text_members};
ghost use Rattle.pmb_json_fields.specs.machine.Written.{Appends};

use crate::access::Access;
use crate::raw::append_text;
use arrayvec::ArrayVec;
use pmb_command_data::text;
use pmb_keys::Command;

/// Appends the data of a command where they are a text.
pub(crate) fn append_data_text<const N: usize>(
    out: &mut ArrayVec<u8, N>,
    access: Access,
    command: &Command,
    bytes: &[u8],
)
    requires few { length bytes.now ≤ 255 }
    requires room { length out.old.items + 1552 ≤ N }
    ensures { Appends (text_members (text_of (command_parts command.now).entry (form_of access (command_parts command.now).entry.shape) bytes.now)) 1552 out.old.items out.new.items }
{
    match text(&command.entry, access.form(command.entry.shape), bytes) {
        Some(text) => append_text(out, "text", text),
        None => {}
    }
}
