//! Laws over the definitions alone. Each function is its contract, and does nothing.

ghost use Rattle.std.specs.Prelude.{◌≡◌, ℕ, List, Some};
ghost use Rattle.pmb_command.specs.Bus.{IsDevice};
ghost use Rattle.pmb_command.specs.Entry.{EntryParts};
ghost use Rattle.pmb_command.specs.Parts.{DeviceParts};
ghost use Rattle.pmb_json_text.specs.Json.{AreDistinct};
ghost use Rattle.pmb_meaning.specs.Data.{Exchange};
ghost use Rattle.pmb_meaning.specs.Field.{SaidField};
ghost use Rattle.pmb_meaning.specs.Laws.{IsSaysOrNone, keys};
ghost use Rattle.pmb_meaning.specs.Meaning.{fields_of};
ghost use Rattle.pmb_meaning.specs.Object.{says_members_of};

/// The fields of a command's data have distinct keys.
pub fn keys_are_distinct()
    ensures { (code : ℕ) (payload : Exchange) (fields : List SaidField) → fields_of code payload ≡ Some fields
        → AreDistinct (keys fields) }
{}

/// What is said of the data of a command is one member or none: its key is `says`, and its value
/// can be written, is JSON and has distinct keys.
pub fn says_is_one_member_or_none()
    ensures { (device : DeviceParts) (e : EntryParts) (payload : Exchange) → IsDevice device
        → IsSaysOrNone (says_members_of device e payload) }
{}
