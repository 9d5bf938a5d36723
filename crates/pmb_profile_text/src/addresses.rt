//! Lines that list addresses.
//!
//! Its rows: `tests/rows/profile_text.txt`.

ghost use Rattle.std.specs.Prelude.{◌≡◌, ◌+◌, ◌≤◌, ◌++◌, ◌*◌, codes, length};
ghost use Rattle.std.specs.List.{flat_map};
ghost use Rattle.pmb_profile_text.specs.Table.{also_line, field};
ghost use Rattle.pmb_profile_text.specs.Words.{addresses_word, digits};

use crate::device_head::KEYS;
use crate::row::{Row, append, append_byte, append_cell};

/// Appends a key whose value is addresses: at most 400 bytes.
pub(crate) fn append_list(row: &mut Row, key: &[u8], addresses: &[u8])
    requires key { length key.now ≤ 12 }
    requires few { length addresses.now ≤ 128 }
    requires room { length row.old.items + 400 ≤ 2048 }
    ensures text { row.new.items ≡ row.old.items ++ field key.now (addresses_word addresses.now) }
    ensures short { length row.new.items ≤ length row.old.items + 400 }
{
    append_cell(row, key, KEYS);
    append_addresses(row, addresses);
    append(row, b"\n");
}

/// Appends the line of the other addresses at which a device's part takes what is written, where there are
/// some: at most 400 bytes.
pub(crate) fn append_also(row: &mut Row, addresses: &[u8])
    requires few { length addresses.now ≤ 128 }
    requires room { length row.old.items + 400 ≤ 2048 }
    ensures text { row.new.items ≡ row.old.items ++ also_line addresses.now }
    ensures short { length row.new.items ≤ length row.old.items + 400 }
{
    match addresses {
        [] => {}
        [_, ..] => append_list(row, b"also", addresses),
    }
}

/// Appends addresses, with a space between two, or that there are none: at most 384 bytes.
fn append_addresses(row: &mut Row, addresses: &[u8])
    requires few { length addresses.now ≤ 128 }
    requires room { length row.old.items + 384 ≤ 2048 }
    ensures text { row.new.items ≡ row.old.items ++ addresses_word addresses.now }
    ensures short { length row.new.items ≤ length row.old.items + 384 }
{
    match addresses {
        [] => append(row, b"none"),
        [first, rest @ ..] => {
            append_byte(row, *first);
            append_others(row, rest);
        }
    }
}

/// Appends addresses, with a space before each: three bytes each.
fn append_others(row: &mut Row, addresses: &[u8])
    requires { length row.old.items + 3 * length addresses.now ≤ 2048 }
    ensures text { row.new.items ≡ row.old.items ++ flat_map (λ other. codes " " ++ digits other) addresses.now }
    ensures long { length row.new.items ≡ length row.old.items + 3 * length addresses.now }
{
    for address in addresses {
        append(row, b" ");
        append_byte(row, *address);
    }
}
