//! The lines of VOUT_MODE.
//!
//! Its rows: `tests/rows/profile_text.txt`.

ghost use Rattle.std.specs.Prelude.{◌≡◌, ◌+◌, ◌≤◌, ◌++◌, length, nat_eq};
ghost use Rattle.std.specs.List.{list_all};
ghost use Rattle.pmb_command.specs.Parts.{all_same};
ghost use Rattle.pmb_profile_text.specs.Table.{field, mode_key, mode_line, mode_text, one_mode};
ghost use Rattle.pmb_profile_text.specs.Words.{digits, mode_words};
ghost use Rattle.pmb_registers.specs.State.{first_mode};

use crate::device_head::KEYS;
use crate::row::{Row, append, append_byte, append_cell, append_page};
use crate::words::append_mode;
use pmb_registers::first_mode;
use pmb_table::DeviceProfile;

/// Whether all numbers are the same.
pub(crate) fn are_same(modes: &[u8]) -> bool
    ensures { result ≡ all_same modes.now }
{
    match modes {
        [first, rest @ ..] => are_all(rest, *first),
        [] => true,
    }
}

/// Whether all are this one.
fn are_all(modes: &[u8], mode: u8) -> bool
    ensures { result ≡ list_all (nat_eq mode) modes.now }
{
    modes.iter().all(|each| mode == *each)
}

/// The line of VOUT_MODE where all pages begin with one.
pub(crate) fn one_mode(device: &DeviceProfile) -> Row
    ensures { result.items ≡ one_mode device.now }
{
    let mut line = Row::new();
    append_cell(&mut line, b"vout_mode", KEYS);
    append_mode_text(&mut line, device, first_mode(device, 0));
    append(&mut line, b"\n");
    line
}

/// The line of a page's VOUT_MODE.
pub(crate) fn mode_line(device: &DeviceProfile, page: u8) -> Row
    ensures { result.items ≡ mode_line device.now page }
{
    let mut line = Row::new();
    append_cell(&mut line, mode_key(page), KEYS);
    append_page(&mut line, page);
    append_mode_text(&mut line, device, first_mode(device, page));
    append(&mut line, b"\n");
    line
}

/// The key of a page's line, which only that of page 0 has.
fn mode_key(page: u8) -> &'static [u8]
    ensures key { result.now ≡ mode_key page }
    ensures short { length result.now ≤ 12 }
{
    if page == 0 { b"vout_mode" } else { b"" }
}

/// Appends a VOUT_MODE, and the format that it gives output voltages: at most 104 bytes.
fn append_mode_text(line: &mut Row, device: &DeviceProfile, mode: u8)
    requires { length line.old.items + 104 ≤ 2048 }
    ensures text { line.new.items ≡ line.old.items ++ mode_text device.now mode }
    ensures short { length line.new.items ≤ length line.old.items + 104 }
{
    append_byte(line, mode);
    append(line, b", ");
    append_mode(line, device, mode);
}
