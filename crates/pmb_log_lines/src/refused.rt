//! What is said of a leg that was refused.
//!
//! Its rows: `tests/rows/log.txt`; `tests_json`, `src/log_lines/`.

ghost use Rattle.std.specs.Prelude.{◌≡◌, ◌+◌, ◌≤◌, length, option_map};
ghost use Rattle.pmb_json_objects.specs.Seen.{SeenData};
ghost use Rattle.pmb_json_objects.specs.Sees.{Sees};
ghost use Rattle.pmb_log_lines.specs.Packets.{error_code_says, last_says, leg_says, refused_says, verdict_says};
ghost use Rattle.pmb_log_data.specs.Appends.{Appends};

use crate::packets::append_part;
use arrayvec::ArrayVec;
use pmb_json_objects::Seen;
use pmb_log_data::{
    append, append_after, append_byte, but_first, but_last, device, is_whole_write, last_byte,
    leg_code,
};
use pmb_table::DeviceProfile;

/// Appends what a refused leg says, as the last of so many parts.
pub(crate) fn append_refused<const N: usize>(
    out: &mut ArrayVec<u8, N>,
    seen: &Seen<'_>,
    parts: u64,
    addr: u8,
    sent: &[u8],
    at_read: bool,
)
    requires sent { length sent.now ≤ 258 }
    requires room { length out.old.items + 860 ≤ N }
    ensures says { (known : SeenData) → Sees seen.now known → Appends (refused_says known parts addr sent.now at_read) 860 out.old.items out.new.items }
    ensures longer { length out.new.items ≤ length out.old.items + 860 }
{
    append_leg(out, device(seen, addr), addr, sent, at_read);
    append_part(out, parts, parts);
}

/// Appends what was refused: the address, a code, a later byte, or to be read.
fn append_leg<const N: usize>(
    out: &mut ArrayVec<u8, N>,
    device: Option<&DeviceProfile>,
    addr: u8,
    sent: &[u8],
    at_read: bool,
)
    requires sent { length sent.now ≤ 258 }
    requires room { length out.old.items + 800 ≤ N }
    ensures { Appends (leg_says (option_map (λ d. d.now) device.entry) addr sent.now at_read) 800 out.old.items out.new.items }
{
    if at_read {
        append(out, b"refused at its read address");
        return;
    }
    match sent {
        [] => append(out, b"refused at its address"),
        [_] => append(out, b"refused at its code"),
        [_, _, ..] => append_last(out, device, addr, but_last(sent), last_byte(sent)),
    }
}

/// Appends what the last byte that was sent is.
fn append_last<const N: usize>(
    out: &mut ArrayVec<u8, N>,
    device: Option<&DeviceProfile>,
    addr: u8,
    front: &[u8],
    last: Option<u8>,
)
    requires front { length front.now ≤ 258 }
    requires room { length out.old.items + 800 ≤ N }
    ensures { Appends (last_says (option_map (λ d. d.now) device.entry) addr front.now last) 800 out.old.items out.new.items }
{
    let Some(last) = last else {
        return;
    };
    if is_whole_write(device, front) {
        append_error_code(out, last, leg_code(addr, front));
    } else {
        append(out, b"refused at byte ");
        append_byte(out, last);
        append_after(out, but_first(front));
    }
}

/// Appends a byte in the place of an error code, beside the right one.
fn append_error_code<const N: usize>(out: &mut ArrayVec<u8, N>, code: u8, right: u8)
    requires room { length out.old.items + 60 ≤ N }
    ensures { Appends (error_code_says code right) 60 out.old.items out.new.items }
{
    append(out, b"refused at its error code ");
    append_byte(out, code);
    append_verdict(out, code, right);
}

/// Appends whether an error code is the right one, and the one that is.
fn append_verdict<const N: usize>(out: &mut ArrayVec<u8, N>, code: u8, right: u8)
    requires room { length out.old.items + 30 ≤ N }
    ensures { Appends (verdict_says code right) 30 out.old.items out.new.items }
{
    if code == right {
        append(out, b", which is right");
    } else {
        append(out, b": ");
        append_byte(out, right);
        append(out, b" is right");
    }
}
