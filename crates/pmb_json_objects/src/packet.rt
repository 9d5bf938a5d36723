//! The objects of packets.
//!
//! Its rows: `tests_json`, `src/object_lines/packets.rt`; `tests/rows/json_objects.txt`.

ghost use Rattle.std.specs.Prelude.{◌≡◌, ◌+◌, ◌≤◌, ◌++◌, length};
ghost use Rattle.pmb_json_text.specs.Member.{object_line};
ghost use Rattle.pmb_transaction.specs.Transaction.{part_data};
ghost use Rattle.pmb_json_objects.specs.Head.{head_of};
ghost use Rattle.pmb_json_objects.specs.Packets.{alert_object, call_object, no_alert_object, other_object, read_object, write_object};
ghost use Rattle.pmb_json_objects.specs.Seen.{SeenData};
ghost use Rattle.pmb_json_objects.specs.Sees.{Sees};

use crate::OBJECT;
use crate::data::{append_call, append_data};
use crate::head::Head;
use crate::members::{append_byte, append_command, append_device, append_part, begin_object};
use crate::seen::Seen;
use arrayvec::ArrayVec;
use pmb_json_fields::Access;
use pmb_json_text::{ItemOrder, bool_member, end, hex_member, null_member};
use pmb_table::Profile;
use pmb_transaction::Part;

/// Appends the line of a part: which one it is, of how many.
pub fn write_line<const N: usize>(
    out: &mut ArrayVec<u8, N>,
    seen: &Seen<'_>,
    head: Head<'_>,
    part: u64,
    parts: u64,
    written: &Part,
)
    requires room { length out.old.items + OBJECT ≤ N }
    ensures line { (known : SeenData) → Sees seen.now known → out.new.items ≡ out.old.items ++ object_line (write_object known (head_of head.entry) part parts (part_data written.now)).members }
    ensures short { length out.new.items ≤ length out.old.items + OBJECT }
{
    begin_object(out, head, b"write");
    append_part(out, part, parts);
    append_device(out, seen.profile, written.addr);
    append_command(out, seen, written.addr, written.code);
    hex_member(out, ItemOrder::Later, "bytes", written.bytes.as_slice());
    bool_member(out, ItemOrder::Later, "pec", written.pec);
    append_data(
        out,
        seen,
        Access::Write,
        written.addr,
        written.code,
        written.bytes.as_slice(),
    );
    end(out);
}

/// Appends the line of what was read.
pub fn read_line<const N: usize>(
    out: &mut ArrayVec<u8, N>,
    seen: &Seen<'_>,
    head: Head<'_>,
    addr: u8,
    code: u8,
    reply: &[u8],
    pec: bool,
)
    requires room { length out.old.items + OBJECT ≤ N }
    requires reply { length reply.now ≤ 255 }
    ensures line { (known : SeenData) → Sees seen.now known
        → out.new.items ≡ out.old.items ++ object_line (read_object known (head_of head.entry) (record { addr = addr; code = code; reply = reply.now; pec = pec })).members }
    ensures short { length out.new.items ≤ length out.old.items + OBJECT }
{
    begin_object(out, head, b"read");
    append_device(out, seen.profile, addr);
    append_command(out, seen, addr, code);
    hex_member(out, ItemOrder::Later, "bytes", reply);
    bool_member(out, ItemOrder::Later, "pec", pec);
    append_data(out, seen, Access::Read, addr, code, reply);
    end(out);
}

/// Appends the line of a process call.
pub fn call_line<const N: usize>(
    out: &mut ArrayVec<u8, N>,
    seen: &Seen<'_>,
    head: Head<'_>,
    addr: u8,
    code: u8,
    sent: &[u8],
    reply: &[u8],
    pec: bool,
)
    requires room { length out.old.items + OBJECT ≤ N }
    requires sent { length sent.now ≤ 255 }
    requires reply { length reply.now ≤ 255 }
    ensures line { (known : SeenData) → Sees seen.now known
        → out.new.items ≡ out.old.items ++ object_line (call_object known (head_of head.entry) (record { addr = addr; code = code; bytes = sent.now; reply = reply.now; pec = pec })).members }
    ensures short { length out.new.items ≤ length out.old.items + OBJECT }
{
    begin_object(out, head, b"call");
    append_device(out, seen.profile, addr);
    append_command(out, seen, addr, code);
    hex_member(out, ItemOrder::Later, "sent", sent);
    hex_member(out, ItemOrder::Later, "reply", reply);
    bool_member(out, ItemOrder::Later, "pec", pec);
    append_call(out, seen, addr, code, sent, reply);
    end(out);
}

/// Appends the line of a device that replied at the Alert Response Address, by its byte.
pub fn alert_line<const N: usize>(
    out: &mut ArrayVec<u8, N>,
    profile: &Profile,
    head: Head<'_>,
    byte: u8,
    pec: bool,
)
    requires room { length out.old.items + OBJECT ≤ N }
    ensures line { out.new.items ≡ out.old.items ++ object_line (alert_object profile.now (head_of head.entry) (record { byte = byte; pec = pec })).members }
    ensures short { length out.new.items ≤ length out.old.items + OBJECT }
{
    begin_object(out, head, b"alert");
    append_device(out, profile, byte / 2);
    append_byte(out, "byte", byte);
    bool_member(out, ItemOrder::Later, "pec", pec);
    end(out);
}

/// Appends the line that says that no device replied there.
pub fn no_alert_line<const N: usize>(out: &mut ArrayVec<u8, N>, head: Head<'_>)
    requires room { length out.old.items + OBJECT ≤ N }
    ensures line { out.new.items ≡ out.old.items ++ object_line (no_alert_object (head_of head.entry)).members }
    ensures short { length out.new.items ≤ length out.old.items + OBJECT }
{
    begin_object(out, head, b"alert");
    null_member(out, ItemOrder::Later, "device");
    end(out);
}

/// Appends the line of a packet to an address that speaks no PMBus.
pub fn other_line<const N: usize>(out: &mut ArrayVec<u8, N>, head: Head<'_>, addr: u8)
    requires room { length out.old.items + OBJECT ≤ N }
    ensures line { out.new.items ≡ out.old.items ++ object_line (other_object (head_of head.entry) addr).members }
    ensures short { length out.new.items ≤ length out.old.items + OBJECT }
{
    begin_object(out, head, b"other");
    append_byte(out, "device", addr);
    end(out);
}
