//! What is said of a write, a read and a call.
//!
//! Its rows: `tests/rows/log.txt`; `tests_json`, `src/log_lines/`.

ghost use Rattle.std.specs.Prelude.{◌≡◌, ◌+◌, ◌≤◌, length};
ghost use Rattle.pmb_command.specs.Parts.{device_with};
ghost use Rattle.pmb_json_objects.specs.Seen.{SeenData, command_at, entry_at};
ghost use Rattle.pmb_json_objects.specs.Sees.{Sees};
ghost use Rattle.pmb_transaction.specs.Transaction.{part_data};
ghost use Rattle.pmb_log_lines.specs.Packets.{call_says, command_phase, is_of_phases, is_register, one_phase_says, part_says, phase_says, read_says, verb, verb_of_kind, write_says, written_says};
ghost use Rattle.pmb_log_data.specs.Appends.{Appends};

use arrayvec::ArrayVec;
use itoa::Buffer;
use pmb_command::Kind;
use pmb_command_data::has_phases;
use pmb_json_fields::Access;
use pmb_json_objects::Seen;
use pmb_log_data::{
    DATA, append, append_bytes, append_call_meaning, append_data, append_number, command, device,
    entry, phase,
};
use pmb_transaction::Part;

/// The most bytes of what is said of a packet: `clear `, data, a phase and a part.
pub(crate) const PACKET: usize = 6 + DATA + 16 + 52;

/// Appends which part of how many a line is; nothing where it is the only one.
pub(crate) fn append_part<const N: usize>(out: &mut ArrayVec<u8, N>, part: u64, parts: u64)
    requires { length out.old.items + 52 ≤ N }
    ensures { Appends (part_says part parts) 52 out.old.items out.new.items }
{
    if parts > 1 {
        append(out, b" (part ");
        append_number(out, part);
        append(out, b" of ");
        append_number(out, parts);
        append(out, b")");
    }
}

/// Whether a command of a device has a value for each phase.
fn is_of_phases(seen: &Seen<'_>, addr: u8, code: u8) -> bool
    ensures { (known : SeenData) → Sees seen.now known
        → result ≡ is_of_phases (device_with addr known.profile) (command_at known addr code) }
{
    let Some(device) = device(seen, addr) else {
        return false;
    };
    match command(seen, addr, code) {
        Some(command) => has_phases(device, command),
        None => false,
    }
}

/// Appends the selected phase of a command that has a value for each phase.
fn append_phase<const N: usize>(out: &mut ArrayVec<u8, N>, seen: &Seen<'_>, addr: u8, code: u8)
    requires { length out.old.items + 16 ≤ N }
    ensures says { (known : SeenData) → Sees seen.now known → Appends (command_phase known addr code) 16 out.old.items out.new.items }
    ensures longer { length out.new.items ≤ length out.old.items + 16 }
{
    if is_of_phases(seen, addr, code) {
        append_selected_phase(out, phase(seen, addr));
    }
}

/// Appends a phase, all of them, or that it isn't known.
fn append_selected_phase<const N: usize>(out: &mut ArrayVec<u8, N>, phase: Option<u8>)
    requires { length out.old.items + 16 ≤ N }
    ensures { Appends (phase_says phase) 16 out.old.items out.new.items }
{
    match phase {
        None => append(out, b" (phase unknown)"),
        Some(0xff) => append(out, b" (all phases)"),
        Some(phase) => append_one_phase(out, phase),
    }
}

/// Appends one phase.
fn append_one_phase<const N: usize>(out: &mut ArrayVec<u8, N>, phase: u8)
    requires { length out.old.items + 16 ≤ N }
    ensures { Appends (one_phase_says phase) 16 out.old.items out.new.items }
{
    append(out, b" (phase ");
    append(out, Buffer::new().format(phase).as_bytes());
    append(out, b")");
}

/// Appends what a part of a write says.
pub(crate) fn append_write<const N: usize>(
    out: &mut ArrayVec<u8, N>,
    seen: &Seen<'_>,
    part: u64,
    parts: u64,
    written: &Part,
)
    requires room { length out.old.items + PACKET ≤ N }
    ensures says { (known : SeenData) → Sees seen.now known → Appends (write_says known part parts (part_data written.now)) PACKET out.old.items out.new.items }
    ensures longer { length out.new.items ≤ length out.old.items + PACKET }
{
    append_written(
        out,
        seen,
        written.addr,
        written.code,
        written.bytes.as_slice(),
    );
    append_part(out, part, parts);
}

/// Appends what was written with a command.
fn append_written<const N: usize>(
    out: &mut ArrayVec<u8, N>,
    seen: &Seen<'_>,
    addr: u8,
    code: u8,
    bytes: &[u8],
)
    requires few { length bytes.now ≤ 255 }
    requires room { length out.old.items + (6 + DATA + 16) ≤ N }
    ensures says { (known : SeenData) → Sees seen.now known → Appends (written_says known addr code bytes.now) (6 + DATA + 16) out.old.items out.new.items }
    ensures longer { length out.new.items ≤ length out.old.items + (6 + DATA + 16) }
{
    if bytes.is_empty() {
        append(out, b"sent");
    } else {
        append(out, verb(seen, addr, code, bytes));
        append_data(out, seen, Access::Write, addr, code, bytes);
        append_phase(out, seen, addr, code);
    }
}

/// What a write with a command does.
fn verb(seen: &Seen<'_>, addr: u8, code: u8, bytes: &[u8]) -> &'static [u8]
    ensures text { (known : SeenData) → Sees seen.now known → result.now ≡ verb (entry_at known addr code) bytes.now }
    ensures short { length result.now ≤ 6 }
{
    match entry(seen, addr, code) {
        Some(entry) => verb_of_kind(entry.kind, bytes),
        None => b"write ",
    }
}

/// A write to a status register clears bits.
fn verb_of_kind(kind: Kind, bytes: &[u8]) -> &'static [u8]
    ensures text { result.now ≡ verb_of_kind kind bytes.now }
    ensures short { length result.now ≤ 6 }
{
    match kind {
        Kind::Status if is_register(bytes) => b"clear ",
        _ => b"write ",
    }
}

/// Whether these are the bytes of a register: one, or two.
fn is_register(bytes: &[u8]) -> bool
    ensures { result ≡ is_register bytes.now }
{
    match bytes {
        [_] | [_, _] => true,
        _ => false,
    }
}

/// Appends what a read says.
pub(crate) fn append_read<const N: usize>(
    out: &mut ArrayVec<u8, N>,
    seen: &Seen<'_>,
    addr: u8,
    code: u8,
    reply: &[u8],
)
    requires few { length reply.now ≤ 255 }
    requires room { length out.old.items + PACKET ≤ N }
    ensures says { (known : SeenData) → Sees seen.now known → Appends (read_says known addr code reply.now) PACKET out.old.items out.new.items }
    ensures longer { length out.new.items ≤ length out.old.items + PACKET }
{
    append_data(out, seen, Access::Read, addr, code, reply);
    append_phase(out, seen, addr, code);
}

/// Appends what a process call says.
pub(crate) fn append_call<const N: usize>(
    out: &mut ArrayVec<u8, N>,
    seen: &Seen<'_>,
    addr: u8,
    code: u8,
    sent: &[u8],
    reply: &[u8],
)
    requires sent { length sent.now ≤ 255 }
    requires reply { length reply.now ≤ 255 }
    requires room { length out.old.items + PACKET ≤ N }
    ensures says { (known : SeenData) → Sees seen.now known → Appends (call_says known addr code sent.now reply.now) PACKET out.old.items out.new.items }
    ensures longer { length out.new.items ≤ length out.old.items + PACKET }
{
    append(out, b"call ");
    append_bytes(out, sent);
    append(out, b", reply ");
    append_bytes(out, reply);
    append_call_meaning(out, seen, addr, code, sent, reply);
}
