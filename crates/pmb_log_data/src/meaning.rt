//! What the bytes of a standard command mean, in words after them.
//!
//! Its rows: `tests/rows/log.txt`; `tests_json`, `src/log_lines/`.

ghost use Rattle.std.specs.Prelude.{◌≡◌, ◌+◌, ◌≤◌, length};
ghost use Rattle.pmb_json_objects.specs.Packets.{exchange_of};
ghost use Rattle.pmb_json_objects.specs.Seen.{SeenData};
ghost use Rattle.pmb_json_objects.specs.Sees.{Sees};
ghost use Rattle.pmb_keys.specs.CommandView.{command_parts};
ghost use Rattle.pmb_meaning.specs.Data.{exchange};
ghost use Rattle.pmb_log_data.specs.Data.{call_meaning, meaning_says};
ghost use Rattle.pmb_log_data.specs.Appends.{Appends};

use crate::seen::device;
use crate::text::append;
use arrayvec::ArrayVec;
use pmb_json_fields::Access;
use pmb_json_objects::Seen;
use pmb_keys::Command;
use pmb_meaning::{Payload, SAYS_WORDS, says_words};
use pmb_table::DeviceProfile;

/// The most bytes of what data mean: a blank, words in brackets.
pub const MEANING: usize = 3 + SAYS_WORDS;

/// The data that are read, or written.
pub(crate) fn payload(access: Access, bytes: &[u8]) -> Payload<'_>
    ensures { exchange result ≡ exchange_of access bytes.now }
{
    match access {
        Access::Read => Payload::Read(bytes),
        Access::Write => Payload::Written(bytes),
    }
}

/// Appends what data of a command mean, in brackets after a blank; nothing where there are no words.
pub(crate) fn append_meaning<const N: usize>(
    out: &mut ArrayVec<u8, N>,
    device: &DeviceProfile,
    command: &Command,
    payload: &Payload<'_>,
)
    requires { length out.old.items + MEANING ≤ N }
    ensures { Appends (meaning_says device.now (command_parts command.now) (exchange payload.now)) MEANING out.old.items out.new.items }
{
    let begin = out.len();
    append(out, b" (");
    says_words(out, device, &command.entry, payload);
    if out.len() > begin + 2 {
        append(out, b")");
    } else {
        out.truncate(begin);
    }
}

/// Appends what a process call with a command of a device means, in brackets after a blank; nothing
/// where there are no words.
pub fn append_call_meaning<const N: usize>(
    out: &mut ArrayVec<u8, N>,
    seen: &Seen<'_>,
    addr: u8,
    code: u8,
    sent: &[u8],
    reply: &[u8],
)
    requires room { length out.old.items + MEANING ≤ N }
    ensures says { (known : SeenData) → Sees seen.now known → Appends (call_meaning known addr code sent.now reply.now) MEANING out.old.items out.new.items }
    ensures longer { length out.new.items ≤ length out.old.items + MEANING }
{
    let Some(device) = device(seen, addr) else {
        return;
    };
    let Some(command) = device.command(code) else {
        return;
    };
    append_meaning(out, device, command, &Payload::Called { sent, reply });
}
