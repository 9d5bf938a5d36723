//! The line that tells how a request ended.
//!
//! Its rows: `tests/rows/requests.txt`.

ghost use Rattle.std.specs.Prelude.{◌≡◌, ◌+◌, ◌≤◌, ◌++◌, ◌∷◌, [], length};
ghost use Rattle.hex.specs.Hex.{encode_lower};
ghost use Rattle.pmb_host.specs.Steps.{reply_data};
ghost use Rattle.pmb_run.specs.Answer.{bytes_text, end_text, reply_text, result_line};

use crate::fault::fault_text;
use arrayvec::ArrayVec;
use pmb_host::{HostStep, Reply};

/// The line of a result, with its LF.
pub(crate) type ResultLine = ArrayVec<u8, 768>;

/// The line of a host's end.
pub(crate) fn end_line(end: &HostStep) -> ResultLine
    ensures { result.items ≡ result_line (end_text end.now) }
{
    let mut line = ResultLine::new();
    append(&mut line, b"# ");
    append_end(&mut line, end);
    append(&mut line, b"\n");
    line
}

/// Appends how a host ended: at most 764 bytes.
fn append_end(line: &mut ResultLine, end: &HostStep)
    requires { length line.old.items ≤ 3 }
    ensures appended { line.new.items ≡ line.old.items ++ end_text end.now }
    ensures short { length line.new.items ≤ length line.old.items + 764 }
{
    match end {
        HostStep::Done(reply) => append_reply(line, reply),
        HostStep::Failed(fault) => append(line, fault_text(*fault).as_slice()),
        HostStep::Send(_) => {}
    }
}

/// Appends a reply: `done`, its bytes, its value, or `raw` for a word without one.
fn append_reply(line: &mut ResultLine, reply: &Reply)
    requires { length line.old.items ≤ 3 }
    ensures appended { line.new.items ≡ line.old.items ++ reply_text (reply_data reply.now) }
    ensures short { length line.new.items ≤ length line.old.items + 764 }
{
    match reply {
        Reply::Written => append(line, b"done"),
        Reply::Bytes(bytes) => append_bytes(line, bytes.as_slice()),
        Reply::Value(value) => append(line, value.text().as_bytes()),
        Reply::NoValue => append(line, b"raw"),
    }
}

/// Appends bytes with a space between each two, or that there are none.
fn append_bytes(line: &mut ResultLine, bytes: &[u8])
    requires some_room { length line.old.items ≤ 3 }
    requires few { length bytes.now ≤ 255 }
    ensures appended { line.new.items ≡ line.old.items ++ bytes_text bytes.now }
    ensures short { length line.new.items ≤ length line.old.items + 764 }
{
    let [first, rest @ ..] = bytes else {
        append(line, b"empty");
        return;
    };
    append_byte(line, *first);
    for byte in rest {
        append(line, b" ");
        append_byte(line, *byte);
    }
}

/// Appends the two digits of a byte.
fn append_byte(line: &mut ResultLine, byte: u8)
    requires { length line.old.items + 2 ≤ 768 }
    ensures { line.new.items ≡ line.old.items ++ encode_lower (byte ∷ []) }
{
    let mut digits = [0; 2];
    let _ = hex::encode_to_slice([byte], &mut digits);
    append(line, &digits);
}

fn append(line: &mut ResultLine, text: &[u8])
    requires { length line.old.items + length text.now ≤ 768 }
    ensures { line.new.items ≡ line.old.items ++ text.now }
{
    let _ = line.try_extend_from_slice(text);
}
