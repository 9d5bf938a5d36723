//! The line that tells a line's fault.
//!
//! Its rows: `tests/rows/lines.txt`.

ghost use Rattle.std.specs.Prelude.{◌≡◌, ◌+◌, ◌≤◌, ◌++◌, length};
ghost use Rattle.pmb_build.specs.Answer.{numbered_text};

use arrayvec::ArrayVec;
use itoa::Buffer;

/// The line of a fault, with its LF.
pub type FaultLine = ArrayVec<u8, 64>;

/// The line that tells the fault of the line with a number, by a text of at most 32 bytes.
pub fn numbered_line(number: u64, fault: &[u8]) -> FaultLine
    requires { length fault.now ≤ 32 }
    ensures { result.items ≡ numbered_text number fault.now }
{
    let mut line = FaultLine::new();
    append(&mut line, b"# line ");
    append(&mut line, Buffer::new().format(number).as_bytes());
    append(&mut line, b": ");
    append(&mut line, fault);
    append(&mut line, b"\n");
    line
}

fn append(line: &mut FaultLine, text: &[u8])
    requires { length line.old.items + length text.now ≤ 64 }
    ensures { line.new.items ≡ line.old.items ++ text.now }
{
    let _ = line.try_extend_from_slice(text);
}
