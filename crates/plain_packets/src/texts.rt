//! Captures and profiles as rows of tests tell them.

use arrayvec::ArrayVec;
use pmb_bus::{Event, Lexer, Step};
use pmb_transaction::Part;
use std::alloc::{AllocError, Global};

/// The events that a capture text spells.
pub fn events(alloc: Global, text: &str) -> Result<Vec<Event>, AllocError> {
    let mut events = Vec::new(alloc);
    let mut lexer = Lexer::new();
    let mut rest = text.as_bytes();
    for _ in 0..text.len() {
        let lexed = lexer.feed(rest);
        rest = &rest[lexed.used..];
        match lexed.step {
            Step::Event(event) => events.push(event)?,
            Step::Need | Step::Fault(_) => break,
        }
    }
    if let Ok(Some(event)) = lexer.finish() {
        events.push(event)?;
    }
    Ok(events)
}

/// A part with data, as far as they fit.
pub fn part(addr: u8, code: u8, data: &[u8], pec: bool) -> Part {
    let mut bytes = ArrayVec::new();
    let _ = bytes.try_extend_from_slice(data);
    Part {
        addr,
        code,
        bytes,
        pec,
    }
}

/// A device with commands of four and eight bytes, and one that is called with two.
pub const LONG_FORMS: &str = r#"[[device]]
address = 0x10
pec = "optional"

[[device.command]]
code = 0xe0
write = "four"
read = "four"

[[device.command]]
code = 0xe1
read = "eight"

[[device.command]]
code = 0xe2
call = "two"
"#;

/// 17 devices without packet error codes, 10h to 20h, each with CLEAR_FAULTS alone.
pub const SEVENTEEN_DEVICES: &str = r#"device = [
    { address = 0x10, pec = 'off', standard = false, command = [{ code = 3, write = 'zero' }] },
    { address = 0x11, pec = 'off', standard = false, command = [{ code = 3, write = 'zero' }] },
    { address = 0x12, pec = 'off', standard = false, command = [{ code = 3, write = 'zero' }] },
    { address = 0x13, pec = 'off', standard = false, command = [{ code = 3, write = 'zero' }] },
    { address = 0x14, pec = 'off', standard = false, command = [{ code = 3, write = 'zero' }] },
    { address = 0x15, pec = 'off', standard = false, command = [{ code = 3, write = 'zero' }] },
    { address = 0x16, pec = 'off', standard = false, command = [{ code = 3, write = 'zero' }] },
    { address = 0x17, pec = 'off', standard = false, command = [{ code = 3, write = 'zero' }] },
    { address = 0x18, pec = 'off', standard = false, command = [{ code = 3, write = 'zero' }] },
    { address = 0x19, pec = 'off', standard = false, command = [{ code = 3, write = 'zero' }] },
    { address = 0x1a, pec = 'off', standard = false, command = [{ code = 3, write = 'zero' }] },
    { address = 0x1b, pec = 'off', standard = false, command = [{ code = 3, write = 'zero' }] },
    { address = 0x1c, pec = 'off', standard = false, command = [{ code = 3, write = 'zero' }] },
    { address = 0x1d, pec = 'off', standard = false, command = [{ code = 3, write = 'zero' }] },
    { address = 0x1e, pec = 'off', standard = false, command = [{ code = 3, write = 'zero' }] },
    { address = 0x1f, pec = 'off', standard = false, command = [{ code = 3, write = 'zero' }] },
    { address = 0x20, pec = 'off', standard = false, command = [{ code = 3, write = 'zero' }] },
]
"#;

/// Seventeen devices without packet error codes, from 10h on, with the commands of the standard.
pub fn seventeen_devices(alloc: Global) -> Result<String, AllocError> {
    let mut text = String::new(alloc);
    for address in 0x10u8..0x21 {
        text.push_str(format!(in alloc;
            "[[device]]\naddress = {address}\npec = \"off\"\n"
        )?.as_str())?;
    }
    Ok(text)
}
