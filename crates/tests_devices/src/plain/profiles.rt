//! Profiles with registers of each kind, for tests.

use std::alloc::{AllocError, Global};

/// Three devices with the same commands, one for each way to treat packet error codes: every form,
/// paged and not, first values that differ from page to page, status registers of one byte and of two,
/// commands that are written alone, read alone, or called as well, and coefficients.
pub const EVERY_KIND: &str = r#"[[device]]
address = 0x20
pec = "off"
pages = 3
vout_mode = [0x17, 0x18, 0x40]
standard = false
vout_direct = { m = -2, b = 300, r = -1 }
command = [
    { name = "PAGE" },
    { name = "CLEAR_FAULTS" },
    { name = "VOUT_MODE" },
    { name = "VOUT_COMMAND" },
    { name = "COEFFICIENTS" },
    { name = "STATUS_WORD" },
    { name = "STATUS_CML" },
    { name = "MFR_ID", initial = "414243" },
    { name = "SMBALERT_MASK" },
    { code = 0xe0, write = "block", read = "block", paged = true },
    { code = 0xe1, write = "four", read = "four", paged = true, initial = ["01020304", "05060708", "090a0b0c"] },
    { code = 0xe2, write = "eight", read = "eight" },
    { code = 0xe3, write = "one", read = "one", kind = "status", initial = "ff" },
    { code = 0xe4, write = "two" },
    { code = 0xe5, write = "zero", read = "two" },
    { code = 0xe6, write = "two", read = "two", call = "two", kind = "direct", m = 7, b = -1, r = 2, paged = true },
    { code = 0xe7, read = "block", initial = "aa55" },
    { code = 0xe8, write = "zero", call = "two", paged = true },
]

[[device]]
address = 0x21
pec = "optional"
pages = 2
standard = false
command = [
    { name = "PAGE" },
    { name = "CLEAR_FAULTS" },
    { name = "VOUT_MODE" },
    { name = "VOUT_COMMAND" },
    { name = "COEFFICIENTS" },
    { name = "STATUS_WORD", paged = false, initial = "ffff" },
    { name = "STATUS_CML", paged = false },
    { name = "MFR_ID" },
    { name = "SMBALERT_MASK" },
    { code = 0xe0, write = "block", read = "block", call = "block" },
    { code = 0xe1, write = "four" },
    { code = 0xe5, write = "zero", read = "two", paged = true },
    { code = 0xe6, write = "two", read = "two", call = "two" },
]

[[device]]
address = 0x22
pec = "on"
standard = false
command = [
    { name = "PAGE", read = "none" },
    { name = "CLEAR_FAULTS" },
    { name = "VOUT_COMMAND" },
    { name = "STATUS_CML", read = "none" },
    { code = 0xe0, write = "block", read = "block" },
    { code = 0xe5, write = "zero", read = "two" },
]
"#;

/// Devices that keep to WRITE_PROTECT: one with pages, one that begins with all protected and has no
/// STATUS_CML that can be read; and one that does not keep to it.
pub const PROTECTED: &str = r#"[[device]]
address = 0x20
pec = "off"
pages = 2
protect = true
standard = false
command = [
    { name = "PAGE" },
    { name = "OPERATION" },
    { name = "ON_OFF_CONFIG" },
    { name = "CLEAR_FAULTS" },
    { name = "PAGE_PLUS_WRITE" },
    { name = "WRITE_PROTECT" },
    { name = "VOUT_COMMAND" },
    { name = "VOUT_MARGIN_HIGH" },
    { name = "STATUS_CML" },
    { code = 0xe5, write = "zero", read = "two" },
]

[[device]]
address = 0x21
pec = "optional"
protect = true
standard = false
command = [
    { name = "OPERATION" },
    { name = "CLEAR_FAULTS" },
    { name = "WRITE_PROTECT", initial = "80" },
    { name = "VOUT_COMMAND" },
    { name = "STATUS_CML", read = "none" },
]

[[device]]
address = 0x22
pec = "on"
protect = false
standard = false
command = [
    { name = "WRITE_PROTECT", initial = "80" },
    { name = "VOUT_COMMAND" },
    { name = "STATUS_CML" },
]
"#;

/// Devices that take what is written at other addresses: one that lists its own too, one that keeps to
/// WRITE_PROTECT, and one that lists a device which lists it. 5bh is the global address of all three: some
/// of its commands they lack, or have in another form or for other pages.
pub const OTHERS: &str = r#"[[device]]
address = 0x20
pec = "off"
pages = 3
also = [0x5b, 0x20, 0x22]
standard = false
command = [
    { name = "PAGE" },
    { name = "OPERATION" },
    { name = "CLEAR_FAULTS" },
    { name = "VOUT_COMMAND" },
    { name = "STATUS_CML" },
    { code = 0xe0, write = "two", read = "two" },
    { code = 0xe1, write = "block", read = "block", paged = true },
    { code = 0xe2, write = "one", read = "one" },
    { code = 0xe3, read = "one" },
    { code = 0xe5, write = "zero", read = "two" },
]

[[device]]
address = 0x5b
pec = "optional"
pages = 4
standard = false
command = [
    { name = "PAGE" },
    { name = "OPERATION" },
    { name = "CLEAR_FAULTS" },
    { name = "WRITE_PROTECT" },
    { name = "VOUT_COMMAND" },
    { name = "STATUS_CML" },
    { code = 0xe0, write = "two", read = "two" },
    { code = 0xe1, write = "block", read = "block", call = "block" },
    { code = 0xe2, write = "block", read = "block" },
    { code = 0xe3, write = "one", read = "one" },
    { code = 0xe5, write = "zero" },
]

[[device]]
address = 0x21
pec = "optional"
pages = 2
protect = true
also = [0x5b]
standard = false
command = [
    { name = "PAGE" },
    { name = "OPERATION" },
    { name = "CLEAR_FAULTS" },
    { name = "WRITE_PROTECT" },
    { name = "VOUT_COMMAND" },
    { name = "STATUS_CML" },
    { code = 0xe0, write = "one", read = "one" },
]

[[device]]
address = 0x22
pec = "on"
also = [0x20, 0x22, 0x5b]
standard = false
command = [
    { name = "OPERATION" },
    { name = "VOUT_COMMAND" },
    { name = "STATUS_CML", read = "none" },
    { code = 0xe0, write = "two", read = "two" },
]
"#;

/// What the text of 64 devices begins with; one item of it, but for its address; and its end.
const MANY_FRONT: &str = "device = [\n";

const MANY_ITEM: &str =
    ", pec = 'optional', pages = 2, standard = false, command = [{ name = 'PAGE' }, { name = 'CLEAR_FAULTS' }, { name = 'VOUT_COMMAND' }, { name = 'STATUS_CML' }] },\n";

const MANY_END: &str = "]\n";

fn push_text(text: &mut Vec<u8>, more: &str) -> Result<(), AllocError> {
    text.extend_from_slice(more.as_bytes())?;
    Ok(())
}

/// A profile of 64 devices, at 10h to 4fh.
pub fn many_devices(alloc: Global) -> Result<Vec<u8>, AllocError> {
    let mut text = Vec::new(alloc);
    push_text(&mut text, MANY_FRONT)?;
    for address in 0x10u8..0x50 {
        push_text(&mut text, "    { address = ")?;
        text.push(b'0' + address / 10)?;
        text.push(b'0' + address % 10)?;
        push_text(&mut text, MANY_ITEM)?;
    }
    push_text(&mut text, MANY_END)?;
    Ok(text)
}
