//! Faults of hosts as text.
//!
//! Its rows: `tests/rows/requests.txt`.

ghost use Rattle.std.specs.Prelude.{◌≡◌, ◌+◌, ◌≤◌, ◌++◌, Bool, ℕ, length};
ghost use Rattle.pmb_run.specs.Answer.{host_fault_text, mode_fault_name, place_text, range_fault_name};

use itoa::Buffer;
use pmb_host::HostFault;
use pmb_line::{FaultText, LineFault};
use pmb_value::{ModeFault, RangeFault};

/// A fault as it is written: the name of its innermost variant, and of a refused byte its place.
pub(crate) fn fault_text(fault: HostFault) -> FaultText
    ensures { result.items ≡ host_fault_text fault }
{
    match fault {
        HostFault::Invalid(invalid) => LineFault::Invalid(invalid).text(),
        HostFault::NotAQuantity => text_of(b"NotAQuantity"),
        HostFault::ModeUnknown => text_of(b"ModeUnknown"),
        HostFault::Mode(fault) => text_of(name_of_mode(fault)),
        HostFault::Range(fault) => text_of(name_of_range(fault)),
        HostFault::Refused { leg, byte, at_read } => refused_text(leg, byte, at_read),
        HostFault::NoByte => text_of(b"NoByte"),
        HostFault::BadPec => text_of(b"BadPec"),
    }
}

fn name_of_mode(fault: ModeFault) -> &'static [u8]
    ensures name { result.now ≡ mode_fault_name fault }
    ensures short { length result.now ≤ 14 }
{
    match fault {
        ModeFault::Relative => b"Relative",
        ModeFault::Vid => b"Vid",
        ModeFault::Ieee => b"Ieee",
        ModeFault::NoCoefficients => b"NoCoefficients",
    }
}

fn name_of_range(fault: RangeFault) -> &'static [u8]
    ensures name { result.now ≡ range_fault_name fault }
    ensures short { length result.now ≤ 14 }
{
    match fault {
        RangeFault::Below => b"Below",
        RangeFault::Above => b"Above",
    }
}

/// Where a byte was refused.
fn refused_text(leg: u8, byte: u16, at_read: bool) -> FaultText
    ensures { result.items ≡ place_text leg byte at_read }
{
    if at_read {
        return text_of(b"refused: read address");
    }
    let mut text = text_of(b"refused: leg ");
    append(&mut text, Buffer::new().format(leg).as_bytes());
    append(&mut text, b" byte ");
    append(&mut text, Buffer::new().format(byte).as_bytes());
    text
}

fn text_of(name: &[u8]) -> FaultText
    requires { length name.now ≤ 32 }
    ensures { result.items ≡ name.now }
{
    let mut text = FaultText::new();
    append(&mut text, name);
    text
}

fn append(line: &mut FaultText, text: &[u8])
    requires { length line.old.items + length text.now ≤ 32 }
    ensures { line.new.items ≡ line.old.items ++ text.now }
{
    let _ = line.try_extend_from_slice(text);
}
