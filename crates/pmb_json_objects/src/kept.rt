//! What the types of the parts of a [`Seen`] say of them. Each function ensures it, and changes nothing.

ghost use Rattle.std.specs.Prelude.{◌<◌, IfSome, option_map};
ghost use Rattle.pmb_keys.specs.CommandView.{command_parts};
ghost use Rattle.pmb_json_objects.specs.Laws.{AreOfWords, HasFormats, IsFormatOfWords, IsNumberOfWords, IsOfWords, IsSeen};
ghost use Rattle.pmb_json_objects.specs.Seen.{SeenData};
ghost use Rattle.pmb_json_objects.specs.Sees.{Sees};

use crate::seen::Seen;
use pmb_coefficients::Direct;
use pmb_command::Kind;
use pmb_keys::Command;
use pmb_table::DeviceProfile;
use pmb_table::laws::accepted_bus;
use pmb_value::{NumberFormat, VoutFormat};

/// The profile of a [`Seen`] is accepted, PAGE and PHASE are bytes, coefficients have 16 bits and make a
/// format, and exponents have five bits: what [`objects_are_json`](crate::laws::objects_are_json) needs of
/// a device and its command.
pub fn what_is_seen_fits(seen: &Seen<'_>, addr: u8, code: u8)
    ensures seen { (known : SeenData) → Sees seen.now known → IsSeen known addr }
    ensures formats { (known : SeenData) → Sees seen.now known → HasFormats known addr code }
{
    accepted_bus(seen.profile);
    is_a_byte(seen.page(addr));
    is_a_byte(seen.phase(addr));
    device_has_words(seen.device(addr));
    command_has_words(seen.command(addr, code));
}

/// PAGE and PHASE are bytes.
fn is_a_byte(selected: Option<u8>)
    ensures { IfSome selected (λ byte. byte < 256) }
{
    let _ = selected;
}

/// The coefficients of a device's output voltage.
fn device_has_words(device: Option<&DeviceProfile>)
    ensures { IfSome (option_map (λ d. d.now) device.entry) (λ d. IfSome d.vout_direct AreOfWords) }
{
    if let Some(device) = device {
        some_are_words(device.vout_direct());
    }
}

/// Those of a command.
fn command_has_words(command: Option<&Command>)
    ensures { IfSome (option_map (λ c. command_parts c.now) command.entry) (λ c. IsOfWords c.entry.kind) }
{
    if let Some(command) = command {
        kind_has_words(command.entry.kind);
    }
}

/// Coefficients, where there are some.
fn some_are_words(coefficients: Option<Direct>)
    ensures { IfSome coefficients AreOfWords }
{
    if let Some(coefficients) = coefficients {
        are_words(coefficients);
    }
}

/// Those of a kind.
fn kind_has_words(kind: Kind)
    ensures { IsOfWords kind }
{
    match kind {
        Kind::Number(format) => number_has_words(format),
        Kind::Raw | Kind::Vout | Kind::VoutSigned | Kind::Status | Kind::Text => {}
    }
}

/// Those of a number format.
fn number_has_words(format: NumberFormat)
    ensures { IsNumberOfWords format }
{
    match format {
        NumberFormat::Word(format) => format_has_words(format),
        NumberFormat::Linear11
        | NumberFormat::Linear11Fixed(_)
        | NumberFormat::Half
        | NumberFormat::Vid(_) => {}
    }
}

/// Those of a format, or its exponent.
fn format_has_words(format: VoutFormat)
    ensures { IsFormatOfWords format }
{
    match format {
        VoutFormat::Unsigned(linear) => {
            let _exponent = linear.exponent();
        }
        VoutFormat::Signed(linear) => {
            let _exponent = linear.exponent();
        }
        VoutFormat::Direct(coefficients) => are_words(coefficients),
    }
}

/// They have 16 bits, and make a format.
fn are_words(coefficients: Direct)
    ensures { AreOfWords coefficients }
{
    let slope = coefficients.m();
    let offset = coefficients.b();
    let _ = (slope, offset);
}
