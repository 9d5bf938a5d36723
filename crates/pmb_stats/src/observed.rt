//! What a fact tells of a command of a device.
//!
//! Its rows: `tests/rows/stats.txt`, bits and numbers.

ghost use Rattle.std.specs.Prelude.{◌≡◌, List, Option, ℕ};
ghost use Rattle.pmb_facts.specs.Fact.{WhatData};
ghost use Rattle.pmb_facts.specs.Stands.{Stands};
ghost use Rattle.pmb_json_objects.specs.Seen.{SeenData};
ghost use Rattle.pmb_json_objects.specs.Sees.{Sees};
ghost use Rattle.pmb_keys.specs.CommandView.{command_parts};
ghost use Rattle.pmb_observed.specs.Observing.{number_seen, observed, read_at, register_of, replied, spot_of, written};
ghost use Rattle.pmb_stats.specs.machine.Observed.{told};

use crate::place::{page_key, phase_key};
use crate::word::{number_of, register_of};
use pmb_command::Kind;
use pmb_facts::What;
use pmb_json_objects::Seen;
use pmb_keys::Command;
use pmb_mean::Number;
use pmb_observed::{Spot, phases_of};
use pmb_table::DeviceProfile;
use pmb_voltage::Voltages;

/// What a fact tells of a command of a device, on a page, in a phase.
pub(crate) enum Observed {
    Nothing,
    /// A status register was read, and held this word.
    Read { spot: Spot, word: u16 },
    /// A number was read or written.
    Number { spot: Spot, number: Number },
}

/// What a fact tells, by what is known where its packet begins.
pub(crate) fn observe(seen: &Seen<'_>, what: What<'_>) -> Observed
    ensures { (known : SeenData) (said : WhatData) (time : Option (List ℕ)) → Sees seen.now known → Stands what.entry said
        → told time result ≡ observed known time said }
{
    match what {
        What::Write { written, .. } => observe_written(
            seen,
            written.addr,
            written.code,
            written.bytes.as_slice(),
        ),
        What::Read {
            addr,
            code,
            reply,
            ..
        } => observe_reply(seen, addr, code, reply),
        What::Call { .. }
        | What::Refused { .. }
        | What::Alert { .. }
        | What::NoAlert
        | What::Other { .. }
        | What::Refusal { .. }
        | What::BadToken { .. } => Observed::Nothing,
    }
}

/// What data tell that were written to a command of a device.
fn observe_written(seen: &Seen<'_>, addr: u8, code: u8, bytes: &[u8]) -> Observed
    ensures { (known : SeenData) (time : Option (List ℕ)) → Sees seen.now known → told time result ≡ written known addr code bytes.now }
{
    let Some(device) = seen.profile.device(addr) else {
        return Observed::Nothing;
    };
    let Some(command) = device.command(code) else {
        return Observed::Nothing;
    };
    observe_number(seen, addr, code, device, command, bytes)
}

/// What data tell that were read: a status register or a number.
fn observe_reply(seen: &Seen<'_>, addr: u8, code: u8, bytes: &[u8]) -> Observed
    ensures { (known : SeenData) (time : Option (List ℕ)) → Sees seen.now known → told time result ≡ replied known addr code bytes.now time }
{
    let Some(device) = seen.profile.device(addr) else {
        return Observed::Nothing;
    };
    let Some(command) = device.command(code) else {
        return Observed::Nothing;
    };
    match command.entry.kind {
        Kind::Status => observe_register(seen, addr, code, device, command, bytes),
        Kind::Raw | Kind::Number(_) | Kind::Vout | Kind::VoutSigned | Kind::Text => {
            observe_number(seen, addr, code, device, command, bytes)
        }
    }
}

/// What data of a command tell as a number.
fn observe_number(
    seen: &Seen<'_>,
    addr: u8,
    code: u8,
    device: &DeviceProfile,
    command: &Command,
    bytes: &[u8],
) -> Observed
    ensures { (known : SeenData) (time : Option (List ℕ)) → Sees seen.now known
        → told time result ≡ number_seen known addr code device.now (command_parts command.now) bytes.now }
{
    let voltages = Voltages {
        mode: seen.late.mode(addr),
        page: seen.late.page(addr),
        coefficients: device.vout_direct(),
        vid: device.vid(),
    };
    let kind = command.entry.kind;
    let number = number_of(&voltages, seen.basis(addr), code, kind, bytes);
    match number {
        Some(number) => Observed::Number {
            spot: spot_of(seen, addr, code, device, command),
            number,
        },
        None => Observed::Nothing,
    }
}

/// What a status register tells that was read.
fn observe_register(
    seen: &Seen<'_>,
    addr: u8,
    code: u8,
    device: &DeviceProfile,
    command: &Command,
    bytes: &[u8],
) -> Observed
    ensures { (known : SeenData) (time : Option (List ℕ)) → Sees seen.now known
        → told time result ≡ read_at (spot_of known addr code device.now (command_parts command.now)) (register_of bytes.now time) }
{
    match register_of(bytes) {
        Some(word) => Observed::Read {
            spot: spot_of(seen, addr, code, device, command),
            word,
        },
        None => Observed::Nothing,
    }
}

/// The spot of a command of a device, on the page and in the phase that are selected.
fn spot_of(seen: &Seen<'_>, addr: u8, code: u8, device: &DeviceProfile, command: &Command) -> Spot
    ensures { (known : SeenData) → Sees seen.now known → result ≡ spot_of known addr code device.now (command_parts command.now) }
{
    Spot {
        addr,
        code,
        page: page_key(device.pages(), command.entry.paged, seen.late.page(addr)),
        phase: phase_key(phases_of(device, command), seen.late.phase(addr)),
    }
}
