//! Hints behind the sentence of a refusal, where its cause is known.
//!
//! Its rows: `tests/rows/log.txt`; `tests_json`, `src/log_lines/`.

ghost use Rattle.std.specs.Prelude.{◌≡◌, ◌+◌, ◌&&◌, ◌≤◌, List, length, option_map};
ghost use Rattle.pmb_bus.specs.declared.event.Event.{Event as BusEvent};
ghost use Rattle.pmb_command.specs.Parts.{DeviceParts};
ghost use Rattle.pmb_json_objects.specs.Seen.{SeenData};
ghost use Rattle.pmb_json_objects.specs.Sees.{Sees};
ghost use Rattle.pmb_partial_packet.specs.PartialPacket.{reply, said_device, sent, written_to};
ghost use Rattle.pmb_partial_packet.specs.Standing.{SaidStandsAt};
ghost use Rattle.pmb_transaction.specs.Capture.{Viable};
ghost use Rattle.pmb_log_lines.specs.Refusals.{device_of, ends_leg, has_off, if_so, is_leg_byte, is_leg_code, is_leg_event, is_leg_end, is_off, is_on, is_unread_code, lacks_code, lacks_write_code, long_hint, missing_hint, off_hint};
ghost use Rattle.pmb_log_data.specs.Appends.{Appends};

use arrayvec::ArrayVec;
use pmb_bus::Event;
use pmb_command::PecMode;
use pmb_json_objects::Seen;
use pmb_log_data::{append, device, is_whole_in, is_whole_write, leg_code, reply_form};
use pmb_partial_packet::PartialPacket;
use pmb_table::DeviceProfile;

/// Appends a hint where it holds.
fn append_if<const N: usize>(out: &mut ArrayVec<u8, N>, holds: bool, hint: &[u8])
    requires { length out.old.items + length hint.now ≤ N }
    ensures { Appends (if_so holds hint.now) (length hint.now) out.old.items out.new.items }
{
    if holds {
        append(out, hint);
    }
}

/// Appends a hint where both hold.
fn append_if_both<const N: usize>(out: &mut ArrayVec<u8, N>, first: bool, second: bool, hint: &[u8])
    requires { length out.old.items + length hint.now ≤ N }
    ensures { Appends (if_so (first && second) hint.now) (length hint.now) out.old.items out.new.items }
{
    if first {
        append_if(out, second, hint);
    }
}

/// Appends that a byte after a reply may be an error code, where the profile says that there is none.
pub(crate) fn append_long_hint<const N: usize>(
    out: &mut ArrayVec<u8, N>,
    seen: &Seen<'_>,
    said: &PartialPacket,
)
    requires { length out.old.items + 60 ≤ N }
    ensures says { (known : SeenData) (front : List BusEvent) → Sees seen.now known → SaidStandsAt said.now front
        → Appends (if_so (has_off (device_of known (said_device front))) long_hint) 60 out.old.items out.new.items }
    ensures longer { length out.new.items ≤ length out.old.items + 60 }
{
    append_if(
        out,
        has_off(device_of(seen, said.device())),
        b" (an error code? pec is \"off\" in the profile)",
    );
}

/// Appends that the error code of a reply is missing, where only that is.
pub(crate) fn append_short_hint<const N: usize>(
    out: &mut ArrayVec<u8, N>,
    seen: &Seen<'_>,
    said: &PartialPacket,
    sent: &[u8],
    replied: &[u8],
)
    requires { length out.old.items + 60 ≤ N }
    ensures says { (known : SeenData) (front : List BusEvent) → Sees seen.now known → SaidStandsAt said.now front
        → Appends (if_so (lacks_code (device_of known (said_device front)) sent.now replied.now) missing_hint) 60 out.old.items out.new.items }
    ensures longer { length out.new.items ≤ length out.old.items + 60 }
{
    append_if(
        out,
        lacks_code(device_of(seen, said.device()), sent, replied),
        b" (the error code is missing: pec is \"on\" in the profile)",
    );
}

/// Appends that a byte after a write is its right error code, where the profile says that there is
/// none.
pub(crate) fn append_off_hint<const N: usize>(
    out: &mut ArrayVec<u8, N>,
    seen: &Seen<'_>,
    said: &PartialPacket,
    event: Option<Event>,
)
    requires { length out.old.items + 60 ≤ N }
    ensures says { (known : SeenData) (profile : List DeviceParts) (front : List BusEvent) → Sees seen.now known → Viable profile front → SaidStandsAt said.now front
        → Appends (if_so (has_off (device_of known (written_to front)) && is_leg_byte (written_to front) (sent front) (reply front) event) off_hint) 60 out.old.items out.new.items }
    ensures longer { length out.new.items ≤ length out.old.items + 60 }
{
    append_if_both(
        out,
        has_off(device_of(seen, said.written_to())),
        is_leg_byte(said, event),
        b" (a right error code: pec is \"off\" in the profile)",
    );
}

/// Appends that the error code of a write is missing, where an event ends the write and only that is.
pub(crate) fn append_end_hint<const N: usize>(
    out: &mut ArrayVec<u8, N>,
    seen: &Seen<'_>,
    said: &PartialPacket,
    sent: &[u8],
    event: Option<Event>,
)
    requires { length out.old.items + 60 ≤ N }
    ensures says { (known : SeenData) (front : List BusEvent) → Sees seen.now known → SaidStandsAt said.now front
        → Appends (if_so (is_leg_end event && lacks_write_code (device_of known (written_to front)) sent.now) missing_hint) 60 out.old.items out.new.items }
    ensures longer { length out.new.items ≤ length out.old.items + 60 }
{
    append_if_both(
        out,
        is_leg_end(event),
        lacks_write_code(device_of(seen, said.written_to()), sent),
        b" (the error code is missing: pec is \"on\" in the profile)",
    );
}

/// The device with an address, if one was said.
fn device_of<'s>(seen: &'s Seen<'_>, addr: Option<u8>) -> Option<&'s DeviceProfile>
    ensures { (known : SeenData) → Sees seen.now known → option_map (λ d. d.now) result ≡ device_of known addr }
{
    match addr {
        Some(addr) => device(seen, addr),
        None => None,
    }
}

/// Whether packets of a device carry no error code.
fn has_off(device: Option<&DeviceProfile>) -> bool
    ensures { result ≡ has_off (option_map (λ d. d.now) device.entry) }
{
    match device {
        Some(device) => is_off(device.pec()),
        None => false,
    }
}

fn is_off(pec: PecMode) -> bool
    ensures { result ≡ is_off pec }
{
    match pec {
        PecMode::Off => true,
        PecMode::On | PecMode::Optional => false,
    }
}

fn is_on(pec: PecMode) -> bool
    ensures { result ≡ is_on pec }
{
    match pec {
        PecMode::On => true,
        PecMode::Off | PecMode::Optional => false,
    }
}

/// Whether an event is the right error code of the written leg under way.
fn is_leg_byte(said: &PartialPacket, event: Option<Event>) -> bool
    ensures { (profile : List DeviceParts) (front : List BusEvent) → Viable profile front → SaidStandsAt said.now front
        → result ≡ is_leg_byte (written_to front) (sent front) (reply front) event }
{
    match event {
        Some(event) => is_leg_event(said, event),
        None => false,
    }
}

/// Whether an event is that.
fn is_leg_event(said: &PartialPacket, event: Event) -> bool
    ensures { (profile : List DeviceParts) (front : List BusEvent) → Viable profile front → SaidStandsAt said.now front
        → result ≡ is_leg_event (written_to front) (sent front) (reply front) event }
{
    match event {
        Event::Byte(byte) => is_unread_code(said.reply(), said.written_to(), said.sent(), byte),
        Event::Start | Event::Ack | Event::Nack | Event::Stop => false,
    }
}

/// Whether a byte is the right error code of a written leg, and no leg is read.
fn is_unread_code(replied: Option<&[u8]>, addr: Option<u8>, sent: Option<&[u8]>, byte: u8) -> bool
    ensures { result ≡ is_unread_code (option_map (λ bytes. bytes.now) replied.entry) addr (option_map (λ bytes. bytes.now) sent.entry) byte }
{
    match replied {
        Some(_) => false,
        None => is_leg_code(addr, sent, byte),
    }
}

/// Whether a byte is the right error code of a written leg.
fn is_leg_code(addr: Option<u8>, sent: Option<&[u8]>, byte: u8) -> bool
    ensures { result ≡ is_leg_code addr (option_map (λ bytes. bytes.now) sent.entry) byte }
{
    let Some(addr) = addr else {
        return false;
    };
    let Some(sent) = sent else {
        return false;
    };
    byte == leg_code(addr, sent)
}

/// Whether only the error code is missing after the bytes of a reply.
fn lacks_code(device: Option<&DeviceProfile>, sent: &[u8], replied: &[u8]) -> bool
    ensures { result ≡ lacks_code (option_map (λ d. d.now) device.entry) sent.now replied.now }
{
    let Some(device) = device else {
        return false;
    };
    is_on(device.pec()) && is_whole_in(reply_form(device, sent), replied)
}

/// Whether an event ends a leg.
fn is_leg_end(event: Option<Event>) -> bool
    ensures { result ≡ is_leg_end event }
{
    match event {
        Some(event) => ends_leg(event),
        None => false,
    }
}

fn ends_leg(event: Event) -> bool
    ensures { result ≡ ends_leg event }
{
    match event {
        Event::Start | Event::Stop => true,
        Event::Byte(_) | Event::Ack | Event::Nack => false,
    }
}

/// Whether only the error code is missing after the bytes of a write.
fn lacks_write_code(device: Option<&DeviceProfile>, sent: &[u8]) -> bool
    ensures { result ≡ lacks_write_code (option_map (λ d. d.now) device.entry) sent.now }
{
    let Some(owner) = device else {
        return false;
    };
    is_on(owner.pec()) && is_whole_write(device, sent) && reply_form(owner, sent).is_none()
}
