//! What the rows of a table give.

ghost use Rattle.std.specs.Prelude.{◌≡◌, ◌≤◌, IfSome};
ghost use Rattle.pmb_csv.specs.Fields.{record_of};
ghost use Rattle.pmb_saleae.specs.Row.{number_in};
ghost use Rattle.pmb_saleae.specs.Table.{address, data_byte, event_of as event_in, is_written_so as written_so, settled as settled_by};
ghost use Rattle.pmb_saleae.specs.Table.{up_to as number_up_to};

use crate::number::{Number, Radix};
use crate::row::{Kind, Row};
use pmb_recording::WireByte;

/// What a row gives.
#[derive(Clone, Copy, Debug, PartialEq, Eq)]
pub(crate) enum Event {
    /// START, or a repeated START.
    Start,
    /// STOP.
    Stop,
    /// An address with its direction.
    Address(WireByte),
    /// Another byte.
    Data(WireByte),
}

/// The radix of a recording after a number: the first settles it.
pub(crate) fn settled(radix: Option<Radix>, number: Option<Number>) -> Option<Radix>
    ensures { result ≡ settled_by radix number }
{
    match (radix, number) {
        (Some(radix), _) => Some(radix),
        (None, Some(first)) => Some(first.radix),
        (None, None) => None,
    }
}

/// What a row gives, if that makes sense.
pub(crate) fn event_of(radix: Option<Radix>, row: &Row<'_>, number: Option<Number>) -> Option<Event>
    requires { number ≡ number_in row.now.columns (record_of row.now.line.now) }
    ensures { result ≡ event_in radix row.now.columns (record_of row.now.line.now) }
{
    match row.kind() {
        Kind::Start => Some(Event::Start),
        Kind::Stop => Some(Event::Stop),
        Kind::Address => address_event(up_to(0x7f, radix, number), row.ack(), row.read()),
        Kind::Data => data_event(up_to(0xff, radix, number), row.ack()),
        Kind::Other => None,
    }
}

/// An address with its direction and its answer.
fn address_event(
    number: Option<u8>,
    is_acknowledged: Option<bool>,
    reads: Option<bool>,
) -> Option<Event>
    requires { IfSome number (λ number. number ≤ 0x7f) }
    ensures { result ≡ address number is_acknowledged reads }
{
    let number = number?;
    let is_acknowledged = is_acknowledged?;
    let direction = u8::from(reads?);
    Some(Event::Address(WireByte {
        follows_start: true,
        byte: number * 2 + direction,
        is_acknowledged,
    }))
}

/// A byte of data with its answer.
fn data_event(byte: Option<u8>, is_acknowledged: Option<bool>) -> Option<Event>
    ensures { result ≡ data_byte byte is_acknowledged }
{
    Some(Event::Data(WireByte {
        follows_start: false,
        byte: byte?,
        is_acknowledged: is_acknowledged?,
    }))
}

/// A number up to a greatest one, in the radix that is settled.
fn up_to(most: u8, radix: Option<Radix>, number: Option<Number>) -> Option<u8>
    ensures value { result ≡ number_up_to most radix number }
    ensures within { IfSome result (λ value. value ≤ most) }
{
    let number = number?;
    if !is_written_so(radix, number.radix) || number.value > u64::from(most) {
        return None;
    }
    Some(number.value as u8)
}

/// Whether a number is written in the radix that is settled.
fn is_written_so(settled: Option<Radix>, radix: Radix) -> bool
    ensures { result ≡ written_so settled radix }
{
    match settled {
        Some(first) => first == radix,
        None => false,
    }
}
