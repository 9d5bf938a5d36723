//! The legs of a transaction's packet, in order.
//!
//! Its rows: `tests_packets`, `src/writer/packets.rt` and `sizes.rt`.

ghost use Rattle.std.specs.Prelude.{◌≡◌, ◌+◌, ◌*◌, ◌≤◌, [], ◌∷◌, ◌++◌, false, true, length, map, option_map, IfSome, List, MatchOption};
ghost use Rattle.std.specs.Option.{option_to_list};
ghost use Rattle.pmb_bus.specs.Event.{canonical_text};
ghost use Rattle.pmb_transaction.specs.Transaction.{part_data, transaction_data, Call, Read, Refused, Write};
ghost use Rattle.pmb_writer.specs.Invalid.{forms_at};
ghost use Rattle.pmb_writer.specs.machine.Legs.{AreWhole, IsWhole, LegData, asked_leg, leg_data, legs_data, legs_events, legs_of, part_leg, reply_leg, wire_of};

use crate::commands::forms_of;
use crate::leg::Leg;
use crate::text::append_event;
use arrayvec::ArrayVec;
use pmb_bus::{ALERT_ADDRESS, Event, read_address, write_address};
use pmb_command::{Form, Shape};
use pmb_table::Profile;
use pmb_transaction::{Part, Transaction};
use std::slice;

/// The forms in which a device takes a command code.
fn forms_at(profile: &Profile, address: u8, code: u8) -> Shape
    ensures { result ≡ forms_at profile.now address code }
{
    let known = match profile.device(address) {
        Some(device) => forms_of(device, code),
        None => None,
    };
    known.unwrap_or(Shape {
        write: None,
        read: None,
        call: None,
    })
}

/// The count that data in the form have before them, where there is a form.
fn count_of(form: Option<Form>, bytes: &[u8]) -> Option<u8>
    requires { length bytes.now ≤ 255 }
    ensures { option_to_list result ++ bytes.now ≡ wire_of form bytes.now }
{
    match form {
        Some(form) => form.count(bytes),
        None => None,
    }
}

/// The legs of a packet that are to come: those of parts, and then up to two others.
#[derive(Clone, Copy, Debug)]
pub(crate) struct LegsToCome<'a> {
    pub profile: &'a Profile,
    pub parts: &'a [Part],
    pub first: Option<Leg<'a>>,
    pub second: Option<Leg<'a>>,
}

/// The leg of a part.
fn part_leg<'a>(profile: &Profile, part: &'a Part) -> Leg<'a>
    ensures leg { leg_data result ≡ part_leg profile.now (part_data part.now) }
    ensures whole { IsWhole result }
{
    let forms = forms_at(profile, part.addr, part.code);
    let data = part.bytes.as_slice();
    Leg {
        address: Some(write_address(part.addr)),
        code: Some(part.code),
        count: count_of(forms.write, data),
        data,
        pec: part.pec,
        last: Event::Ack,
        goes_on: false,
    }
}

impl<'a> LegsToCome<'a> {
    /// Takes the next leg.
    pub fn take_leg(&mut self) -> Option<Leg<'a>>
        ensures { MatchOption result ((legs_data self.old ≡ []) × (legs_data self.new ≡ [])) (λ leg. legs_data self.old ≡ leg_data leg ∷ legs_data self.new) }
    {
        if let Some((part, others)) = self.parts.split_first() {
            self.parts = others;
            return Some(part_leg(self.profile, part));
        }
        if let Some(leg) = self.first {
            self.first = None;
            return Some(leg);
        }
        self.second.take()
    }

    /// Appends the canonical text of the packet of these legs.
    #[inline(always)]
    pub fn append<const N: usize>(&self, text: &mut ArrayVec<u8, N>)
        requires whole { AreWhole self.now }
        requires room { length text.old.items + (1314 * length (legs_data self.now) + 3) ≤ N }
        ensures { text.new.items ≡ text.old.items ++ canonical_text (legs_events true 0 (legs_data self.now)) }
    {
        let mut crc = 0;
        for part in self.parts {
            crc = append_leg(&Some(part_leg(self.profile, part)), crc, text);
        }
        let before_second = append_leg(&self.first, crc, text);
        append_leg(&self.second, before_second, text);
        append_event(Event::Stop, text);
    }
}

/// Appends the canonical text of a leg, where there is one, after bytes with the code `crc`.
/// Returns the code of the bytes so far.
#[inline(always)]
fn append_leg<const N: usize>(leg: &Option<Leg>, crc: u8, text: &mut ArrayVec<u8, N>) -> u8
    requires whole { IfSome leg.now IsWhole }
    requires room { length text.old.items + 1314 * length (option_to_list leg.now) ≤ N }
    ensures text { (others : List LegData) → text.new.items ++ canonical_text (legs_events true result others)
        ≡ text.old.items ++ canonical_text (legs_events true crc (option_to_list (option_map leg_data leg.now) ++ others)) }
    ensures longer { length text.new.items ≤ length text.old.items + 1314 * length (option_to_list leg.now) }
{
    match leg {
        Some(leg) => leg.append(crc, text),
        None => crc,
    }
}

/// A leg that is written, to which each answer is ACK, with a code and the data after it.
fn asked_leg<'a>(address: u8, code: u8, count: Option<u8>, bytes: &'a [u8]) -> Leg<'a>
    requires { length bytes.now ≤ 258 }
    ensures leg { leg_data result ≡ asked_leg address (code ∷ (option_to_list count ++ bytes.now)) }
    ensures whole { IsWhole result }
{
    Leg {
        address: Some(write_address(address)),
        code: Some(code),
        count,
        data: bytes,
        ..Leg::none()
    }
}

/// A leg that is read, the last byte of which NACK answers.
fn reply_leg<'a>(address: u8, count: Option<u8>, bytes: &'a [u8], pec: bool) -> Leg<'a>
    requires { length bytes.now ≤ 258 }
    ensures leg { leg_data result ≡ reply_leg address (option_to_list count ++ bytes.now) pec }
    ensures whole { IsWhole result }
{
    Leg {
        address: Some(read_address(address)),
        count,
        data: bytes,
        pec,
        last: Event::Nack,
        goes_on: true,
        ..Leg::none()
    }
}

/// A leg of an address and bytes after it, the last of which NACK answers.
fn refused_leg<'a>(address: u8, bytes: &'a [u8], pec: bool) -> Leg<'a>
    requires { length bytes.now ≤ 258 }
    ensures leg { leg_data result ≡ record { bytes = address ∷ bytes.now; pec = pec; last = Event.Nack; goes_on = false } }
    ensures whole { IsWhole result }
{
    Leg {
        address: Some(address),
        data: bytes,
        pec,
        last: Event::Nack,
        ..Leg::none()
    }
}

/// The legs of a write.
#[inline]
pub(crate) fn write_legs<'a>(profile: &'a Profile, parts: &'a [Part]) -> LegsToCome<'a>
    ensures legs { legs_data result ≡ legs_of profile.now (Write (map part_data parts.now)) }
    ensures whole { AreWhole result }
{
    LegsToCome {
        profile,
        parts,
        first: None,
        second: None,
    }
}

/// The legs of a read.
#[inline]
pub(crate) fn read_legs<'a>(
    profile: &'a Profile,
    addr: u8,
    code: u8,
    reply: &'a [u8],
    pec: bool,
) -> LegsToCome<'a>
    requires { length reply.now ≤ 255 }
    ensures legs { legs_data result ≡ legs_of profile.now (Read (record { addr = addr; code = code; reply = reply.now; pec = pec })) }
    ensures whole { AreWhole result }
{
    let forms = forms_at(profile, addr, code);
    LegsToCome {
        profile,
        parts: &[],
        first: Some(asked_leg(addr, code, None, &[])),
        second: Some(reply_leg(addr, count_of(forms.read, reply), reply, pec)),
    }
}

/// The legs of a call.
fn call_legs<'a>(
    profile: &'a Profile,
    addr: u8,
    code: u8,
    bytes: &'a [u8],
    reply: &'a [u8],
    pec: bool,
) -> LegsToCome<'a>
    requires sent { length bytes.now ≤ 255 }
    requires replied { length reply.now ≤ 255 }
    ensures legs { legs_data result ≡ legs_of profile.now (Call (record { addr = addr; code = code; bytes = bytes.now; reply = reply.now; pec = pec })) }
    ensures whole { AreWhole result }
{
    let forms = forms_at(profile, addr, code);
    LegsToCome {
        profile,
        parts: &[],
        first: Some(asked_leg(addr, code, count_of(forms.call, bytes), bytes)),
        second: Some(reply_leg(addr, count_of(forms.call, reply), reply, pec)),
    }
}

/// The legs of a refused packet.
fn refused_legs<'a>(
    profile: &'a Profile,
    parts: &'a [Part],
    addr: u8,
    sent: &'a [u8],
    at_read: bool,
) -> LegsToCome<'a>
    requires { length sent.now ≤ 258 }
    ensures legs { legs_data result ≡ legs_of profile.now (Refused (record { parts = map part_data parts.now; addr = addr; sent = sent.now; at_read = at_read })) }
    ensures whole { AreWhole result }
{
    if at_read {
        LegsToCome {
            profile,
            parts,
            first: Some(Leg {
                address: Some(write_address(addr)),
                data: sent,
                ..Leg::none()
            }),
            second: Some(reply_leg(addr, None, &[], false)),
        }
    } else {
        LegsToCome {
            profile,
            parts,
            first: Some(refused_leg(write_address(addr), sent, false)),
            second: None,
        }
    }
}

/// The one leg at the Alert Response Address, with what is read there.
fn alert_legs<'a>(profile: &'a Profile, reply: &'a [u8], pec: bool) -> LegsToCome<'a>
    requires { length reply.now ≤ 258 }
    ensures legs { legs_data result ≡ record { bytes = 0x19 ∷ reply.now; pec = pec; last = Event.Nack; goes_on = false } ∷ [] }
    ensures whole { AreWhole result }
{
    LegsToCome {
        profile,
        parts: &[],
        first: Some(refused_leg(read_address(ALERT_ADDRESS), reply, pec)),
        second: None,
    }
}

/// The legs of a transaction's packet.
pub(crate) fn legs_of<'a>(profile: &'a Profile, transaction: &'a Transaction) -> LegsToCome<'a>
    ensures legs { legs_data result ≡ legs_of profile.now (transaction_data transaction.now) }
    ensures whole { AreWhole result }
{
    match transaction {
        Transaction::Write { parts } => write_legs(profile, parts.as_slice()),
        Transaction::Read {
            addr,
            code,
            reply,
            pec,
        } => read_legs(profile, *addr, *code, reply.as_slice(), *pec),
        Transaction::Call {
            addr,
            code,
            bytes,
            reply,
            pec,
        } => call_legs(
            profile,
            *addr,
            *code,
            bytes.as_slice(),
            reply.as_slice(),
            *pec,
        ),
        Transaction::Refused {
            parts,
            addr,
            sent,
            at_read,
        } => refused_legs(profile, parts.as_slice(), *addr, sent.as_slice(), *at_read),
        Transaction::Alert { byte, pec } => alert_legs(profile, slice::from_ref(byte), *pec),
        Transaction::NoAlert => alert_legs(profile, &[], false),
    }
}
