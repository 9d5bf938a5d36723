//! What a device does in the packet under way, without its registers.
//!
//! [`LegPhase`] says what it does with the signals of the leg under way: what each phase says of the
//! signals that came stands in `specs/machine/Standing`. In its own leg a byte is taken or refused
//! as it comes; what the leg does is told at STOP. Its registers are needed at two places alone:
//! where it is read and was asked something ([`Heard::Read`]), and at STOP ([`DevicePacket::outcome`]).
//! To legs of others it is silent, and each of their signals is one comparison.
//!
//! Its rows: `tests_devices`, `src/devices/calls.rt`, `sessions.rt`, `random.rt`.

ghost use Rattle.std.specs.Prelude.{◌≡◌, ◌≢◌, ◌≤◌, ◌↔◌, ◌∷◌, [], ◌++◌, ℕ, List, IsTrue, Ok, Err, Some, None, IfSome, length, false, true};
ghost use Rattle.pmb_command.specs.Parts.{DeviceParts};
ghost use Rattle.pmb_bus.specs.Address.{write_address, read_address};
ghost use Rattle.pmb_transaction.specs.Reason.{Whether};
ghost use Rattle.pmb_registers.specs.State.{DeviceState};
ghost use Rattle.pmb_registers.specs.Answer.{answer};
ghost use Rattle.pmb_registers.specs.Apply.{bit_of_sent};
ghost use Rattle.pmb_device.specs.declared.signal.HostSignal.TheVariants.{Start, Byte, Ask, Ack, Nack};
ghost use Rattle.pmb_device.specs.declared.signal.DeviceSignal.TheVariants as answers;
ghost use Rattle.pmb_device.specs.Legs.{Legs, Outside, with_signal};
ghost use Rattle.pmb_device.specs.Rules.{Answers, GoesOn, IsPageValue, TakesByte};
ghost use Rattle.pmb_device.specs.Ends.{Ends, Took};
ghost use Rattle.pmb_device.specs.DevicePacket.{HasFewBytes, Hears, IsAskedIn, IsTakenOutcome, KeepsWrite, StandsIn, TellsWrite, after_outcome, written_part};
ghost use Rattle.pmb_device.specs.machine.Standing.{IsAskable, is_own_first};

use crate::reply::put_reply;
use crate::signal::DeviceSignal;
use arrayvec::ArrayVec;
use pmb_leg::{LegPlace, WriteContent, WrittenLeg};
use pmb_registers::CmlBit;
use pmb_table::DeviceProfile;
use pmb_table::laws::accepted_device;

/// The result of a byte of the host.
#[derive(Clone, Copy, Debug, PartialEq, Eq)]
pub enum Heard {
    /// The device says nothing.
    Silent,
    /// It takes the byte.
    Ack,
    /// It refuses the byte.
    Nack,
    /// It is read, after the body of [`DevicePacket::body`]: whether it answers is for its registers to
    /// tell, and [`DevicePacket::reply`] or [`DevicePacket::refuse`] has to follow.
    Read,
}

/// What a packet does to a device's registers.
#[derive(Clone, Copy, Debug)]
pub enum Effect<'a> {
    /// Nothing.
    Nothing,
    /// A write takes effect.
    Write { code: u8, bytes: &'a [u8] },
    /// A refusal is noted in STATUS_CML.
    Note(CmlBit),
}

/// What a device does with the signals of a leg.
#[derive(Clone, Copy, Debug, PartialEq, Eq)]
pub(crate) enum LegPhase {
    /// No START came since the last STOP.
    Outside,
    /// It has no part in the leg, or none any more.
    Deaf,
    /// It replies.
    Reply,
    /// START came, and no byte after it.
    Start,
    /// It takes the bytes of its own leg.
    Written,
}

/// What a device does in the packet under way.
#[derive(Drop)]
pub struct DevicePacket<'p> {
    device: &'p DeviceProfile,
    phase: LegPhase,
    /// Which leg of its packet the one under way is.
    place: LegPlace,
    /// Whether the packet's first leg is its own, and the leg under way stands directly after it.
    behind_first: bool,
    /// Whether a leg of the packet is its own; the four fields below speak of that one.
    own: bool,
    /// Whether it refused a byte of it.
    refused: bool,
    /// Whether its address for reading came after it.
    read: bool,
    /// What it notes in STATUS_CML at STOP.
    noted: Option<CmlBit>,
    /// The bytes that it took in it.
    leg: WrittenLeg<'p>,
    /// The bytes of the reply under way, with its count and its packet error code.
    reply: ArrayVec<u8, 257>,
    /// How many of them were given.
    given: usize,
    /// Whether the last one waits for the host's ACK.
    waits: bool,
}

/// Whether a byte is no page number that the device lacks: after the code of PAGE alone it is a
/// page of the device, or ffh for all of them.
fn is_page_value(device: &DeviceProfile, bytes: &[u8], byte: u8) -> bool
    ensures { IsTrue result ↔ IsPageValue device.now bytes.now byte }
{
    match bytes {
        [0x00] => byte < device.pages() || byte == 0xff,
        _ => true,
    }
}

/// What is noted where a byte is refused after these.
fn refusal_bit(bytes: &[u8]) -> CmlBit
    ensures { (byte : ℕ) → Some result ≡ bit_of_sent (bytes.now ++ byte ∷ []) }
{
    match bytes {
        [] => CmlBit::BadCommand,
        [0x00] => CmlBit::BadValue,
        _ => CmlBit::PecFailed,
    }
}

/// Takes a byte in a leg that is written to the device, and tells whether it did. Else nothing
/// changes.
fn take_byte(leg: &mut WrittenLeg, device: &DeviceProfile, byte: u8) -> bool
    ensures takes { leg.old.device ≡ device.now → (IsTrue result ↔ TakesByte device.now leg.old.place leg.old.bytes byte) }
    ensures taken { IsTrue result → leg.new ≡ record leg.old { bytes = leg.old.bytes ++ byte ∷ [] } }
    ensures refused { result ≡ false → leg.new ≡ leg.old }
{
    if !is_page_value(device, leg.bytes(), byte) {
        return false;
    }
    leg.take(byte)
}

/// What is noted where a byte is refused in a leg: something, where a byte had a place there.
fn refusal_noted(leg: &WrittenLeg) -> Option<CmlBit>
    ensures { (byte : ℕ) → Whether (GoesOn leg.now.device leg.now.place leg.now.bytes)
        (result ≡ bit_of_sent (leg.now.bytes ++ byte ∷ [])) (result ≡ None) }
{
    if leg.goes_on() {
        Some(refusal_bit(leg.bytes()))
    } else {
        None
    }
}

/// Whether a leg that ends is its packet's first, where some leg of the packet is the device's own.
fn is_own_first(place: LegPlace, own: bool) -> bool
    ensures { result ≡ is_own_first place own }
{
    match place {
        LegPlace::First => own,
        LegPlace::Later => false,
    }
}

impl<'p> DevicePacket<'p> {
    /// No START has come.
    pub fn new(device: &'p DeviceProfile) -> Self
        ensures { (state : DeviceState) → StandsIn result device.now state Outside }
    {
        accepted_device(device);
        DevicePacket {
            device,
            phase: LegPhase::Outside,
            place: LegPlace::First,
            behind_first: false,
            own: false,
            refused: false,
            read: false,
            noted: None,
            leg: WrittenLeg::new(device, LegPlace::First),
            reply: ArrayVec::new(),
            given: 0,
            waits: false,
        }
    }

    /// Begins a leg.
    pub fn start(&mut self)
        ensures { (device : DeviceParts) (state : DeviceState) (legs : Legs) → StandsIn self.old device state legs
            → StandsIn self.new device state (with_signal legs Start) }
    {
        if let LegPhase::Outside = self.phase {
            self.begin_packet();
        } else {
            self.begin_later();
        }
    }

    /// Begins the first leg of a packet.
    fn begin_packet(&mut self)
        requires { self.old.phase ≡ LegPhase.Outside }
        ensures { (device : DeviceParts) (state : DeviceState) (legs : Legs) → StandsIn self.old device state legs
            → StandsIn self.new device state (with_signal legs Start) }
    {
        self.place = LegPlace::First;
        self.behind_first = false;
        self.own = false;
        self.phase = LegPhase::Start;
    }

    /// Begins a later one.
    fn begin_later(&mut self)
        requires { self.old.phase ≢ LegPhase.Outside }
        ensures { (device : DeviceParts) (state : DeviceState) (legs : Legs) → StandsIn self.old device state legs
            → StandsIn self.new device state (with_signal legs Start) }
    {
        self.behind_first = is_own_first(self.place, self.own);
        self.place = LegPlace::Later;
        self.phase = LegPhase::Start;
    }

    /// Takes a byte of the host.
    #[inline]
    pub fn byte(&mut self, byte: u8) -> Heard
        ensures { (device : DeviceParts) (state : DeviceState) (legs : Legs) → StandsIn self.old device state legs
            → Hears device state legs byte result self.new }
    {
        match self.phase {
            LegPhase::Outside | LegPhase::Deaf | LegPhase::Reply => Heard::Silent,
            LegPhase::Start => self.address(byte),
            LegPhase::Written => self.data_byte(byte),
        }
    }

    /// Takes the first byte of a leg.
    fn address(&mut self, byte: u8) -> Heard
        requires { self.old.phase ≡ LegPhase.Start }
        ensures { (device : DeviceParts) (state : DeviceState) (legs : Legs) → StandsIn self.old device state legs
            → Hears device state legs byte result self.new }
    {
        let address = self.device.address() * 2;
        if self.own {
            if byte == address + 1 {
                self.be_read()
            } else {
                self.phase = LegPhase::Deaf;
                Heard::Silent
            }
        } else if byte == address {
            self.begin_own();
            Heard::Ack
        } else {
            self.phase = LegPhase::Deaf;
            Heard::Silent
        }
    }

    /// Takes its own address for reading, after its own leg.
    fn be_read(&mut self) -> Heard
        requires phase { self.old.phase ≡ LegPhase.Start }
        requires own { self.old.own ≡ true }
        ensures { (device : DeviceParts) (state : DeviceState) (legs : Legs) → StandsIn self.old device state legs
            → Hears device state legs (read_address self.old.device.now.address) result self.new }
    {
        let asked = self.is_asked();
        self.read = true;
        self.phase = LegPhase::Deaf;
        if asked { Heard::Read } else { Heard::Silent }
    }

    /// Begins its own leg.
    fn begin_own(&mut self)
        requires phase { self.old.phase ≡ LegPhase.Start }
        requires first { self.old.own ≡ false }
        ensures { (device : DeviceParts) (state : DeviceState) (legs : Legs) → StandsIn self.old device state legs
            → Hears device state legs (write_address self.old.device.now.address) Heard.Ack self.new }
    {
        self.own = true;
        self.refused = false;
        self.read = false;
        self.noted = None;
        self.leg.restart(self.device, self.place);
        self.phase = LegPhase::Written;
    }

    /// Whether its registers have to answer what its own leg asks, directly after that.
    fn is_asked(&self) -> bool
        ensures asked { IsTrue result → IsAskable self.now }
        ensures not_asked { result ≡ false → IsAskable self.now → ⊥ }
    {
        self.behind_first && !self.refused && self.leg.asked().is_some()
    }

    /// Takes or refuses a byte after the address of its own leg.
    fn data_byte(&mut self, byte: u8) -> Heard
        requires { self.old.phase ≡ LegPhase.Written }
        ensures { (device : DeviceParts) (state : DeviceState) (legs : Legs) → StandsIn self.old device state legs
            → Hears device state legs byte result self.new }
    {
        if take_byte(&mut self.leg, self.device, byte) {
            return Heard::Ack;
        }
        self.noted = refusal_noted(&self.leg);
        self.refused = true;
        self.phase = LegPhase::Deaf;
        Heard::Nack
    }

    /// What the device is asked: the code and the bytes after it in its own leg.
    pub fn body(&self) -> &[u8]
        ensures { (device : DeviceParts) (state : DeviceState) (legs : Legs) (byte : ℕ) (body : List ℕ)
            → IsAskedIn self.now device state legs byte body → result.now ≡ body }
    {
        self.leg.bytes()
    }

    /// Answers what the device is asked with these data, without the count of a block and without a
    /// packet error code.
    pub fn reply(&mut self, content: &[u8])
        requires { length content.now ≤ 255 }
        ensures { (device : DeviceParts) (state : DeviceState) (legs : Legs) (byte : ℕ) (body : List ℕ)
            → IsAskedIn self.old device state legs byte body → answer device state body ≡ Ok content.now
            → Hears device state legs byte Heard.Ack self.new }
    {
        put_reply(&mut self.reply, self.device, &self.leg, content);
        self.given = 0;
        self.waits = false;
        self.phase = LegPhase::Reply;
    }

    /// Refuses what the device is asked.
    pub fn refuse(&mut self, bit: CmlBit)
        ensures { (device : DeviceParts) (state : DeviceState) (legs : Legs) (byte : ℕ) (body : List ℕ)
            → IsAskedIn self.old device state legs byte body → answer device state body ≡ Err bit
            → Hears device state legs byte Heard.Nack self.new }
    {
        self.noted = Some(bit);
        self.phase = LegPhase::Deaf;
    }

    /// Gives the next byte of the reply under way.
    pub fn ask(&mut self) -> DeviceSignal
        ensures { (device : DeviceParts) (state : DeviceState) (legs : Legs) → StandsIn self.old device state legs
            → Answers device state legs Ask result × StandsIn self.new device state (with_signal legs Ask) }
    {
        let LegPhase::Reply = self.phase else {
            return DeviceSignal::Silent;
        };
        if self.waits {
            return DeviceSignal::Silent;
        }
        match self.reply.as_slice().get(self.given) {
            Some(byte) => {
                let byte = *byte;
                self.given += 1;
                self.waits = true;
                DeviceSignal::Byte(byte)
            }
            None => DeviceSignal::Silent,
        }
    }

    /// Takes an ACK.
    #[inline]
    pub fn ack(&mut self)
        ensures { (device : DeviceParts) (state : DeviceState) (legs : Legs) → StandsIn self.old device state legs
            → StandsIn self.new device state (with_signal legs Ack) }
    {
        self.waits = false;
    }

    /// Takes a NACK, which ends a reply.
    #[inline]
    pub fn nack(&mut self)
        ensures { (device : DeviceParts) (state : DeviceState) (legs : Legs) → StandsIn self.old device state legs
            → StandsIn self.new device state (with_signal legs Nack) }
    {
        if let LegPhase::Reply = self.phase {
            self.phase = LegPhase::Deaf;
        }
    }

    /// What the packet does to the device's registers at STOP.
    pub fn outcome(&self) -> Effect<'_>
        ensures ends { (device : DeviceParts) (state : DeviceState) (legs : Legs) → StandsIn self.now device state legs
            → Ends device legs state (after_outcome device result state) }
        ensures taken { (device : DeviceParts) (state : DeviceState) (legs : Legs) → StandsIn self.now device state legs
            → IsTakenOutcome device result }
        ensures few { HasFewBytes result }
        ensures tells { (device : DeviceParts) (state : DeviceState) (legs : Legs) → StandsIn self.now device state legs
            → TellsWrite self.now device legs result }
    {
        if let LegPhase::Outside = self.phase {
            return Effect::Nothing;
        }
        if !self.own {
            return Effect::Nothing;
        }
        if let Some(bit) = self.noted {
            return Effect::Note(bit);
        }
        if self.refused || self.read {
            return Effect::Nothing;
        }
        match self.leg.says() {
            Some(said) => Effect::Write {
                code: said.code,
                bytes: said.bytes,
            },
            None => Effect::Nothing,
        }
    }

    /// The complete write whose bytes are kept: those of the device's own leg, up to its next one.
    pub fn kept(&self) -> Option<WriteContent<'_>>
        ensures took { (device : DeviceParts) (legs : Legs) → KeepsWrite self.now device legs
            → Took device legs (written_part device result) }
        ensures few { IfSome result (λ content. length content.bytes.now ≤ 255) }
    {
        self.leg.says()
    }

    /// Ends the packet.
    #[inline]
    pub fn end(&mut self)
        ensures ended { (device : DeviceParts) (state new_state : DeviceState) (legs : Legs) → StandsIn self.old device state legs
            → StandsIn self.new device new_state Outside }
        ensures keeps { (device : DeviceParts) (legs : Legs) → KeepsWrite self.old device legs
            → KeepsWrite self.new device legs }
    {
        self.phase = LegPhase::Outside;
    }
}
