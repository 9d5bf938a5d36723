//! A device by the rules in words.

use crate::plain::legs::{PlainLeg, take};
use crate::plain::registers::PlainRegisters;
use plain_packets::{
    Body, NoPacket, allowed, data_like, form_of, goes_on, is_leg, leg_like, plain_pec, push_wire,
    reply_form,
};
use pmb_command::{Form, Kind, PecMode};
use pmb_device::{DeviceSignal, HostSignal};
use pmb_table::DeviceProfile;
use pmb_value::{NumberFormat, VoutFormat};
use std::alloc::{AllocError, Global};

/// The bits of STATUS_CML.
const BAD_COMMAND: u8 = 0x80;

const BAD_VALUE: u8 = 0x40;

const PEC_FAILED: u8 = 0x20;

/// What STOP does to the registers.
#[derive(Drop)]
enum Effect {
    Nothing,
    /// A bit of STATUS_CML is set.
    Note(u8),
    /// A command is written, with these data; whether it is one that is sent alone.
    Write {
        code: u8,
        alone: bool,
        data: Vec<u8>,
    },
}

/// A complete write: its code and its data.
#[derive(Drop)]
pub struct PlainWrite {
    code: u8,
    data: Vec<u8>,
}

/// A simulated device by the rules in words.
#[derive(Drop)]
pub struct PlainDevice<'p> {
    alloc: Global,
    device: &'p DeviceProfile,
    registers: PlainRegisters<'p>,
    /// The legs since the last STOP; the last one is under way.
    legs: Vec<PlainLeg>,
    /// What was written to it in the packet before the last STOP.
    last_write: Option<PlainWrite>,
}

/// What is against the rules is not so; want of memory is told.
fn so<T: Drop>(found: Result<T, NoPacket>) -> Result<Option<T>, AllocError> {
    match found {
        Ok(value) => Ok(Some(value)),
        Err(NoPacket::AgainstTheRules) => Ok(None),
        Err(NoPacket::Memory) => Err(AllocError),
    }
}

impl<'p> PlainDevice<'p> {
    /// A device in its first state.
    pub fn new(alloc: Global, device: &'p DeviceProfile) -> Result<Self, AllocError> {
        Ok(PlainDevice {
            alloc,
            device,
            registers: PlainRegisters::new(alloc, device)?,
            legs: Vec::new(alloc),
            last_write: None,
        })
    }

    pub fn address(&self) -> u8 {
        self.device.address()
    }

    /// The selected page.
    pub fn page(&self) -> u8 {
        self.registers.page
    }

    /// What a register holds on a page.
    pub fn register(&self, page: u8, code: u8) -> Option<&[u8]> {
        self.registers.register(page, code)
    }

    /// Takes a signal, and answers it.
    pub fn on(&mut self, signal: HostSignal) -> Result<DeviceSignal, AllocError> {
        if signal == HostSignal::Stop {
            let effect = self.effect(self.legs.as_slice())?;
            self.last_write = self.carry_out(effect)?;
            self.legs.clear();
            return Ok(DeviceSignal::Silent);
        }
        let answer = self.answer(self.legs.as_slice(), signal)?;
        take(self.alloc, &mut self.legs, signal, answer)?;
        Ok(answer)
    }

    fn write_byte(&self) -> u8 {
        self.device.address() * 2
    }

    fn read_byte(&self) -> u8 {
        self.device.address() * 2 + 1
    }

    /// The answer after these legs, the last of which is under way.
    fn answer(&self, legs: &[PlainLeg], signal: HostSignal) -> Result<DeviceSignal, AllocError> {
        let Some((leg, earlier)) = legs.split_last() else {
            return Ok(DeviceSignal::Silent);
        };
        match signal {
            HostSignal::Byte(byte) => {
                if leg.bytes.is_empty() {
                    self.to_address(earlier, byte)
                } else if leg.is_taken_by(self.write_byte()) {
                    self.to_data(earlier.is_empty(), leg, byte)
                } else {
                    Ok(DeviceSignal::Silent)
                }
            }
            HostSignal::Ask => self.to_ask(earlier, leg),
            HostSignal::Start | HostSignal::Ack | HostSignal::Nack | HostSignal::Stop => {
                Ok(DeviceSignal::Silent)
            }
        }
    }

    /// Whether it gave ACK to its own address, to be written, in one of these legs.
    fn was_written(&self, legs: &[PlainLeg]) -> bool {
        let own = self.write_byte();
        for leg in legs {
            if leg.is_taken_by(own) {
                return true;
            }
        }
        false
    }

    fn to_address(&self, earlier: &[PlainLeg], byte: u8) -> Result<DeviceSignal, AllocError> {
        if byte == self.write_byte() && !self.was_written(earlier) {
            return Ok(DeviceSignal::Ack);
        }
        if byte == self.read_byte() && self.is_asked(earlier)? {
            return match self.replies(earlier)? {
                Ok(_) => Ok(DeviceSignal::Ack),
                Err(_) => Ok(DeviceSignal::Nack),
            };
        }
        Ok(DeviceSignal::Silent)
    }

    /// Whether these legs are one, its own, with the body of a read or a call.
    fn is_asked(&self, earlier: &[PlainLeg]) -> Result<bool, AllocError> {
        match earlier {
            [leg] if leg.is_to(self.write_byte()) => is_leg(
                self.alloc,
                self.device,
                &[Body::Read, Body::Call],
                leg.bytes.as_slice(),
            ),
            _ => Ok(false),
        }
    }

    /// Whether a byte of its own leg is taken: a body that is allowed there begins so.
    fn takes(&self, first: bool, bytes: &[u8]) -> Result<bool, AllocError> {
        if let [_, 0x00, page] = bytes
            && *page != 0xff
            && *page >= self.device.pages()
        {
            return Ok(false);
        }
        let bodies = allowed(first);
        Ok(
            is_leg(self.alloc, self.device, bodies, bytes)?
                || goes_on(self.alloc, self.device, bodies, bytes)?,
        )
    }

    fn to_data(&self, first: bool, leg: &PlainLeg, byte: u8) -> Result<DeviceSignal, AllocError> {
        if leg.is_refused() {
            return Ok(DeviceSignal::Silent);
        }
        let mut bytes = Vec::from_slice(self.alloc, leg.bytes.as_slice())?;
        bytes.push(byte)?;
        if self.takes(first, bytes.as_slice())? {
            Ok(DeviceSignal::Ack)
        } else {
            Ok(DeviceSignal::Nack)
        }
    }

    /// The bytes of the reply to what the first leg asks, or the bit for which it is refused.
    fn replies(&self, legs: &[PlainLeg]) -> Result<Result<Vec<u8>, u8>, AllocError> {
        let [leg] = legs else {
            return Ok(Err(BAD_COMMAND));
        };
        let bytes = leg.bytes.as_slice();
        let Some(code) = bytes.get(1).copied() else {
            return Ok(Err(BAD_COMMAND));
        };
        if self.registers.page == 0xff && self.registers.is_paged(code) {
            return Ok(Err(BAD_VALUE));
        }
        let body = if bytes.len() == 2 {
            Body::Read
        } else {
            Body::Call
        };
        let mut data = Vec::new(self.alloc);
        if bytes.len() == 2 {
            match self.registers.selected(code) {
                Some(held) => data.extend_from_slice(held)?,
                None => return Ok(Err(BAD_COMMAND)),
            }
        } else if code == 0x30 {
            match bytes {
                [_, _, _, wanted, _] => match self.coefficients(*wanted) {
                    Some(told) => data.extend_from_slice(&told)?,
                    None => return Ok(Err(BAD_VALUE)),
                },
                _ => return Ok(Err(BAD_VALUE)),
            }
        } else {
            return Ok(Err(BAD_COMMAND));
        }
        self.with_wire(bytes, body, code, data.as_slice())
    }

    fn with_wire(
        &self,
        asked: &[u8],
        body: Body,
        code: u8,
        data: &[u8],
    ) -> Result<Result<Vec<u8>, u8>, AllocError> {
        let Some(form) = so(reply_form(self.device, body, code))? else {
            return Ok(Err(BAD_COMMAND));
        };
        let mut wire = Vec::new(self.alloc);
        if so(push_wire(&mut wire, form, data))?.is_none() {
            return Ok(Err(BAD_COMMAND));
        }
        if self.device.pec() != PecMode::Off {
            let mut all = Vec::from_slice(self.alloc, asked)?;
            all.push(self.read_byte())?;
            all.extend_from_slice(wire.as_slice())?;
            wire.push(plain_pec(all.as_slice()))?;
        }
        Ok(Ok(wire))
    }

    /// m, b and R of a command whose numbers may be in DIRECT.
    fn coefficients(&self, code: u8) -> Option<[u8; 5]> {
        let direct = match self.device.entry(code)?.kind {
            Kind::Number(NumberFormat::Word(VoutFormat::Direct(direct))) => direct,
            Kind::Vout | Kind::VoutSigned => self.device.vout_direct()?,
            Kind::Raw | Kind::Number(_) | Kind::Status | Kind::Text => return None,
        };
        let m = direct.m().to_le_bytes();
        let b = direct.b().to_le_bytes();
        let r = direct.r().to_le_bytes();
        Some([m[0], m[1], b[0], b[1], r[0]])
    }

    fn to_ask(&self, earlier: &[PlainLeg], leg: &PlainLeg) -> Result<DeviceSignal, AllocError> {
        if !leg.is_to(self.read_byte()) || !self.is_asked(earlier)? {
            return Ok(DeviceSignal::Silent);
        }
        let Ok(reply) = self.replies(earlier)? else {
            return Ok(DeviceSignal::Silent);
        };
        let mut given: usize = 0;
        let mut waits = false;
        for signal in leg.behind.iter() {
            match signal {
                HostSignal::Ask => {
                    if !waits {
                        given = given.saturating_add(1);
                    }
                    waits = true;
                }
                HostSignal::Ack => waits = false,
                HostSignal::Nack => return Ok(DeviceSignal::Silent),
                HostSignal::Start | HostSignal::Byte(_) | HostSignal::Stop => {}
            }
        }
        match reply.get(given) {
            Some(byte) if !waits => Ok(DeviceSignal::Byte(*byte)),
            _ => Ok(DeviceSignal::Silent),
        }
    }

    /// What STOP does after these legs.
    fn effect(&self, legs: &[PlainLeg]) -> Result<Effect, AllocError> {
        let own = self.write_byte();
        let Some(at) = legs.iter().position(|leg| leg.is_taken_by(own)) else {
            return Ok(Effect::Nothing);
        };
        let (front, behind) = legs.split_at(at);
        let Some((leg, behind)) = behind.split_first() else {
            return Ok(Effect::Nothing);
        };
        if leg.is_refused() {
            return self.refused(front.is_empty(), leg.taken());
        }
        let read = self.read_byte();
        if let [asked, next, ..] = legs
            && next.is_to(read)
            && self.is_asked(std::slice::from_ref(asked))?
        {
            return match self.replies(std::slice::from_ref(asked))? {
                Ok(_) => Ok(Effect::Nothing),
                Err(bit) => Ok(Effect::Note(bit)),
            };
        }
        if behind.iter().any(|leg| leg.is_to(read)) {
            return Ok(Effect::Nothing);
        }
        self.written(leg.bytes.as_slice())
    }

    /// What is noted of a byte that was refused after those that were taken: something where a byte
    /// had a place there.
    fn refused(&self, first: bool, front: &[u8]) -> Result<Effect, AllocError> {
        if front.len() == 1 {
            return Ok(Effect::Note(BAD_COMMAND));
        }
        if !goes_on(self.alloc, self.device, allowed(first), front)? {
            return Ok(Effect::Nothing);
        }
        match front {
            [_, 0x00] => Ok(Effect::Note(BAD_VALUE)),
            _ => Ok(Effect::Note(PEC_FAILED)),
        }
    }

    /// What a leg says that was taken as a whole: other bodies than those of a write do nothing.
    fn written(&self, bytes: &[u8]) -> Result<Effect, AllocError> {
        let [_, code, behind @ ..] = bytes else {
            return Ok(Effect::Nothing);
        };
        for body in allowed(false) {
            if let Some(leg) = so(leg_like(self.alloc, self.device, *body, bytes))?
                && leg.as_slice() == bytes
                && let Some(form) = so(form_of(self.device, *body, *code))?
            {
                return Ok(Effect::Write {
                    code: *code,
                    alone: form == Form::Zero,
                    data: data_like(self.alloc, form, behind)?,
                });
            }
        }
        Ok(Effect::Nothing)
    }

    /// Whether WRITE_PROTECT disables a write, or is to take a value that it doesn't have.
    fn is_disabled(&self, code: u8, data: &[u8]) -> bool {
        if !self.device.protects() {
            return false;
        }
        if code == 0x10 {
            return !matches!(data, [0x80] | [0x40] | [0x20] | [0x00]);
        }
        match self.registers.register(0, 0x10) {
            Some([0x80]) => true,
            Some([0x40]) => code != 0x00 && code != 0x01,
            Some([0x20]) => code > 0x02 && code != 0x21,
            _ => false,
        }
    }

    /// Does it, and returns what was written.
    fn carry_out(&mut self, effect: Effect) -> Result<Option<PlainWrite>, AllocError> {
        match effect {
            Effect::Nothing => Ok(None),
            Effect::Note(bit) => {
                self.registers.note(bit);
                Ok(None)
            }
            Effect::Write { code, alone, data } => {
                self.write(code, alone, data.as_slice())?;
                Ok(Some(PlainWrite { code, data }))
            }
        }
    }

    fn write(&mut self, code: u8, alone: bool, data: &[u8]) -> Result<(), AllocError> {
        if self.is_disabled(code, data) {
            self.registers.note(BAD_VALUE);
            return Ok(());
        }
        self.registers.write(self.alloc, code, alone, data)
    }

    /// What was written to it in the packet before the last STOP.
    pub fn last_write(&self) -> Result<Option<PlainWrite>, AllocError> {
        match &self.last_write {
            Some(write) => Ok(Some(PlainWrite {
                code: write.code,
                data: Vec::from_slice(self.alloc, write.data.as_slice())?,
            })),
            None => Ok(None),
        }
    }

    /// Takes what was written at another address, if it is a write of its own commands.
    pub fn take(&mut self, write: &PlainWrite) -> Result<(), AllocError> {
        let data = write.data.as_slice();
        let form = match self.device.entry(write.code) {
            Some(entry) => entry.shape.write,
            None => None,
        };
        let Some(form) = form else {
            return Ok(());
        };
        let fits = match form {
            Form::Zero => data.is_empty(),
            Form::One => data.len() == 1,
            Form::Two => data.len() == 2,
            Form::Four => data.len() == 4,
            Form::Eight => data.len() == 8,
            Form::Block => true,
        };
        let lacks = match data {
            [page] => write.code == 0x00 && *page != 0xff && *page >= self.device.pages(),
            _ => false,
        };
        if !fits || lacks {
            return Ok(());
        }
        self.write(write.code, form == Form::Zero, data)
    }
}
