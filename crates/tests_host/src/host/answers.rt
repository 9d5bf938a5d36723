//! What devices answer to a host: well, nearly well, or without sense.

use plain_packets::{Random, plain_pec};
use pmb_device::{DeviceSignal, HostSignal};
use std::alloc::AllocError;

/// A signal, and the answer to it.
#[derive(Clone, Copy, Debug)]
pub(crate) struct Heard {
    pub(crate) signal: HostSignal,
    pub(crate) answer: DeviceSignal,
}

/// How signals are answered.
#[derive(Clone, Copy, Debug)]
enum Manner {
    /// ACK to each byte, and a reply with the right packet error code.
    Well,
    /// The same, but the signal after so many others is answered by anything.
    WellBut(usize),
    /// The same, but a packet error code differs in these bits.
    WrongPec(u8),
    /// Each signal is answered by anything.
    Anyhow,
    /// Each signal is answered so.
    Always(DeviceSignal),
}

/// A device that is drawn by lot.
#[derive(Drop)]
pub(crate) struct Answering {
    manner: Manner,
    /// The reply as it is on the wire, without packet error code.
    reply: Vec<u8>,
    /// How many bytes of it were given.
    given: usize,
    /// The bytes on the wire so far.
    covered: Vec<u8>,
    /// How many signals were answered.
    answered: usize,
}

/// Any answer.
fn any(random: &mut Random) -> DeviceSignal {
    match random.below(4) {
        0 => DeviceSignal::Silent,
        1 => DeviceSignal::Ack,
        2 => DeviceSignal::Nack,
        _ => DeviceSignal::Byte(random.byte()),
    }
}

/// Any manner; of the nearly good ones, one that differs within so many signals.
fn any_manner(random: &mut Random, most: usize) -> Manner {
    match random.below(12) {
        0..4 => Manner::Well,
        4..8 => Manner::WellBut(random.below(most)),
        8 | 9 => Manner::WrongPec(random.byte() | 1),
        10 => Manner::Anyhow,
        _ => Manner::Always(any(random)),
    }
}

impl Answering {
    /// One with this reply, which answers otherwise than well, if at all, within so many signals.
    pub(crate) fn new(random: &mut Random, reply: Vec<u8>, most: usize) -> Answering {
        let alloc = *reply.allocator();
        Answering {
            manner: any_manner(random, most),
            reply,
            given: 0,
            covered: Vec::new(alloc),
            answered: 0,
        }
    }

    /// The next byte of the reply, and after them all the packet error code of all bytes.
    fn next_byte(&self) -> u8 {
        match self.reply.get(self.given) {
            Some(byte) => *byte,
            None => plain_pec(self.covered.as_slice()) ^ self.wrong_bits(),
        }
    }

    /// In which bits a packet error code is wrong.
    fn wrong_bits(&self) -> u8 {
        match self.manner {
            Manner::WrongPec(bits) => bits,
            _ => 0,
        }
    }

    /// A good answer.
    fn good(&self, signal: HostSignal) -> DeviceSignal {
        match signal {
            HostSignal::Byte(_) => DeviceSignal::Ack,
            HostSignal::Ask => DeviceSignal::Byte(self.next_byte()),
            _ => DeviceSignal::Silent,
        }
    }

    /// The answer to the next signal.
    fn chosen(&self, random: &mut Random, signal: HostSignal) -> DeviceSignal {
        match self.manner {
            Manner::Anyhow => any(random),
            Manner::Always(answer) => answer,
            Manner::WellBut(place) if place == self.answered => any(random),
            _ => self.good(signal),
        }
    }

    /// Answers the next signal.
    pub(crate) fn answer(
        &mut self,
        random: &mut Random,
        signal: HostSignal,
    ) -> Result<Heard, AllocError> {
        let answer = self.chosen(random, signal);
        self.answered = self.answered.saturating_add(1);
        if let HostSignal::Byte(byte) = signal {
            self.covered.push(byte)?;
        }
        if let (HostSignal::Ask, DeviceSignal::Byte(byte)) = (signal, answer) {
            self.given = self.given.saturating_add(1);
            self.covered.push(byte)?;
        }
        Ok(Heard { signal, answer })
    }
}
