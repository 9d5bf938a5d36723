//! From events to the written legs of packets.
//!
//! A packet begins with START and ends with STOP. A leg of it is whole where each of its bytes has ACK,
//! and STOP follows, or START and the address of another leg that is written, as in a group; or START and
//! its own address to read from, and bytes of a reply, of which the last one may have NACK, and STOP.
//!
//! Its rows: `tests/rows/scan.txt`.

use crate::leg::{Leg, LegBytes, Said};
use pmb_bus::{Event, pec_next};

/// A written leg so far: each of its bytes has its ACK.
#[derive(Clone, Copy, Debug, PartialEq, Eq)]
struct Written {
    address: u8,
    code: Option<u8>,
    sent: LegBytes,
    /// The packet error code of its bytes.
    pec: u8,
}

impl Written {
    /// The leg that an address byte begins.
    fn new(byte: u8) -> Written {
        Written {
            address: byte / 2,
            code: None,
            sent: LegBytes::NONE,
            pec: pec_next(0, byte),
        }
    }

    /// With one byte more.
    fn with(self, byte: u8) -> Written {
        let pec = pec_next(self.pec, byte);
        match self.code {
            None => Written {
                address: self.address,
                code: Some(byte),
                sent: self.sent,
                pec,
            },
            Some(code) => Written {
                address: self.address,
                code: Some(code),
                sent: self.sent.with(byte),
                pec,
            },
        }
    }

    /// Whether a byte is its address to read from.
    fn is_read_by(self, byte: u8) -> bool {
        byte % 2 == 1 && byte / 2 == self.address
    }

    /// The leg, if it says this. Without a code there is none.
    fn leg(self, said: Said, pec: u8) -> Option<Leg> {
        match self.code {
            Some(code) => Some(Leg {
                address: self.address,
                code,
                said,
                is_checked: pec == 0,
            }),
            None => None,
        }
    }

    /// The leg, as one that is not whole.
    fn cut(self) -> Option<Leg> {
        self.leg(Said::Cut, self.pec)
    }

    /// The leg, as one that writes.
    fn wrote(self) -> Option<Leg> {
        self.leg(Said::Wrote(self.sent), self.pec)
    }
}

/// A leg and the bytes of the reply to it so far, each of which has its ACK.
#[derive(Clone, Copy, Debug, PartialEq, Eq)]
struct Replied {
    written: Written,
    reply: LegBytes,
    /// The packet error code of the bytes of both.
    pec: u8,
}

impl Replied {
    /// With one byte more.
    fn with(self, byte: u8) -> Replied {
        Replied {
            written: self.written,
            reply: self.reply.with(byte),
            pec: pec_next(self.pec, byte),
        }
    }

    /// The leg with its reply.
    fn asked(self) -> Option<Leg> {
        if self.reply.is_empty() {
            return self.written.cut();
        }
        self.written.leg(
            Said::Asked {
                sent: self.written.sent,
                reply: self.reply,
            },
            self.pec,
        )
    }
}

/// Where a reader stands.
#[derive(Clone, Copy, Debug, PartialEq, Eq)]
enum LegState {
    /// Before the START of a packet.
    Outside,
    /// After START; a leg before it may be whole.
    Started(Option<Written>),
    /// After an address byte; the leg before is given where it is the one that is read from.
    Addressed { byte: u8, before: Option<Written> },
    /// After an ACK of a written leg.
    Sent(Written),
    /// After a byte of it.
    SentByte { written: Written, byte: u8 },
    /// After an ACK of a reply.
    Reply(Replied),
    /// After a byte of it.
    ReplyByte { replied: Replied, byte: u8 },
    /// After the NACK of its last byte.
    ReplyEnd(Replied),
    /// In what is left of a leg that says no more.
    Passed,
}

/// Where a reader stands after an event with which a leg says no more.
fn behind(event: Event) -> LegState {
    match event {
        Event::Start => LegState::Started(None),
        Event::Stop => LegState::Outside,
        Event::Byte(_) | Event::Ack | Event::Nack => LegState::Passed,
    }
}

/// The leg that is not whole, if there is one.
fn cut(before: Option<Written>) -> Option<Leg> {
    match before {
        Some(written) => written.cut(),
        None => None,
    }
}

impl LegState {
    /// Where it stands after one event more, and the leg that ended with it.
    fn after(self, event: Event) -> (LegState, Option<Leg>) {
        match self {
            LegState::Outside => match event {
                Event::Start => (LegState::Started(None), None),
                _ => (LegState::Outside, None),
            },
            LegState::Started(before) => after_start(before, event),
            LegState::Addressed { byte, before } => after_address(byte, before, event),
            LegState::Sent(written) => after_ack(written, event),
            LegState::SentByte { written, byte } => match event {
                Event::Ack => (LegState::Sent(written.with(byte)), None),
                _ => (behind(event), written.cut()),
            },
            LegState::Reply(replied) => match event {
                Event::Byte(byte) => (LegState::ReplyByte { replied, byte }, None),
                Event::Stop => (LegState::Outside, replied.asked()),
                _ => (behind(event), replied.written.cut()),
            },
            LegState::ReplyByte { replied, byte } => match event {
                Event::Ack => (LegState::Reply(replied.with(byte)), None),
                Event::Nack => (LegState::ReplyEnd(replied.with(byte)), None),
                _ => (behind(event), replied.written.cut()),
            },
            LegState::ReplyEnd(replied) => match event {
                Event::Stop => (LegState::Outside, replied.asked()),
                _ => (behind(event), replied.written.cut()),
            },
            LegState::Passed => (behind(event), None),
        }
    }

    /// The leg that the events end in, which is not whole.
    fn end(self) -> Option<Leg> {
        match self {
            LegState::Outside | LegState::Passed => None,
            LegState::Started(before) | LegState::Addressed { before, .. } => cut(before),
            LegState::Sent(written) | LegState::SentByte { written, .. } => written.cut(),
            LegState::Reply(replied)
            | LegState::ReplyByte { replied, .. }
            | LegState::ReplyEnd(replied) => replied.written.cut(),
        }
    }
}

/// After START, behind a leg or at the beginning of a packet.
fn after_start(before: Option<Written>, event: Event) -> (LegState, Option<Leg>) {
    let Event::Byte(byte) = event else {
        return (behind(event), cut(before));
    };
    match before {
        Some(written) if written.is_read_by(byte) => (LegState::Addressed { byte, before }, None),
        Some(written) if byte % 2 == 0 => (
            LegState::Addressed { byte, before: None },
            written.wrote(),
        ),
        _ => (LegState::Addressed { byte, before: None }, cut(before)),
    }
}

/// After an address byte.
fn after_address(byte: u8, before: Option<Written>, event: Event) -> (LegState, Option<Leg>) {
    if event != Event::Ack {
        return (behind(event), cut(before));
    }
    match before {
        Some(written) => (
            LegState::Reply(Replied {
                written,
                reply: LegBytes::NONE,
                pec: pec_next(written.pec, byte),
            }),
            None,
        ),
        None if byte % 2 == 0 => (LegState::Sent(Written::new(byte)), None),
        None => (LegState::Passed, None),
    }
}

/// After an ACK of a written leg.
fn after_ack(written: Written, event: Event) -> (LegState, Option<Leg>) {
    match event {
        Event::Byte(byte) => (LegState::SentByte { written, byte }, None),
        Event::Start if written.code.is_some() => (LegState::Started(Some(written)), None),
        Event::Stop => (LegState::Outside, written.wrote()),
        _ => (behind(event), written.cut()),
    }
}

/// Reads the events of a capture, and tells of each written leg once.
#[derive(Clone, Copy, Debug)]
pub(crate) struct LegReader {
    state: LegState,
}

impl LegReader {
    /// No event came.
    pub(crate) fn new() -> LegReader {
        LegReader {
            state: LegState::Outside,
        }
    }

    /// Takes the next event, and returns the leg that ended with it.
    pub(crate) fn take(&mut self, event: Event) -> Option<Leg> {
        let (state, leg) = self.state.after(event);
        self.state = state;
        leg
    }

    /// Whether a packet is under way.
    pub(crate) fn is_inside(&self) -> bool {
        self.state != LegState::Outside
    }

    /// The end of the events: the leg that they end in, which is not whole.
    pub(crate) fn end(&mut self) -> Option<Leg> {
        let leg = self.state.end();
        self.state = LegState::Outside;
        leg
    }
}
