//! An event of the bus.

ghost use Rattle.std.specs.Prelude.{◌≡◌};
ghost use Rattle.pmb_sigrok_line.specs.Annotation.{is_byte as is_byte_event};

/// An event of the bus, or what else the decoder says of one.
#[derive(Clone, Copy, Debug, PartialEq, Eq)]
pub enum Event {
    /// START of a packet.
    Start,
    /// A repeated START.
    Repeat,
    /// STOP.
    Stop,
    /// ACK where it is `true`, else NACK.
    Answer(bool),
    /// The direction, `Read` where it is `true`, else `Write`.
    Mark(bool),
    /// A bit.
    Bit,
    /// An address as the decoder writes it, after whether it reads.
    Address(bool, u8),
    /// Another byte, after whether it is read.
    Data(bool, u8),
}

impl Event {
    /// Whether it is a byte on the wire.
    pub fn is_byte(self) -> bool
        ensures { result ≡ is_byte_event self }
    {
        match self {
            Event::Address(_, _) | Event::Data(_, _) => true,
            _ => false,
        }
    }
}
