//! The protocols of SMBus.

ghost use Rattle.std.specs.Prelude.{◌≡◌, ◌≤◌, IfSome};
ghost use Rattle.pmb_smbus.specs.Protocols.{has_command as command_in, is_call as calls, is_protocol as is_same_protocol, may_have_code as code_in};
ghost use Rattle.pmb_smbus.specs.Protocols.{off_wire as bytes_off_wire, protocol_of, reads_alone as does_read_alone};
ghost use Rattle.pmb_smbus.specs.Protocols.{reply_length as length_of_reply, written_length as length_written};

/// The protocols of SMBus that the kernel names.
#[derive(Clone, Copy, Debug, PartialEq, Eq)]
pub enum Protocol {
    /// Quick Command.
    Quick,
    /// Send Byte, Receive Byte.
    Byte,
    /// Write Byte, Read Byte.
    ByteData,
    /// Write Word, Read Word.
    WordData,
    /// Process Call.
    ProcCall,
    /// Block Write, Block Read.
    BlockData,
    /// Block Write-Block Read Process Call.
    BlockProcCall,
    /// Bytes without a count, which is none of SMBus.
    I2cBlockData,
}

impl Protocol {
    /// The protocol of a name.
    pub(crate) fn of(name: &[u8]) -> Option<Protocol>
        ensures { result ≡ protocol_of name.now }
    {
        if name == b"QUICK".as_slice() {
            Some(Protocol::Quick)
        } else if name == b"BYTE".as_slice() {
            Some(Protocol::Byte)
        } else if name == b"BYTE_DATA".as_slice() {
            Some(Protocol::ByteData)
        } else if name == b"WORD_DATA".as_slice() {
            Some(Protocol::WordData)
        } else if name == b"PROC_CALL".as_slice() {
            Some(Protocol::ProcCall)
        } else if name == b"BLOCK_DATA".as_slice() {
            Some(Protocol::BlockData)
        } else if name == b"BLOCK_PROC_CALL".as_slice() {
            Some(Protocol::BlockProcCall)
        } else if name == b"I2C_BLOCK_DATA".as_slice() {
            Some(Protocol::I2cBlockData)
        } else {
            None
        }
    }

    /// Whether it is the same protocol.
    pub(crate) fn is(self, other: Protocol) -> bool
        ensures { result ≡ is_same_protocol self other }
    {
        self == other
    }

    /// Whether it writes and then reads.
    pub(crate) fn is_call(self) -> bool
        ensures { result ≡ calls self }
    {
        match self {
            Protocol::ProcCall | Protocol::BlockProcCall => true,
            Protocol::Quick
            | Protocol::Byte
            | Protocol::ByteData
            | Protocol::WordData
            | Protocol::BlockData
            | Protocol::I2cBlockData => false,
        }
    }

    /// Whether it reads without writing a command code before.
    pub(crate) fn reads_alone(self) -> bool
        ensures { result ≡ does_read_alone self }
    {
        match self {
            Protocol::Quick | Protocol::Byte => true,
            Protocol::ByteData
            | Protocol::WordData
            | Protocol::ProcCall
            | Protocol::BlockData
            | Protocol::BlockProcCall
            | Protocol::I2cBlockData => false,
        }
    }

    /// Whether it writes a command code: Send Byte's is its byte.
    pub(crate) fn has_command(self) -> bool
        ensures { result ≡ command_in self }
    {
        match self {
            Protocol::Quick => false,
            Protocol::Byte
            | Protocol::ByteData
            | Protocol::WordData
            | Protocol::ProcCall
            | Protocol::BlockData
            | Protocol::BlockProcCall
            | Protocol::I2cBlockData => true,
        }
    }

    /// Whether it may have a packet error code.
    pub(crate) fn may_have_code(self) -> bool
        ensures { result ≡ code_in self }
    {
        match self {
            Protocol::Quick | Protocol::I2cBlockData => false,
            Protocol::Byte
            | Protocol::ByteData
            | Protocol::WordData
            | Protocol::ProcCall
            | Protocol::BlockData
            | Protocol::BlockProcCall => true,
        }
    }

    /// How many of the bytes that an event shows are not on the wire: the count of a block that has
    /// none there.
    pub(crate) fn off_wire(self) -> u8
        ensures value { result ≡ bytes_off_wire self }
        ensures small { result ≤ 1 }
    {
        match self {
            Protocol::I2cBlockData => 1,
            Protocol::Quick
            | Protocol::Byte
            | Protocol::ByteData
            | Protocol::WordData
            | Protocol::ProcCall
            | Protocol::BlockData
            | Protocol::BlockProcCall => 0,
        }
    }

    /// How many bytes `smbus_write` shows, or `None` where the first of them says so.
    pub(crate) fn written_length(self) -> Option<u64>
        ensures value { result ≡ length_written self }
        ensures small { IfSome result (λ length. length ≤ 2) }
    {
        match self {
            Protocol::Quick | Protocol::Byte => Some(0),
            Protocol::ByteData => Some(1),
            Protocol::WordData | Protocol::ProcCall => Some(2),
            Protocol::BlockData | Protocol::BlockProcCall | Protocol::I2cBlockData => None,
        }
    }

    /// The same of `smbus_reply`.
    pub(crate) fn reply_length(self) -> Option<u64>
        ensures value { result ≡ length_of_reply self }
        ensures small { IfSome result (λ length. length ≤ 2) }
    {
        match self {
            Protocol::Quick => Some(0),
            Protocol::Byte | Protocol::ByteData => Some(1),
            Protocol::WordData | Protocol::ProcCall => Some(2),
            Protocol::BlockData | Protocol::BlockProcCall | Protocol::I2cBlockData => None,
        }
    }
}
