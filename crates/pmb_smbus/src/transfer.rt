//! A transfer, and the packet that SMBus draws for it.

ghost use Rattle.std.specs.Prelude.{◌≡◌, ◌+◌, ◌≤◌, ◌<◌, ◌++◌, ◌∷◌, [], length, map};
ghost use Rattle.pmb_bus.specs.Pec.{pec};
ghost use Rattle.pmb_smbus.specs.Packets.{acknowledged, address_byte as address_of, byte_of, command_bytes, has_code_byte, has_read_leg as reads_back, has_written_leg as writes_first};
ghost use Rattle.pmb_smbus.specs.Packets.{legs_wire, on_wire as bytes_on_wire, packet_wire, read_leg, refused as refused_in, with_code, with_last_refused};
ghost use Rattle.pmb_smbus.specs.Packets.{written_leg};
ghost use Rattle.pmb_smbus.specs.Transfers.{begun, has_its_reply as reply_is_due, lacks_bytes as bytes_are_missing, lacks_reply as reply_is_missing, may_end as end_follows};
ghost use Rattle.pmb_smbus.specs.Transfers.{may_reply as reply_follows, none, with_reply};

use crate::events::Head;
use crate::protocol::Protocol;
use arrayvec::ArrayVec;
use pmb_bus::{pec_next, pec_of};
use pmb_recording::{MOST_WIRE, WireByte};

/// The most bytes of an event.
const MOST_DATA: usize = 256;

/// The bytes of an event.
pub type Data = ArrayVec<u8, MOST_DATA>;

/// The bytes of a packet on the wire.
type Wire = ArrayVec<WireByte, MOST_WIRE>;

/// A transfer.
#[derive(Drop)]
pub struct Transfer {
    /// What its events have.
    pub head: Head,
    /// It began with `smbus_write`.
    pub writes: bool,
    /// The bytes that it wrote, a block's with its count.
    pub written: Data,
    /// They are not shown, and needed.
    pub is_hidden: bool,
    /// It has its reply.
    pub has_reply: bool,
    /// The bytes of the reply, a block's with its count.
    pub reply: Data,
    /// They are not shown, and needed.
    pub is_reply_hidden: bool,
}

impl Transfer {
    /// No transfer.
    pub(crate) fn new() -> Transfer
        ensures { result ≡ none }
    {
        Transfer {
            head: Head {
                address: 0,
                command: 0,
                protocol: Protocol::Quick,
                has_code: false,
            },
            writes: false,
            written: ArrayVec::new(),
            is_hidden: false,
            has_reply: false,
            reply: ArrayVec::new(),
            is_reply_hidden: false,
        }
    }

    /// Begins a transfer.
    pub(crate) fn begin(&mut self, head: Head, writes: bool, bytes: &[u8], is_hidden: bool)
        requires { length bytes.now ≤ MOST_DATA }
        ensures { self.new ≡ begun head writes bytes.now is_hidden }
    {
        self.head = head;
        self.writes = writes;
        self.written.clear();
        let _ = self.written.try_extend_from_slice(bytes);
        self.is_hidden = is_hidden;
        self.has_reply = false;
        self.reply.clear();
        self.is_reply_hidden = false;
    }

    /// Whether a reply with such a head may follow.
    pub(crate) fn may_reply(&self, head: Head) -> bool
        ensures { result ≡ reply_follows self.now head }
    {
        head.is_same(self.head) && !self.has_reply && self.has_read_leg()
    }

    /// Takes the reply.
    pub(crate) fn take_reply(&mut self, bytes: &[u8], is_hidden: bool)
        requires { length bytes.now ≤ MOST_DATA }
        ensures { self.new ≡ with_reply self.old bytes.now is_hidden }
    {
        self.has_reply = true;
        self.reply.clear();
        let _ = self.reply.try_extend_from_slice(bytes);
        self.is_reply_hidden = is_hidden;
    }

    /// Whether a result with such a head and direction may follow.
    pub(crate) fn may_end(&self, head: Head, writes: bool) -> bool
        ensures { result ≡ end_follows self.now head writes }
    {
        head.is_same(self.head) && (self.head.protocol.is_call() || self.writes == writes)
    }

    /// Whether it has a reply if its result reads, and none if that writes.
    pub(crate) fn has_its_reply(&self, writes: bool) -> bool
        ensures { result ≡ reply_is_due self.now writes }
    {
        self.has_reply != writes
    }

    /// Whether bytes are needed that the recording doesn't show.
    pub(crate) fn lacks_bytes(&self) -> bool
        ensures { result ≡ bytes_are_missing self.now }
    {
        self.is_hidden || self.is_reply_hidden
    }

    /// Whether it read, and the recording has no reply.
    pub(crate) fn lacks_reply(&self, writes: bool) -> bool
        ensures { result ≡ reply_is_missing self.now writes }
    {
        self.head.protocol.is_call() && writes
    }

    fn has_written_leg(&self) -> bool
        ensures { result ≡ writes_first self.now }
    {
        self.writes || !self.head.protocol.reads_alone()
    }

    fn has_read_leg(&self) -> bool
        ensures { result ≡ reads_back self.now }
    {
        !self.writes || self.head.protocol.is_call()
    }

    /// Puts the addresses of the legs alone on the wire.
    pub(crate) fn put_legs(&self, wire: &mut Wire)
        ensures { wire.new.items ≡ legs_wire self.now }
    {
        wire.clear();
        if self.has_written_leg() {
            wire.push(self.address_byte(false));
        }
        if self.has_read_leg() {
            wire.push(self.address_byte(true));
        }
    }

    /// Puts the packet on the wire.
    pub(crate) fn put_packet(&self, wire: &mut Wire)
        ensures { wire.new.items ≡ packet_wire self.now }
    {
        wire.clear();
        self.put_written_leg(wire);
        self.put_read_leg(wire);
        self.put_code(wire);
        if self.has_read_leg() {
            refuse_last(wire);
        }
    }

    /// Puts out the leg that writes, where there is one.
    fn put_written_leg(&self, wire: &mut Wire)
        requires { length wire.old.items ≤ 1000 }
        ensures items { wire.new.items ≡ wire.old.items ++ written_leg self.now }
        ensures short { length wire.new.items ≤ length wire.old.items + 258 }
    {
        if !self.has_written_leg() {
            return;
        }
        wire.push(self.address_byte(false));
        self.put_command(wire);
        put_bytes(wire, self.on_wire(self.written.as_slice()));
    }

    /// Puts out the command code, where there is one.
    fn put_command(&self, wire: &mut Wire)
        requires { length wire.old.items ≤ 1001 }
        ensures items { wire.new.items ≡ wire.old.items ++ acknowledged (command_bytes self.now.head) }
        ensures short { length wire.new.items ≤ length wire.old.items + 1 }
    {
        if self.head.protocol.has_command() {
            put_byte(wire, self.head.command);
        }
    }

    /// Puts out the leg that reads, where there is one.
    fn put_read_leg(&self, wire: &mut Wire)
        requires { length wire.old.items ≤ 1000 }
        ensures items { wire.new.items ≡ wire.old.items ++ read_leg self.now }
        ensures short { length wire.new.items ≤ length wire.old.items + 257 }
    {
        if !self.has_read_leg() {
            return;
        }
        wire.push(self.address_byte(true));
        put_bytes(wire, self.on_wire(self.reply.as_slice()));
    }

    /// Puts out the packet error code of the bytes so far, where there is one.
    fn put_code(&self, wire: &mut Wire)
        requires { length wire.old.items ≤ 1000 }
        ensures items { wire.new.items ≡ with_code self.now.head wire.old.items }
        ensures short { length wire.new.items ≤ length wire.old.items + 1 }
    {
        if self.has_code_byte() {
            let code = code_of(wire.as_slice());
            put_byte(wire, code);
        }
    }

    /// Whether the packet has a packet error code.
    pub(crate) fn has_code_byte(&self) -> bool
        ensures { result ≡ has_code_byte self.now.head }
    {
        self.head.has_code && self.head.protocol.may_have_code()
    }

    /// The byte that addresses the device.
    fn address_byte(&self, reads: bool) -> WireByte
        ensures { result ≡ address_of self.now.head reads }
    {
        WireByte {
            follows_start: true,
            byte: (self.head.address % 128) as u8 * 2 + u8::from(reads),
            is_acknowledged: true,
        }
    }

    /// Those of the bytes that an event shows which are on the wire.
    fn on_wire<'b>(&self, bytes: &'b [u8]) -> &'b [u8]
        ensures value { result.now ≡ bytes_on_wire self.now.head.protocol bytes.now }
        ensures short { length result.now ≤ length bytes.now }
    {
        let count = usize::from(self.head.protocol.off_wire());
        if count > bytes.len() {
            return b"";
        }
        &bytes[count..]
    }
}

/// Puts a byte on the wire that is acknowledged.
fn put_byte(wire: &mut Wire, byte: u8)
    requires { length wire.old.items ≤ 2000 }
    ensures items { wire.new.items ≡ wire.old.items ++ acknowledged (byte ∷ []) }
    ensures longer { length wire.new.items ≡ length wire.old.items + 1 }
{
    wire.push(WireByte {
        follows_start: false,
        byte,
        is_acknowledged: true,
    });
}

/// Puts bytes on the wire that are acknowledged.
fn put_bytes(wire: &mut Wire, bytes: &[u8])
    requires { length wire.old.items + length bytes.now ≤ 2000 }
    ensures items { wire.new.items ≡ wire.old.items ++ acknowledged bytes.now }
    ensures longer { length wire.new.items ≡ length wire.old.items + length bytes.now }
{
    for byte in bytes {
        put_byte(wire, *byte);
    }
}

/// The last byte that is read is not acknowledged.
fn refuse_last(wire: &mut Wire)
    requires { length wire.old.items ≤ 2000 }
    ensures { wire.new.items ≡ with_last_refused wire.old.items }
{
    if let Some(last) = wire.pop() {
        wire.push(refused(last));
    }
}

/// A byte that is not acknowledged, unless it is an address.
fn refused(b: WireByte) -> WireByte
    ensures { result ≡ refused_in b }
{
    if b.follows_start {
        return b;
    }
    WireByte {
        is_acknowledged: false,
        ..b
    }
}

/// The packet error code of bytes on the wire.
fn code_of(wire: &[WireByte]) -> u8
    ensures { result ≡ pec (map byte_of wire.now) }
{
    let mut code = pec_of(b"");
    for b in wire {
        code = pec_next(code, b.byte);
    }
    code
}
