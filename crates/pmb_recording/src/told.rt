//! The lines that tell what a recording lacks, and those of its packets.

ghost use Rattle.std.specs.Prelude.{◌≡◌, ◌&&◌, not, ◌∷◌, [], ◌++◌, codes, decimal, option_copied, OnOk};
ghost use Rattle.hex.specs.Hex.{encode_lower};
ghost use Rattle.pmb_io.specs.Calls.{WriterTells};
ghost use Rattle.pmb_io.specs.Outgoing.{PutsText};
ghost use Rattle.pmb_recording.specs.Told.{ChangesTheWire, Shows, at_line, direction as direction_text, failed_line, leg_bytes, listed, lost_line};
ghost use Rattle.pmb_recording.specs.Told.{packet_text, passed_line, reason_of, reason_text, time_line};
ghost use Rattle.pmb_recording.specs.machine.Texts.{comma, leg_of, lost_count, next_leg, wire_byte_text, wire_text};

use crate::fault::Fault;
use crate::wire_byte::WireByte;
use itoa::Buffer;
use pmb_io::laws::texts_add_up;
use pmb_io::{RunFault, Sink, Waiting, put};

/// How many bytes of a long text are put out at once.
const PIECE: usize = 4096;

/// Puts out a text of any length.
pub(crate) fn put_text<W: Sink>(
    text: &[u8],
    waiting: &mut Waiting,
    writer: &mut W,
) -> Result<(), RunFault>
    ensures ok { OnOk result (PutsText (W.told writer.old).held waiting.old.items (W.told writer.new).held waiting.new.items text.now) }
    ensures failed { WriterTells (W.told writer.old) (W.told writer.new) result }
{
    texts_add_up();
    let mut rest = text;
    while rest.len() > PIECE {
        let (piece, behind) = rest.split_at(PIECE);
        put(waiting, piece, writer)?;
        rest = behind;
    }
    put(waiting, rest, writer)
}

/// Puts out a number in decimal.
pub(crate) fn put_number<W: Sink>(
    number: u64,
    waiting: &mut Waiting,
    writer: &mut W,
) -> Result<(), RunFault>
    ensures ok { OnOk result (PutsText (W.told writer.old).held waiting.old.items (W.told writer.new).held waiting.new.items (decimal number)) }
    ensures failed { WriterTells (W.told writer.old) (W.told writer.new) result }
{
    put_text(Buffer::new().format(number).as_bytes(), waiting, writer)
}

/// Puts out the front of what is told at a line.
fn put_front<W: Sink>(line: u64, waiting: &mut Waiting, writer: &mut W) -> Result<(), RunFault>
    ensures ok { OnOk result (PutsText (W.told writer.old).held waiting.old.items (W.told writer.new).held waiting.new.items (codes "# line " ++ (decimal line ++ codes ": "))) }
    ensures failed { WriterTells (W.told writer.old) (W.told writer.new) result }
{
    texts_add_up();
    put(waiting, b"# line ", writer)?;
    put_number(line, waiting, writer)?;
    put(waiting, b": ", writer)
}

/// Puts out what is told at a line.
pub(crate) fn put_at_line<W: Sink>(
    line: u64,
    text: &[u8],
    waiting: &mut Waiting,
    writer: &mut W,
) -> Result<(), RunFault>
    ensures ok { OnOk result (PutsText (W.told writer.old).held waiting.old.items (W.told writer.new).held waiting.new.items (at_line line text.now)) }
    ensures failed { WriterTells (W.told writer.old) (W.told writer.new) result }
{
    texts_add_up();
    put_front(line, waiting, writer)?;
    put_text(text, waiting, writer)?;
    put(waiting, b"\n", writer)
}

/// Puts out a fault.
pub(crate) fn put_fault<W: Sink>(
    line: u64,
    fault: Fault<'_>,
    waiting: &mut Waiting,
    writer: &mut W,
) -> Result<(), RunFault>
    ensures ok { OnOk result (PutsText (W.told writer.old).held waiting.old.items (W.told writer.new).held waiting.new.items (at_line line (reason_text (reason_of fault.entry)))) }
    ensures failed { WriterTells (W.told writer.old) (W.told writer.new) result }
{
    match fault {
        Fault::MakesNoSense => put_at_line(line, b"makes no sense", waiting, writer),
        Fault::DoesNotFollow => put_at_line(line, b"does not follow", waiting, writer),
        Fault::Shows(count, number) => put_shows(line, count, number, waiting, writer),
        Fault::ChangesTheWire(flags) => put_flags(line, flags, waiting, writer),
        Fault::RowsAreMissing => put_at_line(line, b"rows are missing in front", waiting, writer),
        Fault::IsMarked => put_at_line(line, b"is marked as an error", waiting, writer),
    }
}

fn put_shows<W: Sink>(
    line: u64,
    count: u64,
    number: &[u8],
    waiting: &mut Waiting,
    writer: &mut W,
) -> Result<(), RunFault>
    ensures ok { OnOk result (PutsText (W.told writer.old).held waiting.old.items (W.told writer.new).held waiting.new.items (at_line line (reason_text (Shows count number.now)))) }
    ensures failed { WriterTells (W.told writer.old) (W.told writer.new) result }
{
    texts_add_up();
    put_front(line, waiting, writer)?;
    put(waiting, b"shows ", writer)?;
    put_number(count, waiting, writer)?;
    put(waiting, b" of ", writer)?;
    put_text(number, waiting, writer)?;
    put(waiting, b" bytes\n", writer)
}

fn put_flags<W: Sink>(
    line: u64,
    flags: &[u8],
    waiting: &mut Waiting,
    writer: &mut W,
) -> Result<(), RunFault>
    ensures ok { OnOk result (PutsText (W.told writer.old).held waiting.old.items (W.told writer.new).held waiting.new.items (at_line line (reason_text (ChangesTheWire flags.now)))) }
    ensures failed { WriterTells (W.told writer.old) (W.told writer.new) result }
{
    texts_add_up();
    put_front(line, waiting, writer)?;
    put(waiting, b"flags ", writer)?;
    put_text(flags, waiting, writer)?;
    put(waiting, b" change what is on the wire\n", writer)
}

/// Puts out that events were lost.
pub(crate) fn put_lost<W: Sink>(
    line: u64,
    count: Option<&[u8]>,
    waiting: &mut Waiting,
    writer: &mut W,
) -> Result<(), RunFault>
    ensures ok { OnOk result (PutsText (W.told writer.old).held waiting.old.items (W.told writer.new).held waiting.new.items (lost_line line (option_copied count.entry))) }
    ensures failed { WriterTells (W.told writer.old) (W.told writer.new) result }
{
    texts_add_up();
    put_front(line, waiting, writer)?;
    put_lost_count(count, waiting, writer)?;
    put(waiting, b"events were lost\n", writer)
}

/// Puts out the number of events that were lost, where there is one.
fn put_lost_count<W: Sink>(
    count: Option<&[u8]>,
    waiting: &mut Waiting,
    writer: &mut W,
) -> Result<(), RunFault>
    ensures ok { OnOk result (PutsText (W.told writer.old).held waiting.old.items (W.told writer.new).held waiting.new.items (lost_count (option_copied count.entry))) }
    ensures failed { WriterTells (W.told writer.old) (W.told writer.new) result }
{
    texts_add_up();
    match count {
        Some(count) => {
            put_text(count, waiting, writer)?;
            put(waiting, b" ", writer)
        }
        None => Ok(()),
    }
}

/// Puts out what is told of the packet from a line: `what` has the name of what begins there, such as
/// `the packet`, and `why` what is told of it.
pub(crate) fn put_of<W: Sink>(
    line: u64,
    what: &[u8],
    first: u64,
    why: &[u8],
    waiting: &mut Waiting,
    writer: &mut W,
) -> Result<(), RunFault>
    ensures ok { OnOk result (PutsText (W.told writer.old).held waiting.old.items (W.told writer.new).held waiting.new.items (at_line line (what.now ++ (codes " from line " ++ (decimal first ++ why.now))))) }
    ensures failed { WriterTells (W.told writer.old) (W.told writer.new) result }
{
    texts_add_up();
    put_front(line, waiting, writer)?;
    put_text(what, waiting, writer)?;
    put(waiting, b" from line ", writer)?;
    put_number(first, waiting, writer)?;
    put_text(why, waiting, writer)?;
    put(waiting, b"\n", writer)
}

/// Puts out that a transfer failed, with its legs.
pub(crate) fn put_failed<W: Sink>(
    line: u64,
    outcome: &[u8],
    wire: &[WireByte],
    waiting: &mut Waiting,
    writer: &mut W,
) -> Result<(), RunFault>
    ensures ok { OnOk result (PutsText (W.told writer.old).held waiting.old.items (W.told writer.new).held waiting.new.items (failed_line line outcome.now wire.now)) }
    ensures failed { WriterTells (W.told writer.old) (W.told writer.new) result }
{
    texts_add_up();
    put_front(line, waiting, writer)?;
    put(waiting, b"a transfer failed with ", writer)?;
    put_text(outcome, waiting, writer)?;
    put(waiting, b": ", writer)?;
    put_legs(wire, waiting, writer)?;
    put(waiting, b"\n", writer)
}

/// Puts out the legs of a transfer, from its bytes on the wire.
fn put_legs<W: Sink>(
    wire: &[WireByte],
    waiting: &mut Waiting,
    writer: &mut W,
) -> Result<(), RunFault>
    ensures ok { OnOk result (PutsText (W.told writer.old).held waiting.old.items (W.told writer.new).held waiting.new.items (listed (leg_bytes wire.now))) }
    ensures failed { WriterTells (W.told writer.old) (W.told writer.new) result }
{
    texts_add_up();
    let mut is_first = true;
    for b in wire {
        put_if_leg(is_first, *b, waiting, writer)?;
        is_first = stays_first(is_first, *b);
    }
    Ok(())
}

/// Puts out the leg that a byte on the wire begins, if it begins one.
fn put_if_leg<W: Sink>(
    is_first: bool,
    b: WireByte,
    waiting: &mut Waiting,
    writer: &mut W,
) -> Result<(), RunFault>
    ensures ok { OnOk result (PutsText (W.told writer.old).held waiting.old.items (W.told writer.new).held waiting.new.items (leg_of is_first b)) }
    ensures failed { WriterTells (W.told writer.old) (W.told writer.new) result }
{
    texts_add_up();
    if b.follows_start {
        return put_leg(is_first, b.byte, waiting, writer);
    }
    Ok(())
}

/// Whether the next leg is the first still.
fn stays_first(is_first: bool, b: WireByte) -> bool
    ensures { result ≡ (is_first && not b.follows_start) }
{
    is_first && !b.follows_start
}

/// Puts out a leg, from the byte behind its START, with a comma in front unless it is the first.
fn put_leg<W: Sink>(
    is_first: bool,
    byte: u8,
    waiting: &mut Waiting,
    writer: &mut W,
) -> Result<(), RunFault>
    ensures ok { OnOk result (PutsText (W.told writer.old).held waiting.old.items (W.told writer.new).held waiting.new.items (next_leg is_first byte)) }
    ensures failed { WriterTells (W.told writer.old) (W.told writer.new) result }
{
    texts_add_up();
    put_comma(is_first, waiting, writer)?;
    put(waiting, direction(byte), writer)?;
    put(waiting, &digits(byte / 2), writer)
}

/// Puts out what stands in front of a leg.
fn put_comma<W: Sink>(is_first: bool, waiting: &mut Waiting, writer: &mut W) -> Result<(), RunFault>
    ensures ok { OnOk result (PutsText (W.told writer.old).held waiting.old.items (W.told writer.new).held waiting.new.items (comma is_first)) }
    ensures failed { WriterTells (W.told writer.old) (W.told writer.new) result }
{
    texts_add_up();
    if is_first {
        return Ok(());
    }
    put(waiting, b", ", writer)
}

/// The word for the direction of an address, with a blank.
fn direction(byte: u8) -> &'static [u8]
    ensures { result.now ≡ direction_text byte }
{
    if byte.is_multiple_of(2) {
        b"write "
    } else {
        b"read "
    }
}

/// The two digits of a byte.
fn digits(byte: u8) -> [u8; 2]
    ensures { result ≡ encode_lower (byte ∷ []) }
{
    let mut digits = [0; 2];
    let _ = hex::encode_to_slice([byte], &mut digits);
    digits
}

/// Puts out a packet, after the line of its time.
pub(crate) fn put_packet<W: Sink>(
    time: &[u8],
    wire: &[WireByte],
    waiting: &mut Waiting,
    writer: &mut W,
) -> Result<(), RunFault>
    ensures ok { OnOk result (PutsText (W.told writer.old).held waiting.old.items (W.told writer.new).held waiting.new.items (time_line time.now ++ packet_text wire.now)) }
    ensures failed { WriterTells (W.told writer.old) (W.told writer.new) result }
{
    texts_add_up();
    put_time(time, waiting, writer)?;
    put_wire(wire, waiting, writer)?;
    put(waiting, b"P\n", writer)
}

/// Puts out the line of a time, where there is one.
fn put_time<W: Sink>(time: &[u8], waiting: &mut Waiting, writer: &mut W) -> Result<(), RunFault>
    ensures ok { OnOk result (PutsText (W.told writer.old).held waiting.old.items (W.told writer.new).held waiting.new.items (time_line time.now)) }
    ensures failed { WriterTells (W.told writer.old) (W.told writer.new) result }
{
    texts_add_up();
    if time.is_empty() {
        return Ok(());
    }
    put(waiting, b"# ", writer)?;
    put_text(time, waiting, writer)?;
    put(waiting, b"\n", writer)
}

/// Puts out the events of bytes on the wire.
fn put_wire<W: Sink>(
    wire: &[WireByte],
    waiting: &mut Waiting,
    writer: &mut W,
) -> Result<(), RunFault>
    ensures ok { OnOk result (PutsText (W.told writer.old).held waiting.old.items (W.told writer.new).held waiting.new.items (wire_text wire.now)) }
    ensures failed { WriterTells (W.told writer.old) (W.told writer.new) result }
{
    texts_add_up();
    for b in wire {
        put_wire_byte(*b, waiting, writer)?;
    }
    Ok(())
}

/// Puts out the events of a byte on the wire.
#[inline]
fn put_wire_byte<W: Sink>(
    b: WireByte,
    waiting: &mut Waiting,
    writer: &mut W,
) -> Result<(), RunFault>
    ensures ok { OnOk result (PutsText (W.told writer.old).held waiting.old.items (W.told writer.new).held waiting.new.items (wire_byte_text b)) }
    ensures failed { WriterTells (W.told writer.old) (W.told writer.new) result }
{
    texts_add_up();
    if b.follows_start {
        put(waiting, b"S ", writer)?;
    }
    let [high, low] = digits(b.byte);
    let answer = if b.is_acknowledged { b'A' } else { b'N' };
    put(waiting, &[high, low, b' ', answer, b' '], writer)
}

/// Puts out how many lines were passed over, where there are any.
pub(crate) fn put_passed<W: Sink>(
    count: u64,
    name: &[u8],
    waiting: &mut Waiting,
    writer: &mut W,
) -> Result<(), RunFault>
    ensures ok { OnOk result (PutsText (W.told writer.old).held waiting.old.items (W.told writer.new).held waiting.new.items (passed_line count name.now)) }
    ensures failed { WriterTells (W.told writer.old) (W.told writer.new) result }
{
    texts_add_up();
    if count == 0 {
        return Ok(());
    }
    put(waiting, b"# ", writer)?;
    put_number(count, waiting, writer)?;
    put(waiting, b" lines of ", writer)?;
    put_text(name, waiting, writer)?;
    put(waiting, b" were passed over\n", writer)
}
