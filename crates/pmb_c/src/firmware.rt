//! C functions that allocate nothing: numbers, error codes, names and events.
//!
//! Each export is the function of `pmb_firmware` of that name, and has its clauses.

ghost use Rattle.std.specs.Prelude.{◌≡◌, ◌⊎◌, ◌≤◌, ℕ, List, [], ◌∷◌, ◌++◌, bit_xor, length, option_map};
ghost use Rattle.pmb_bus.specs.declared.event.Event.{Event as BusEvent};
ghost use Rattle.pmb_bus.specs.declared.lexer.LexFault.{LexFault};
ghost use Rattle.pmb_bus.specs.Pec.{pec};
ghost use Rattle.pmb_command.specs.Commands.{standard_entry};
ghost use Rattle.pmb_command.specs.StatusBits.{bit_text};
ghost use Rattle.pmb_firmware.specs.CallStatus.{status_name};
ghost use Rattle.pmb_firmware.specs.Event.{Ends, Lexes, StaysFaulted};
ghost use Rattle.pmb_firmware.specs.Format.{named};
ghost use Rattle.pmb_firmware.specs.Number.{Decodes, Encodes, Parses};
ghost use Rattle.pmb_firmware.specs.Quantity.{quantity_of};
ghost use Rattle.pmb_firmware.specs.Room.{put_some, quantity_text, some_name};
ghost use Rattle.pmb_firmware.specs.Lexer.{IsFaulted, StandsAt, StandsSomewhere};
ghost use Rattle.pmb_quantity.specs.Reading.{reading};

use pmb_firmware::{PmbEvent, PmbFormat, PmbLexer, PmbQuantity};

// ---- packet error codes (SMBus 3.0 section 6.4)

/// The packet error code of bytes and one more byte, where `crc` is the code of those bytes, or 0 if
/// there are none.
#[unsafe(no_mangle)]
pub extern "C" fn pmb_pec_next(crc: u8, byte: u8) -> u8
    ensures goes_on { (bytes : List ℕ) → pec bytes ≡ crc → result ≡ pec (bytes ++ byte ∷ []) }
    ensures step { result ≡ pec (bit_xor crc byte ∷ []) }
{
    pmb_bus::pec_next(crc, byte)
}

/// The packet error code of bytes before and these bytes, where `crc` is the code of those before, or
/// 0 if there are none.
#[unsafe(no_mangle)]
pub extern "C" fn pmb_pec(crc: u8, bytes: &[u8]) -> u8
    ensures { (before : List ℕ) → pec before ≡ crc → result ≡ pec (before ++ bytes.now) }
{
    pmb_firmware::pec_after(crc, bytes)
}

// ---- numbers (PMBus Part II revision 1.3, sections 7 and 8)

/// Writes the code nearest to a quantity, the even one at a tie, or tells why there is none.
#[unsafe(no_mangle)]
pub extern "C" fn pmb_encode(format: &PmbFormat, quantity: PmbQuantity, code: &mut u16) -> i32
    ensures { Encodes (named format.now) (quantity_of quantity) code.old result code.new }
{
    pmb_firmware::encode(format, quantity, code)
}

/// Writes the exact value of a code, or tells what is wrong with the format or why the code has none.
#[unsafe(no_mangle)]
pub extern "C" fn pmb_decode(format: &PmbFormat, code: u16, quantity: &mut PmbQuantity) -> i32
    ensures { Decodes (named format.now) code quantity.old result quantity.new }
{
    pmb_firmware::decode(format, code, quantity)
}

/// Writes the quantity that a text spells, or tells why there is none.
#[unsafe(no_mangle)]
pub extern "C" fn pmb_quantity_parse(text: &[u8], quantity: &mut PmbQuantity) -> i32
    ensures { Parses (reading text.now) quantity.old result quantity.new }
{
    pmb_firmware::parse(text, quantity)
}

// ---- texts and names

/// Writes the text of a quantity, and a NUL.
#[unsafe(no_mangle)]
pub extern "C" fn pmb_quantity_text(
    quantity: PmbQuantity,
    text: &mut [u8],
    length: &mut usize,
) -> i32
    ensures { record { status = result; room = text.new; length = length.new }
        ≡ put_some (quantity_text (quantity_of quantity)) text.old }
{
    pmb_firmware::quantity_text(quantity, text, length)
}

/// Writes the name of a standard command (PMBus Part II Appendix I), and a NUL.
#[unsafe(no_mangle)]
pub extern "C" fn pmb_command_name(code: u8, text: &mut [u8], length: &mut usize) -> i32
    ensures { record { status = result; room = text.new; length = length.new }
        ≡ put_some (some_name (option_map (λ entry. entry.name) (standard_entry code))) text.old }
{
    pmb_firmware::command_name(code, text, length)
}

/// Writes the name of a bit of a status command (PMBus Part II section 17), and a NUL.
#[unsafe(no_mangle)]
pub extern "C" fn pmb_bit_name(code: u8, bit: u8, text: &mut [u8], length: &mut usize) -> i32
    ensures { record { status = result; room = text.new; length = length.new }
        ≡ put_some (some_name (bit_text code bit)) text.old }
{
    pmb_firmware::bit_name(code, bit, text, length)
}

/// Writes the name that the header has for a status, and a NUL.
#[unsafe(no_mangle)]
pub extern "C" fn pmb_status_name(status: i32, text: &mut [u8], length: &mut usize) -> i32
    ensures { record { status = result; room = text.new; length = length.new }
        ≡ put_some (some_name (status_name status)) text.old }
{
    pmb_firmware::status_name(status, text, length)
}

// ---- the events of a capture's text

/// Takes the next piece of a capture's text, up to the end of its next event, or whole.
#[unsafe(no_mangle)]
pub extern "C" fn pmb_lex(
    lexer: &mut PmbLexer,
    piece: &[u8],
    used: &mut usize,
    event: &mut PmbEvent,
) -> i32
    ensures stands { (n : ℕ) (text : List ℕ) (events : List BusEvent) → StandsAt lexer.old n text events
        → Lexes n text events piece.now used.new lexer.new event.old result event.new }
    ensures faulted { (fault : LexFault) → IsFaulted lexer.old fault
        → StaysFaulted lexer.old lexer.new event.old result event.new × (used.new ≡ 0) }
    ensures any { StandsSomewhere lexer.old
        ⊎ (StaysFaulted lexer.old lexer.new event.old result event.new × (used.new ≡ 0)) }
    ensures within { used.new ≤ length piece.now }
{
    pmb_firmware::lex(lexer, piece, used, event)
}

/// Takes the end of a capture's text, which ends the word under way.
#[unsafe(no_mangle)]
pub extern "C" fn pmb_lex_end(lexer: &mut PmbLexer, event: &mut PmbEvent) -> i32
    ensures stands { (n : ℕ) (text : List ℕ) (events : List BusEvent) → StandsAt lexer.old n text events
        → Ends n text events lexer.new event.old result event.new }
    ensures faulted { (fault : LexFault) → IsFaulted lexer.old fault
        → StaysFaulted lexer.old lexer.new event.old result event.new }
    ensures any { StandsSomewhere lexer.old ⊎ StaysFaulted lexer.old lexer.new event.old result event.new }
{
    pmb_firmware::lex_end(lexer, event)
}
