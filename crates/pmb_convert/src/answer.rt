//! The line that is written for a line.
//!
//! Its rows: `tests/rows/numbers.txt`.

ghost use Rattle.std.specs.Prelude.{◌≡◌, ◌++◌, OnOk, codes};
ghost use Rattle.pmb_io.specs.Calls.{WriterTells};
ghost use Rattle.pmb_io.specs.Outgoing.{PutsText};
ghost use Rattle.pmb_value.specs.QuantityText.{spelling};
ghost use Rattle.pmb_convert.specs.Answer.{answer_line, code_text, fault_name};
ghost use Rattle.pmb_convert.specs.machine.Converting.{answer_of, converted_text};

use crate::convert_fault::ConvertFault;
use pmb_io::laws::texts_add_up;
use pmb_io::{RunFault, Sink, Waiting, put};
use pmb_value::{Quantity, QuantityText};

/// What the number on a line is converted to.
#[derive(Clone, Copy)]
pub(crate) enum Converted {
    /// A code.
    Code(u16),
    /// A quantity.
    Value(Quantity),
}

/// Puts out the line of an answer, with its LF.
pub(crate) fn put_answer<W: Sink>(
    answer: &Result<Converted, ConvertFault>,
    waiting: &mut Waiting,
    writer: &mut W,
) -> Result<(), RunFault>
    ensures ok { OnOk result (PutsText (W.told writer.old).held waiting.old.items (W.told writer.new).held waiting.new.items (answer_line (answer_of answer.now))) }
    ensures failed { WriterTells (W.told writer.old) (W.told writer.new) result }
{
    texts_add_up();
    match answer {
        Ok(converted) => put_converted(converted, waiting, writer)?,
        Err(fault) => put_fault(*fault, waiting, writer)?,
    }
    put(waiting, b"\n", writer)
}

/// Puts out the text of a code or a quantity.
fn put_converted<W: Sink>(
    converted: &Converted,
    waiting: &mut Waiting,
    writer: &mut W,
) -> Result<(), RunFault>
    ensures ok { OnOk result (PutsText (W.told writer.old).held waiting.old.items (W.told writer.new).held waiting.new.items (converted_text converted.now)) }
    ensures failed { WriterTells (W.told writer.old) (W.told writer.new) result }
{
    match converted {
        Converted::Code(code) => put_code(*code, waiting, writer),
        Converted::Value(quantity) => put_quantity(quantity, waiting, writer),
    }
}

/// Puts out a code in four digits.
fn put_code<W: Sink>(code: u16, waiting: &mut Waiting, writer: &mut W) -> Result<(), RunFault>
    ensures ok { OnOk result (PutsText (W.told writer.old).held waiting.old.items (W.told writer.new).held waiting.new.items (code_text code)) }
    ensures failed { WriterTells (W.told writer.old) (W.told writer.new) result }
{
    let mut digits = [0; 4];
    let _ = hex::encode_to_slice(code.to_be_bytes(), &mut digits);
    put(waiting, &digits, writer)
}

/// Puts out the text of a quantity.
fn put_quantity<W: Sink>(
    quantity: &Quantity,
    waiting: &mut Waiting,
    writer: &mut W,
) -> Result<(), RunFault>
    ensures ok { OnOk result (PutsText (W.told writer.old).held waiting.old.items (W.told writer.new).held waiting.new.items (spelling quantity.now)) }
    ensures failed { WriterTells (W.told writer.old) (W.told writer.new) result }
{
    let mut text = QuantityText::new();
    quantity.write_text(&mut text);
    put(waiting, text.as_str().as_bytes(), writer)
}

/// Puts out a fault after its mark.
fn put_fault<W: Sink>(
    fault: ConvertFault,
    waiting: &mut Waiting,
    writer: &mut W,
) -> Result<(), RunFault>
    ensures ok { OnOk result (PutsText (W.told writer.old).held waiting.old.items (W.told writer.new).held waiting.new.items (codes "! " ++ fault_name fault)) }
    ensures failed { WriterTells (W.told writer.old) (W.told writer.new) result }
{
    texts_add_up();
    put(waiting, b"! ", writer)?;
    put(waiting, fault.name(), writer)
}
