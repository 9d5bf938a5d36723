//! The text of a quantity.
ghost use Rattle.std.specs.Prelude.{◌≡◌};
ghost use Rattle.pmb_firmware.specs.Quantity.{quantity_of};
ghost use Rattle.pmb_firmware.specs.Room.{put_some, quantity_text};

use crate::call_status::CallStatus;
use crate::quantity::PmbQuantity;
use crate::room::{put, put_none};

/// Writes a quantity as its shortest exact decimal, as `-1.5`, where one has at most 24 digits after
/// the point, and otherwise as numerator and denominator in lowest terms, as `-2/3`. It has 45
/// characters at most, and a NUL after it.
///
/// `length` is told how many characters the text has. The status is what is wrong with the quantity,
/// and then `length` is 0; or that text and NUL don't fit into the room. Then the room stays as it
/// was.
pub fn quantity_text(quantity: PmbQuantity, text: &mut [u8], length: &mut usize) -> i32
    ensures { record { status = result; room = text.new; length = length.new }
        ≡ put_some (quantity_text (quantity_of quantity)) text.old }
{
    match quantity.value() {
        Ok(quantity) => put(quantity.text().as_str().as_bytes(), text, length),
        Err(fault) => put_none(CallStatus::Quantity(fault), length),
    }
}
