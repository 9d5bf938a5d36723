//! The reasons of events that may not follow, row by row.

ghost use Rattle.std.specs.Prelude.{ℕ, [], ◌∷◌};
ghost use Rattle.pmb_bus.specs.declared.event.Event.TheVariants.{Start, Byte, Ack, Nack};
ghost use Rattle.pmb_transaction.specs.declared.reason.Reason.TheVariants.{
  ReadFirst,
  BadRestart,
  BadPec,
  UnknownDevice,
  UnknownCommand,
  TooLong,
  TooShort,
};
ghost use Rattle.pmb_transaction.specs.Rows.{OtherByteFollows, NackAloneFollows, AckAloneFollows, IsOutOfPlace};

use pmb_bus::laws::pec_is_a_byte;

/// The reasons of worked rows, on a bus of two devices. In a capture S is START, A is ACK and N is
/// NACK; the last event is the one that is refused.
pub fn reasons_of_rows()
    // S b1
    ensures read_first { OtherByteFollows (Start ∷ []) 0xb1 ReadFirst }
    // S b0 A 03 A S b0
    ensures written_again { OtherByteFollows (Start ∷ Byte 0xb0 ∷ Ack ∷ Byte 0x03 ∷ Ack ∷ Start ∷ []) 0xb0 BadRestart }
    // S b0 A 88 A S 40
    ensures another_is_read { OtherByteFollows (Start ∷ Byte 0xb0 ∷ Ack ∷ Byte 0x88 ∷ Ack ∷ Start ∷ []) 0x40 BadRestart }
    // S b0 A 88 A S b1 A 00 A d3 A f7
    ensures reply_with_wrong_code { OtherByteFollows (Start ∷ Byte 0xb0 ∷ Ack ∷ Byte 0x88 ∷ Ack
        ∷ Start ∷ Byte 0xb1 ∷ Ack ∷ Byte 0x00 ∷ Ack ∷ Byte 0xd3 ∷ Ack ∷ []) 0xf7 BadPec }
    // S 19 A b0 A f2
    ensures alert_with_wrong_code { OtherByteFollows (Start ∷ Byte 0x19 ∷ Ack ∷ Byte 0xb0 ∷ Ack ∷ []) 0xf2 BadPec }

    // S 40 A
    ensures nobody_there { NackAloneFollows (Start ∷ Byte 0x40 ∷ []) UnknownDevice }
    // S b0 A 03 A S 40 A
    ensures nobody_in_a_group { NackAloneFollows (Start ∷ Byte 0xb0 ∷ Ack ∷ Byte 0x03 ∷ Ack ∷ Start ∷ Byte 0x40 ∷ []) UnknownDevice }
    // S b0 A c8 A
    ensures no_such_command { NackAloneFollows (Start ∷ Byte 0xb0 ∷ Ack ∷ Byte 0xc8 ∷ []) UnknownCommand }
    // S b0 A 03 A 47 A
    ensures written_with_wrong_code { NackAloneFollows (Start ∷ Byte 0xb0 ∷ Ack ∷ Byte 0x03 ∷ Ack ∷ Byte 0x47 ∷ []) BadPec }
    // S b2 A 19 A S b3 A b0 A
    ensures reply_too_long { NackAloneFollows (Start ∷ Byte 0xb2 ∷ Ack ∷ Byte 0x19 ∷ Ack
        ∷ Start ∷ Byte 0xb3 ∷ Ack ∷ Byte 0xb0 ∷ []) TooLong }
    // S 19 A b0 A f3 A
    ensures alert_too_long { NackAloneFollows (Start ∷ Byte 0x19 ∷ Ack ∷ Byte 0xb0 ∷ Ack ∷ Byte 0xf3 ∷ []) TooLong }

    // S b0 A 88 A S b1 A 00 N
    ensures reply_too_short { AckAloneFollows (Start ∷ Byte 0xb0 ∷ Ack ∷ Byte 0x88 ∷ Ack
        ∷ Start ∷ Byte 0xb1 ∷ Ack ∷ Byte 0x00 ∷ []) TooShort }

    // S b0 N A
    ensures behind_refused_address { IsOutOfPlace (Start ∷ Byte 0xb0 ∷ Nack ∷ []) Ack }
    // S b0 A 88 A 00
    ensures behind_whole_body { IsOutOfPlace (Start ∷ Byte 0xb0 ∷ Ack ∷ Byte 0x88 ∷ Ack ∷ []) (Byte 0x00) }
{
    pec_is_a_byte();
}
