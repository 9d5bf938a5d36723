//! Captures and what they read as, told by hand.

/// A capture as text, and what it reads as: a line for each transaction and each refusal.
pub type CapturedRow = (&'static str, &'static str);

/// Packets of each sort.
pub static PACKETS: [CapturedRow; 17] = [
    ("", ""),
    ("S b0 A 21 A 00 A 18 A f8 A P", "write 58 21 00 18 pec\n"),
    ("S b0 A 21 A 00 A 18 A P", "write 58 21 00 18\n"),
    (
        "S b0 A 88 A S b1 A 00 A d3 A f6 N P",
        "read 58 88 : 00 d3 pec\n",
    ),
    ("S b0 A 03 A 47 N P", "refused 58 03 47\n"),
    ("S b0 A 03 A S b2 A 03 A P", "write 58 03 + 59 03\n"),
    ("S 40 N P", "refused 20\n"),
    ("S b0 A 99 A S b1 A 00 N P", "read 58 99 :\n"),
    ("S b0 A 99 A S b1 A 00 A 51 N P", "read 58 99 : pec\n"),
    ("S b0 A 1b A 01 A 7a A P", "write 58 1b 01 7a\n"),
    (
        "S b0 A 1b A 01 A 7a A S b1 A 01 A 10 N P",
        "call 58 1b 7a : 10\n",
    ),
    ("S b4 A 03 A 12 A P", "write 5a 03 pec\n"),
    ("S b0 A 88 A S b1 N P", "refused 58 88 read\n"),
    (
        "S b0 A 03 A S b2 A 21 A 00 N P",
        "refused 58 03 + 59 21 00\n",
    ),
    ("S b0 A 03 A S 40 N P", "refused 58 03 + 20\n"),
    ("S b0 A 1b A 01 A 7a A 10 N P", "refused 58 1b 01 7a 10\n"),
    ("S 19 N P", "alert none\n"),
];

/// Captures with refusals, for each reason and place.
pub static REFUSALS: [CapturedRow; 20] = [
    (
        "S b0 A 88 A S b1 A 00 A d3 A f7 N P",
        "refusal at 12: BadPec, expected Byte\n",
    ),
    ("S b0 A 03 A 47 A", "refusal at 6: BadPec, expected Nack\n"),
    (
        "S b0 A 03 A S b0 A 03 A P",
        "refusal at 6: BadRestart, expected Byte\n",
    ),
    ("S 40 A", "refusal at 2: UnknownDevice, expected Nack\n"),
    (
        "S b0 A 21 A 00",
        "refusal at 6: Truncated, expected Ack or Nack\n",
    ),
    (
        "S b0 A 88 A S b1 A 00 N",
        "refusal at 9: TooShort, expected Ack\n",
    ),
    (
        "S b0 A 03 A 47 A P S b0 A 21 A 00 A 18 A f8 A P",
        "refusal at 6: BadPec, expected Nack\nwrite 58 21 00 18 pec\n",
    ),
    (
        "S b4 A 03 A P S b0 A 21 A 00 A 18 A P",
        "refusal at 5: WrongEvent, expected Byte\nwrite 58 21 00 18\n",
    ),
    (
        "S b2 A 19 A S b3 A b0 A",
        "refusal at 9: TooLong, expected Nack\n",
    ),
    ("S b1", "refusal at 1: ReadFirst, expected Byte\n"),
    (
        "S b0 A c8 A",
        "refusal at 4: UnknownCommand, expected Nack\n",
    ),
    (
        "S b0 A 88 A 00",
        "refusal at 5: WrongEvent, expected Start\n",
    ),
    (
        "P S b0 A 21 A 00 A 18 A P",
        "refusal at 0: WrongEvent, expected Start\nwrite 58 21 00 18\n",
    ),
    ("S S", "refusal at 1: WrongEvent, expected Byte\n"),
    ("S b0 N A", "refusal at 3: WrongEvent, expected Stop\n"),
    ("S b0 A P", "refusal at 3: WrongEvent, expected Byte\n"),
    (
        "S b0 A 88 A S 40",
        "refusal at 6: BadRestart, expected Byte\n",
    ),
    (
        "S b0 A 21 A 00 A 18 A",
        "refusal at 9: Truncated, expected Start or Byte or Stop\n",
    ),
    ("S 1b", "refusal at 1: ReadFirst, expected Byte\n"),
    (
        "S b0 A 03 A S 19",
        "refusal at 6: BadRestart, expected Byte\n",
    ),
];

/// Captures for the devices of [`LONG_FORMS`](crate::LONG_FORMS).
pub static LONG: [CapturedRow; 8] = [
    (
        "S 20 A e0 A 01 A 02 A 03 A 04 A e3 A P",
        "write 10 e0 01 02 03 04 pec\n",
    ),
    (
        "S 20 A e1 A S 21 A 01 A 02 A 03 A 04 A 05 A 06 A 07 A 08 N P",
        "read 10 e1 : 01 02 03 04 05 06 07 08\n",
    ),
    (
        "S 20 A e1 A S 21 A 01 A 02 A 03 A 04 A 05 A 06 A 07 N",
        "refusal at 21: TooShort, expected Ack\n",
    ),
    ("S 19 A b0 N P", "alert b0\n"),
    ("S 19 A b0 A f3 N P", "alert b0 pec\n"),
    ("S 19 A b0 A f2", "refusal at 5: BadPec, expected Byte\n"),
    ("S 19 A b0 A f3 A", "refusal at 6: TooLong, expected Nack\n"),
    (
        "S 20 A 03 A S 19",
        "refusal at 6: BadRestart, expected Byte\n",
    ),
];
