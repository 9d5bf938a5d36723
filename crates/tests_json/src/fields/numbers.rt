//! LINEAR11, DIRECT, half precision, VID tables, and data that are no number. The values are exact fractions
//! by PMBus Part II 1.3 sections 7 and 8.4 and by the tables, worked out apart from the code.

use crate::compare::same;
use crate::fields::says::{plain, raw, said, under, value};
use pmb_command::Kind;
use pmb_json_fields::Access;
use pmb_unknown_start::KnownMode;
use pmb_value::{Direct, Linear11Fixed, NumberFormat, VidTable, VoutFormat};
use std::test::Fail;

/// A word, the digits, the exact value and the nearest number.
type Word = (u16, u8, &'static str, &'static str);

/// m, b and R, and the same.
type DirectWord = ((i16, i16, i8), u16, u8, &'static str, &'static str);

/// A word of a VID table, and its value, which is the nearest number too.
type VidWord = (VidTable, u16, &'static str);

/// A word without a value in a VID table, or in half precision where there is none, and why.
type NoValue = (Option<VidTable>, u16, &'static str);

/// The rows of a table. A call keeps the proof of a loop over them from carrying the table.
fn words() -> &'static [Word] {
    &LINEAR11
}

fn direct_words() -> &'static [DirectWord] {
    &DIRECT
}

fn half_words() -> &'static [Word] {
    &HALF
}

fn vid_words() -> &'static [VidWord] {
    &VID
}

fn no_values() -> &'static [NoValue] {
    &NO_VALUES
}

fn unsigned_words() -> &'static [DirectWord] {
    &UNSIGNED
}

static LINEAR11: [Word; 35] = [
    (0x0000, 6, "0", "0"),
    (0x0001, 6, "1", "1"),
    (0x03ff, 6, "1023", "1023"),
    (0x0400, 6, "-1024", "-1024"),
    (0x07ff, 6, "-1", "-1"),
    (0xd3f7, 6, "15.859375", "15.859375"),
    (0xf3ff, 6, "255.75", "255.75"),
    (0xfbff, 6, "511.5", "511.5"),
    (0x8001, 6, "0.0000152587890625", "0.000015"),
    (0x8000, 6, "0", "0"),
    (0x7bff, 6, "33521664", "33521664"),
    (0x7c00, 6, "-33554432", "-33554432"),
    (0xdb48, 6, "26.25", "26.25"),
    (0xe808, 6, "1", "1"),
    (0x87ff, 6, "-0.0000152587890625", "-0.000015"),
    (0xf802, 6, "1", "1"),
    (0xf801, 6, "0.5", "0.5"),
    (0xf803, 6, "1.5", "1.5"),
    (0xf801, 0, "0.5", "0"),
    (0xf803, 0, "1.5", "2"),
    (0xf805, 0, "2.5", "2"),
    (0xffff, 0, "-0.5", "0"),
    (0xfffd, 0, "-1.5", "-2"),
    (0x8001, 12, "0.0000152587890625", "0.000015258789"),
    (0x87ff, 12, "-0.0000152587890625", "-0.000015258789"),
    (0x83ff, 12, "0.0156097412109375", "0.015609741211"),
    (0xd001, 12, "0.015625", "0.015625"),
    (0xc7ff, 1, "-0.00390625", "0"),
    (0xc7ff, 2, "-0.00390625", "0"),
    (0xc7ff, 3, "-0.00390625", "-0.004"),
    (0xc7ff, 4, "-0.00390625", "-0.0039"),
    (0xc7ff, 5, "-0.00390625", "-0.00391"),
    (0xc7ff, 7, "-0.00390625", "-0.0039062"),
    (0xc7ff, 9, "-0.00390625", "-0.00390625"),
    (0xc7ff, 11, "-0.00390625", "-0.00390625"),
];

#[rattlefmt::skip]
static DIRECT: [DirectWord; 33] = [
    ((1, 0, 0), 0x7fff, 6, "32767", "32767"),
    ((1, 0, 0), 0x8000, 6, "-32768", "-32768"),
    ((3, 0, 0), 0x0001, 6, "1/3", "0.333333"),
    ((3, 0, 0), 0x0002, 6, "2/3", "0.666667"),
    ((-3, 0, 0), 0x0001, 6, "-1/3", "-0.333333"),
    ((7, 5, -2), 0x0064, 6, "9995/7", "1427.857143"),
    ((850, 0, -3), 0x1f40, 6, "160000/17", "9411.764706"),
    ((7, 0, 0), 0xfff9, 6, "-1", "-1"),
    ((2, 1, 0), 0x0002, 6, "0.5", "0.5"),
    ((2, 1, 0), 0x0000, 6, "-0.5", "-0.5"),
    ((1, 0, 9), 0x0001, 6, "0.000000001", "0"),
    ((1, 0, -9), 0x7fff, 6, "32767000000000", "32767000000000"),
    ((-32768, 32767, 9), 0x8000, 6, "0.999969483421875", "0.999969"),
    ((32767, -32768, -9), 0x8000, 6, "-32767999967232/32767", "-1000030517.509445"),
    ((1, 0, 7), 0x0005, 6, "0.0000005", "0"),
    ((1, 0, 7), 0x000f, 6, "0.0000015", "0.000002"),
    ((1, 0, 7), 0x0019, 6, "0.0000025", "0.000002"),
    ((1, 0, 7), 0xfffb, 6, "-0.0000005", "0"),
    ((1, 0, 7), 0xfff1, 6, "-0.0000015", "-0.000002"),
    ((1, 0, 7), 0x0004, 6, "0.0000004", "0"),
    ((1, 0, 7), 0x0006, 6, "0.0000006", "0.000001"),
    ((3, 0, 0), 0x0001, 0, "1/3", "0"),
    ((3, 0, 0), 0x0001, 12, "1/3", "0.333333333333"),
    ((3, 0, 0), 0x0002, 0, "2/3", "1"),
    ((3, 0, 0), 0x0002, 12, "2/3", "0.666666666667"),
    ((6, 0, 0), 0x0005, 0, "5/6", "1"),
    ((6, 0, 0), 0x0005, 12, "5/6", "0.833333333333"),
    ((6, 0, 0), 0xfffb, 0, "-5/6", "-1"),
    ((6, 0, 0), 0xfffb, 12, "-5/6", "-0.833333333333"),
    ((2, 0, 0), 0x0001, 0, "0.5", "0"),
    ((2, 0, 0), 0x0001, 12, "0.5", "0.5"),
    ((2, 0, 0), 0xffff, 0, "-0.5", "0"),
    ((2, 0, 0), 0xffff, 12, "-0.5", "-0.5"),
];

static UNSIGNED: [DirectWord; 4] = [
    ((1, 0, 0), 0x7fff, 6, "32767", "32767"),
    ((1, 0, 0), 0x8000, 6, "32768", "32768"),
    ((3, 0, 0), 0xffff, 6, "21845", "21845"),
    ((2, 1, 2), 0xffff, 6, "327.175", "327.175"),
];

static HALF: [Word; 17] = [
    (0x0000, 6, "0", "0"),
    (0x8000, 6, "0", "0"),
    (0x3c00, 6, "1", "1"),
    (0x3e00, 6, "1.5", "1.5"),
    (0x3e00, 0, "1.5", "2"),
    (0xc000, 6, "-2", "-2"),
    (0x7bff, 6, "65504", "65504"),
    (0xfbff, 6, "-65504", "-65504"),
    (0x3c01, 6, "1.0009765625", "1.000977"),
    (0x3555, 6, "0.333251953125", "0.333252"),
    (0x3555, 12, "0.333251953125", "0.333251953125"),
    (0x0001, 6, "0.000000059604644775390625", "0"),
    (0x0001, 12, "0.000000059604644775390625", "0.000000059605"),
    (0x8001, 12, "-0.000000059604644775390625", "-0.000000059605"),
    (0x03ff, 6, "0.000060975551605224609375", "0.000061"),
    (0x0400, 6, "0.00006103515625", "0.000061"),
    (0x0400, 12, "0.00006103515625", "0.000061035156"),
];

static VID: [VidWord; 15] = [
    (VidTable::Vr11, 2, "1.6"),
    (VidTable::Vr11, 3, "1.59375"),
    (VidTable::Vr11, 178, "0.5"),
    (VidTable::Vr12, 1, "0.25"),
    (VidTable::Vr12, 0x97, "1"),
    (VidTable::Vr12, 255, "1.52"),
    (VidTable::Vr13, 1, "0.5"),
    (VidTable::Vr13, 255, "3.04"),
    (VidTable::Imvp9, 1, "0.2"),
    (VidTable::Imvp9, 255, "2.74"),
    (VidTable::Amd625mv, 0, "1.55"),
    (VidTable::Amd625mv, 1, "1.54375"),
    (VidTable::Amd625mv, 216, "0.2"),
    (VidTable::Nvidia195mv, 1, "0.195"),
    (VidTable::Nvidia195mv, 255, "1.465"),
];

#[rattlefmt::skip]
static NO_VALUES: [NoValue; 19] = [
    (None, 0x7c00, "nan"),
    (None, 0xfc00, "nan"),
    (None, 0x7c01, "nan"),
    (None, 0xffff, "nan"),
    (Some(VidTable::Vr11), 0, "code"),
    (Some(VidTable::Vr11), 1, "code"),
    (Some(VidTable::Vr11), 179, "code"),
    (Some(VidTable::Vr12), 0, "off"),
    (Some(VidTable::Vr12), 256, "code"),
    (Some(VidTable::Vr12), 0x0197, "code"),
    (Some(VidTable::Vr13), 0, "off"),
    (Some(VidTable::Vr13), 256, "code"),
    (Some(VidTable::Imvp9), 0, "off"),
    (Some(VidTable::Imvp9), 256, "code"),
    (Some(VidTable::Amd625mv), 217, "code"),
    (Some(VidTable::Amd625mv), 0xffff, "code"),
    (Some(VidTable::Nvidia195mv), 0, "off"),
    (Some(VidTable::Nvidia195mv), 256, "code"),
    (Some(VidTable::Nvidia195mv), 0x0100, "code"),
];

/// The kind of a number in LINEAR11.
fn linear11_kind() -> Kind {
    Kind::Number(NumberFormat::Linear11)
}

/// The kind of a number in LINEAR11 with one exponent.
fn fixed_kind(fixed: Linear11Fixed) -> Kind {
    Kind::Number(NumberFormat::Linear11Fixed(fixed))
}

/// The kind of a number in DIRECT.
fn direct_kind(direct: Direct) -> Kind {
    Kind::Number(NumberFormat::Word(VoutFormat::Direct(direct)))
}

// Under each fixed exponent a word has the same value, whether it is read or written.
#[test]
fn linear11(rt: HostRuntime) -> Result<(), Fail> {
    let fixed = Linear11Fixed::new(-5).ok().ok_or("an exponent")?;
    for (number, row) in words().iter().enumerate() {
        let bytes = row.0.to_le_bytes();
        let wanted = value(row.2, row.3);
        let read = said(&plain(row.1, Access::Read), 0x88, linear11_kind(), &bytes);
        same(&rt, ("row", number), read.as_slice(), wanted.as_slice());
        let kind = fixed_kind(fixed);
        let written = said(&plain(row.1, Access::Write), 0x35, kind, &bytes);
        same(
            &rt,
            ("written, row", number),
            written.as_slice(),
            wanted.as_slice(),
        );
    }
    Ok(())
}

// The same words in DIRECT of a command, and as an output voltage of a device with those coefficients.
#[test]
fn direct(rt: HostRuntime) -> Result<(), Fail> {
    for (number, row) in direct_words().iter().enumerate() {
        let (m, b, r) = row.0;
        let direct = Direct::new(m, b, r).ok().ok_or("coefficients")?;
        let bytes = row.1.to_le_bytes();
        let wanted = value(row.3, row.4);
        let case = plain(row.2, Access::Write);
        let text = said(&case, 0xd0, direct_kind(direct), &bytes);
        same(&rt, ("row", number), text.as_slice(), wanted.as_slice());
        let mut voltage = under(KnownMode::Known(0x40), Some(direct));
        voltage.digits = row.2;
        let text = said(&voltage, 0x8b, Kind::Vout, &bytes);
        same(
            &rt,
            ("voltage, row", number),
            text.as_slice(),
            wanted.as_slice(),
        );
        let text = said(&voltage, 0x22, Kind::VoutSigned, &bytes);
        same(
            &rt,
            ("signed, row", number),
            text.as_slice(),
            wanted.as_slice(),
        );
    }
    Ok(())
}

// Where words have no sign, those of an output voltage have none either, but for corrections of it.
#[test]
fn unsigned_direct(rt: HostRuntime) -> Result<(), Fail> {
    for (number, row) in unsigned_words().iter().enumerate() {
        let (m, b, r) = row.0;
        let direct = Direct::new(m, b, r).ok().ok_or("coefficients")?.unsigned();
        let bytes = row.1.to_le_bytes();
        let wanted = value(row.3, row.4);
        let text = said(
            &plain(row.2, Access::Read),
            0xd0,
            direct_kind(direct),
            &bytes,
        );
        same(&rt, ("row", number), text.as_slice(), wanted.as_slice());
        let mut voltage = under(KnownMode::Known(0x40), Some(direct));
        voltage.digits = row.2;
        let text = said(&voltage, 0x8b, Kind::Vout, &bytes);
        same(
            &rt,
            ("voltage, row", number),
            text.as_slice(),
            wanted.as_slice(),
        );
    }
    let direct = Direct::new(1, 0, 0).ok().ok_or("coefficients")?.unsigned();
    let voltage = under(KnownMode::Known(0x40), Some(direct));
    let text = said(&voltage, 0x22, Kind::VoutSigned, &[0xff, 0xff]);
    let wanted = value("-1", "-1");
    same(&rt, "a correction", text.as_slice(), wanted.as_slice());
    Ok(())
}

// The same words of a command, and of an output voltage under the VOUT_MODE of half precision.
#[test]
fn half(rt: HostRuntime) {
    for (number, row) in half_words().iter().enumerate() {
        let bytes = row.0.to_le_bytes();
        let wanted = value(row.2, row.3);
        let kind = Kind::Number(NumberFormat::Half);
        let text = said(&plain(row.1, Access::Read), 0xd0, kind, &bytes);
        same(&rt, ("row", number), text.as_slice(), wanted.as_slice());
        let mut voltage = under(KnownMode::Known(0x60), None);
        voltage.digits = row.1;
        for kind in [Kind::Vout, Kind::VoutSigned] {
            let text = said(&voltage, 0x8b, kind, &bytes);
            same(
                &rt,
                ("voltage, row", number),
                text.as_slice(),
                wanted.as_slice(),
            );
        }
    }
}

#[test]
fn vid(rt: HostRuntime) {
    for (number, row) in vid_words().iter().enumerate() {
        let kind = Kind::Number(NumberFormat::Vid(row.0));
        let case = plain(6, Access::Read);
        let text = said(&case, 0xd0, kind, &row.1.to_le_bytes());
        let wanted = value(row.2, row.2);
        same(&rt, ("row", number), text.as_slice(), wanted.as_slice());
    }
}

#[test]
fn without_a_value(rt: HostRuntime) {
    for (number, row) in no_values().iter().enumerate() {
        let case = plain(6, Access::Read);
        let format = match row.0 {
            Some(table) => NumberFormat::Vid(table),
            None => NumberFormat::Half,
        };
        let kind = Kind::Number(format);
        let text = said(&case, 0xd0, kind, &row.1.to_le_bytes());
        let wanted = raw(row.2);
        same(&rt, ("row", number), text.as_slice(), wanted.as_slice());
    }
}

// One byte is no number, and three are none; bytes of no number have no value at any length.
#[test]
fn other_lengths(rt: HostRuntime) -> Result<(), Fail> {
    let bytes = [0x12, 0x34, 0x56, 0x78];
    let direct = Direct::new(1, 0, 0).ok().ok_or("coefficients")?;
    let fixed = Linear11Fixed::new(-5).ok().ok_or("an exponent")?;
    let case = under(KnownMode::Known(0x17), Some(direct));
    let two_bytes = [
        linear11_kind(),
        fixed_kind(fixed),
        Kind::Number(NumberFormat::Half),
        Kind::Number(NumberFormat::Vid(VidTable::Vr12)),
        Kind::Vout,
        Kind::VoutSigned,
    ];
    for count in 0..5usize {
        let some = &bytes[..count];
        let text = said(&case, 0x99, Kind::Raw, some);
        same(&rt, (count, "bytes"), text.as_slice(), b":".as_slice());
        if count != 2 {
            for kind in &two_bytes {
                let text = said(&case, 0x8b, *kind, some);
                same(
                    &rt,
                    (count, "bytes of a number"),
                    text.as_slice(),
                    b":".as_slice(),
                );
            }
            let text = said(&case, 0xd0, direct_kind(direct), some);
            same(
                &rt,
                (count, "bytes of DIRECT"),
                text.as_slice(),
                b":".as_slice(),
            );
        }
    }
    Ok(())
}
