//! Output voltages in the formats that VOUT_MODE names (PMBus Part II 1.3 section 8), and why one can't
//! be read. The values are exact fractions, worked out apart from the code.

use crate::compare::same;
use crate::fields::says::{assumed, push, ratio, raw, said, said_by, under, value};
use arrayvec::ArrayVec;
use pmb_command::Kind;
use pmb_json_fields::Basis;
use pmb_keys::VidTables;
use pmb_unknown_start::KnownMode;
use pmb_value::{Direct, NumberFormat, VidTable};
use std::test::Fail;

/// A VOUT_MODE, a word, the digits, the exact value and the nearest number.
type Word = (u8, u16, u8, &'static str, &'static str);

/// What is known of VOUT_MODE, whether there are coefficients, and why there is no value.
type NoValue = (KnownMode, bool, &'static str);

/// VOUT_MODE, the command's code, a word, and the factor of VOUT_COMMAND, or the voltage, which is the
/// nearest number too. DIRECT has m = 1, b = 0 and R = 2.
type Relative = (u8, u8, u16, Factor);

/// A factor of VOUT_COMMAND, a voltage, or why there is none.
#[derive(Clone, Copy, Drop)]
enum Factor {
    Ratio(&'static str),
    Volts(&'static str),
    None(&'static str),
}

/// The tables, VOUT_MODE, PAGE, a word, and the voltage, which is the nearest number too, or why there is
/// none.
type Vid = (
    Tables,
    u8,
    Option<u8>,
    u16,
    Result<&'static str, &'static str>,
);

/// One table, which is that of two pages; two; or one for type 3 alone.
#[derive(Clone, Copy, Debug, Drop)]
enum Tables {
    One,
    Two,
    Types,
}

/// The rows of a table. A call keeps the proof of a loop over them from carrying the table.
fn unsigned_words() -> &'static [Word] {
    &ULINEAR16
}

fn signed_words() -> &'static [Word] {
    &SLINEAR16
}

fn no_values() -> &'static [NoValue] {
    &NO_VALUES
}

fn relative_words() -> &'static [Relative] {
    &RELATIVE
}

fn vid_words() -> &'static [Vid] {
    &VID
}

static ULINEAR16: [Word; 19] = [
    (0x17, 0x1800, 6, "12", "12"),
    (0x17, 0x1801, 6, "12.001953125", "12.001953"),
    (0x17, 0xffff, 6, "127.998046875", "127.998047"),
    (0x17, 0x0000, 6, "0", "0"),
    (0x10, 0x0001, 6, "0.0000152587890625", "0.000015"),
    (0x10, 0xffff, 6, "0.9999847412109375", "0.999985"),
    (0x0f, 0xffff, 6, "2147450880", "2147450880"),
    (0x0f, 0x0001, 6, "32768", "32768"),
    (0x00, 0x8000, 6, "32768", "32768"),
    (0x1f, 0x0001, 6, "0.5", "0.5"),
    (0x1f, 0x0003, 6, "1.5", "1.5"),
    (0x14, 0x4000, 6, "4", "4"),
    (0x13, 0x7fff, 6, "3.9998779296875", "3.999878"),
    (0x17, 0x0500, 0, "2.5", "2"),
    (0x17, 0x0500, 1, "2.5", "2.5"),
    (0x17, 0x0500, 2, "2.5", "2.5"),
    (0x17, 0x0500, 12, "2.5", "2.5"),
    (0x10, 0x0001, 12, "0.0000152587890625", "0.000015258789"),
    (0x11, 0x0003, 12, "0.000091552734375", "0.000091552734"),
];

static SLINEAR16: [Word; 30] = [
    (0x17, 0x1800, 6, "12", "12"),
    (0x17, 0x1801, 6, "12.001953125", "12.001953"),
    (0x17, 0xffff, 6, "-0.001953125", "-0.001953"),
    (0x17, 0x0000, 6, "0", "0"),
    (0x10, 0x0001, 6, "0.0000152587890625", "0.000015"),
    (0x10, 0xffff, 6, "-0.0000152587890625", "-0.000015"),
    (0x0f, 0xffff, 6, "-32768", "-32768"),
    (0x0f, 0x0001, 6, "32768", "32768"),
    (0x00, 0x8000, 6, "-32768", "-32768"),
    (0x1f, 0x0001, 6, "0.5", "0.5"),
    (0x1f, 0x0003, 6, "1.5", "1.5"),
    (0x14, 0x4000, 6, "4", "4"),
    (0x13, 0x7fff, 6, "3.9998779296875", "3.999878"),
    (0x17, 0xff80, 0, "-0.25", "0"),
    (0x17, 0xff80, 1, "-0.25", "-0.2"),
    (0x17, 0xff80, 2, "-0.25", "-0.25"),
    (0x17, 0xff80, 12, "-0.25", "-0.25"),
    (0x1f, 0x0001, 0, "0.5", "0"),
    (0x1f, 0x0001, 1, "0.5", "0.5"),
    (0x1f, 0x0003, 0, "1.5", "2"),
    (0x1f, 0x0003, 1, "1.5", "1.5"),
    (0x1f, 0xffff, 0, "-0.5", "0"),
    (0x1f, 0xffff, 1, "-0.5", "-0.5"),
    (0x1f, 0xfffd, 0, "-1.5", "-2"),
    (0x1f, 0xfffd, 1, "-1.5", "-1.5"),
    (0x1e, 0x0001, 0, "0.25", "0"),
    (0x1e, 0x0001, 1, "0.25", "0.2"),
    (0x1e, 0xfffb, 0, "-1.25", "-1"),
    (0x1e, 0xfffb, 1, "-1.25", "-1.2"),
    (0x10, 0xffff, 12, "-0.0000152587890625", "-0.000015258789"),
];

static NO_VALUES: [NoValue; 12] = [
    (KnownMode::Known(0x20), false, "vid"),
    (KnownMode::Known(0x3f), true, "vid"),
    (KnownMode::Known(0xa0), false, "vid"),
    (KnownMode::Known(0xbf), true, "vid"),
    (KnownMode::Known(0x40), false, "coefficients"),
    (KnownMode::Known(0x5f), false, "coefficients"),
    (KnownMode::Known(0xc0), false, "coefficients"),
    (KnownMode::Known(0xdf), false, "coefficients"),
    (KnownMode::Unknown, false, "unknown"),
    (KnownMode::Unknown, true, "unknown"),
    (KnownMode::NoPage, false, "page"),
    (KnownMode::NoPage, true, "page"),
];

/// Commands whose words may be factors of VOUT_COMMAND.
static FACTORS: [u8; 8] = [0x25, 0x26, 0x40, 0x42, 0x43, 0x44, 0x5e, 0x5f];

#[rattlefmt::skip]
static RELATIVE: [Relative; 16] = [
    (0x97, 0x25, 0x01cd, Factor::Ratio("0.900390625")),
    (0x97, 0x25, 0x0200, Factor::Ratio("1")),
    (0x97, 0x5f, 0x0200, Factor::Ratio("1")),
    (0x97, 0x21, 0x1800, Factor::Volts("12")),
    (0x97, 0x24, 0x1800, Factor::Volts("12")),
    (0x97, 0x41, 0x1800, Factor::Volts("12")),
    (0x97, 0x8b, 0x1800, Factor::Volts("12")),
    (0x17, 0x25, 0x1800, Factor::Volts("12")),
    (0xe0, 0x40, 0x3b33, Factor::Ratio("0.89990234375")),
    (0xe0, 0x40, 0x7c00, Factor::None("nan")),
    (0xe0, 0x21, 0x3e00, Factor::Volts("1.5")),
    (0x60, 0x40, 0x3e00, Factor::Volts("1.5")),
    (0xc0, 0x44, 90, Factor::Ratio("0.9")),
    (0xc0, 0x21, 90, Factor::Volts("0.9")),
    (0xa0, 0x44, 1, Factor::None("relative")),
    (0x20, 0x44, 1, Factor::None("vid")),
];

#[rattlefmt::skip]
static VID: [Vid; 24] = [
    (Tables::One, 0x20, Some(0), 1, Ok("0.25")),
    (Tables::One, 0x20, Some(1), 0x97, Ok("1")),
    (Tables::One, 0x3f, Some(0), 255, Ok("1.52")),
    (Tables::One, 0xa0, Some(0), 255, Ok("1.52")),
    (Tables::One, 0x20, Some(0xff), 1, Ok("0.25")),
    (Tables::One, 0x20, None, 1, Ok("0.25")),
    (Tables::One, 0x20, None, 0, Err("off")),
    (Tables::One, 0x20, None, 256, Err("code")),
    (Tables::Two, 0x20, Some(0), 1, Ok("0.25")),
    (Tables::Two, 0x20, Some(1), 1, Ok("0.5")),
    (Tables::Two, 0x3f, Some(1), 255, Ok("3.04")),
    (Tables::Two, 0x20, Some(2), 1, Err("page")),
    (Tables::Two, 0x20, Some(0xff), 1, Err("page")),
    (Tables::Two, 0x20, None, 1, Err("unknown")),
    (Tables::Two, 0x20, Some(1), 0, Err("off")),
    (Tables::Two, 0x20, Some(1), 256, Err("code")),
    (Tables::Types, 0x23, Some(0), 1, Ok("0.2")),
    (Tables::Types, 0xa3, Some(1), 1, Ok("0.2")),
    (Tables::Types, 0x23, Some(0xff), 255, Ok("2.74")),
    (Tables::Types, 0x23, None, 255, Ok("2.74")),
    (Tables::Types, 0x23, None, 0, Err("off")),
    (Tables::Types, 0x20, None, 1, Err("vid")),
    (Tables::Types, 0x33, None, 1, Err("vid")),
    (Tables::Types, 0x3f, None, 1, Err("vid")),
];

/// The tables of a device with two pages.
fn vid_tables(tables: Tables) -> VidTables {
    match tables {
        Tables::One => VidTables::OfPages(pages(VidTable::Vr12, VidTable::Vr12)),
        Tables::Two => VidTables::OfPages(pages(VidTable::Vr12, VidTable::Vr13)),
        Tables::Types => VidTables::OfTypes(types()),
    }
}

fn pages(first: VidTable, second: VidTable) -> ArrayVec<VidTable, 32> {
    let mut tables = ArrayVec::new();
    let _ = tables.try_push(first);
    let _ = tables.try_push(second);
    tables
}

/// A table for type 3 alone.
fn types() -> ArrayVec<Option<VidTable>, 32> {
    let mut tables = ArrayVec::new();
    for number in 0..32u8 {
        let table = if number == 3 {
            Some(VidTable::Imvp9)
        } else {
            None
        };
        let _ = tables.try_push(table);
    }
    tables
}

#[test]
fn unsigned(rt: HostRuntime) {
    for (number, row) in unsigned_words().iter().enumerate() {
        let mut case = under(KnownMode::Known(row.0), None);
        case.digits = row.2;
        let text = said(&case, 0x8b, Kind::Vout, &row.1.to_le_bytes());
        same(
            &rt,
            ("row", number),
            text.as_slice(),
            value(row.3, row.4).as_slice(),
        );
    }
}

// To a linear mode coefficients do not matter.
#[test]
fn signed(rt: HostRuntime) -> Result<(), Fail> {
    let direct = Direct::new(1, 0, 0).ok().ok_or("coefficients")?;
    for (number, row) in signed_words().iter().enumerate() {
        let mut case = under(KnownMode::Known(row.0), Some(direct));
        case.digits = row.2;
        let text = said(&case, 0x22, Kind::VoutSigned, &row.1.to_le_bytes());
        same(
            &rt,
            ("row", number),
            text.as_slice(),
            value(row.3, row.4).as_slice(),
        );
    }
    Ok(())
}

#[test]
fn without_a_value(rt: HostRuntime) -> Result<(), Fail> {
    let direct = Direct::new(1, 0, 0).ok().ok_or("coefficients")?;
    for (number, row) in no_values().iter().enumerate() {
        let case = under(row.0, if row.1 { Some(direct) } else { None });
        let wanted = raw(row.2);
        let text = said(&case, 0x8b, Kind::Vout, &[0x34, 0x12]);
        same(&rt, ("row", number), text.as_slice(), wanted.as_slice());
        let text = said(&case, 0x22, Kind::VoutSigned, &[0x00, 0x00]);
        same(
            &rt,
            ("signed, row", number),
            text.as_slice(),
            wanted.as_slice(),
        );
        let text = said(&case, 0x8b, Kind::Vout, &[0x34]);
        same(
            &rt,
            ("one byte, row", number),
            text.as_slice(),
            b":".as_slice(),
        );
    }
    Ok(())
}

// Under a relative VOUT_MODE some words are factors of VOUT_COMMAND, and the mark is the same.
#[test]
fn relative(rt: HostRuntime) -> Result<(), Fail> {
    let direct = Direct::new(1, 0, 2).ok().ok_or("coefficients")?;
    for (number, row) in relative_words().iter().enumerate() {
        let case = under(KnownMode::Known(row.0), Some(direct));
        let text = said(&case, row.1, Kind::Vout, &row.2.to_le_bytes());
        let wanted = match row.3 {
            Factor::Ratio(exact) => ratio(exact),
            Factor::Volts(exact) => value(exact, exact),
            Factor::None(why) => raw(why),
        };
        same(&rt, ("row", number), text.as_slice(), wanted.as_slice());
    }
    Ok(())
}

// Of all commands those eight, if their words are no numbers of another kind.
#[test]
fn factors(rt: HostRuntime) {
    let case = under(KnownMode::Known(0x97), None);
    for code in 0..=255u8 {
        let text = said(&case, code, Kind::Vout, &[0x00, 0x02]);
        let wanted = if FACTORS.contains(&code) {
            ratio("1")
        } else {
            value("1", "1")
        };
        same(&rt, ("code", code), text.as_slice(), wanted.as_slice());
    }
    let kind = Kind::Number(NumberFormat::Linear11);
    let text = said(&case, 0x25, kind, &[0x01, 0x00]);
    same(&rt, "LINEAR11", text.as_slice(), value("1", "1").as_slice());
}

#[test]
fn vid(rt: HostRuntime) {
    for (number, row) in vid_words().iter().enumerate() {
        let tables = vid_tables(row.0);
        let mut case = under(KnownMode::Known(row.1), None);
        case.page = row.2;
        let bytes = row.3.to_le_bytes();
        let text = said_by(&case, Some(&tables), 0x8b, Kind::Vout, &bytes);
        let wanted = match row.4 {
            Ok(exact) => value(exact, exact),
            Err(why) => raw(why),
        };
        same(&rt, ("row", number), text.as_slice(), wanted.as_slice());
        // a correction has no VID code, whichever the table
        let text = said_by(&case, Some(&tables), 0x22, Kind::VoutSigned, &bytes);
        same(
            &rt,
            ("signed, row", number),
            text.as_slice(),
            raw("vid").as_slice(),
        );
    }
}

// Only an output voltage with a value has the mark, and a factor.
#[test]
fn marked(rt: HostRuntime) {
    let mut case = under(KnownMode::Known(0x17), None);
    case.basis = Basis::Assumed;
    let text = said(&case, 0x8b, Kind::Vout, &[0x00, 0x18]);
    let wanted = assumed("12", "12");
    same(&rt, "a voltage", text.as_slice(), wanted.as_slice());
    let text = said(&case, 0x22, Kind::VoutSigned, &[0x00, 0xe8]);
    let wanted = assumed("-12", "-12");
    same(&rt, "a signed one", text.as_slice(), wanted.as_slice());
    let kind = Kind::Number(NumberFormat::Linear11);
    let text = said(&case, 0x88, kind, &[0x01, 0x00]);
    let wanted = value("1", "1");
    same(&rt, "an input voltage", text.as_slice(), wanted.as_slice());
    case.mode = KnownMode::Known(0x97);
    let text = said(&case, 0x25, Kind::Vout, &[0x00, 0x01]);
    let mut wanted = ratio("0.5");
    push(&mut wanted, ",\"mode\":\"assumed\"");
    same(&rt, "a factor", text.as_slice(), wanted.as_slice());
    case.mode = KnownMode::Known(0x20);
    let text = said(&case, 0x8b, Kind::Vout, &[0x00, 0x18]);
    let wanted = raw("vid");
    same(
        &rt,
        "one without a value",
        text.as_slice(),
        wanted.as_slice(),
    );
}
