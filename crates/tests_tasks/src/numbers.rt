//! FORMATs, and lines of quantities and of codes.

use pmb_convert::{
    Conversion, FormatFault, NumberFormat, convert_lines, decode_lines, encode_lines, parse_format,
};
use pmb_io::{Io, Tally};
use pmb_value::{Format, Quantity, Steps, VidTable};
use std::test::Fail;

#[test]
fn formats_have_names(rt: HostRuntime) {
    assert!(rt; parse_format("linear11") == Ok(NumberFormat::Linear11));
    assert!(rt; parse_format("vout:97") == Err(FormatFault::Relative));
    assert!(rt; parse_format("half") == Ok(NumberFormat::Half));
    assert!(rt; parse_format("vid:vr12") == Ok(NumberFormat::Vid(VidTable::Vr12)));
    assert!(rt; parse_format("vid:vr14") == Err(FormatFault::BadFormat));
    assert!(rt; parse_format("udirect:0,0,10") == Err(FormatFault::ZeroSlope));
    assert!(rt; parse_format("udirect:1,0,10") == Err(FormatFault::BadScale));
}

// A generic caller knows a named format by the trait alone.
fn code_of<F: Format>(format: &F, quantity: &Quantity) -> Option<u16> {
    format.encode(quantity, &mut Steps::new()).ok()
}

// With m = 3, b = 2 and r = 1 the code of 1 is (3 * 1 + 2) * 10 = 50 = 32h.
#[test]
fn a_named_format_is_a_format(rt: HostRuntime) -> Result<(), Fail> {
    let format = parse_format("direct:3,2,1").map_err(|_| "no format")?;
    let one = Quantity::parse(b"1").map_err(|_| "no quantity")?;
    assert!(rt; code_of(&format, &one) == Some(0x32));
    assert!(rt; format.decode(0x32).text().as_str() == "1");
    Ok(())
}

#[test]
fn lines_are_converted(rt: HostRuntime) -> Result<(), Fail> {
    let tally = Tally {
        packets: 1,
        refusals: 1,
    };
    let mut reader = Io::new(b"2\nx\n".as_slice());
    let mut writer = Io::new(Vec::new(rt.alloc()));
    let ran = encode_lines(NumberFormat::Linear11, b"1", &mut reader, &mut writer);
    assert!(rt; ran == Ok(tally));
    assert!(rt; writer.into_inner().as_slice() == b"d300\n! BadDigit\n".as_slice());
    let mut reader = Io::new(b"00\nx\n".as_slice());
    let mut writer = Io::new(Vec::new(rt.alloc()));
    let ran = decode_lines(NumberFormat::Linear11, b"d3", &mut reader, &mut writer);
    assert!(rt; ran == Ok(tally));
    assert!(rt; writer.into_inner().as_slice() == b"12\n! BadCode\n".as_slice());
    let mut reader = Io::new(b"8000\n8000".as_slice());
    let mut writer = Io::new(Vec::new(rt.alloc()));
    let conversion = Conversion::Decode(NumberFormat::Linear11);
    let ran = convert_lines(conversion, b"0", &mut reader, &mut writer);
    assert!(rt; ran == Ok(tally));
    assert!(rt; writer.into_inner().as_slice() == b"! BadCode\n0\n".as_slice());
    Ok(())
}

/// A FORMAT, lines of codes, and what is written for them. In half precision 4a00h has the field 18
/// and the fraction 512, so 1536 * 2^-7; in vr12 97h is 0.25 + 150 * 0.005.
#[rattlefmt::skip]
static DECODED: [(&str, &str, &str); 3] = [
    ("half", "4a00\n7c00\n", "12\n! NotANumber\n"),
    ("vid:vr12", "0097\n0000\n0100\n", "1\n! Off\n! NoCode\n"),
    ("udirect:1,0,0", "ffff\n", "65535\n"),
];

#[test]
fn codes_have_values_or_none(rt: HostRuntime) -> Result<(), Fail> {
    for &(name, lines, written) in &DECODED {
        let format = parse_format(name).map_err(|_| "no format")?;
        let mut reader = Io::new(lines.as_bytes());
        let mut writer = Io::new(Vec::new(rt.alloc()));
        let _ = decode_lines(format, b"", &mut reader, &mut writer);
        assert!(rt; writer.into_inner().as_slice() == written.as_bytes());
    }
    Ok(())
}

/// A FORMAT, lines of quantities, and what is written for them.
#[rattlefmt::skip]
static ENCODED: [(&str, &str, &str); 3] = [
    ("half", "12\n65505\n", "4a00\n! Above\n"),
    ("vid:vr12", "1\n0\n", "0097\n! Below\n"),
    ("udirect:1,0,0", "65535\n-1\n", "ffff\n! Below\n"),
];

#[test]
fn quantities_have_codes_or_none(rt: HostRuntime) -> Result<(), Fail> {
    for &(name, lines, written) in &ENCODED {
        let format = parse_format(name).map_err(|_| "no format")?;
        let mut reader = Io::new(lines.as_bytes());
        let mut writer = Io::new(Vec::new(rt.alloc()));
        let _ = encode_lines(format, b"", &mut reader, &mut writer);
        assert!(rt; writer.into_inner().as_slice() == written.as_bytes());
    }
    Ok(())
}
