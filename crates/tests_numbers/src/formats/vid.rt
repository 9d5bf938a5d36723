//! VID tables: their ends, ties, codes without a voltage, and names.
use crate::compare::same;
use crate::formats::checks::{ABOVE, BELOW, check_code, check_text};
use pmb_value::{Format, RangeFault, Steps};
use pmb_vid::VidTable;
use pmb_vid::laws::names_name_their_tables;

/// A table, a code, and its voltage.
#[rattlefmt::skip]
static VOLTAGES: [(VidTable, u16, &str); 18] = [
    (VidTable::Vr11, 0x02, "1.6"),
    (VidTable::Vr11, 0x03, "1.59375"),
    (VidTable::Vr11, 0xb2, "0.5"),
    (VidTable::Vr12, 0x01, "0.25"),
    (VidTable::Vr12, 0x97, "1"),
    (VidTable::Vr12, 0xff, "1.52"),
    (VidTable::Vr13, 0x01, "0.5"),
    (VidTable::Vr13, 0x33, "1"),
    (VidTable::Vr13, 0xff, "3.04"),
    (VidTable::Imvp9, 0x01, "0.2"),
    (VidTable::Imvp9, 0x51, "1"),
    (VidTable::Imvp9, 0xff, "2.74"),
    (VidTable::Amd625mv, 0x00, "1.55"),
    (VidTable::Amd625mv, 0x58, "1"),
    (VidTable::Amd625mv, 0xd8, "0.2"),
    (VidTable::Nvidia195mv, 0x01, "0.195"),
    (VidTable::Nvidia195mv, 0xa2, "1"),
    (VidTable::Nvidia195mv, 0xff, "1.465"),
];

#[test]
fn vid_voltages(rt: HostRuntime) {
    for &(table, code, text) in &VOLTAGES {
        check_text(&rt, table.name(), &table, code, text);
        check_code(&rt, table.name(), &table, text, Ok(code));
    }
}

/// A name, a table, a text, and its code or fault.
#[rattlefmt::skip]
static CODES: [(&str, VidTable, &str, Result<u16, RangeFault>); 19] = [
    ("rising, a tie goes to the even code", VidTable::Vr12, "0.2525", Ok(0x02)),
    ("rising, the next tie", VidTable::Vr12, "0.2575", Ok(0x02)),
    ("rising, over the tie", VidTable::Vr12, "0.257501", Ok(0x03)),
    ("rising, under the first", VidTable::Vr12, "0.2475", BELOW),
    ("rising, a little under the first", VidTable::Vr12, "0.2499999", BELOW),
    ("rising, a little over the last", VidTable::Vr12, "1.5201", ABOVE),
    ("rising, none", VidTable::Vr12, "0", BELOW),
    ("rising, a little over the first", VidTable::Vr13, "0.500001", Ok(0x01)),
    ("rising, a tie at the last", VidTable::Imvp9, "2.735", Ok(0xfe)),
    ("rising, below zero", VidTable::Nvidia195mv, "-1", BELOW),
    ("falling, a tie at the first", VidTable::Vr11, "1.596875", Ok(0x02)),
    ("falling, the next tie", VidTable::Vr11, "1.590625", Ok(0x04)),
    ("falling, a tie at the last", VidTable::Vr11, "0.503125", Ok(0xb2)),
    ("falling, a step over the first", VidTable::Vr11, "1.60625", ABOVE),
    ("falling, a little over the first", VidTable::Vr11, "1.600001", ABOVE),
    ("falling, a little under the last", VidTable::Vr11, "0.499999", BELOW),
    ("falling from 0, a tie at the first", VidTable::Amd625mv, "1.546875", Ok(0x00)),
    ("falling from 0, over the first", VidTable::Amd625mv, "1.56", ABOVE),
    ("falling from 0, under the last", VidTable::Amd625mv, "0.19", BELOW),
];

#[test]
fn vid_codes(rt: HostRuntime) {
    for &(name, table, text, wanted) in &CODES {
        check_code(&rt, name, &table, text, wanted);
    }
}

/// A name, a table, its first code, its last, and whether 0 is off.
#[rattlefmt::skip]
static TABLES: [(&str, VidTable, u16, u16, bool); 6] = [
    ("vr11", VidTable::Vr11, 0x02, 0xb2, false),
    ("vr12", VidTable::Vr12, 0x01, 0xff, true),
    ("vr13", VidTable::Vr13, 0x01, 0xff, true),
    ("imvp9", VidTable::Imvp9, 0x01, 0xff, true),
    ("amd625mv", VidTable::Amd625mv, 0x00, 0xd8, false),
    ("nvidia195mv", VidTable::Nvidia195mv, 0x01, 0xff, true),
];

#[test]
fn vid_tables(rt: HostRuntime) {
    for &(name, table, first, last, zero_is_off) in &TABLES {
        for code in 0..600u16 {
            let row = (name, code);
            let inside = first <= code && code <= last;
            same(&rt, row, table.has_voltage(code), inside);
            same(&rt, row, table.is_off(code), zero_is_off && code == 0);
            if inside {
                let found = table.encode(&table.decode(code), &mut Steps::new());
                same(&rt, row, found, Ok(code));
            }
        }
    }
}

#[test]
fn vid_names(rt: HostRuntime) {
    names_name_their_tables();
    for &(name, table, _, _, _) in &TABLES {
        same(&rt, name, table.name(), name);
        same(&rt, name, VidTable::named(name), Some(table));
    }
    for name in ["", "vr1", "vr14", "VR12", "vr12 ", "vid"] {
        same(&rt, name, VidTable::named(name), None);
    }
}
