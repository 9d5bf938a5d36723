//! The value of every code is encoded by a code of that value.
use crate::compare::{ensure, same};
use pmb_value::{
    Direct, Format, Linear11, Linear11Fixed, NumberFormat, Slinear16, Steps, Ulinear16, VidTable,
    WordFault,
};
use std::process::Abort;

/// The codes of every format are among the numbers below this one.
const WORDS: u32 = 0x1_0000;

/// Checks that each word whose value is in range is encoded by a code of that value, in 1 to 33
/// steps.
fn check_every<F: Format>(rt: &impl Abort, name: &str, format: &F) {
    for index in 0..WORDS {
        let word = index as u16;
        let quantity = format.decode(word);
        let mut steps = Steps::new();
        if let Ok(code) = format.encode(&quantity, &mut steps) {
            let taken = steps.taken();
            ensure(rt, (name, "at", word), taken >= 1 && taken <= 33);
            same(rt, (name, "at", word), format.decode(code), quantity);
        }
    }
}

/// The exponents that each linear format runs at.
const EXPONENTS: [i8; 4] = [-16, -9, 0, 15];

fn linear11_codes(rt: &impl Abort) {
    check_every(rt, "LINEAR11", &Linear11);
}

fn ulinear16_codes(rt: &impl Abort) {
    for exponent in EXPONENTS {
        let format = Ulinear16::new(exponent).expect(rt, "an exponent");
        check_every(rt, "ULINEAR16", &format);
    }
}

fn slinear16_codes(rt: &impl Abort) {
    for exponent in EXPONENTS {
        let format = Slinear16::new(exponent).expect(rt, "an exponent");
        check_every(rt, "SLINEAR16", &format);
    }
}

fn direct_codes(rt: &impl Abort) {
    for (m, b, r) in [(3, 2, 1), (-1, 0, -1)] {
        let format = Direct::new(m, b, r).expect(rt, "coefficients");
        check_every(rt, "DIRECT", &format);
        check_every(rt, "DIRECT without a sign", &format.unsigned());
    }
}

/// Each word of half precision that has a value is written for it, but for -0, which is written as 0.
fn half_codes(rt: &impl Abort) {
    for index in 0..WORDS {
        let word = index as u16;
        let value = NumberFormat::Half.value(word);
        same(
            rt,
            ("no number", word),
            value.is_err(),
            word >> 10 & 0x1f == 0x1f,
        );
        if let Ok(quantity) = value {
            let wanted = if word == 0x8000 { 0 } else { word };
            let code = NumberFormat::Half.encode(&quantity, &mut Steps::new());
            same(rt, ("half precision", word), code, Ok(wanted));
        }
    }
}

/// A VID table, its first and its last code with a voltage, and whether 0 is off.
struct Codes(VidTable, u16, u16, bool);

const TABLES: [Codes; 6] = [
    Codes(VidTable::Vr11, 2, 178, false),
    Codes(VidTable::Vr12, 1, 255, true),
    Codes(VidTable::Vr13, 1, 255, true),
    Codes(VidTable::Imvp9, 1, 255, true),
    Codes(VidTable::Amd625mv, 0, 216, false),
    Codes(VidTable::Nvidia195mv, 1, 255, true),
];

/// Each code with a voltage is written for it, and no other word has one.
fn vid_codes(rt: &impl Abort) {
    for Codes(table, first, last, has_off) in &TABLES {
        let format = NumberFormat::Vid(*table);
        for index in 0..WORDS {
            let word = index as u16;
            match format.value(word) {
                Ok(quantity) => {
                    ensure(
                        rt,
                        (table.name(), "at", word),
                        *first <= word && word <= *last,
                    );
                    let code = format.encode(&quantity, &mut Steps::new());
                    same(rt, (table.name(), word), code, Ok(word));
                }
                Err(fault) => {
                    ensure(
                        rt,
                        (table.name(), "at", word),
                        word < *first || *last < word,
                    );
                    let is_off = *has_off && word == 0;
                    same(rt, (table.name(), word), fault == WordFault::Off, is_off);
                }
            }
        }
    }
}

/// The 2,048 words with an exponent are the codes, and each is written for its value.
fn linear11_fixed_codes(rt: &impl Abort) {
    for exponent in EXPONENTS {
        let format = Linear11Fixed::new(exponent).expect(rt, "an exponent");
        let field = (i32::from(exponent) + 32) % 32;
        for index in 0..2048u16 {
            let word = (field as u16) * 2048 + index;
            let quantity = format.decode(word);
            let code = format.encode(&quantity, &mut Steps::new());
            same(rt, ("at", exponent), code, Ok(word));
        }
    }
}

/// All of them in one run, which is timed as a whole.
#[test]
fn all_formats(rt: HostRuntime) {
    linear11_codes(&rt);
    ulinear16_codes(&rt);
    slinear16_codes(&rt);
    direct_codes(&rt);
    linear11_fixed_codes(&rt);
    half_codes(&rt);
    vid_codes(&rt);
}
