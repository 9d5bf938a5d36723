//! Means of values, worked out by hand, and what else is kept of them (`pmb_mean`).
use crate::compare::same;
use arrayvec::ArrayVec;
use pmb_decimal::Digits;
use pmb_mean::{Number, NumberHistory, laws};
use pmb_value::{Direct, NumberFormat, Quantity, VidTable, VoutFormat, vout_format};

/// How a word is read.
#[derive(Clone, Copy)]
enum Reading {
    Linear11,
    Half,
    Vid(VidTable),
    /// DIRECT with m, b and R.
    Direct(i16, i16, i8),
    /// By a VOUT_MODE, without a sign and with one.
    Unsigned(u8),
    Signed(u8),
}

/// A name, how the words are read, the words, the number of digits, and the text of the mean.
#[rattlefmt::skip]
static ROWS: [(&str, Reading, &[u16], u8, &str); 23] = [
    ("one value", Reading::Linear11, &[0xf801], 6, "0.5"),
    ("a third", Reading::Linear11, &[0x0001, 0x0000, 0x0000], 6, "0.333333"),
    ("two thirds", Reading::Linear11, &[0x0001, 0x0000, 0x0001], 6, "0.666667"),
    ("a tie, the even digit below", Reading::Linear11, &[0xf801, 0x0000], 1, "0.2"),
    ("a tie, the even digit above", Reading::Linear11, &[0xf801, 0x0001], 1, "0.8"),
    ("a negative tie below", Reading::Linear11, &[0x07ff, 0xf801], 1, "-0.2"),
    ("a tie down without digits", Reading::Linear11, &[0x0002, 0x0003], 0, "2"),
    ("a tie up without digits", Reading::Linear11, &[0x0001, 0x0002], 0, "2"),
    ("rounded to zero", Reading::Linear11, &[0x07ff, 0xf801], 0, "0"),
    ("sums to zero", Reading::Linear11, &[0x07ff, 0x0001], 6, "0"),
    ("the greatest and the least fraction", Reading::Linear11, &[0x7bff, 0x8001], 12, "16760832.000007629395"),
    ("the least", Reading::Linear11, &[0x7c00, 0x7c00], 12, "-33554432"),
    ("a negative slope", Reading::Direct(-3, 2, 0), &[5, 3], 6, "-0.666667"),
    ("R above 0", Reading::Direct(2, 5, 2), &[1000, 1100], 1, "2.8"),
    ("R below 0", Reading::Direct(7, 0, -1), &[1, 2, 4], 6, "3.333333"),
    ("the greatest of DIRECT", Reading::Direct(1, 0, -9), &[0x7fff, 0x7ffe], 12, "32766500000000"),
    ("an output voltage", Reading::Unsigned(0x17), &[0x0001, 0x0000], 12, "0.0009765625"),
    ("an output voltage, rounded once", Reading::Unsigned(0x17), &[0x0001, 0x0000], 6, "0.000977"),
    ("a signed output voltage", Reading::Signed(0x17), &[0xffff, 0x0000, 0x0000], 6, "-0.000651"),
    ("half precision", Reading::Half, &[0x3c00, 0x4000], 6, "1.5"),
    ("the least of half precision", Reading::Half, &[0x0001, 0x0000], 12, "0.000000029802"),
    ("the greatest of half precision", Reading::Half, &[0x7bff, 0x7bfe], 6, "65488"),
    ("a VID table", Reading::Vid(VidTable::Vr11), &[0x02, 0x03], 6, "1.596875"),
];

/// A name, two words, how each is read, and the text of the mean, where the two have one.
#[rattlefmt::skip]
static PAIRS: [(&str, [(Reading, u16); 2], &str); 8] = [
    ("1 V of vr12 and of vr13", [(Reading::Vid(VidTable::Vr12), 0x97), (Reading::Vid(VidTable::Vr13), 0x33)], "1"),
    ("0.5 V of vr11 and 1.52 V of vr12", [(Reading::Vid(VidTable::Vr11), 0xb2), (Reading::Vid(VidTable::Vr12), 0xff)], "1.01"),
    ("half precision and LINEAR11", [(Reading::Half, 0x3c00), (Reading::Linear11, 0x0002)], "1.5"),
    ("half precision and an output voltage", [(Reading::Half, 0xbc00), (Reading::Unsigned(0x17), 0x0001)], "-0.499023"),
    ("VID and LINEAR11", [(Reading::Vid(VidTable::Vr12), 0x97), (Reading::Linear11, 0x0001)], ""),
    ("half precision and VID", [(Reading::Half, 0x3c00), (Reading::Vid(VidTable::Vr12), 0x97)], ""),
    ("VID and DIRECT over 800", [(Reading::Vid(VidTable::Vr12), 0x97), (Reading::Direct(800, 0, 0), 800)], ""),
    ("DIRECT over 1 and over 2", [(Reading::Direct(1, 0, 0), 1), (Reading::Direct(2, 0, 0), 2)], ""),
];

/// The format of a reading.
fn format(reading: Reading) -> Option<NumberFormat> {
    match reading {
        Reading::Linear11 => Some(NumberFormat::Linear11),
        Reading::Half => Some(NumberFormat::Half),
        Reading::Vid(table) => Some(NumberFormat::Vid(table)),
        Reading::Direct(m, b, r) => match Direct::new(m, b, r) {
            Ok(direct) => Some(NumberFormat::Word(VoutFormat::Direct(direct))),
            Err(_) => None,
        },
        Reading::Unsigned(mode) => voltage_format(mode, false),
        Reading::Signed(mode) => voltage_format(mode, true),
    }
}

/// The format that a VOUT_MODE names.
fn voltage_format(mode: u8, signed: bool) -> Option<NumberFormat> {
    match vout_format(mode, signed, None) {
        Ok(format) => Some(NumberFormat::Word(format)),
        Err(_) => None,
    }
}

/// The value of a word, where it has one.
fn number(reading: Reading, word: u16, assumed: bool) -> Option<Number> {
    match format(reading) {
        Some(format) => Number::of_word(&format, word, assumed),
        None => None,
    }
}

#[test]
fn rows(rt: HostRuntime) {
    for &(name, reading, words, count, wanted) in &ROWS {
        let mut history = NumberHistory::new();
        for word in words {
            history.see(&number(reading, *word, false).expect(&rt, "a number"));
        }
        let digits = Digits::new(count).expect(&rt, "digits");
        let mut text = ArrayVec::<u8, 33>::new();
        history.append_mean(digits, &mut text);
        same(&rt, name, text.as_slice(), wanted.as_bytes());
        same(&rt, name, history.has_mean(), true);
    }
}

#[test]
fn pairs(rt: HostRuntime) {
    for &(name, words, wanted) in &PAIRS {
        let mut history = NumberHistory::new();
        for (reading, word) in words {
            history.see(&number(reading, word, false).expect(&rt, "a number"));
        }
        let mut text = ArrayVec::<u8, 33>::new();
        history.append_mean(Digits::default(), &mut text);
        same(&rt, name, text.as_slice(), wanted.as_bytes());
        same(&rt, name, history.has_mean(), !wanted.is_empty());
    }
}

#[test]
fn values_of_two_kinds_have_no_mean(rt: HostRuntime) {
    let direct = Reading::Direct(1, 0, 0);
    let mut history = NumberHistory::new();
    history.see(&number(direct, 7, true).expect(&rt, "a number"));
    same(&rt, "one kind", history.has_mean(), true);
    history.see(&number(Reading::Linear11, 0x0001, false).expect(&rt, "a number"));
    history.see(&number(direct, 3, true).expect(&rt, "a number"));
    let mut text = ArrayVec::<u8, 33>::new();
    history.append_mean(Digits::default(), &mut text);
    same(&rt, "two kinds", text.as_slice(), b"".as_slice());
    same(&rt, "two kinds", history.has_mean(), false);
    same(&rt, "count", history.count(), 3);
    same(&rt, "assumed", history.assumed(), 2);
    same(&rt, "least", history.least(), Quantity::new(1, 1).ok());
    same(
        &rt,
        "greatest",
        history.greatest(),
        Quantity::new(7, 1).ok(),
    );
    same(&rt, "last", history.last(), Quantity::new(3, 1).ok());
}

#[test]
fn nothing_is_kept_at_first(rt: HostRuntime) {
    let history = NumberHistory::default();
    same(&rt, "count", history.count(), 0);
    same(&rt, "assumed", history.assumed(), 0);
    same(&rt, "least", history.least(), None);
    same(&rt, "greatest", history.greatest(), None);
    same(&rt, "last", history.last(), None);
    same(&rt, "mean", history.has_mean(), false);
}

/// A name, and a word without a value.
#[rattlefmt::skip]
static WITHOUT_A_VALUE: [(&str, Reading, u16); 6] = [
    ("an infinity", Reading::Half, 0x7c00),
    ("no number", Reading::Half, 0xffff),
    ("off", Reading::Vid(VidTable::Vr12), 0x00),
    ("a code before the first", Reading::Vid(VidTable::Vr11), 0x01),
    ("a code after the last", Reading::Vid(VidTable::Amd625mv), 0xd9),
    ("a code of two bytes", Reading::Vid(VidTable::Vr13), 0x133),
];

#[test]
fn words_without_a_value_have_no_number(rt: HostRuntime) {
    for &(name, reading, word) in &WITHOUT_A_VALUE {
        same(&rt, name, number(reading, word, false), None);
    }
}

#[test]
fn example(rt: HostRuntime) {
    let mut history = NumberHistory::new();
    for word in [0xf800, 0xf801, 0xf803] {
        if let Some(number) = Number::of_word(&NumberFormat::Linear11, word, false) {
            history.see(&number);
        }
    }
    let mut text = ArrayVec::<u8, 33>::new();
    history.append_mean(Digits::default(), &mut text);
    same(&rt, "two thirds", text.as_slice(), b"0.666667".as_slice());
    laws::least_is_least();
    laws::greatest_is_greatest();
    laws::mean_is_mean();
    laws::mean_is_between();
    laws::one_mean_is_value();
}
