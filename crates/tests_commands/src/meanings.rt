//! What the data of a command stand for.
use pmb_table::Kind;
use pmb_value::{Direct, Linear11Fixed, NumberFormat, Slinear16, Ulinear16, VidTable, VoutFormat};
use std::process::Abort;

/// What the data of a row's command stand for: a kind, where DIRECT has m, b and r.
#[derive(Clone, Copy)]
pub(crate) enum Meaning {
    Raw,
    Linear11,
    Linear11Fixed(i8),
    Ulinear16(i8),
    Slinear16(i8),
    Half,
    Vid(VidTable),
    Vout,
    VoutSigned,
    Direct(i16, i16, i8),
    UnsignedDirect(i16, i16, i8),
    Status,
}

fn direct(rt: &impl Abort, m: i16, b: i16, r: i8) -> Direct {
    Direct::new(m, b, r).expect(rt, "coefficients")
}

/// The number format of a row's command, where its data are a number that needs no VOUT_MODE.
fn format_of(rt: &impl Abort, meaning: Meaning) -> Option<NumberFormat> {
    match meaning {
        Meaning::Linear11 => Some(NumberFormat::Linear11),
        Meaning::Linear11Fixed(exponent) => {
            let format = Linear11Fixed::new(exponent).expect(rt, "an exponent");
            Some(NumberFormat::Linear11Fixed(format))
        }
        Meaning::Ulinear16(exponent) => {
            let format = Ulinear16::new(exponent).expect(rt, "an exponent");
            Some(NumberFormat::Word(VoutFormat::Unsigned(format)))
        }
        Meaning::Slinear16(exponent) => {
            let format = Slinear16::new(exponent).expect(rt, "an exponent");
            Some(NumberFormat::Word(VoutFormat::Signed(format)))
        }
        Meaning::Half => Some(NumberFormat::Half),
        Meaning::Vid(table) => Some(NumberFormat::Vid(table)),
        Meaning::Direct(m, b, r) => {
            Some(NumberFormat::Word(VoutFormat::Direct(direct(rt, m, b, r))))
        }
        Meaning::UnsignedDirect(m, b, r) => {
            let coefficients = direct(rt, m, b, r).unsigned();
            Some(NumberFormat::Word(VoutFormat::Direct(coefficients)))
        }
        Meaning::Raw | Meaning::Vout | Meaning::VoutSigned | Meaning::Status => None,
    }
}

/// The kind of a row's command.
pub(crate) fn kind_of(rt: &impl Abort, meaning: Meaning) -> Kind {
    if let Some(format) = format_of(rt, meaning) {
        return Kind::Number(format);
    }
    match meaning {
        Meaning::Vout => Kind::Vout,
        Meaning::VoutSigned => Kind::VoutSigned,
        Meaning::Status => Kind::Status,
        _ => Kind::Raw,
    }
}
