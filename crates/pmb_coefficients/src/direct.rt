//! Coefficients that make a DIRECT format.
ghost use Rattle.std.specs.Prelude.{◌≡◌, ◌↔◌, ◌≢◌, pos, negsuc, ◌<ℤ◌, ◌≤ℤ◌, IfOk, ◌⊎◌, true, false};

use std::marker::Model;

/// Why coefficients make no DIRECT format.
#[derive(Clone, Copy, Debug, PartialEq, Eq)]
pub enum DirectFault {
    /// `m` is 0.
    ZeroSlope,
    /// `r` is below -9 or above 9.
    BadScale,
}

/// The DIRECT format of a device: a word `Y` is worth `(Y * 10^-r - b) / m` (PMBus Part II 1.3
/// section 7.4). `Y` is in two's complement, as the standard has it, or has no sign.
#[derive(Clone, Copy, Debug, PartialEq, Eq)]
pub struct Direct {
    m: i16,
    b: i16,
    r: i8,
    unsigned: bool,
}

impl Model for Direct {
    ghost use Rattle.std.specs.Prelude.{◌≢◌, pos, negsuc, ◌≤ℤ◌};
    ghost use Rattle.pmb_coefficients.specs.Coefficients.{Coefficients};

    ghost Value = { Coefficients };

    ghost view = { λ d. record { m = d.m; b = d.b; r = d.r; unsigned = d.unsigned } };

    ghost invariant = { λ d. (d.m ≢ pos 0) × (negsuc 8 ≤ℤ d.r) × (d.r ≤ℤ pos 9) };

    ghost inverse = { λ d. record { m = d.m; b = d.b; r = d.r; unsigned = d.unsigned } };
}

impl Direct {
    ghost use Rattle.pmb_coefficients.specs.Coefficients.{Coefficients, MakeFormat};

    /// The format of these coefficients, for words in two's complement. `m` must not be 0, which is
    /// tested first, and `r` must be from -9 to 9.
    pub fn new(m: i16, b: i16, r: i8) -> Result<Direct, DirectFault>
        ensures ok { IfOk result (λ d. d ≡ record { m = m; b = b; r = r; unsigned = false }) }
        ensures zero_slope { (result ≡ Err DirectFault.ZeroSlope) ↔ (m ≡ pos 0) }
        ensures bad_scale { (result ≡ Err DirectFault.BadScale) ↔ ((m ≢ pos 0) × ((r <ℤ negsuc 8) ⊎ (pos 9 <ℤ r))) }
    {
        if m == 0 {
            return Err(DirectFault::ZeroSlope);
        }
        if r < -9 || r > 9 {
            return Err(DirectFault::BadScale);
        }
        Ok(Direct {
            m,
            b,
            r,
            unsigned: false,
        })
    }

    /// These coefficients for words without a sign, from 0 to 65535.
    pub const fn unsigned(self) -> Direct
        ensures { result ≡ record self { unsigned = true } }
    {
        Direct {
            unsigned: true,
            ..self
        }
    }

    /// These coefficients for words in two's complement, from -32768 to 32767.
    pub const fn signed(self) -> Direct
        ensures { result ≡ record self { unsigned = false } }
    {
        Direct {
            unsigned: false,
            ..self
        }
    }

    /// Whether words have no sign.
    pub const fn is_unsigned(&self) -> bool
        ensures { result ≡ self.now.unsigned }
    {
        self.unsigned
    }

    /// The slope.
    pub const fn m(&self) -> i16
        ensures value { result ≡ self.now.m }
        ensures kept { MakeFormat self.now }
    {
        self.m
    }

    /// The offset.
    pub const fn b(&self) -> i16
        ensures value { result ≡ self.now.b }
        ensures kept { MakeFormat self.now }
    {
        self.b
    }

    /// The exponent of ten.
    pub const fn r(&self) -> i8
        ensures value { result ≡ self.now.r }
        ensures kept { MakeFormat self.now }
    {
        self.r
    }
}
