//! What is known of the VOUT_MODE that an output voltage is to be read by.
//!
//! Its rows: `tests_lines`, `src/late/starts.rt`; `tests_json`, `src/fields/voltages.rt`.

ghost use Rattle.std.specs.Prelude.{◌≡◌};
ghost use Rattle.pmb_unknown_start.specs.Known.{is_unknown};

/// The VOUT_MODE that an output voltage is to be read by, as far as it is known.
#[derive(Debug, Clone, Copy, PartialEq, Eq, Drop)]
pub enum KnownMode {
    /// It is known.
    Known(u8),
    /// It can be more than one: PAGE or VOUT_MODE was not told yet, or a VOUT_MODE was told while PAGE
    /// was not known.
    Unknown,
    /// There is none: the device has no page of the number that PAGE has, all pages are selected and
    /// two of them are known to differ, or the profile has no such device.
    NoPage,
}

/// Whether it is not known.
pub(crate) fn is_unknown(mode: KnownMode) -> bool
    ensures { result ≡ is_unknown mode }
{
    match mode {
        KnownMode::Unknown => true,
        KnownMode::Known(_) | KnownMode::NoPage => false,
    }
}
