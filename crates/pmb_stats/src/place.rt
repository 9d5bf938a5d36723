//! The page and the phase that data of a command belong to.
//!
//! Its rows: `tests/rows/stats.txt`, pages and phases.

ghost use Rattle.std.specs.Prelude.{◌≡◌};
ghost use Rattle.pmb_observed.specs.Spot.{page_key, phase_key, selected_page, selected_phase};

use pmb_observed::{PageKey, PhaseKey};

/// The page of a command of a device with so many pages, by whether it is paged, and by PAGE, where
/// that is known.
pub(crate) fn page_key(pages: u8, paged: bool, selected: Option<u8>) -> PageKey
    ensures { result ≡ page_key pages paged selected }
{
    if paged {
        selected_page(pages, selected)
    } else {
        PageKey::Unpaged
    }
}

/// The page that is selected.
fn selected_page(pages: u8, selected: Option<u8>) -> PageKey
    ensures { result ≡ selected_page pages selected }
{
    match selected {
        Some(0xff) => PageKey::AllPages,
        Some(page) if page < pages => PageKey::OnPage(page),
        Some(_) | None => PageKey::UnknownPage,
    }
}

/// The phase of a command that has so many, or none, by PHASE, where that is known.
pub(crate) fn phase_key(phases: Option<u8>, selected: Option<u8>) -> PhaseKey
    ensures { result ≡ phase_key phases selected }
{
    match phases {
        Some(phases) => selected_phase(phases, selected),
        None => PhaseKey::Unphased,
    }
}

/// The phase that is selected.
fn selected_phase(phases: u8, selected: Option<u8>) -> PhaseKey
    ensures { result ≡ selected_phase phases selected }
{
    match selected {
        Some(0xff) => PhaseKey::AllPhases,
        Some(phase) if phase < phases => PhaseKey::OnPhase(phase),
        Some(_) | None => PhaseKey::UnknownPhase,
    }
}
