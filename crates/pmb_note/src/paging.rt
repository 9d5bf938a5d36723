//! PAGE and VOUT_MODE of one device.
//!
//! Its rows: `tests_lines`, `src/notes/contexts.rt`; `tests/rows/captures.txt`.

ghost use Rattle.std.specs.Prelude.{◌≡◌, ◌||◌, nat_eq};
ghost use Rattle.std.specs.List.{list_all};
ghost use Rattle.pmb_note.specs.Paging.{after_value, common, first_paging, has_paged_mode, page_code, selected_mode, vout_mode_code, with_mode};

use arrayvec::ArrayVec;
use pmb_table::DeviceProfile;
use pmb_table::laws::accepted_device;
use std::marker::Model;

/// The code of PAGE (PMBus Part II 1.3 section 11.10).
const PAGE: u8 = 0x00;

/// The code of VOUT_MODE (section 8).
const VOUT_MODE: u8 = 0x20;

/// The value of PAGE that selects all pages.
const ALL_PAGES: u8 = 0xff;

/// The page of a device that is selected, and the value of VOUT_MODE on each page.
#[derive(Debug, Default, Drop)]
pub(crate) struct Paging {
    page: u8,
    /// From page 0 on.
    modes: ArrayVec<u8, 32>,
}

impl Model for Paging {
    ghost use Rattle.pmb_note.specs.Paging.{PagingData};

    ghost Value = { PagingData };

    ghost view = { λ p. record { page = p.page; modes = p.modes.items } };
}

impl Paging {
    /// The first values: page 0, and for each page the VOUT_MODE that the profile gives it.
    pub fn new(device: &DeviceProfile) -> Paging
        ensures { result ≡ first_paging device.now }
    {
        accepted_device(device);
        let mut modes = ArrayVec::new();
        let _ = modes.try_extend_from_slice(device.modes());
        Paging { page: 0, modes }
    }

    /// PAGE.
    pub fn page(&self) -> u8
        ensures { result ≡ self.now.page }
    {
        self.page
    }

    /// VOUT_MODE on the selected page, or the one that all pages share where all are selected.
    pub fn mode(&self) -> Option<u8>
        ensures { result ≡ selected_mode self.now }
    {
        if self.page == ALL_PAGES {
            common(self.modes.as_slice())
        } else {
            self.modes.as_slice().get(usize::from(self.page)).copied()
        }
    }

    /// Takes a value of one byte of the register with a code.
    pub fn take(&mut self, device: &DeviceProfile, code: u8, value: u8)
        ensures { self.new ≡ after_value device.now code value self.old }
    {
        match code {
            PAGE => self.page = value,
            VOUT_MODE => self.set_mode(device, value),
            _ => {}
        }
    }

    // Sets VOUT_MODE on the selected page or on all.
    fn set_mode(&mut self, device: &DeviceProfile, mode: u8)
        ensures { self.new ≡ with_mode device.now mode self.old }
    {
        if !has_paged_mode(device) || self.page == ALL_PAGES {
            self.modes.as_mut_slice().fill(mode);
            return;
        }
        let page = usize::from(self.page);
        let modes = self.modes.as_mut_slice();
        if page < modes.len() {
            modes[page] = mode;
        }
    }
}

// Whether a device has a VOUT_MODE for each page.
fn has_paged_mode(device: &DeviceProfile) -> bool
    ensures { result ≡ has_paged_mode device.now }
{
    match device.entry(VOUT_MODE) {
        None => false,
        Some(entry) => entry.paged,
    }
}

// The one number that all are.
fn common(modes: &[u8]) -> Option<u8>
    ensures { result ≡ common modes.now }
{
    match modes {
        [first, rest @ ..] if are_all(rest, *first) => Some(*first),
        _ => None,
    }
}

// Whether all are this one.
fn are_all(modes: &[u8], mode: u8) -> bool
    ensures { result ≡ list_all (nat_eq mode) modes.now }
{
    modes.iter().all(|each| mode == *each)
}

/// Whether a code is PAGE's or VOUT_MODE's.
#[inline]
pub(crate) fn is_paging(code: u8) -> bool
    ensures { result ≡ (nat_eq code page_code || nat_eq code vout_mode_code) }
{
    code == PAGE || code == VOUT_MODE
}
