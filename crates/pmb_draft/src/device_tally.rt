//! What the packets of a device say of its pages and of VOUT_MODE.
//!
//! Its rows: `tests/rows/scan.txt`.

use crate::leg::Leg;

/// The code of PAGE.
const PAGE: u8 = 0x00;

/// The code of VOUT_MODE.
const VOUT_MODE: u8 = 0x20;

/// The value of PAGE that selects all pages.
const ALL_PAGES: u8 = 0xff;

/// How many pages a device of a profile has at most.
pub(crate) const MOST_PAGES: usize = 32;

/// The packets of a device.
#[derive(Clone, Copy, Debug)]
pub(crate) struct DeviceTally {
    legs: u64,
    /// The page that is selected.
    page: u8,
    /// For each value of PAGE whether it was written or read.
    pages: [bool; 256],
    /// VOUT_MODE of each page, as it was written or read first.
    modes: [Option<u8>; MOST_PAGES],
}

impl DeviceTally {
    /// No packet came.
    pub(crate) const NONE: DeviceTally = DeviceTally {
        legs: 0,
        page: 0,
        pages: [false; 256],
        modes: [None; MOST_PAGES],
    };

    /// Takes the next leg to the device.
    pub(crate) fn take(&mut self, leg: &Leg) {
        self.legs = self.legs.saturating_add(1);
        let Some(byte) = leg.byte() else {
            return;
        };
        if leg.code == PAGE {
            self.page = byte;
            self.pages[byte as usize] = true;
        } else if leg.code == VOUT_MODE {
            self.take_mode(byte, leg.is_write());
        }
    }

    /// Takes a value of VOUT_MODE. All pages take one that is written to all.
    fn take_mode(&mut self, mode: u8, is_write: bool) {
        if self.page == ALL_PAGES {
            if is_write {
                for kept in &mut self.modes {
                    *kept = Some(kept.unwrap_or(mode));
                }
            }
        } else if let Some(kept) = self.modes.get_mut(self.page as usize) {
            *kept = Some(kept.unwrap_or(mode));
        }
    }

    /// How many legs came.
    pub(crate) fn legs(&self) -> u64 {
        self.legs
    }

    /// How many pages the values of PAGE tell of that a profile may have; `None` where there is none.
    pub(crate) fn page_count(&self) -> Option<usize> {
        let mut count = None;
        for page in 0..MOST_PAGES {
            if self.pages[page] {
                count = Some(page + 1);
            }
        }
        count
    }

    /// Whether PAGE had this value, and no profile can have such a page.
    pub(crate) fn has_page_beyond(&self, page: u8) -> bool {
        page as usize >= MOST_PAGES && page != ALL_PAGES && self.pages[page as usize]
    }

    /// VOUT_MODE of a page: its own, or else that of the first page which has one.
    pub(crate) fn mode(&self, page: usize, count: usize) -> Option<u8> {
        let own = self.modes.get(page).copied().flatten();
        if own.is_some() {
            return own;
        }
        for other in 0..count {
            let mode = self.modes.get(other).copied().flatten();
            if mode.is_some() {
                return mode;
            }
        }
        None
    }

    /// Whether VOUT_MODE is the same on these pages.
    pub(crate) fn has_one_mode(&self, count: usize) -> bool {
        let first = self.mode(0, count);
        for page in 0..count {
            if self.mode(page, count) != first {
                return false;
            }
        }
        true
    }
}
