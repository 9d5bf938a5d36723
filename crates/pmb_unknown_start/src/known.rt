//! What is known of PAGE and VOUT_MODE of one device.
//!
//! Its rows: `tests_lines`, `src/late/starts.rt`; `tests_json`, `src/fields/contexts.rt`.

ghost use Rattle.std.specs.Prelude.{◌≡◌, ◌≤◌, ◌||◌, None, Some, length, map, nat_eq, replicate, slice_get, slice_set};
ghost use Rattle.std.specs.List.{list_all};
ghost use Rattle.std.specs.Option.{is_some};
ghost use Rattle.pmb_note.specs.Paging.{has_paged_mode, page_code, vout_mode_code};
ghost use Rattle.pmb_unknown_start.specs.Known.{any_page, first_known, first_modes, first_page, first_told, forget_modes, forget_paging, kept_under, known_mode, learn_mode, learn_value, may_be, mode_on_page, modes_after, modes_somewhere, own_page, shared_by, shared_mode};

use crate::mode::KnownMode;
use crate::start::Start;
use arrayvec::ArrayVec;
use pmb_table::DeviceProfile;
use pmb_table::laws::accepted_device;
use std::marker::Model;

/// The code of PAGE (PMBus Part II 1.3 section 11.10).
const PAGE: u8 = 0x00;

/// The code of VOUT_MODE (section 8).
const VOUT_MODE: u8 = 0x20;

/// The value of PAGE that selects all pages.
const ALL_PAGES: u8 = 0xff;

/// What is known of PAGE of a device, and of VOUT_MODE on each page.
#[derive(Debug, Default, Drop)]
pub(crate) struct Known {
    page: Option<u8>,
    /// From page 0 on.
    modes: ArrayVec<Option<u8>, 32>,
}

impl Model for Known {
    ghost use Rattle.pmb_unknown_start.specs.Known.{KnownPaging};

    ghost Value = { KnownPaging };

    ghost view = { λ k. record { page = k.page; modes = k.modes.items } };
}

impl Known {
    /// What is known before all transactions.
    pub fn new(device: &DeviceProfile, start: Start) -> Known
        ensures { result ≡ first_known start device.now }
    {
        Known {
            page: first_page(start),
            modes: first_modes(device, start),
        }
    }

    /// PAGE, where it is known.
    pub fn page(&self) -> Option<u8>
        ensures { result ≡ self.now.page }
    {
        self.page
    }

    /// What is known of VOUT_MODE on the selected page, or of the one that all pages share where all
    /// are selected, or any may be.
    pub fn mode(&self) -> KnownMode
        ensures { result ≡ known_mode self.now }
    {
        let modes = self.modes.as_slice();
        match self.page {
            None => any_page(shared_mode(modes)),
            Some(ALL_PAGES) => shared_mode(modes),
            Some(page) => on_page(modes, page),
        }
    }

    /// Takes a value of one byte of the register with a code.
    pub fn learn(&mut self, device: &DeviceProfile, code: u8, value: u8)
        ensures { self.new ≡ learn_value device.now code value self.old }
    {
        match code {
            PAGE => self.page = Some(value),
            VOUT_MODE => self.learn_mode(device, value),
            _ => {}
        }
    }

    /// Forgets VOUT_MODE, where a start does when it is untold.
    pub fn forget_modes(&mut self, start: Start)
        ensures { self.new ≡ forget_modes start self.old }
    {
        match start {
            Start::AllKnown | Start::LateFixedMode => {}
            Start::Late => self.modes.as_mut_slice().fill(None),
        }
    }

    /// Forgets PAGE and VOUT_MODE, where a start does when a line was dropped.
    pub fn forget_paging(&mut self, start: Start)
        ensures { self.new ≡ forget_paging start self.old }
    {
        match start {
            Start::AllKnown => self.page = own_page(self.modes.as_slice(), self.page),
            Start::Late => {
                self.page = None;
                self.modes.as_mut_slice().fill(None);
            }
            Start::LateFixedMode => self.page = None,
        }
    }

    // Takes a value of VOUT_MODE, which is on all pages where there is one for all.
    fn learn_mode(&mut self, device: &DeviceProfile, mode: u8)
        ensures { self.new ≡ learn_mode device.now mode self.old }
    {
        let page = if has_paged_mode(device) {
            self.page
        } else {
            Some(ALL_PAGES)
        };
        set_modes(self.modes.as_mut_slice(), page, mode);
    }
}

/// Whether a code is PAGE's or VOUT_MODE's.
#[inline]
pub(crate) fn is_paging(code: u8) -> bool
    ensures { result ≡ (nat_eq code page_code || nat_eq code vout_mode_code) }
{
    code == PAGE || code == VOUT_MODE
}

// PAGE where it is one of the device's pages, or ffh.
fn own_page(modes: &[Option<u8>], page: Option<u8>) -> Option<u8>
    ensures { result ≡ own_page modes.now page }
{
    match page {
        Some(page) if usize::from(page) < modes.len() || page == ALL_PAGES => Some(page),
        Some(_) | None => None,
    }
}

// PAGE at first.
fn first_page(start: Start) -> Option<u8>
    ensures { result ≡ first_page start }
{
    match start {
        Start::AllKnown => Some(0),
        Start::Late | Start::LateFixedMode => None,
    }
}

// VOUT_MODE on each page at first.
fn first_modes(device: &DeviceProfile, start: Start) -> ArrayVec<Option<u8>, 32>
    ensures { result.items ≡ first_modes start device.now }
{
    accepted_device(device);
    match start {
        Start::AllKnown | Start::LateFixedMode => all_known(device.modes()),
        Start::Late => none_known(device.pages()),
    }
}

// Each is known.
fn all_known(known: &[u8]) -> ArrayVec<Option<u8>, 32>
    requires { length known.now ≤ 32 }
    ensures { result.items ≡ map Some known.now }
{
    let mut modes = ArrayVec::new();
    for mode in known {
        modes.push(Some(*mode));
    }
    modes
}

// On no page is one known.
fn none_known(pages: u8) -> ArrayVec<Option<u8>, 32>
    requires { pages ≤ 32 }
    ensures { result.items ≡ replicate pages None }
{
    let mut modes = ArrayVec::new();
    for _ in 0..pages {
        modes.push(None);
    }
    modes
}

// Whether a device has a VOUT_MODE for each page.
fn has_paged_mode(device: &DeviceProfile) -> bool
    ensures { result ≡ has_paged_mode device.now }
{
    match device.entry(VOUT_MODE) {
        None => false,
        Some(entry) => entry.paged,
    }
}

// Sets VOUT_MODE by what is known of PAGE.
fn set_modes(modes: &mut [Option<u8>], page: Option<u8>, mode: u8)
    ensures { modes.new ≡ modes_after mode page modes.old }
{
    match page {
        None => set_somewhere(modes, mode),
        Some(ALL_PAGES) => modes.fill(Some(mode)),
        Some(page) => set_on_page(modes, page, mode),
    }
}

// Sets VOUT_MODE on a page, if there is such a page.
fn set_on_page(modes: &mut [Option<u8>], page: u8, mode: u8)
    ensures { modes.new ≡ slice_set modes.old page (Some mode) }
{
    let page = usize::from(page);
    if page < modes.len() {
        modes[page] = Some(mode);
    }
}

// Sets VOUT_MODE on the only page, or of several on one that is not known, or on all.
fn set_somewhere(modes: &mut [Option<u8>], mode: u8)
    ensures { modes.new ≡ modes_somewhere mode modes.old }
{
    if modes.len() == 1 {
        modes[0] = Some(mode);
    } else {
        keep_where(modes, mode);
    }
}

// Forgets each VOUT_MODE that is another one.
fn keep_where(modes: &mut [Option<u8>], mode: u8)
    ensures { modes.new ≡ map (kept_under mode) modes.old }
{
    for known in modes.iter_mut() {
        *known = kept_under(*known, mode);
    }
}

// What stays known of a VOUT_MODE where one is told of this page or of another.
fn kept_under(known: Option<u8>, mode: u8) -> Option<u8>
    ensures { result ≡ kept_under mode known }
{
    match known {
        Some(known) if known == mode => Some(known),
        Some(_) | None => None,
    }
}

// What is known of VOUT_MODE on a page.
fn on_page(modes: &[Option<u8>], page: u8) -> KnownMode
    ensures { result ≡ mode_on_page (slice_get modes.now page) }
{
    match modes.get(usize::from(page)) {
        None => KnownMode::NoPage,
        Some(None) => KnownMode::Unknown,
        Some(Some(mode)) => KnownMode::Known(*mode),
    }
}

// What is known of the VOUT_MODE that all pages share.
fn shared_mode(modes: &[Option<u8>]) -> KnownMode
    ensures { result ≡ shared_mode modes.now }
{
    match first_told(modes) {
        None => unshared_mode(modes),
        Some(mode) => mode_shared_with(modes, mode),
    }
}

// .. where none is known.
fn unshared_mode(modes: &[Option<u8>]) -> KnownMode
    ensures { result ≡ shared_by modes.now (list_all is_some modes.now) None }
{
    if are_known(modes) {
        KnownMode::NoPage
    } else {
        KnownMode::Unknown
    }
}

// .. where one is known.
fn mode_shared_with(modes: &[Option<u8>], mode: u8) -> KnownMode
    ensures { result ≡ shared_by modes.now (list_all is_some modes.now) (Some mode) }
{
    if !may_share(modes, mode) {
        KnownMode::NoPage
    } else if are_known(modes) {
        KnownMode::Known(mode)
    } else {
        KnownMode::Unknown
    }
}

// Whether each VOUT_MODE is known.
fn are_known(modes: &[Option<u8>]) -> bool
    ensures { result ≡ list_all is_some modes.now }
{
    modes.iter().all(|mode| mode.is_some())
}

// The first VOUT_MODE that is known.
fn first_told(modes: &[Option<u8>]) -> Option<u8>
    ensures { result ≡ first_told modes.now }
{
    for mode in modes {
        if mode.is_some() {
            return *mode;
        }
    }
    None
}

// Whether no page is known to have another VOUT_MODE.
fn may_share(modes: &[Option<u8>], mode: u8) -> bool
    ensures { result ≡ list_all (may_be mode) modes.now }
{
    modes.iter().all(|known| may_be(*known, mode))
}

// Whether a VOUT_MODE is this one, or not known.
fn may_be(known: Option<u8>, mode: u8) -> bool
    ensures { result ≡ may_be mode known }
{
    match known {
        None => true,
        Some(known) => mode == known,
    }
}

// What is known where any page, or all, may be selected.
fn any_page(shared: KnownMode) -> KnownMode
    ensures { result ≡ any_page shared }
{
    match shared {
        KnownMode::Known(mode) => KnownMode::Known(mode),
        KnownMode::Unknown | KnownMode::NoPage => KnownMode::Unknown,
    }
}
