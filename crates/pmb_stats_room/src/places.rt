//! Where the pages and the phases of a command lie.
//!
//! A command has a row for each page, and in it a place for each phase. All rows are of one width, so
//! the row of a page begins at a multiple of it.
//!
//! Its rows: `tests/rows/stats.txt`, pages and phases.

ghost use Rattle.std.specs.Prelude.{◌≡◌, ◌≤◌, ◌<◌, Some, None, if◌then◌else◌};
ghost use Rattle.std.specs.Option.{IfSome};
ghost use Rattle.pmb_keys.specs.CommandView.{command_parts};
ghost use Rattle.pmb_stats_room.specs.machine.Places.{page_count, page_place, phase_count, phase_place, place, place_count, place_in, places_of};

use pmb_keys::Command;
use pmb_observed::{PageKey, PhaseKey, Spot, phases_of};
use pmb_table::DeviceProfile;

/// How many pages and phases data of a command may belong to.
#[derive(Clone, Copy)]
pub(crate) struct Places {
    /// How many pages the device has, if the command is paged.
    pub pages: Option<u8>,
    /// How many phases it has, if the command has a value for each.
    pub phases: Option<u8>,
}

impl Places {
    /// Those of a command of a device.
    pub(crate) fn of(device: &DeviceProfile, command: &Command) -> Places
        ensures { result ≡ places_of device.now (command_parts command.now) }
    {
        Places {
            pages: paged_by(command.entry.paged, device.pages()),
            phases: phases_of(device, command),
        }
    }

    /// The place of a spot of the command: of a page that it has, in a phase that it has.
    pub(crate) fn place(self, spot: Spot) -> Option<usize>
        ensures { result ≡ place self spot }
    {
        let row = page_place(self.pages, spot.page)?;
        let column = phase_place(self.phases, spot.phase)?;
        Some(row * phase_count(self.phases) + column)
    }

    /// How many places there are.
    pub(crate) fn count(self) -> usize
        ensures { result ≡ place_count self }
    {
        page_count(self.pages) * phase_count(self.phases)
    }
}

/// How many pages, if a command is paged.
fn paged_by(paged: bool, pages: u8) -> Option<u8>
    ensures { result ≡ (if paged then Some pages else None) }
{
    if paged { Some(pages) } else { None }
}

/// The row of a page: of a command that is paged, on a device with this many pages, each of these,
/// then all, then the unknown one; of one that isn't, a single one.
fn page_place(pages: Option<u8>, page: PageKey) -> Option<usize>
    ensures place { result ≡ page_place pages page }
    ensures few { IfSome result (λ place. place < 257) }
{
    match pages {
        Some(pages) => paged_place(pages, page),
        None => unpaged_place(page),
    }
}

fn paged_place(pages: u8, page: PageKey) -> Option<usize>
    ensures place { result ≡ page_place (Some pages) page }
    ensures few { IfSome result (λ place. place < 257) }
{
    match page {
        PageKey::OnPage(page) if page < pages => Some(usize::from(page)),
        PageKey::OnPage(_) => None,
        PageKey::AllPages => Some(usize::from(pages)),
        PageKey::UnknownPage => Some(usize::from(pages) + 1),
        PageKey::Unpaged => None,
    }
}

fn unpaged_place(page: PageKey) -> Option<usize>
    ensures place { result ≡ page_place None page }
    ensures few { IfSome result (λ place. place < 257) }
{
    match page {
        PageKey::OnPage(_) | PageKey::AllPages | PageKey::UnknownPage => None,
        PageKey::Unpaged => Some(0),
    }
}

/// How many rows there are.
fn page_count(pages: Option<u8>) -> usize
    ensures count { result ≡ page_count pages }
    ensures few { result ≤ 257 }
{
    match pages {
        Some(pages) => usize::from(pages) + 2,
        None => 1,
    }
}

/// The place of a phase in its row: of a command that has this many, each of these, then all, then
/// the unknown one; of one that has none, a single one.
fn phase_place(phases: Option<u8>, phase: PhaseKey) -> Option<usize>
    ensures place { result ≡ phase_place phases phase }
    ensures few { IfSome result (λ place. place < 257) }
{
    match phases {
        Some(phases) => phased_place(phases, phase),
        None => unphased_place(phase),
    }
}

fn phased_place(phases: u8, phase: PhaseKey) -> Option<usize>
    ensures place { result ≡ phase_place (Some phases) phase }
    ensures few { IfSome result (λ place. place < 257) }
{
    match phase {
        PhaseKey::OnPhase(phase) if phase < phases => Some(usize::from(phase)),
        PhaseKey::OnPhase(_) => None,
        PhaseKey::AllPhases => Some(usize::from(phases)),
        PhaseKey::UnknownPhase => Some(usize::from(phases) + 1),
        PhaseKey::Unphased => None,
    }
}

fn unphased_place(phase: PhaseKey) -> Option<usize>
    ensures place { result ≡ phase_place None phase }
    ensures few { IfSome result (λ place. place < 257) }
{
    match phase {
        PhaseKey::OnPhase(_) | PhaseKey::AllPhases | PhaseKey::UnknownPhase => None,
        PhaseKey::Unphased => Some(0),
    }
}

/// How many places a row has.
fn phase_count(phases: Option<u8>) -> usize
    ensures count { result ≡ phase_count phases }
    ensures few { result ≤ 257 }
{
    match phases {
        Some(phases) => usize::from(phases) + 2,
        None => 1,
    }
}
