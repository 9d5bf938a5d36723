//! What is counted of each device.
//!
//! The table has 18 KB, so it stands on the heap: a function pays for the size of what it holds.
//!
//! Its rows: `tests/rows/stats.txt`, counts.

ghost use Rattle.std.specs.Prelude.{◌≡◌, ◌<◌, ◌++◌, ◌∷◌, [], IfOk, List, length};
ghost use Rattle.pmb_facts.specs.Fact.{FactData};
ghost use Rattle.pmb_facts.specs.Stands.{Stands};
ghost use Rattle.pmb_stats.specs.machine.DeviceCounts.{DevicesStandAt};
ghost use Rattle.pmb_stats_counts.specs.Counts.{of_device};
ghost use Rattle.pmb_stats_counts.specs.Standing.{HasCounted};

use pmb_facts::What;
use pmb_stats_counts::SortCounts;
use std::alloc::{AllocError, Global};
use std::marker::Model;

/// How many addresses of seven bits there are.
const ADDRESSES: usize = 128;

/// How many facts of each sort name each device.
#[derive(Drop)]
pub(crate) struct DeviceCounts {
    /// By the address.
    counts: Vec<SortCounts>,
}

impl Model for DeviceCounts {
    ghost use Rattle.std.specs.Prelude.{◌≡◌, List, vec_len};
    ghost use Rattle.pmb_stats_counts.specs.declared.counts.SortCounts.{SortCounts};

    ghost Value = { List SortCounts };

    ghost view = { λ d. d.counts.items };

    ghost invariant = { λ d. vec_len d.counts ≡ 128 };
}

impl DeviceCounts {
    /// No fact came. An `Err` says that memory was refused.
    pub(crate) fn new(alloc: Global) -> Result<DeviceCounts, AllocError>
        ensures none { IfOk result (λ devices. DevicesStandAt devices []) }
        ensures addresses { IfOk result (λ devices. length devices ≡ 128) }
    {
        let mut counts = Vec::with_capacity(alloc, ADDRESSES)?;
        for _ in 0..ADDRESSES {
            counts.push(SortCounts::new())?;
        }
        Ok(DeviceCounts { counts })
    }

    /// Counts a fact for the device that it names.
    pub(crate) fn count(&mut self, what: What<'_>)
        ensures counted { (facts : List FactData) (fact : FactData) → DevicesStandAt self.old facts → Stands what.entry fact.what
            → DevicesStandAt self.new (facts ++ fact ∷ []) }
        ensures addresses { length self.old ≡ 128 → length self.new ≡ 128 }
    {
        let Some(addr) = what.device() else {
            return;
        };
        let addr = usize::from(addr);
        if addr < ADDRESSES {
            self.counts[addr].count(what);
        }
    }

    /// What is counted of the device with an address.
    pub(crate) fn of(&self, addr: u8) -> &SortCounts
        requires { addr < 128 }
        ensures { (facts : List FactData) → DevicesStandAt self.now facts → HasCounted result.now (of_device addr facts) }
    {
        &self.counts[usize::from(addr)]
    }
}
