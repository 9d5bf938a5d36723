//! A list of what makes the status 1.
//!
//! `Fail` has no default, with which an `ArrayVec` fills the places that are free.

ghost use Rattle.std.specs.Prelude.{◌≡◌, ◌≤◌, ◌<◌, ◌++◌, ◌∷◌, [], length};

use pmb_stats_counts::Fail;
use std::marker::Model;

/// What makes the status 1: six or fewer.
#[derive(Drop)]
pub struct FailList {
    /// How many they are.
    length: usize,
    /// These come first.
    fails: [Fail; 6],
}

impl Model for FailList {
    ghost use Rattle.std.specs.Prelude.{List};
    ghost use Rattle.pmb_stats_counts.specs.declared.fail.Fail.{Fail};

    ghost Value = { List Fail };

    ghost use Rattle.pmb_args.specs.machine.FailList.{IsWithin, fail_list};

    ghost view = { fail_list };

    ghost invariant = { IsWithin };
}

impl FailList {
    /// None of them.
    pub(crate) fn new() -> FailList
        ensures { result ≡ [] }
    {
        FailList {
            length: 0,
            fails: [Fail::Refusals; 6],
        }
    }

    /// One after the other.
    pub fn as_slice(&self) -> &[Fail]
        ensures value { result.now ≡ self.now }
        ensures few { length result.now ≤ 6 }
    {
        &self.fails[..self.length]
    }

    /// Appends one.
    pub(crate) fn push(&mut self, fail: Fail)
        requires room { length self.old < 6 }
        ensures { self.new ≡ self.old ++ fail ∷ [] }
    {
        self.fails[self.length] = fail;
        self.length += 1;
    }
}
