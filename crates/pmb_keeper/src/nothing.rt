//! A keeper that keeps nothing.

use crate::keeper::Keeper;
use pmb_facts::Fact;
use pmb_json_objects::Seen;

/// Keeps nothing of the facts that it is given.
#[derive(Clone, Copy)]
pub struct Nothing;

impl Keeper for Nothing {
    ghost use Rattle.pmb_keeper.specs.Setting.{IsNothing};

    ghost Keeps = { IsNothing };

    fn keep(&mut self, seen: &Seen<'_>, fact: Fact<'_>) {}
}
