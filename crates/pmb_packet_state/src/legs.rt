//! What a leg is that is written, among those of its packet.
//!
//! Its rows: `tests_reader`, `src/reader/rows.rt` and `src/plain`; `tests/rows/captures.txt`.

ghost use Rattle.std.specs.Prelude.{◌≡◌, ◌↔◌, IsTrue, List, length};
ghost use Rattle.pmb_leg.specs.Leg.{IsRequest, place_of};
ghost use Rattle.pmb_transaction.specs.Body.{IsWriteBody};
ghost use Rattle.pmb_transaction.specs.Transaction.{PartData};
ghost use Rattle.pmb_transaction.specs.Following.{LegMayFollow};

use pmb_leg::{LegPlace, WrittenLeg};

/// The greatest count of parts before one more.
pub(crate) const MOST_BEFORE: usize = 15;

/// Whether a leg, the first of its packet, asks its device for an answer.
pub(crate) fn is_asking(leg: &WrittenLeg) -> bool
    ensures { IsTrue result ↔ ((leg.now.place ≡ LegPlace.First) × IsRequest leg.now.device leg.now.bytes) }
{
    match leg.asked() {
        Some(_) => true,
        None => false,
    }
}

/// Whether a leg is a part.
pub(crate) fn is_part(leg: &WrittenLeg) -> bool
    ensures { IsTrue result ↔ IsWriteBody leg.now.device leg.now.bytes }
{
    match leg.says() {
        Some(_) => true,
        None => false,
    }
}

/// Whether a leg may follow this one, after so many parts.
pub(crate) fn leg_may_follow(leg: &WrittenLeg, part_count: usize) -> bool
    ensures { (parts : List PartData) → length parts ≡ part_count → place_of parts ≡ leg.now.place
        → (IsTrue result ↔ LegMayFollow leg.now.device parts leg.now.bytes) }
{
    if is_asking(leg) {
        return true;
    }
    if part_count >= MOST_BEFORE {
        return false;
    }
    is_part(leg)
}

/// The place of a leg after so many parts.
#[tactic(auto, using(crate::proofs::Places::first_behind_none, crate::proofs::Places::later_behind_some))]
pub(crate) fn place_behind(part_count: usize) -> LegPlace
    ensures { (parts : List PartData) → length parts ≡ part_count → result ≡ place_of parts }
{
    if part_count == 0 {
        LegPlace::First
    } else {
        LegPlace::Later
    }
}
