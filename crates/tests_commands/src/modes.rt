//! Which packets carry a packet error code, by each mode.
use crate::compare::same;
use pmb_table::PecMode;

/// A mode, and whether it allows a packet without a code, and one with it.
const MODES: [(PecMode, bool, bool); 3] = [
    (PecMode::Off, true, false),
    (PecMode::On, false, true),
    (PecMode::Optional, true, true),
];

#[test]
fn each_mode_allows_what_it_says(rt: HostRuntime) {
    for (mode, without, with) in MODES {
        same(&rt, mode, mode.allows(false), without);
        same(&rt, mode, mode.allows(true), with);
        same(&rt, mode, mode.may_carry(), with);
    }
}
