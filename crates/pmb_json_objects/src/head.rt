//! Where an object begins.
//!
//! Its rows: `tests_json`, `src/object_lines/packets.rt`; `tests/rows/json_objects.txt`.

ghost use Rattle.std.specs.Prelude.{◌≤◌, length};
ghost use Rattle.std.specs.Option.{ForSome};

use pmb_places::Place;

/// The most bytes of a time.
pub(crate) const TIME: usize = 40;

/// Where an object begins, and the time of its packet.
#[derive(Clone, Copy)]
pub struct Head<'t> {
    /// The number of the object's first event, counted from 0.
    pub at: u64,
    /// The place of that event's word.
    pub place: Place,
    /// The time of the packet, of at most 40 bytes; `None` where none is known.
    pub time: Option<&'t [u8]>,
    pub ghost short: { ForSome time (λ t. length t.now ≤ 40) },
}
