//! Signals with different IDs.

ghost use Rattle.std.specs.Prelude.{◌≡◌, ◌≤◌, length};
ghost use Rattle.pmb_wire_names.specs.Kept.{kept_with, signal_of};
ghost use Rattle.pmb_wire_names.specs.Signals.{has_id};

use arrayvec::ArrayVec;

/// The most bytes of an ID.
pub const MOST_ID: usize = 64;

/// The most bytes of a name.
pub const MOST_NAME: usize = 255;

/// The most signals that are kept of a sort: one more than are told.
pub const MOST_FOUND: usize = 17;

/// What tells a signal from others.
pub type Id = ArrayVec<u8, MOST_ID>;

/// The name of a signal.
pub type Name = ArrayVec<u8, MOST_NAME>;

/// A signal with its name.
#[derive(Default, Drop)]
pub struct NamedSignal {
    /// Its ID.
    pub id: Id,
    /// Its name.
    pub name: Name,
}

/// Signals with different IDs.
pub type Signals = ArrayVec<NamedSignal, MOST_FOUND>;

/// Adds a signal, unless one has its ID or there is no room.
pub(crate) fn add(found: &mut Signals, id: &[u8], name: &[u8])
    requires id { length id.now ≤ MOST_ID }
    requires name { length name.now ≤ MOST_NAME }
    ensures { found.new.items ≡ kept_with found.old.items (signal_of id.now name.now) }
{
    if found.is_full() || is_there(found.as_slice(), id) {
        return;
    }
    found.push(named_signal(id, name));
}

fn named_signal(id: &[u8], name: &[u8]) -> NamedSignal
    requires id { length id.now ≤ MOST_ID }
    requires name { length name.now ≤ MOST_NAME }
    ensures { result ≡ signal_of id.now name.now }
{
    let mut signal = NamedSignal {
        id: Id::new(),
        name: Name::new(),
    };
    let _ = signal.id.try_extend_from_slice(id);
    let _ = signal.name.try_extend_from_slice(name);
    signal
}

/// Whether a signal has an ID.
fn is_there(found: &[NamedSignal], id: &[u8]) -> bool
    ensures { result ≡ has_id id.now found.now }
{
    let mut left = found;
    while let [signal, rest @ ..] = left {
        if signal.id.as_slice() == id {
            return true;
        }
        left = rest;
    }
    false
}
