//! Why it is not known which signals the wires are, in words.

ghost use Rattle.std.specs.Prelude.{◌≡◌, ◌≤◌, ◌+◌, ◌++◌, length};
ghost use Rattle.pmb_wire_names.specs.Choosing.{listed, listed_others, name_of, none_of as none_of_all, one_for_both as one_signal, several as several_of};
ghost use Rattle.pmb_wire_names.specs.Kept.{vec_of};

use crate::found::NamedSignal;
use arrayvec::ArrayVec;
use pmb_wires::Wire;

/// A reason: it has room for 16 names.
pub type Reason = ArrayVec<u8, 4608>;

/// A wire is none of all signals.
pub(crate) fn none_of(wire: Wire, all: &[NamedSignal]) -> Reason
    ensures { result ≡ vec_of (none_of_all wire all.now) }
{
    let mut text = Reason::new();
    append(&mut text, name(wire));
    append(&mut text, b" is none of ");
    append_names(&mut text, all);
    text
}

/// A wire may be several signals.
pub(crate) fn several(wire: Wire, found: &[NamedSignal]) -> Reason
    ensures { result ≡ vec_of (several_of wire found.now) }
{
    let mut text = Reason::new();
    append(&mut text, name(wire));
    append(&mut text, b" may be ");
    append_names(&mut text, found);
    text
}

/// Both wires are one signal.
pub(crate) fn one_for_both() -> Reason
    ensures { result ≡ vec_of one_signal }
{
    let mut text = Reason::new();
    append(&mut text, b"SCL and SDA are one signal");
    text
}

fn name(wire: Wire) -> &'static [u8]
    ensures text { result.now ≡ name_of wire }
    ensures short { length result.now ≤ 3 }
{
    match wire {
        Wire::Scl => b"SCL",
        Wire::Sda => b"SDA",
    }
}

/// Appends the names of signals to a text, at most 16, and that there are more.
pub fn append_names(text: &mut Reason, signals: &[NamedSignal])
    requires { length text.old.items ≤ 100 }
    ensures { text.new.items ≡ text.old.items ++ listed signals.now }
{
    if let [signal, others @ ..] = signals {
        append(text, signal.name.as_slice());
        append_others(text, others);
    }
}

/// Appends at most 15 more names, and then that there are others.
fn append_others(text: &mut Reason, others: &[NamedSignal])
    requires { length text.old.items ≤ 400 }
    ensures { text.new.items ≡ text.old.items ++ listed_others others.now 15 }
{
    let mut left = others;
    let mut room: usize = 15;
    while let [signal, rest @ ..] = left {
        if room == 0 {
            append(text, b", ..");
            return;
        }
        append(text, b", ");
        append(text, signal.name.as_slice());
        room -= 1;
        left = rest;
    }
}

fn append(text: &mut Reason, more: &[u8])
    requires { length text.old.items + length more.now ≤ 4608 }
    ensures text { text.new.items ≡ text.old.items ++ more.now }
    ensures longer { length text.new.items ≡ length text.old.items + length more.now }
{
    let _ = text.try_extend_from_slice(more);
}
