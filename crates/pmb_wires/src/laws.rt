//! The laws of wires: each function is its contract, and does nothing.

ghost use Rattle.std.specs.Prelude.{◌≡◌, List, ℕ};
ghost use Rattle.pmb_wires.specs.Changes.{Rises, changes, nothing};
ghost use Rattle.pmb_wires.specs.Added.{IsSpike, all_exchanged, with_spike, without_spike};
ghost use Rattle.pmb_wires.specs.Kinds.{EachIsOneKind};
ghost use Rattle.pmb_wires.specs.Spikes.{behind_first, filtered};
ghost use Rattle.pmb_wires.specs.Signals.{signals_of_piece};
ghost use Rattle.pmb_wires.specs.machine.Tracker.{told_of, unknown_yet};
ghost use Rattle.pmb_wires.specs.machine.Waiting.{fresh, given_for};
ghost use Rattle.pmb_wires.specs.declared.moment.Edge.{Edge};
ghost use Rattle.pmb_wires.specs.declared.moment.Moment.{Moment};

/// A filter gives all changes that begin no spike, in order, and no others.
pub fn filters_spikes()
    ensures { (glitch : ℕ) (moments : List Moment) → Rises moments → given_for (fresh glitch) moments ≡ behind_first glitch (changes nothing moments) }
{}

/// Two pairs of levels, one behind the other, are START, STOP, a rise or a fall of SCL, one of two
/// sorts of x, or nothing, and only one of these.
pub fn each_is_one_kind()
    ensures { EachIsOneKind }
{}

/// A tracker behind a filter tells the signals of a piece of a recording, in order, and no others.
pub fn tells_signals()
    ensures { (glitch : ℕ) (moments : List Moment) → Rises moments → told_of unknown_yet (given_for (fresh glitch) moments) ≡ signals_of_piece glitch moments }
{}

/// A spike that is added inside a run of SDA, shorter than the least time of a run and that long or
/// longer from each other change of SDA, leaves the changes without spikes the same. So does one of
/// SCL, since what is dropped of one wire doesn't depend on which of the two it is. SCL may change at
/// the edges of the spike, and within it.
pub fn added_spikes_are_dropped()
    ensures sda { (glitch : ℕ) (front : List Moment) (up : Moment) (leaves : Edge) (mid : List Moment) (down : Moment) (returns : Edge) (back : List Moment) → IsSpike glitch front up leaves mid down returns back → filtered glitch (with_spike front up leaves mid down returns back) ≡ filtered glitch (without_spike front up mid down back) }
    ensures alike { (glitch : ℕ) (moments : List Moment) → filtered glitch (all_exchanged moments) ≡ all_exchanged (filtered glitch moments) }
{}
