//! The laws of reading: each function is its contract, and does nothing.
//!
//! `HasRead` tells what a reader has read so far of a capture; these laws carry it from call to
//! call, and say what it comes to at the capture's end.
//!
//! Its rows: `tests_reader`, `src/reader/example.rt`, where each law is called.

ghost use Rattle.std.specs.Prelude.{◌≡◌, ℕ, Result, Ok, Err, List, [], ◌∷◌, ◌++◌, map, take};
ghost use Rattle.pmb_bus.specs.declared.event.Event.{Event};
ghost use Rattle.pmb_command.specs.Parts.{DeviceParts};
ghost use Rattle.pmb_command.specs.Bus.{IsBus};
ghost use Rattle.pmb_transaction.specs.declared.transaction.Transaction.{Transaction};
ghost use Rattle.pmb_transaction.specs.Transaction.{TransactionData, transaction_data};
ghost use Rattle.pmb_transaction.specs.Capture.{Capture};
ghost use Rattle.pmb_transaction.specs.Reading.{Accepted, IsUnderWay, Outcome, Reading, Refusal as refused_as};
ghost use Rattle.pmb_reader.specs.declared.feed.Outcome.TheVariants as fed;
ghost use Rattle.pmb_reader.specs.declared.reader.Reader.{Reader};
ghost use Rattle.pmb_reader.specs.declared.reader.Took.TheVariants as took;
ghost use Rattle.pmb_reader.specs.declared.refusal.Refusal.{Refusal};
ghost use Rattle.pmb_reader.specs.Refusal.{refusal_data};
ghost use Rattle.pmb_reader.specs.Reader.{Standing, Open, ReaderStandsAt, ReaderFinishes, ReaderTakes, behind_resync, last_read};
ghost use Rattle.pmb_reader.specs.Feed.{ReaderFeeds};
ghost use Rattle.pmb_reader.specs.Reading.{Due, AnyEvent, HeldEvent, HasRead, IsDue, IsNotHeld, due_behind_resync};

use pmb_packet_state::laws::some_packet_is_under_way;
use pmb_transaction::laws::{captures_read_as_written, passing_goes_on};

// ---- the packet under way

/// Where a reader reads a packet, some packet begins with its events so far, and they hold no whole
/// one.
pub fn some_packet_is_read()
    ensures { (profile : List DeviceParts) (reader : Reader) (n : ℕ) (events : List Event) → ReaderStandsAt profile reader (Open n events)
        → IsUnderWay profile events }
{
    some_packet_is_under_way();
}

// ---- the start

/// A new reader has read nothing of no events.
pub fn reading_begins()
    ensures { (profile : List DeviceParts) (reader : Reader) → ReaderStandsAt profile reader (Open 0 [])
        → HasRead profile reader [] AnyEvent [] }
{}

// ---- one event

/// With an event that `take` uses and that ends no packet nothing more is read.
pub fn reading_goes_on()
    ensures { (profile : List DeviceParts) (before after : Reader) (events : List Event) (due : Due)
        (outcomes : List Outcome) (event : Event) → HasRead profile before events due outcomes
        → IsDue due (event ∷ [])
        → ((standing : Standing) → ReaderStandsAt profile before standing → ReaderTakes profile standing event took.Continues after)
        → HasRead profile after (events ++ event ∷ []) AnyEvent outcomes }
{
    passing_goes_on();
}

/// With an event that `take` uses and that ends a packet its transaction is read.
pub fn reading_accepts()
    ensures { (profile : List DeviceParts) (before after : Reader) (events : List Event) (due : Due)
        (outcomes : List Outcome) (event : Event) → HasRead profile before events due outcomes
        → ((standing : Standing) → ReaderStandsAt profile before standing → ReaderTakes profile standing event took.Packet after)
        → HasRead profile after (events ++ event ∷ []) AnyEvent (outcomes ++ Accepted (last_read after) ∷ []) }
{}

/// With an event that `take` refuses the refusal is read, and the event comes again.
pub fn reading_refuses()
    ensures { (profile : List DeviceParts) (before after : Reader) (events : List Event) (outcomes : List Outcome)
        (event : Event) (refusal : Refusal) → HasRead profile before events AnyEvent outcomes
        → ((standing : Standing) → ReaderStandsAt profile before standing → ReaderTakes profile standing event (took.Refused refusal) after)
        → HasRead profile after events (HeldEvent event) (outcomes ++ refused_as (refusal_data refusal) ∷ []) }
{}

/// While a refusal is held `take` reads nothing more.
pub fn reading_is_held()
    ensures { (profile : List DeviceParts) (before after : Reader) (events : List Event) (first : Event)
        (outcomes : List Outcome) (event : Event) (refusal : Refusal) → HasRead profile before events (HeldEvent first) outcomes
        → ((standing : Standing) → ReaderStandsAt profile before standing → ReaderTakes profile standing event (took.Refused refusal) after)
        → HasRead profile after events (HeldEvent first) outcomes }
{}

/// `resync` reads nothing.
pub fn reading_resumes()
    ensures { (profile : List DeviceParts) (before after : Reader) (events : List Event) (due : Due)
        (outcomes : List Outcome) → HasRead profile before events due outcomes
        → ((standing : Standing) → ReaderStandsAt profile before standing → ReaderStandsAt profile after (behind_resync standing))
        → HasRead profile after events (due_behind_resync due) outcomes }
{}

// ---- a piece

/// With a piece that `feed` uses whole nothing more is read.
pub fn pieces_go_on()
    ensures { (profile : List DeviceParts) (before after : Reader) (events : List Event) (due : Due)
        (outcomes : List Outcome) (piece : List Event) (used : ℕ) → HasRead profile before events due outcomes
        → IsDue due piece
        → ((standing : Standing) → ReaderStandsAt profile before standing → ReaderFeeds profile standing piece used fed.More after)
        → HasRead profile after (events ++ piece) AnyEvent outcomes }
{
    passing_goes_on();
}

/// With a piece of no events nothing more is read, and what is due stays so.
pub fn empty_pieces_read_nothing()
    ensures { (profile : List DeviceParts) (before after : Reader) (events : List Event) (due : Due)
        (outcomes : List Outcome) (used : ℕ) → HasRead profile before events due outcomes
        → ((standing : Standing) → ReaderStandsAt profile before standing → ReaderFeeds profile standing [] used fed.More after)
        → HasRead profile after events due outcomes }
{}

/// With a piece in which a packet ends, up to its STOP, the transaction is read.
pub fn pieces_are_accepted()
    ensures { (profile : List DeviceParts) (before after : Reader) (events : List Event) (due : Due)
        (outcomes : List Outcome) (piece : List Event) (used : ℕ) (t : Transaction) → HasRead profile before events due outcomes
        → IsDue due piece
        → ((standing : Standing) → ReaderStandsAt profile before standing → ReaderFeeds profile standing piece used (fed.Packet t) after)
        → HasRead profile after (events ++ take used piece) AnyEvent (outcomes ++ Accepted (transaction_data t) ∷ []) }
{
    passing_goes_on();
}

/// With a piece in which an event is refused, up to that, the refusal is read, and the event comes
/// again.
pub fn pieces_are_refused()
    ensures { (profile : List DeviceParts) (before after : Reader) (events : List Event) (outcomes : List Outcome)
        (due : Due) (piece : List Event) (used : ℕ) (refusal : Refusal) → HasRead profile before events due outcomes
        → IsNotHeld due → IsDue due piece
        → ((standing : Standing) → ReaderStandsAt profile before standing → ReaderFeeds profile standing piece used (fed.Refused refusal) after)
        → ((event : Event) × (rest : List Event) × (piece ≡ take used piece ++ event ∷ rest)
        × HasRead profile after (events ++ take used piece) (HeldEvent event) (outcomes ++ refused_as (refusal_data refusal) ∷ [])) }
{
    passing_goes_on();
}

/// While a refusal is held `feed` reads nothing more.
pub fn pieces_are_held()
    ensures { (profile : List DeviceParts) (before after : Reader) (events : List Event) (first : Event)
        (outcomes : List Outcome) (piece : List Event) (used : ℕ) (refusal : Refusal)
        → HasRead profile before events (HeldEvent first) outcomes
        → ((standing : Standing) → ReaderStandsAt profile before standing → ReaderFeeds profile standing piece used (fed.Refused refusal) after)
        → HasRead profile after events (HeldEvent first) outcomes }
{}

// ---- the end

/// Where `finish` answers Ok and no refused event is still to come, the capture reads as what was
/// read.
pub fn reading_ends()
    ensures { (profile : List DeviceParts) (reader : Reader) (events : List Event) (outcomes : List Outcome)
        → HasRead profile reader events AnyEvent outcomes
        → ((standing : Standing) → ReaderStandsAt profile reader standing → ReaderFinishes profile standing (Ok tt))
        → Reading profile events outcomes }
{}

/// Where `finish` answers an error inside a packet, the capture reads as what was read and that
/// error.
pub fn reading_is_truncated()
    ensures { (profile : List DeviceParts) (reader : Reader) (events : List Event) (outcomes : List Outcome) (refusal : Refusal)
        → HasRead profile reader events AnyEvent outcomes
        → ((standing : Standing) → ReaderStandsAt profile reader standing → ReaderFinishes profile standing (Err refusal))
        → Reading profile events (outcomes ++ refused_as (refusal_data refusal) ∷ []) }
{}

/// The capture of transactions, however it was cut, is read as these and nothing else, and `finish`
/// is Ok.
pub fn captures_are_read_back()
    ensures { (profile : List DeviceParts) (ts : List TransactionData) (reader : Reader) (events : List Event)
        (outcomes : List Outcome) (end : Result Unit Refusal) → IsBus profile → Capture profile ts events
        → HasRead profile reader events AnyEvent outcomes
        → ((standing : Standing) → ReaderStandsAt profile reader standing → ReaderFinishes profile standing end)
        → (outcomes ≡ map Accepted ts) × (end ≡ Ok tt) }
{
    captures_read_as_written();
}
