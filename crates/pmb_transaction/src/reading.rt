//! Laws on what events read as: each function is its contract, and does nothing.

ghost use Rattle.std.specs.Prelude.{◌≡◌, ◌≢◌, ◌↔◌, ℕ, ◌+◌, List, [], ◌∷◌, ◌++◌, length, map};
ghost use Rattle.std.specs.List.{All};
ghost use Rattle.pmb_bus.specs.declared.event.Event.{Event};
ghost use Rattle.pmb_bus.specs.declared.event.Event.TheVariants.{Stop};
ghost use Rattle.pmb_command.specs.Parts.{DeviceParts};
ghost use Rattle.pmb_command.specs.Bus.{IsBus};
ghost use Rattle.pmb_transaction.specs.Transaction.{TransactionData};
ghost use Rattle.pmb_transaction.specs.Capture.{Capture, HasNoStop, MayFollow};
ghost use Rattle.pmb_transaction.specs.Reading.{Accepted, IsUnderWay, Outcome, PassedOver, Reading, ReadsAsFront, ReadsFrom, RefusalData, RefusedAt, TruncatedAt};
ghost use Rattle.pmb_transaction.specs.Cut.{EndsWithStop, IsNotTruncated, moved, moved_refusal};

use pmb_bus::laws::{kinds_are_told_by_events, pec_is_a_byte};

/// The capture of transactions reads as these, in order, and as nothing else, under a profile that
/// is accepted.
pub fn captures_read_as_written()
    ensures { (profile : List DeviceParts) (ts : List TransactionData) (events : List Event) (outcomes : List Outcome) → IsBus profile
        → Capture profile ts events → (Reading profile events outcomes ↔ (outcomes ≡ map Accepted ts)) }
{
    kinds_are_told_by_events();
}

/// Events read as one list of outcomes at most under a profile that is accepted.
pub fn one_reading()
    ensures { (profile : List DeviceParts) (events : List Event) (a b : List Outcome) → IsBus profile
        → Reading profile events a → Reading profile events b → a ≡ b }
{
    kinds_are_told_by_events();
}

/// Each list of events reads as some outcomes under a profile that is accepted, however many events
/// came before it.
pub fn each_list_has_a_reading()
    ensures { (profile : List DeviceParts) (n : ℕ) (events : List Event) → IsBus profile
        → ((outcomes : List Outcome) × ReadsFrom profile n events outcomes) }
{
    pec_is_a_byte();
}

/// No events read as no outcomes, however many events came before.
pub fn nothing_is_read_of_no_events()
    ensures { (profile : List DeviceParts) (n : ℕ) (outcomes : List Outcome) → ReadsFrom profile n [] outcomes
        → outcomes ≡ [] }
{}

/// What is passed over, event by event: STOP is the last, and any other event is passed over with
/// what is passed over after it.
pub fn passing_goes_on()
    ensures none { PassedOver [] [] [] }
    ensures stop { (rest : List Event) → PassedOver (Stop ∷ rest) (Stop ∷ []) rest }
    ensures other { (event : Event) (events passed left : List Event) → event ≢ Stop → PassedOver events passed left
        → PassedOver (event ∷ events) (event ∷ passed) left }
{}

/// Each list of events is passed over in one way, and is what is passed over, then what is left.
/// Where it has a STOP, events after it are left too.
pub fn events_are_passed_over()
    ensures some { (events : List Event) → ((passed : List Event) × (left : List Event) × PassedOver events passed left) }
    ensures one_way { (events passed left others rest : List Event) → PassedOver events passed left
        → PassedOver events others rest → (passed ≡ others) × (left ≡ rest) }
    ensures split { (events passed left : List Event) → PassedOver events passed left → events ≡ passed ++ left }
    ensures more { (events more passed left : List Event) → (HasNoStop events → ⊥) → PassedOver events passed left
        → PassedOver (events ++ more) passed (left ++ more) }
{}

/// What begins the capture of transactions reads as the first of these, under a profile that is
/// accepted: nothing is refused, but that the packet under way at its end, if one is, is truncated.
pub fn fronts_read_as_fronts()
    ensures { (profile : List DeviceParts) (ts : List TransactionData) (events more : List Event) (outcomes : List Outcome)
        → IsBus profile → Capture profile ts (events ++ more) → Reading profile events outcomes
        → ReadsAsFront profile 0 ts events outcomes }
{
    kinds_are_told_by_events();
    pec_is_a_byte();
}

/// In the capture of transactions, after the packets of some of them and the events of a packet
/// under way, the next event may follow: no event is refused.
pub fn captures_go_on()
    ensures { (profile : List DeviceParts) (ts done : List TransactionData) (whole front : List Event) (event : Event)
        (more : List Event) → Capture profile ts (whole ++ (front ++ event ∷ more)) → Capture profile done whole
        → IsUnderWay profile front → MayFollow profile front event }
{}

/// Where n more events came before, a refusal is the same, moved by n.
pub fn refusals_move()
    ensures refused { (profile : List DeviceParts) (n m : ℕ) (front : List Event) (event : Event) (refusal : RefusalData)
        → RefusedAt profile m front event refusal → RefusedAt profile (n + m) front event (moved_refusal n refusal) }
    ensures truncated { (profile : List DeviceParts) (n m : ℕ) (events : List Event) (refusal : RefusalData)
        → TruncatedAt profile m events refusal → TruncatedAt profile (n + m) events (moved_refusal n refusal) }
{}

/// A capture may be cut after any STOP: where the first of two lists of events ends with STOP,
/// both, one after the other, read as the first does and then as the second, with its places moved
/// by the number of events of the first; and as nothing else, under a profile that is accepted. No
/// packet is truncated at the cut.
pub fn captures_may_be_cut_behind_stop()
    ensures joined { (profile : List DeviceParts) (first second : List Event) (outcomes others : List Outcome)
        → EndsWithStop first → Reading profile first outcomes → Reading profile second others
        → Reading profile (first ++ second) (outcomes ++ moved (length first) others) }
    ensures cut { (profile : List DeviceParts) (first second : List Event) (both : List Outcome) → IsBus profile
        → EndsWithStop first → Reading profile (first ++ second) both
        → ((outcomes : List Outcome) × (others : List Outcome) × Reading profile first outcomes × Reading profile second others
        × (both ≡ outcomes ++ moved (length first) others)) }
    ensures whole { (profile : List DeviceParts) (first : List Event) (outcomes : List Outcome)
        → EndsWithStop first → Reading profile first outcomes → All IsNotTruncated outcomes }
{
    kinds_are_told_by_events();
    pec_is_a_byte();
}
