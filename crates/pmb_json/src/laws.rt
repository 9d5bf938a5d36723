//! Laws over the definitions alone.

ghost use Rattle.std.specs.List.{Contains};
ghost use Rattle.std.specs.Prelude.{◌≡◌, ◌≢◌, ◌+◌, ℕ, None, Option, Some, List, [], ◌++◌, map};
ghost use Rattle.pmb_bus.specs.declared.event.Event.{Event};
ghost use Rattle.pmb_capture.specs.Cut.{EndsAtCut};
ghost use Rattle.pmb_command.specs.Bus.{IsBus};
ghost use Rattle.pmb_command.specs.Parts.{DeviceParts, device_with};
ghost use Rattle.pmb_facts.specs.Fact.{FactData, WhatData};
ghost use Rattle.pmb_facts.specs.Object.{object_of};
ghost use Rattle.pmb_fact_stream.specs.Before.{at_first};
ghost use Rattle.pmb_fact_stream.specs.Choice.{ChoiceData, gives_others};
ghost use Rattle.pmb_fact_stream.specs.Lines.{fact_lines, seen_behind};
ghost use Rattle.pmb_fact_stream.specs.Lost.{lost_in};
ghost use Rattle.pmb_fact_stream.specs.Spans.{past_in, span_facts};
ghost use Rattle.pmb_fact_stream.specs.declared.telling.Telling.TheVariants.{Objects};
ghost use Rattle.pmb_io.specs.declared.tally.Tally.{Tally};
ghost use Rattle.pmb_json.specs.Cut.{AreOfPieces, said_in};
ghost use Rattle.pmb_json.specs.Lines.{AllMakeFormats, AreJsonLines};
ghost use Rattle.pmb_json.specs.Mended.{CanBeMended};
ghost use Rattle.pmb_json.specs.Objects.{objects_of};
ghost use Rattle.pmb_json.specs.Pieces.{CanBeCutBehind, EachSaysNoMore, EndsWithLine, IsMeaning, OtherTimes, SameTimes, SaysNoMore, TellNoMore, Timing, all_known};
ghost use Rattle.pmb_json_objects.specs.Counts.{CountsData, end_objects};
ghost use Rattle.pmb_json_objects.specs.Head.{Head};
ghost use Rattle.pmb_json_objects.specs.Object.{Object, object_lines};
ghost use Rattle.pmb_json_text.specs.Member.{Member};
ghost use Rattle.pmb_json_text.specs.Spelling.{AreBytes};
ghost use Rattle.pmb_places.specs.declared.places.Place.{Place};
ghost use Rattle.pmb_scan.specs.declared.after_bad_token.AfterBadToken.{AfterBadToken};
ghost use Rattle.pmb_spans.specs.Spans.{Span, moved_spans};
ghost use Rattle.pmb_telling.specs.SoFar.{HasTold};
ghost use Rattle.pmb_telling.specs.Text.{BadLine, FactsFrom, WritesTold};
ghost use Rattle.pmb_unknown_start.specs.Certain.{CanBeCutAfter};
ghost use Rattle.pmb_transaction.specs.Transaction.{TransactionData};
ghost use Rattle.pmb_note.specs.Paging.{selected_mode};
ghost use Rattle.pmb_json.specs.OnBus.{IsState, MayBeIn, Reaches, ReachesAll, ShowsState, StateData, Stretch, past_of_all};
ghost use Rattle.pmb_unknown_start.specs.Known.{mode, page};
ghost use Rattle.pmb_unknown_start.specs.Past.{PastData, Said};
ghost use Rattle.pmb_unknown_start.specs.Phase.{phase};
ghost use Rattle.pmb_unknown_start.specs.declared.mode.KnownMode.TheVariants.{Known, NoPage};
ghost use Rattle.pmb_unknown_start.specs.declared.start.Start.TheVariants.{AllKnown, Late};

use pmb_bus::laws::texts_may_be_cut_between_words;
use pmb_facts::laws::{objects_are_of_facts, objects_name_the_device};
use pmb_json_objects::laws::{all_objects_are_json, objects_are_json};
use pmb_json_text::laws::{spelling_fits_in_line, spelling_is_json};
use pmb_places::laws::places_are_in_range;
use pmb_spans::laws::{each_list_has_spans, spans_may_be_cut, spans_move};
use pmb_telling::laws::{one_list_of_facts, some_text_is_told};
use pmb_times::laws::{times_are_short, times_of_a_piece};
use pmb_unknown_start::laws::{
    pieces_say_what_the_whole_says, what_is_known_is_certain, what_may_be_reached_stays_known,
};

/// Where facts are told as objects, their lines are the lines of their objects. What is written for a
/// whole capture is the lines of the objects of its facts and then of the counts, and what is written so
/// far is the lines of the objects.
pub fn json_is_the_objects()
    ensures lines { (choice : ChoiceData) (profile : List DeviceParts) (facts : List FactData)
        → choice.telling ≡ Objects → fact_lines choice profile facts ≡ object_lines choice.devices (objects_of choice profile facts) }
    ensures whole { (choice : ChoiceData) (profile : List DeviceParts) (after : AfterBadToken) (bytes text : List ℕ) (tally : Tally)
        → choice.telling ≡ Objects → (told : WritesTold choice profile after bytes text tally)
        → text ≡ object_lines choice.devices (objects_of choice profile told.facts ++ end_objects profile (gives_others choice) told.counts) }
    ensures so_far { (choice : ChoiceData) (profile : List DeviceParts) (after : AfterBadToken) (bytes text : List ℕ)
        → choice.telling ≡ Objects → (told : HasTold choice profile after bytes text)
        → text ≡ object_lines choice.devices (objects_of choice profile told.facts) }
{
    objects_name_the_device();
}

/// Where facts are told as objects, each line that is written for bytes is JSON, an object with distinct
/// keys in printable ASCII, and all that is written is such lines, each with its LF: of a whole capture,
/// and so far. So it is whatever else was chosen and whatever bytes were read, under a profile that is
/// accepted, whose coefficients have 16 bits and whose exponents have five.
pub fn each_line_is_json()
    ensures whole { (choice : ChoiceData) (profile : List DeviceParts) (after : AfterBadToken) (bytes text : List ℕ) (tally : Tally)
        → choice.telling ≡ Objects → IsBus profile → AllMakeFormats profile → AreBytes bytes → WritesTold choice profile after bytes text tally → AreJsonLines text }
    ensures so_far { (choice : ChoiceData) (profile : List DeviceParts) (after : AfterBadToken) (bytes text : List ℕ)
        → choice.telling ≡ Objects → IsBus profile → AllMakeFormats profile → AreBytes bytes → HasTold choice profile after bytes text → AreJsonLines text }
{
    json_is_the_objects();
    objects_are_of_facts();
    spelling_is_json();
    spelling_fits_in_line();
    objects_are_json();
    all_objects_are_json();
    places_are_in_range();
    times_are_short();
}

/// What a piece of a capture says of data the whole says: each `value`, `number`, `ratio`, `unit`, `bits`,
/// `clears`, `text` and `says` of an object that says no more than another is one of the other's.
pub fn meanings_of_pieces_are_of_the_whole()
    ensures { (timing : Timing) (piece whole : Object) (m : Member) → SaysNoMore timing piece whole → Contains piece.members m → IsMeaning m → Contains whole.members m }
{}

/// A piece of a capture says nothing that the whole denies: where the piece is read late, each of its
/// objects says what that of the whole says, but for where it stands, and for what isn't known, or is
/// only assumed. So it is under a profile that is accepted, if before the piece PAGE was only written to, or
/// read as, pages that the device has, or ffh, and with `--fixed-vout-mode` if on each page VOUT_MODE is that
/// of the profile where the piece begins, by what was written to it or read as it. Lines of the piece may have
/// been dropped, in the whole as well, and packets of it refused. A time that the piece tells is that of the
/// whole.
pub fn pieces_say_no_more()
    ensures { (choice : ChoiceData) (profile : List DeviceParts) (place there : ℕ → Place) (times theirs : ℕ → Option (List ℕ)) (before within : List PastData) (n m : ℕ) (events : List Event) (spans : List Span)
        → IsBus profile → choice.start ≢ AllKnown → TellNoMore n times theirs
        → ((addr : ℕ) (device : DeviceParts) → device_with addr profile ≡ Some device → CanBeCutAfter choice.start device before)
        → EachSaysNoMore SameTimes (objects_of choice profile (span_facts choice.ignored place times (lost_in profile m events) within spans))
        (objects_of (all_known choice) profile (span_facts choice.ignored there theirs (lost_in profile (n + m) events) (before ++ within) (moved_spans n spans))) }
{
    objects_are_of_facts();
    pieces_say_what_the_whole_says();
}

/// A capture that has lost lines says nothing that was not so on the bus: where it is read late, and reading
/// continues after lines that are dropped, each of its objects says what that of the capture with these lines
/// says, but for where it stands, and for what isn't known, or is only assumed. So it is whatever whole packets
/// the lines had, if what follows them reads as the same packets and refusals, if after them PAGE of each device
/// is a page that it has, or ffh; and if VOUT_MODE is taken for fixed, if on each page it is what it was before
/// the line. Where the capture begins each device is to have such a PAGE, and if VOUT_MODE is taken for fixed that
/// of the profile on each page. No packet, whether it was lost or not, reaches a device at two of its addresses. A
/// time that the piece tells is that of the whole.
pub fn damaged_pieces_say_no_more()
    ensures { (choice : ChoiceData) (profile : List DeviceParts) (place there : ℕ → Place) (times theirs : ℕ → Option (List ℕ)) (before ts : List TransactionData) (within : List PastData) (n m : ℕ) (events : List Event) (spans : List Span)
        → TellNoMore n times theirs → CanBeMended choice.start profile before within ts
        → EachSaysNoMore SameTimes (objects_of choice profile (span_facts choice.ignored place times (lost_in profile m events) within spans))
        (objects_of (all_known choice) profile (span_facts choice.ignored there theirs (lost_in profile (n + m) events) (map Said (before ++ ts)) (moved_spans n spans))) }
{
    objects_are_of_facts();
    what_may_be_reached_stays_known();
}

/// What is known late is so on the bus, by its events alone: PAGE, VOUT_MODE and PHASE of a device that are known
/// before a fact are those of each state that the device may be in there. Where the capture begins it may be in any;
/// a packet that was read acts as the rules of devices say, at the device's own address and at those of its key `also`,
/// or in any way where it reaches the device at two of them, and a read tells what its register holds; and a leg that
/// begins with one of these addresses, for writing, may do anything in a packet that is refused, in one to a device
/// that speaks no PMBus, and in what is passed over, as may each line that was dropped, before what comes after it.
/// Only PAGE is one that the device has, where the capture begins, and after each refusal and each such line; and there
/// is one PHASE for all pages. What was known before, or what was made of the capture so far, is nothing to that. So it
/// is under a profile that is accepted. The facts of spans after others go by what those say.
pub fn what_is_known_late_holds_on_the_bus()
    ensures page { (profile : List DeviceParts) (addr : ℕ) (device : DeviceParts) (first mid last : StateData) (stretches : List Stretch) (n : ℕ) (events : List Event) (spans : List Span) (number : ℕ)
        → IsBus profile → device_with addr profile ≡ Some device → IsState device first → ReachesAll device first stretches mid → Reaches device n events mid spans last
        → page Late profile (past_of_all profile stretches ++ past_in (lost_in profile n events) spans) addr ≡ Some number → last.paging.page ≡ number }
    ensures mode { (profile : List DeviceParts) (addr : ℕ) (device : DeviceParts) (first mid last : StateData) (stretches : List Stretch) (n : ℕ) (events : List Event) (spans : List Span) (number : ℕ)
        → IsBus profile → device_with addr profile ≡ Some device → IsState device first → ReachesAll device first stretches mid → Reaches device n events mid spans last
        → mode Late profile (past_of_all profile stretches ++ past_in (lost_in profile n events) spans) addr ≡ Known number → selected_mode last.paging ≡ Some number }
    ensures no_mode { (profile : List DeviceParts) (addr : ℕ) (device : DeviceParts) (first mid last : StateData) (stretches : List Stretch) (n : ℕ) (events : List Event) (spans : List Span)
        → IsBus profile → device_with addr profile ≡ Some device → IsState device first → ReachesAll device first stretches mid → Reaches device n events mid spans last
        → mode Late profile (past_of_all profile stretches ++ past_in (lost_in profile n events) spans) addr ≡ NoPage → selected_mode last.paging ≡ None }
    ensures phase { (profile : List DeviceParts) (addr : ℕ) (device : DeviceParts) (first mid last : StateData) (stretches : List Stretch) (n : ℕ) (events : List Event) (spans : List Span) (number : ℕ)
        → IsBus profile → device_with addr profile ≡ Some device → IsState device first → ReachesAll device first stretches mid → Reaches device n events mid spans last
        → phase profile (past_of_all profile stretches ++ past_in (lost_in profile n events) spans) addr ≡ Some number → last.phase ≡ number }
    ensures facts { (ignored : Option (List ℕ)) (place : ℕ → Place) (times : ℕ → Option (List ℕ)) (profile : List DeviceParts) (stretches : List Stretch) (n : ℕ) (events : List Event) (spans others : List Span)
        → span_facts ignored place times (lost_in profile n events) (past_of_all profile stretches) (spans ++ others)
        ≡ span_facts ignored place times (lost_in profile n events) (past_of_all profile stretches) spans
        ++ span_facts ignored place times (lost_in profile n events) (past_of_all profile stretches ++ past_in (lost_in profile n events) spans) others }
{
    what_is_known_is_certain();
}

/// What is told late is so on the bus, by its events alone: the object of a fact says nothing but what it would say
/// in each state that the devices may be in there, by `what_is_known_late_holds_on_the_bus`, if that were known, or
/// that it isn't known. So each page, phase, value and factor that it has is the one of that state, with its unit and
/// its number. What would be known is that after other transactions, from power-up on, which leave each device in its
/// state.
pub fn what_is_told_late_holds_on_the_bus()
    ensures { (choice : ChoiceData) (profile : List DeviceParts) (states : DeviceParts → StateData) (stretches : List Stretch) (n : ℕ) (events : List Event) (spans : List Span) (shown : List PastData) (head : Head) (what : WhatData)
        → choice.start ≡ Late → IsBus profile
        → ((addr : ℕ) (device : DeviceParts) → device_with addr profile ≡ Some device
        → MayBeIn device stretches n events spans (states device) × ShowsState profile shown addr device (states device))
        → SaysNoMore SameTimes (object_of (seen_behind choice profile (past_of_all profile stretches ++ past_in (lost_in profile n events) spans)) head what)
        (object_of (seen_behind (all_known choice) profile shown) head what) }
{
    what_is_known_late_holds_on_the_bus();
}

/// Where a capture is cut so that the rest is read late, the facts of the whole are some, and then one for
/// each of the rest's, whose object says no more than that of the whole: so each `value` that the rest
/// gives is that of the whole, and each `time` too where the cut is at a line's end. (Where it is in the
/// middle of a line, a comment after it can look like a time line of the rest.) So it is under a profile
/// that is accepted.
pub fn texts_of_pieces_say_no_more()
    ensures values { (choice : ChoiceData) (profile : List DeviceParts) (after : AfterBadToken) (front back : List ℕ)
        (bad lines : List BadLine) (facts whole : List FactData) (c d : CountsData) → IsBus profile → choice.start ≢ AllKnown → (first : CanBeCutBehind profile choice.start front)
        → FactsFrom choice.ignored profile after at_first back bad facts c
        → FactsFrom choice.ignored profile after at_first (front ++ back) lines whole d
        → (firsts : List FactData) × (others : List FactData) × (whole ≡ firsts ++ others)
        × EachSaysNoMore OtherTimes (objects_of choice profile facts) (objects_of (all_known choice) profile others) }
    ensures times { (choice : ChoiceData) (profile : List DeviceParts) (after : AfterBadToken) (front back : List ℕ)
        (bad lines : List BadLine) (facts whole : List FactData) (c d : CountsData) → IsBus profile → choice.start ≢ AllKnown → (first : CanBeCutBehind profile choice.start front) → EndsWithLine front
        → FactsFrom choice.ignored profile after at_first back bad facts c
        → FactsFrom choice.ignored profile after at_first (front ++ back) lines whole d
        → (firsts : List FactData) × (others : List FactData) × (whole ≡ firsts ++ others)
        × EachSaysNoMore SameTimes (objects_of choice profile facts) (objects_of (all_known choice) profile others) }
{
    one_list_of_facts();
    objects_are_of_facts();
    texts_may_be_cut_between_words();
    times_of_a_piece();
    spans_move();
    spans_may_be_cut();
    pieces_say_what_the_whole_says();
}

/// What the pieces of a capture say, the whole says, and nothing else: where a text is cut between words
/// behind a STOP, with no bad token before it, the facts of the whole say what those of the first piece say,
/// and then what those of the second say. Only where and when a fact begins, and what came before it, is
/// another. The second piece may have bad tokens, and end inside a packet. So it is under a profile that is
/// accepted, whichever addresses are ignored; and wherever a capture is cut so, there are such facts. A text
/// whose last event is STOP, and that ends with LF, can be cut at its end (`counts_add_up` of `pmb_capture`).
pub fn pieces_say_the_same()
    ensures said { (ignored : Option (List ℕ)) (profile : List DeviceParts) (after : AfterBadToken) (front back : List ℕ) (firsts others whole : List FactData)
        → IsBus profile → AreOfPieces ignored profile after front back firsts others whole → said_in whole ≡ said_in firsts ++ said_in others }
    ensures facts { (ignored : Option (List ℕ)) (profile : List DeviceParts) (after : AfterBadToken) (front back : List ℕ) → IsBus profile → EndsAtCut front
        → (firsts : List FactData) × (others : List FactData) × (whole : List FactData) × AreOfPieces ignored profile after front back firsts others whole }
{
    each_list_has_spans();
    one_list_of_facts();
    some_text_is_told();
    texts_may_be_cut_between_words();
    spans_move();
    spans_may_be_cut();
}
