//! Laws over the definitions alone. Each function is its contract, and does nothing.

ghost use Rattle.std.specs.Prelude.{◌≡◌, ◌↔◌, ℕ, ◌+◌, true, Option, List, ◌++◌};
ghost use Rattle.pmb_command.specs.Bus.{IsBus};
ghost use Rattle.pmb_command.specs.Parts.{DeviceParts};
ghost use Rattle.pmb_capture.specs.Cut.{EndsAtCut, sum_of};
ghost use Rattle.pmb_facts.specs.Fact.{FactData};
ghost use Rattle.pmb_fact_stream.specs.Choice.{ChoiceData};
ghost use Rattle.pmb_io.specs.Count.{capped};
ghost use Rattle.pmb_io.specs.declared.tally.Tally.{Tally};
ghost use Rattle.pmb_json.specs.Cut.{AreFactsOf, AreOfPieces, said_in};
ghost use Rattle.pmb_scan.specs.declared.after_bad_token.AfterBadToken.{AfterBadToken};
ghost use Rattle.pmb_keeper.specs.Setting.{Setting};
ghost use Rattle.pmb_stats.specs.BitCounts.{IsRegister, count_on_pages};
ghost use Rattle.pmb_stats_counts.specs.Counts.{AreAddressed, count_in_all, count_of, count_of_none};
ghost use Rattle.pmb_stats_counts.specs.Fails.{holds};
ghost use Rattle.pmb_stats_counts.specs.Sums.{sum_below};
ghost use Rattle.pmb_stats_counts.specs.declared.fail.Fail.TheVariants.{Faults};
ghost use Rattle.pmb_stats_counts.specs.declared.sort.Sort.{Sort};
ghost use Rattle.pmb_stats_laws.specs.Faults.{FaultIsFound};
ghost use Rattle.pmb_stats_laws.specs.Pieces.{CountsAddUp, sum_of_told};
ghost use Rattle.pmb_stats_laws.specs.Told.{CountsAreTold};
ghost use Rattle.pmb_telling.specs.Text.{WritesTold};

use pmb_json::laws::pieces_say_the_same;
use pmb_stats::laws::pages_make_the_whole;
use pmb_stats_counts::laws::devices_make_the_whole;

/// What is counted of facts is by what they say: where facts say what some say, and then what others say,
/// their counts are the sums of those of both.
pub fn counts_are_of_what_is_said()
    ensures { (firsts others whole : List FactData) → said_in whole ≡ said_in firsts ++ said_in others → CountsAddUp firsts others whole }
{}

/// The counts of two pieces of a capture add up to those of the whole, of each device and in all, where the
/// capture is cut between words behind a STOP, with no bad token before it. The second piece may be any
/// bytes. So it is under a profile that is accepted, whichever addresses are ignored. That each such capture
/// has such facts is a clause of [`pieces_say_the_same`](pmb_json::laws::pieces_say_the_same).
pub fn counts_of_pieces_add_up()
    ensures { (ignored : Option (List ℕ)) (profile : List DeviceParts) (after : AfterBadToken) (front back : List ℕ) (firsts others whole : List FactData)
        → IsBus profile → AreOfPieces ignored profile after front back firsts others whole → CountsAddUp firsts others whole }
{
    pieces_say_the_same();
    counts_are_of_what_is_said();
}

/// So do the counts of a status bit, each over all pages of its device, though a piece may put a read under
/// another page: for what is known of PAGE where a piece begins, anything may be assumed.
pub fn bits_of_pieces_add_up()
    ensures { (ignored : Option (List ℕ)) (profile : List DeviceParts) (after : AfterBadToken) (front back : List ℕ) (firsts others whole : List FactData)
        (of_first of_second of_whole : Setting) (addr code bit : ℕ)
        → IsBus profile → AreOfPieces ignored profile after front back firsts others whole
        → of_first.profile ≡ profile → of_second.profile ≡ profile → of_whole.profile ≡ profile → IsRegister profile addr code
        → count_on_pages of_whole addr code bit whole ≡ count_on_pages of_first addr code bit firsts + count_on_pages of_second addr code bit others }
{
    counts_of_pieces_add_up();
    pages_make_the_whole();
}

/// Each fact of a capture names an address below 128, or none: an ignored address too, and that of a packet in
/// which an event was refused. So it is under a profile that is accepted, whatever bytes are read.
pub fn facts_are_addressed()
    ensures { (ignored : Option (List ℕ)) (profile : List DeviceParts) (after : AfterBadToken) (bytes : List ℕ) (facts : List FactData)
        → IsBus profile → AreFactsOf ignored profile after bytes facts → AreAddressed facts }
{}

/// So the counts of a capture are the sums of those of its devices, and of what names none.
pub fn the_whole_is_its_devices()
    ensures { (ignored : Option (List ℕ)) (profile : List DeviceParts) (after : AfterBadToken) (bytes : List ℕ) (facts : List FactData) (sort : Sort)
        → IsBus profile → AreFactsOf ignored profile after bytes facts
        → count_in_all sort facts ≡ sum_below (λ addr. count_of addr sort facts) 128 + count_of_none sort facts }
{
    facts_are_addressed();
    devices_make_the_whole();
}

/// What is counted of a capture's facts is what the last objects of `json` tell of it, before these stop at the
/// greatest u64: of each device its writes, reads, calls, refused legs, refusals and others, and in all the packets,
/// refusals, bad tokens and others. Refused legs are told together, wherever they were refused, and refusals
/// together, whatever their reasons. Alerts are counted, and not told.
pub fn counts_are_those_of_json()
    ensures { (ignored : Option (List ℕ)) (profile : List DeviceParts) (after : AfterBadToken) (bytes : List ℕ) (facts : List FactData)
        → (are : AreFactsOf ignored profile after bytes facts) → CountsAreTold facts are.counts }
{}

/// So what the last objects of `json` tell of two pieces of a capture adds up to what they tell of the whole, of
/// each device and in all, where the capture is cut between words behind a STOP, with no bad token before it. The
/// second piece may be any bytes. So it is under a profile that is accepted, whichever addresses are ignored.
pub fn told_counts_of_pieces_add_up()
    ensures { (ignored : Option (List ℕ)) (profile : List DeviceParts) (after : AfterBadToken) (front back : List ℕ) (firsts others whole : List FactData)
        → IsBus profile → (pieces : AreOfPieces ignored profile after front back firsts others whole)
        → pieces.both.counts ≡ sum_of_told pieces.first.counts pieces.second.counts }
{
    counts_of_pieces_add_up();
    counts_are_those_of_json();
}

/// And so do the tallies of what `json` and `log` write of them, which stay at the greatest u64, as those of a check
/// do (`counts_add_up` of `pmb_capture`). A bad token is a refusal there, and others are nothing. (The tally of
/// `stats` has one refusal at most, so no sum is like it.)
pub fn tallies_of_pieces_add_up()
    ensures { (choice : ChoiceData) (profile : List DeviceParts) (after : AfterBadToken) (front back a b text : List ℕ) (s t tally : Tally)
        → IsBus profile → EndsAtCut front → WritesTold choice profile after front a s → WritesTold choice profile after back b t
        → WritesTold choice profile after (front ++ back) text tally → tally ≡ sum_of s t }
{
    told_counts_of_pieces_add_up();
    capped_counts_add_up();
}

/// What `--fail-on faults` looks for is there exactly where some read of a capture found a bit set that tells of a
/// fault: a bit of a status register of the profile, with a count that is not 0. The counts that are told of that
/// bit, on the pages of its device, add up to this one (`pages_make_the_whole` of `pmb_stats`).
pub fn faults_are_told()
    ensures { (ignored : Option (List ℕ)) (profile : List DeviceParts) (after : AfterBadToken) (bytes : List ℕ) (facts : List FactData)
        → AreFactsOf ignored profile after bytes facts → (holds profile facts Faults ≡ true) ↔ FaultIsFound profile facts }
{}

/// Counts that stay at the greatest u64 add up too, to a sum that stays there.
pub fn capped_counts_add_up()
    ensures { (m n : ℕ) → capped (m + n) ≡ capped (capped m + capped n) }
{}
