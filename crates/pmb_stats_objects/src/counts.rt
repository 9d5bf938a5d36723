//! How many facts of each sort there are, as members of an object.
//!
//! Its rows: `tests/rows/stats.txt`.

ghost use Rattle.std.specs.Prelude.{◌≡◌, ◌+◌, ◌*◌, ◌≤◌, ◌++◌, List, IsTrue, length};
ghost use Rattle.pmb_facts.specs.Fact.{FactData};
ghost use Rattle.pmb_io.specs.Count.{capped};
ghost use Rattle.pmb_json_text.specs.declared.item_order.ItemOrder.TheVariants.{First, Later};
ghost use Rattle.pmb_json_text.specs.Member.{is_key, members_text};
ghost use Rattle.pmb_stats_counts.specs.Counts.{count_in_all};
ghost use Rattle.pmb_stats_counts.specs.Standing.{HasCounted, TotalsStandAt};
ghost use Rattle.pmb_stats_objects.specs.Counts.{counts_members, nack_members, reason_members, reasons};
ghost use Rattle.pmb_transaction.specs.Names.{reason_name};

use crate::member::{append_count, append_object};
use arrayvec::ArrayVec;
use pmb_json_text::{ItemOrder, KEY, NUMBER_MEMBER};
use pmb_stats_counts::{NackPlace, Sort, SortCounts, Totals};
use pmb_transaction::Reason;

/// The most bytes of the places of NACKs.
const NACKS: usize = 4 * NUMBER_MEMBER;

/// The most bytes of the reasons of refusals.
const REFUSALS: usize = 9 * NUMBER_MEMBER;

/// The most bytes of all counts.
pub(crate) const COUNTS: usize = 5 * NUMBER_MEMBER + (KEY + 2 + NACKS) + (KEY + 2 + REFUSALS);

/// All reasons, in the order in which they are told.
const REASONS: [Reason; 9] = [
    Reason::ReadFirst,
    Reason::BadRestart,
    Reason::BadPec,
    Reason::UnknownDevice,
    Reason::UnknownCommand,
    Reason::TooLong,
    Reason::TooShort,
    Reason::WrongEvent,
    Reason::Truncated,
];

/// What has counted facts by their sorts: those of a device, or all.
pub(crate) trait Counter {
    /// It was given these facts.
    ghost Given: { Self → List FactData → Type 0 };

    /// How many facts of a sort came.
    fn count(&self, sort: Sort) -> u64
        ensures { (facts : List FactData) → Given self.now facts → result ≡ capped (count_in_all sort facts) };
}

impl Counter for SortCounts {
    ghost Given = { HasCounted };

    fn count(&self, sort: Sort) -> u64 {
        self.of(sort)
    }
}

impl Counter for Totals {
    ghost Given = { TotalsStandAt };

    fn count(&self, sort: Sort) -> u64 {
        self.of(sort)
    }
}

/// Appends what facts were counted as to an object that has members: each count that is not 0.
pub(crate) fn append_counts<C: Counter, const N: usize>(out: &mut ArrayVec<u8, N>, counts: &C)
    requires room { length out.old.items + COUNTS ≤ N }
    ensures members { (facts : List FactData) → C.Given counts.now facts
        → out.new.items ≡ out.old.items ++ members_text Later (counts_members facts) }
    ensures short { length out.new.items ≤ length out.old.items + COUNTS }
{
    let later = ItemOrder::Later;
    append_count(out, later, "writes", counts.count(Sort::Writes));
    append_count(out, later, "reads", counts.count(Sort::Reads));
    append_count(out, later, "calls", counts.count(Sort::Calls));
    append_count(out, later, "alerts", counts.count(Sort::Alerts));
    append_object(out, "nacks", nacks(counts).as_slice());
    append_object(out, "refusals", refusals(counts).as_slice());
    append_count(out, later, "others", counts.count(Sort::Others));
}

/// The members of packets that were refused, by the place of the NACK.
fn nacks<C: Counter>(counts: &C) -> ArrayVec<u8, NACKS>
    ensures members { (facts : List FactData) → C.Given counts.now facts → result.items ≡ members_text First (nack_members facts) }
    ensures short { length result.items ≤ NACKS }
{
    let mut out = ArrayVec::new();
    let at_address = counts.count(Sort::Nacks(NackPlace::Address));
    let at_code = counts.count(Sort::Nacks(NackPlace::Code));
    let at_byte = counts.count(Sort::Nacks(NackPlace::Byte));
    let at_read_address = counts.count(Sort::Nacks(NackPlace::ReadAddress));
    let place = append_count(&mut out, ItemOrder::First, "address", at_address);
    let place = append_count(&mut out, place, "code", at_code);
    let place = append_count(&mut out, place, "byte", at_byte);
    append_count(&mut out, place, "read address", at_read_address);
    out
}

/// The members of refusals, by their reasons.
fn refusals<C: Counter>(counts: &C) -> ArrayVec<u8, REFUSALS>
    ensures members { (facts : List FactData) → C.Given counts.now facts → result.items ≡ members_text First (reason_members facts reasons) }
    ensures short { length result.items ≤ REFUSALS }
{
    let mut out = ArrayVec::new();
    let mut place = ItemOrder::First;
    for reason in &REASONS {
        let count = counts.count(Sort::Refusals(*reason));
        place = append_count(&mut out, place, reason_key(*reason), count);
    }
    out
}

/// The key of a reason: its name.
fn reason_key(reason: Reason) -> &'static str
    ensures name { result.now ≡ reason_name reason }
    ensures plain { IsTrue (is_key result.now) }
{
    match reason {
        Reason::ReadFirst => "ReadFirst",
        Reason::BadRestart => "BadRestart",
        Reason::BadPec => "BadPec",
        Reason::UnknownDevice => "UnknownDevice",
        Reason::UnknownCommand => "UnknownCommand",
        Reason::TooLong => "TooLong",
        Reason::TooShort => "TooShort",
        Reason::WrongEvent => "WrongEvent",
        Reason::Truncated => "Truncated",
    }
}
