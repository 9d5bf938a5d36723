//! What each event comes to, where refusals are not held.
//!
//! After a refusal the reader is made to pass over events at once, the refused event first, so no
//! refusal is ever held between two calls, and what came of the events so far leads on to the spans
//! of the whole, whatever follows.
//!
//! Its rows: `tests_reader`, `src/scan/scans.rt`.

ghost use Rattle.std.specs.Prelude.{ℕ, List};
ghost use Rattle.pmb_command.specs.Parts.{DeviceParts};
ghost use Rattle.pmb_reader.specs.Reader.{Held, ReaderStandsAt, behind_passed};
ghost use Rattle.pmb_scan.specs.Reached.{Reached};
ghost use Rattle.pmb_scan.specs.machine.Standing.{ReaderReached};
ghost use Rattle.pmb_scan.specs.machine.Reported.{ReportsAs};
ghost use Rattle.pmb_transaction.specs.Reading.{RefusalData};

use pmb_bus::Event;
use pmb_reader::{Reader, Took};
use pmb_transaction::laws::{packets_under_way, passing_goes_on};

/// Hands an event to a reader, and after a refusal has it pass over events, the refused one first.
#[inline(always)]
pub(crate) fn report(reader: &mut Reader, event: Event) -> Took
    ensures { (reached : Reached) → ReaderReached reader.old reached → ReportsAs reached event result reader.new }
{
    passing_goes_on();
    packets_under_way();
    let took = reader.take(event);
    if let Took::Refused(_) = took {
        pass_over(reader, event);
    }
    took
}

/// Has a reader that holds the refusal of an event pass over that one and those up to the next STOP.
#[inline(never)]
fn pass_over(reader: &mut Reader, event: Event)
    ensures { (profile : List DeviceParts) (n : ℕ) (refusal : RefusalData) → ReaderStandsAt profile reader.old (Held n refusal)
        → ReaderStandsAt profile reader.new (behind_passed n event) }
{
    reader.resync();
    let _ = reader.take(event);
}
