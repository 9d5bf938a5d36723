//! The laws of scanning: each function is its contract, and does nothing.

ghost use Rattle.std.specs.Prelude.{List, ◌++◌};
ghost use Rattle.pmb_bus.specs.declared.event.Event.{Event};
ghost use Rattle.pmb_command.specs.Bus.{IsBus};
ghost use Rattle.pmb_scan.specs.declared.scan.Scan.{Scan};
ghost use Rattle.pmb_scan.specs.Reached.{EndsWith, Reached};
ghost use Rattle.pmb_scan.specs.Scan.{HasRead};
ghost use Rattle.pmb_spans.specs.Spans.{Span, Spans};

use pmb_reader::laws::some_packet_is_read;
use pmb_spans::laws::each_list_has_spans;
use pmb_transaction::laws::events_are_passed_over;

/// Whatever events follow those that a scan has read, under a profile that is accepted all of them
/// read as the spans reached and then some others. If none follows, these are an end inside a packet
/// or none.
pub fn scans_lead_on()
    ensures follows { (scan : Scan) (reached : Reached) (rest : List Event) → IsBus reached.profile → HasRead scan reached
        → ((others : List Span) × Spans reached.profile (reached.events ++ rest) (reached.spans ++ others)) }
    ensures ends { (scan : Scan) (reached : Reached) → IsBus reached.profile → HasRead scan reached
        → ((last : List Span) × EndsWith reached last) }
{
    some_packet_is_read();
    each_list_has_spans();
    events_are_passed_over();
}
