//! Laws over the definitions alone: each object is JSON with distinct keys. Each function is its
//! contract, and does nothing.

ghost use Rattle.std.specs.Prelude.{ℕ, Bool, IfSome, List, Option};
ghost use Rattle.std.specs.List.{AllByRecursion};
ghost use Rattle.pmb_bus.specs.declared.event.Event.{Event};
ghost use Rattle.pmb_bus.specs.declared.kinds.Kinds.{Kinds};
ghost use Rattle.pmb_command.specs.Bus.{IsBus};
ghost use Rattle.pmb_command.specs.Parts.{DeviceParts};
ghost use Rattle.pmb_json_text.specs.Json.{IsJsonText};
ghost use Rattle.pmb_json_text.specs.Member.{Member, object_line, object_of};
ghost use Rattle.pmb_json_text.specs.Spelling.{AreBytes, FitsInLine, spelled};
ghost use Rattle.pmb_places.specs.declared.places.Place.{Place};
ghost use Rattle.pmb_partial_packet.specs.PartialPacket.{written_to};
ghost use Rattle.pmb_transaction.specs.declared.reason.Reason.{Reason};
ghost use Rattle.pmb_transaction.specs.Transaction.{AlertData, CallData, PartData, ReadData, TransactionData};
ghost use Rattle.pmb_json_objects.specs.BadToken.{bad_token_object};
ghost use Rattle.pmb_json_objects.specs.Counts.{CountsData, DeviceData, counts_object, end_object, end_objects};
ghost use Rattle.pmb_json_objects.specs.Head.{Head};
ghost use Rattle.pmb_json_objects.specs.Laws.{IsCount, IsData, IsHead, IsJsonObject, IsPlace, IsSeen, IsTime, IsTransaction};
ghost use Rattle.pmb_json_objects.specs.Packets.{alert_object, call_object, no_alert_object, other_object, packet_objects, read_object, refused_object, write_object};
ghost use Rattle.pmb_json_objects.specs.Refusals.{refusal_object};
ghost use Rattle.pmb_json_objects.specs.Seen.{SeenData};

pub use crate::kept::what_is_seen_fits;
use pmb_decimal::laws::decimals_are_numbers;
use pmb_json_fields::laws::keys_are_some_of_nine;
use pmb_json_text::laws::{
    digits_are_a_number, fewer_keys_are_distinct, line_is_json, spelling_fits_in_line,
    tested_keys_are_distinct,
};
use pmb_meaning::laws::says_is_one_member_or_none;
use pmb_quantity::laws::lowest_terms;

/// The line of such an object is a JSON text that spells it, and, but for its LF, printable ASCII.
pub fn objects_are_lines()
    ensures json { (members : List Member) → IsJsonObject members → IsJsonText (object_line members) (object_of members) }
    ensures line { (members : List Member) → IsJsonObject members → FitsInLine (spelled (object_of members)) }
{
    line_is_json();
    spelling_fits_in_line();
}

/// Each object is JSON with distinct keys.
pub fn objects_are_json()
    ensures write { (seen : SeenData) (head : Head) (part parts : ℕ) (p : PartData)
        → IsHead head → IsCount part → IsCount parts → IsData seen p.addr p.code p.bytes
        → IsJsonObject (write_object seen head part parts p).members }
    ensures read { (seen : SeenData) (head : Head) (t : ReadData)
        → IsHead head → IsData seen t.addr t.code t.reply → IsJsonObject (read_object seen head t).members }
    ensures call { (seen : SeenData) (head : Head) (t : CallData)
        → IsHead head → IsSeen seen t.addr → IsJsonObject (call_object seen head t).members }
    ensures refused { (seen : SeenData) (head : Head) (parts addr : ℕ) (sent : List ℕ) (at_read : Bool)
        → IsHead head → IsCount parts → IsSeen seen addr → IsJsonObject (refused_object seen head parts addr sent at_read).members }
    ensures alert { (profile : List DeviceParts) (head : Head) (t : AlertData) → IsBus profile → IsHead head → IsJsonObject (alert_object profile head t).members }
    ensures no_alert { (head : Head) → IsHead head → IsJsonObject (no_alert_object head).members }
    ensures other { (head : Head) (addr : ℕ) → IsHead head → IsJsonObject (other_object head addr).members }
    ensures refusal { (seen : SeenData) (head : Head) (front : List Event) (event : Option Event) (reason : Reason) (expected : Kinds)
        → IsHead head → IsBus seen.profile → IfSome (written_to front) (IsSeen seen) → IsJsonObject (refusal_object seen head front event reason expected).members }
    ensures bad_token { (head : Head) (word : List ℕ) → IsHead head → AreBytes word → IsJsonObject (bad_token_object head word).members }
    ensures counts { (profile : List DeviceParts) (gives_others : Bool) (addr : ℕ) (c : DeviceData) → IsBus profile → IsJsonObject (counts_object profile gives_others addr c).members }
    ensures end { (gives_others : Bool) (c : CountsData) → IsJsonObject (end_object gives_others c).members }
{
    keys_are_some_of_nine();
    says_is_one_member_or_none();
    digits_are_a_number();
    decimals_are_numbers();
    lowest_terms();
    fewer_keys_are_distinct();
    tested_keys_are_distinct();
}

/// So is each object of a packet, and each of the last ones.
pub fn all_objects_are_json()
    ensures packet { (seen : SeenData) (place : ℕ → Place) (time : Option (List ℕ)) (n : ℕ) (events : List Event) (t : TransactionData)
        → ((at : ℕ) → IsPlace (place at)) → IsTime time → IsTransaction seen t
        → AllByRecursion (λ object. IsJsonObject object.members) (packet_objects seen place time n events t) }
    ensures last { (profile : List DeviceParts) (gives_others : Bool) (c : CountsData) → IsBus profile
        → AllByRecursion (λ object. IsJsonObject object.members) (end_objects profile gives_others c) }
{
    objects_are_json();
}
