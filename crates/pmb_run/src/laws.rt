//! Laws over the definitions of what is run. Each function ensures one, and does nothing.

ghost use Rattle.std.specs.Prelude.{◌≡◌, ℕ, List, ◌++◌};
ghost use Rattle.pmb_command.specs.Bus.{IsBus};
ghost use Rattle.pmb_command.specs.Parts.{DeviceParts};
ghost use Rattle.pmb_io.specs.declared.tally.Tally.{Tally};
ghost use Rattle.pmb_run.specs.Lines.{RunsEnded, RunsInput};
ghost use Rattle.pmb_run.specs.machine.Laws.{RunLaws};

use crate::kept::profile_is_kept;
use pmb_convert::laws::readings_have_denominators;
use pmb_devices::laws_on_replies::states_fit;
use pmb_exchange::laws::{an_exchange_is_one, some_exchange};
use pmb_host::laws::{
    allowed_or_fault, allowed_requests_have_no_fault, allowed_requests_have_packets,
    one_first_fault,
};
use pmb_io::laws::ended_lines_stay;
use pmb_request::laws::{
    no_request_with_a_fault, one_request, one_request_fault, request_or_fault,
};
use pmb_table::Profile;
use pmb_table::laws::accepted_bus;
use pmb_transaction::laws::one_packet;

/// A line is answered in one way, by the transactions before it, under a profile that is accepted.
fn lines_have_one_answer()
    ensures { (profile : List DeviceParts) → IsBus profile → RunLaws profile }
{
    one_request();
    one_request_fault();
    no_request_with_a_fault();
    one_first_fault();
    allowed_requests_have_no_fault();
    an_exchange_is_one();
    one_packet();
}

/// What is run of bytes, and its tally, is a function of the bytes under a profile that is accepted.
pub fn one_running()
    ensures { (profile : List DeviceParts) (a b : Tally) (bytes x y : List ℕ) → IsBus profile
        → RunsInput profile a bytes x → RunsInput profile b bytes y → (x ≡ y) × (a ≡ b) }
{
    lines_have_one_answer();
}

/// Some text, with its tally, is what is run of any bytes, under a profile that is accepted. The profile
/// is only read, for what the types of its parts say of coefficients and bytes.
pub fn some_running(profile: &Profile)
    ensures { (bytes : List ℕ) → (text : List ℕ) × (tally : Tally) × RunsInput profile.now tally bytes text }
{
    profile_is_kept(profile);
    accepted_bus(profile);
    states_fit();
    request_or_fault();
    readings_have_denominators();
    allowed_or_fault();
    some_exchange();
    allowed_requests_have_packets();
}

/// What is run of the lines that have ended in some bytes is a function of these bytes, and a front
/// of what is run of them and whatever follows.
pub fn ended_lines_come_first()
    ensures one { (profile : List DeviceParts) (bytes a b : List ℕ) → IsBus profile
        → RunsEnded profile bytes a → RunsEnded profile bytes b → a ≡ b }
    ensures front { (profile : List DeviceParts) (bytes more a b : List ℕ) (tally : Tally) → IsBus profile
        → RunsEnded profile bytes a → RunsInput profile tally (bytes ++ more) b → (rest : List ℕ) × (b ≡ a ++ rest) }
{
    ended_lines_stay();
    lines_have_one_answer();
}
