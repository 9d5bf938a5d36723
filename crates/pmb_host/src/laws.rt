//! Laws over the definitions that the contracts cite: each function is its contract, and does nothing.

ghost use Rattle.std.specs.Prelude.{◌≡◌, ◌↔◌, ◌≤◌, ◌⊎◌, ℕ, IfSome, List, Option, length};
ghost use Rattle.pmb_command.specs.Bus.{IsBus};
ghost use Rattle.pmb_command.specs.Parts.{DeviceParts};
ghost use Rattle.pmb_command.specs.Wire.{Fits};
ghost use Rattle.pmb_writer.specs.Invalid.{HasPacket, IsFirstFault, forms_at};
ghost use Rattle.pmb_writer.specs.declared.invalid.Invalid.{Invalid};
ghost use Rattle.pmb_transaction.specs.Transaction.{Call, Read};
ghost use Rattle.pmb_request.specs.Request.{CallBytes, Command, ReadBytes, RequestData};
ghost use Rattle.pmb_value.specs.declared.number_format.NumberFormat.{NumberFormat};
ghost use Rattle.pmb_host.specs.declared.step.HostFault.{HostFault};
ghost use Rattle.pmb_host.specs.declared.step.HostFault.TheVariants as faults;
ghost use Rattle.pmb_host.specs.Requests.{IsSound, MakeFormats};
ghost use Rattle.pmb_host.specs.Rules.{IsAllowed, IsFault};
ghost use Rattle.pmb_host.specs.Signals.{AreRead, legs_of, reply_form, reply_has_pec, signals};
ghost use Rattle.pmb_host.specs.Task.{replied, task_of};

use pmb_value::laws::{
    direct_has_one_nearest, half_has_one_nearest, linear11_fixed_has_one_nearest,
    linear11_has_one_nearest, quantities_have_answers, slinear16_has_one_nearest,
    ulinear16_has_one_nearest, vid_has_one_nearest,
};

/// A request that is allowed has no fault, so a host is made exactly where there is none.
pub fn allowed_requests_have_no_fault()
    ensures { (profile : List DeviceParts) (request : RequestData) (word : ℕ) (number : Option NumberFormat) (fault : HostFault)
        → IsBus profile → IsAllowed profile request word number → IsFault profile request fault → ⊥ }
{}

/// A request has one first fault at most.
pub fn one_first_fault()
    ensures { (profile : List DeviceParts) (request : RequestData) (a b : HostFault)
        → IsBus profile → IsFault profile request a → IsFault profile request b → a ≡ b }
{}

/// A request is allowed, or has a first fault, under an accepted profile whose coefficients of output
/// voltages make formats.
pub fn allowed_or_fault()
    ensures { (profile : List DeviceParts) (request : RequestData) → IsBus profile → MakeFormats profile → IsSound request
        → ((word : ℕ) × (number : Option NumberFormat) × IsAllowed profile request word number) ⊎ ((fault : HostFault) × IsFault profile request fault) }
{
    quantities_have_answers();
    linear11_has_one_nearest();
    linear11_fixed_has_one_nearest();
    ulinear16_has_one_nearest();
    slinear16_has_one_nearest();
    direct_has_one_nearest();
    half_has_one_nearest();
    vid_has_one_nearest();
}

/// A read or a call is `Invalid` where a transaction with a reply that fits would be, and for that reason
/// ([`check`](pmb_writer::check)).
pub fn faults_are_those_of_check()
    ensures reads { (profile : List DeviceParts) (c : Command) (reply : List ℕ) (invalid : Invalid)
        → IfSome (forms_at profile c.addr c.code).read (λ form. Fits form reply)
        → IsFault profile (ReadBytes c) (faults.Invalid invalid)
        ↔ IsFirstFault profile (Read (record { addr = c.addr; code = c.code; reply = reply; pec = c.pec })) invalid }
    ensures calls { (profile : List DeviceParts) (c : Command) (bytes reply : List ℕ) (invalid : Invalid)
        → IfSome (forms_at profile c.addr c.code).call (λ form. Fits form reply)
        → IsFault profile (CallBytes c bytes) (faults.Invalid invalid)
        ↔ IsFirstFault profile (Call (record { addr = c.addr; code = c.code; bytes = bytes; reply = reply; pec = c.pec })) invalid }
{}

/// What a request that is allowed asks for has a packet, whatever the reply, as long as that fits. So
/// a quantity is set by a command of two bytes.
pub fn allowed_requests_have_packets()
    ensures { (profile : List DeviceParts) (request : RequestData) (word : ℕ) (number : Option NumberFormat) (reply : List ℕ)
        → IsBus profile → IsAllowed profile request word number
        → IfSome (reply_form profile (task_of request word)) (λ form. Fits form reply)
        → HasPacket profile (replied (task_of request word) reply) }
{}

/// It takes at most 4,161 signals, whatever is read: those of a group of 16 blocks of 255 bytes, each with
/// a packet error code.
pub fn signals_are_few()
    ensures { (profile : List DeviceParts) (request : RequestData) (word : ℕ) (number : Option NumberFormat) (bytes : List ℕ)
        → IsBus profile → IsAllowed profile request word number
        → AreRead (reply_form profile (task_of request word)) (reply_has_pec (task_of request word)) bytes
        → length (signals (legs_of profile (task_of request word)) bytes) ≤ 4161 }
{}
