//! Laws over the definitions alone.

ghost use Rattle.std.specs.Prelude.{◌≡◌, ℕ, List, Result, Err};
ghost use Rattle.pmb_command.specs.Bus.{IsBus};
ghost use Rattle.pmb_command.specs.Parts.{DeviceParts};
ghost use Rattle.pmb_io.specs.declared.tally.Tally.{Tally};
ghost use Rattle.pmb_telling.specs.Tell.{telling_job};
ghost use Rattle.pmb_scan.specs.declared.after_bad_token.AfterBadToken.{AfterBadToken};
ghost use Rattle.pmb_fact_stream.specs.Choice.{ChoiceData};
ghost use Rattle.pmb_table.specs.Profile.{ProfileParts, SaysBus};
ghost use Rattle.pmb_table.specs.declared.fault.ProfileFault.{ProfileFault};
ghost use Rattle.pmb_whole_input.specs.Whole.{IsText};
ghost use Rattle.pmb_in_memory.specs.Json.{telling};
ghost use Rattle.pmb_in_memory.specs.MemoryTask.{working};
ghost use Rattle.pmb_in_memory.specs.Profile.{IsProfile, IsToldOf};
ghost use Rattle.pmb_in_memory.specs.Put.{Puts};
ghost use Rattle.pmb_in_memory.specs.declared.fault.WholeFault.{WholeFault};
ghost use Rattle.pmb_in_memory.specs.declared.json_choice.JsonChoice.{JsonChoice};
ghost use Rattle.pmb_in_memory.specs.declared.memory_task.MemoryTask.{MemoryTask};
ghost use Rattle.pmb_in_memory.specs.declared.put.Put.{Put};

use pmb_build::laws::one_building;
use pmb_capture::laws::{one_check, one_showing};
use pmb_run::laws::one_running;
use pmb_telling::laws::one_text_is_told;

/// The text of an input and its tally are functions of the input, under a profile that is accepted.
/// So what is written of a whole input is what the subcommand writes that reads it in pieces.
pub fn one_text()
    ensures work { (work : MemoryTask) (bus : ProfileParts) (input a b : List ℕ) (s t : Tally) → IsBus bus.devices
        → IsText (working work bus) s input a → IsText (working work bus) t input b → (a ≡ b) × (s ≡ t) }
    ensures json { (choice : ChoiceData) (after : AfterBadToken) (devices : List DeviceParts) (input a b : List ℕ) (s t : Tally) → IsBus devices
        → IsText (telling_job choice devices after) s input a → IsText (telling_job choice devices after) t input b → (a ≡ b) × (s ≡ t) }
{
    one_showing();
    one_check();
    one_building();
    one_running();
    one_text_is_told();
}

/// Where a profile's text has a fault, the answer is that fault, with its device and its command, or that
/// there was no memory.
pub fn faults_are_told()
    ensures read { (text : List ℕ) (fault : ProfileFault) (answer : Result ProfileParts WholeFault) → SaysBus text (Err fault) → IsProfile text answer → IsToldOf fault answer }
    ensures put { (work : MemoryTask) (profile input before after : List ℕ) (fault : ProfileFault) (answer : Result Put WholeFault) → SaysBus profile (Err fault)
        → Puts (working work) profile input before after answer → IsToldOf fault answer }
    ensures json { (choice : JsonChoice) (devices profile capture before after : List ℕ) (fault : ProfileFault) (answer : Result Put WholeFault) → SaysBus profile (Err fault)
        → Puts (telling choice devices) profile capture before after answer → IsToldOf fault answer }
{}
