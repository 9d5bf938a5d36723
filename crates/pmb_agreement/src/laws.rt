//! Laws over the definitions alone. Each function is its contract, and does nothing.

ghost use Rattle.std.specs.Prelude.{ℕ, List};
ghost use Rattle.pmb_agreement.specs.Run.{HasRun, WritesTheSame, flags_of, subcommand_of};
ghost use Rattle.pmb_args.specs.Asked.{Json};
ghost use Rattle.pmb_in_memory.specs.Json.{telling};
ghost use Rattle.pmb_in_memory.specs.MemoryTask.{working};
ghost use Rattle.pmb_in_memory.specs.Put.{PutWhole};
ghost use Rattle.pmb_in_memory.specs.declared.json_choice.JsonChoice.{JsonChoice};
ghost use Rattle.pmb_in_memory.specs.declared.memory_task.MemoryTask.{MemoryTask};
ghost use Rattle.pmb_in_memory.specs.declared.put.Put.{Put};
ghost use Rattle.pmb_io.specs.declared.tally.Tally.{Tally};
ghost use Rattle.pmb_preamble.specs.Front.{FirstMark};

use pmb_build::laws::one_building;
use pmb_capture::laws::{one_check, one_showing};
use pmb_io::{Sink, Source};
use pmb_preamble::laws::one_front;
use pmb_run::laws::one_running;
use pmb_telling::laws::one_text_is_told;

/// Where bytes are a profile, its line `%%` and an input, the program that reads them writes what the
/// library puts for that profile and that input, and both count the same. What the library puts is the
/// whole text; so much of it stands in the caller's room as fits there.
pub fn the_library_puts_what_the_program_writes<R: Source, W: Sink>()
    ensures work { (task : MemoryTask) (bytes profile input held before after : List ℕ) (tally : Tally) (old new : R × W) (put : Put)
        → FirstMark bytes profile input → HasRun R.told W.told (subcommand_of task) bytes held tally old new
        → (whole : PutWhole (working task) profile input before after put)
        → WritesTheSame (W.told new.1).held held whole.text tally put }
    ensures json { (choice : JsonChoice) (devices bytes profile input held before after : List ℕ) (tally : Tally) (old new : R × W) (put : Put)
        → FirstMark bytes profile input → HasRun R.told W.told (Json (flags_of choice devices)) bytes held tally old new
        → (whole : PutWhole (telling choice devices) profile input before after put)
        → WritesTheSame (W.told new.1).held held whole.text tally put }
{
    one_front();
    one_showing();
    one_check();
    one_building();
    one_running();
    one_text_is_told();
}
