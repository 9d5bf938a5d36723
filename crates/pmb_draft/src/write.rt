//! One run over a capture.
//!
//! Its rows: `tests/rows/scan.txt`, `failures.txt`.

ghost use Rattle.std.specs.Prelude.{◌≡◌, ◌≢◌};
ghost use Rattle.pmb_draft.specs.Draft.{drafting};
ghost use Rattle.pmb_draft.specs.Result.{Drafts};
ghost use Rattle.pmb_draft.specs.machine.Writing.{WritesText};

use crate::draft::Draft;
use crate::fault::DraftFault;
use crate::nowhere::Nowhere;
use pmb_io::{Sink, Source, Tally, ToolFault, each_piece};
use std::alloc::Global;

/// Writes the first profile of the capture whose text is `first` and what the reader gives. The tally counts
/// a word that is no token, at which reading ends, as a refusal.
///
/// Nothing is written before the capture has ended. Memory is taken once before it is read, and once
/// for the text.
///
/// # Errors
///
/// `Tool`, as of a run; `TooLong`; `Refused`. Nothing was written then, but where the writer failed.
pub fn write_draft<R: Source, W: Sink>(
    alloc: Global,
    first: &[u8],
    reader: &mut R,
    writer: &mut W,
) -> Result<Tally, DraftFault>
    ensures { Drafts R.told W.told first.now (reader.old, writer.old) (reader.new, writer.new) result }
{
    let Ok(mut draft) = Draft::new(alloc) else {
        return Err(DraftFault::Tool(ToolFault::Memory));
    };
    let mut nowhere = Nowhere::new();
    match each_piece(&mut draft, first, reader, &mut nowhere) {
        Ok(()) => write_text(alloc, &mut draft, writer),
        Err(fault) => Err(DraftFault::Tool(ToolFault::from(fault))),
    }
}

/// Writes the text of what was read.
fn write_text<W: Sink>(
    alloc: Global,
    draft: &mut Draft,
    writer: &mut W,
) -> Result<Tally, DraftFault>
    ensures { WritesText W.told draft.old writer.old writer.new result }
{
    match draft.text(alloc) {
        Ok(text) => match writer.write_all(text.bytes()) {
            Ok(()) => Ok(draft.tally()),
            Err(_) => Err(DraftFault::Tool(ToolFault::Write)),
        },
        Err(fault) => Err(fault),
    }
}
