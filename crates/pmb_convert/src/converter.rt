//! The lines of an input, answered one after the other.
//!
//! Its rows: `tests/rows/numbers.txt`.

ghost use Rattle.std.specs.Prelude.{◌≡◌, ◌++◌, ◌∷◌, []};
ghost use Rattle.pmb_convert.specs.Answer.{Answer};
ghost use Rattle.pmb_convert.specs.Lines.{converting, most_conversion_line};
ghost use Rattle.pmb_convert.specs.machine.Converting.{ConverterStands, answer_of, fresh, with_answer};

use crate::answer::{Converted, put_answer};
use crate::conversion::Conversion;
use crate::convert_fault::ConvertFault;
use pmb_io::{InputLine, LineTask, RunFault, Sink, Tally, Waiting};

/// What is done with each line, and what was counted so far.
#[derive(Clone, Copy, Debug)]
pub(crate) struct Converter {
    conversion: Conversion,
    tally: Tally,
}

impl Converter {
    /// Nothing was answered yet.
    pub(crate) fn new(conversion: Conversion) -> Converter
        ensures { result ≡ fresh conversion }
    {
        Converter {
            conversion,
            tally: Tally::new(),
        }
    }

    /// Counts an answer.
    fn count(&mut self, answer: &Result<Converted, ConvertFault>)
        ensures { self.new ≡ with_answer self.old (answer_of answer.now) }
    {
        match answer {
            Ok(_) => self.tally.count_packet(),
            Err(_) => self.tally.count_refusal(),
        }
    }
}

impl LineTask for Converter {
    ghost most = { most_conversion_line };

    ghost Stands = { ConverterStands };

    ghost Ends = { ConverterStands };

    ghost counted = { λ converter. converter.tally };

    ghost job = { λ start. converting start.conversion };

    ghost writes_all = { λ start now bytes text stands. stands.answered };

    ghost writes_front = { λ start now bytes text stands. stands.answered.given };

    fn take_line<W: Sink>(
        &mut self,
        line: InputLine<'_>,
        waiting: &mut Waiting,
        writer: &mut W,
    ) -> Result<(), RunFault> {
        let answer = self.conversion.answer(line);
        self.count(&answer);
        put_answer(&answer, waiting, writer)
    }

    fn end<W: Sink>(&mut self, _waiting: &mut Waiting, _writer: &mut W) -> Result<(), RunFault> {
        Ok(())
    }

    fn tally(&self) -> Tally {
        self.tally
    }
}
