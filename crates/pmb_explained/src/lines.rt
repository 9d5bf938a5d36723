//! What is said of faults of lines: numbers, transactions, requests.
//!
//! Its rows: `tests/rows/explanations.txt`.

use crate::explain_run::Run;
use crate::matter::line_of;
use crate::parts::part_correction;
use crate::report::{Report, Where};
use pmb_corrections::{
    Correction, LineSort, code_correction, push, quantity_correction, range_correction,
    word_correction,
};
use pmb_io::without_return;
use pmb_line::Words;
use std::alloc::Global;

/// What is said of the fault of a line, if the line is in what was kept.
pub(crate) fn line_correction(
    alloc: Global,
    run: Run<'_, '_, '_>,
    report: &Report,
    output_line: u64,
) -> Option<Correction> {
    let name = report.name.as_str();
    match report.place {
        Where::Same => {
            let line = without_return(line_of(run.matter, output_line)?);
            number_correction(run.word, line, name)
        }
        Where::Line(number, at) => {
            let line = without_return(line_of(run.matter, number)?);
            let sort = if run.command == "run" {
                LineSort::Request
            } else {
                LineSort::Transaction
            };
            match (name, at) {
                ("BadWord", Some(at)) => Some(word_correction(
                    alloc,
                    line,
                    usize::try_from(at).ok()?,
                    sort,
                )),
                ("BadDigit" | "ZeroDenominator" | "TooLarge", _) => {
                    Some(quantity_correction(fourth_word(line)?))
                }
                _ => part_correction(run.bus?.profile(), line, name),
            }
        }
        Where::Event(_)
        | Where::Byte(_)
        | Where::Column(..)
        | Where::Request
        | Where::Words
        | Where::Profile => None,
    }
}

/// The quantity of a request `set`.
fn fourth_word(line: &[u8]) -> Option<&[u8]> {
    let mut words = Words::of(line);
    let _ = words.next_word()?;
    let _ = words.next_word()?;
    let _ = words.next_word()?;
    Some(words.next_word()?.text)
}

/// What is said of the fault of a number.
fn number_correction(format: &str, line: &[u8], name: &str) -> Option<Correction> {
    match name {
        "BadDigit" => Some(quantity_correction(line)),
        "BadCode" => Some(code_correction(line)),
        "Below" | "Above" => range_correction(format, line),
        "Empty" => {
            let mut lines = Correction::new();
            push(
                &mut lines,
                "  the line is empty: a quantity is needed, such as 12, -0.5 or 1/3\n",
            );
            Some(lines)
        }
        _ => None,
    }
}
