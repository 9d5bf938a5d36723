//! What explains a run of the program, by how it ended.
//!
//! Its rows: `tests/rows/explanations.txt`.

use crate::asked::is_import;
use crate::explain_run::explain_run;
use crate::explaining::Explaining;
use crate::explanation::{Explanation, add};
use crate::import_end::import_end;
use crate::reports::Reports;
use crate::watch::Watch;
use pmb_corrections::{Correction, append_word, push};
use std::alloc::Global;
use std::convert::AsStr;

/// What explains a run that ended with a status: of its words, of what was kept of its input, of what the
/// lines of its output report, and of what it said on standard error.
pub(crate) fn explanation_of<S: AsStr>(
    alloc: Global,
    explaining: Explaining,
    words: &[S],
    status: u8,
    input: &[u8],
    out: &Reports,
    said: &[u8],
) -> Explanation {
    let mut text = Explanation::new();
    if status == 1 && is_import(words) {
        add(&mut text, import_end(out).as_str());
        if explaining == Explaining::On && out.packets == 0 {
            add(&mut text, other_source(words).as_str());
        }
    } else if explaining == Explaining::On {
        let mut watch = Watch::new();
        watch.take(said);
        explain_run(alloc, words, input, out, &watch.reports, &mut text);
    }
    text
}

/// What is said of SOURCE where a recording has no packet.
fn other_source<S: AsStr>(words: &[S]) -> Correction {
    let mut lines = Correction::new();
    if let [_, _, source, ..] = words {
        push(&mut lines, "  Is this a recording of ");
        append_word(&mut lines, source.as_str().as_bytes());
        push(
            &mut lines,
            "? SOURCE is sigrok, saleae, beagle, kernel or smbus.\n",
        );
    }
    lines
}
