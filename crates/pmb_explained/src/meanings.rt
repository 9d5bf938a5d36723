//! `pmb explain NAME`.
//!
//! Its rows: `tests/rows/explanations.txt`.

use crate::explanation::{Explanation, add};
use arrayvec::ArrayVec;
use pmb_corrections::{Correction, append_word, nearest, push};
use pmb_explain::{Fault, all_faults, is_explained, is_of_name};
use pmb_io::{IoFault, Sink};
use std::alloc::Global;
use std::convert::AsStr;

/// What `pmb explain --help` writes.
const HELP: &str = "Says what the name of a fault means, such as BadPec or BadFormat\n\n\
     Usage: pmb explain [NAME]..\n\n\
     Without a NAME it lists all of them. Where standard error is a terminal, or with PMB_EXPLAIN=1,\n\
     each command explains its faults by itself, with what was written.\n";

/// Writes what names mean, and returns the exit status.
pub fn explain_name<S: AsStr, W: Sink, E: Sink>(
    alloc: Global,
    words: &[S],
    out: &mut W,
    err: &mut E,
) -> u8 {
    let names = words.get(2..).unwrap_or(&[]);
    if names.is_empty() {
        return status_of(write_all_names(out), err);
    }
    let mut status = 0;
    for name in names {
        let name = name.as_str();
        if name == "--help" || name == "-h" {
            return status_of(out.write_all(HELP.as_bytes()), err);
        }
        if is_explained(name) {
            if write_name(name, out).is_err() {
                return status_of(Err(IoFault), err);
            }
        } else {
            report_no_name(alloc, name, err);
            status = 2;
        }
    }
    status
}

/// The exit status, and the fault that it stands for.
fn status_of<E: Sink>(outcome: Result<(), IoFault>, err: &mut E) -> u8 {
    match outcome {
        Ok(()) => 0,
        Err(_) => {
            let _ = err.write_all(b"pmb: write failed\n");
            3
        }
    }
}

/// Writes what each fault of a name means.
fn write_name<W: Sink>(name: &str, out: &mut W) -> Result<(), IoFault> {
    let mut text = Explanation::new();
    for fault in all_faults() {
        if is_of_name(*fault, name) {
            add_fault(*fault, &mut text);
        }
    }
    out.write_all(text.as_str().as_bytes())
}

/// Adds a fault: its name and what has it, what it means, and its page.
fn add_fault(fault: Fault, text: &mut Explanation) {
    add(text, fault.name());
    add(text, ", ");
    add(text, fault.subject());
    add(text, ":\n");
    let said = fault.said();
    for line in said.text.split('\n') {
        add_line(line, text);
    }
    add_line(said.page, text);
}

/// Adds a line below the name of a fault.
fn add_line(line: &str, text: &mut Explanation) {
    add(text, "  ");
    add(text, line);
    add(text, "\n");
}

/// Writes all names.
fn write_all_names<W: Sink>(out: &mut W) -> Result<(), IoFault> {
    let mut text = Explanation::new();
    let mut subject = "";
    for fault in all_faults() {
        if fault.subject() != subject {
            if !subject.is_empty() {
                add(&mut text, "\n");
            }
            subject = fault.subject();
            add(&mut text, subject);
            add(&mut text, ":");
        }
        add(&mut text, " ");
        add(&mut text, fault.name());
    }
    add(&mut text, "\n");
    out.write_all(text.as_str().as_bytes())
}

/// Reports that no fault has a name, and the one that may have been meant.
fn report_no_name<E: Sink>(alloc: Global, name: &str, err: &mut E) {
    let mut text = Correction::new();
    push(&mut text, "pmb: explain: no fault has the name ");
    append_word(&mut text, name.as_bytes());
    let mut names = ArrayVec::<&'static str, 128>::new();
    for fault in all_faults() {
        let _ = names.try_push(fault.name());
    }
    if let Some(meant) = nearest(alloc, name, names.as_slice()) {
        push(&mut text, ": did you mean ");
        push(&mut text, meant);
        push(&mut text, "?");
    }
    push(&mut text, "\n");
    let _ = err.write_all(text.as_str().as_bytes());
}
