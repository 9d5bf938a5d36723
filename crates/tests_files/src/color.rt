//! `--color` among the words, and runs whose lines are painted.

use crate::memory::{Entry, Memory};
use pmb_colour::{Choice, Lines, Output};
use pmb_explained::Explaining;
use pmb_files::{Opener, run_painted, take_color};
use pmb_io::{Failing, Io, Sink};
use std::alloc::Global;
use std::marker::Brand;

#[test]
fn color_is_taken_out(rt: HostRuntime) {
    let words = [
        "pmb",
        "log",
        "--sample",
        "--color",
        "always",
        "-p",
        "--color",
        "--color=never",
        "a.txt",
    ];
    let asked = take_color(rt.alloc(), &words).expect(&rt, "memory");
    let left = ["pmb", "log", "--sample", "-p", "--color", "a.txt"];
    assert!(rt; asked.left.as_slice() == left.as_slice());
    let colors = [b"always".as_slice(), b"never".as_slice()];
    assert!(rt; asked.colors.as_slice() == colors.as_slice());
    assert!(rt; asked.choice() == Some(Choice::Never));
    assert!(rt; asked.lines() == Some(Lines::Log));
    assert!(rt; asked.name() == "log");
}

#[test]
fn a_subcommand_without_colour_keeps_its_words(rt: HostRuntime) {
    let words = ["pmb", "json", "--color", "always"];
    let asked = take_color(rt.alloc(), &words).expect(&rt, "memory");
    assert!(rt; asked.left.as_slice() == words.as_slice());
    assert!(rt; asked.colors.is_empty());
    assert!(rt; asked.choice() == Some(Choice::Auto));
    assert!(rt; asked.lines().is_none());
}

/// Words, what they ask for, the lines that may have colour, and those that have it in a pipe.
#[rattlefmt::skip]
static ASKED: [(&[&str], Option<Choice>, Option<Lines>, Option<Lines>); 6] = [
    (&["pmb", "stats", "--color", "always"], Some(Choice::Always), Some(Lines::Table), Some(Lines::Table)),
    (&["pmb", "stats", "--json", "--color=auto"], Some(Choice::Auto), None, None),
    (&["pmb", "log", "--color", "Always"], None, Some(Lines::Log), None),
    (&["pmb", "log", "--color"], None, Some(Lines::Log), None),
    (&["pmb", "log", "--", "--color", "never"], Some(Choice::Auto), Some(Lines::Log), None),
    (&["pmb"], Some(Choice::Auto), None, None),
];

#[test]
fn words_ask_for_colour(rt: HostRuntime) {
    for &(words, choice, lines, painted) in &ASKED {
        let asked = take_color(rt.alloc(), words).expect(&rt, "memory");
        let in_pipe = asked.painted(Output::Other, None, None);
        assert!(rt;
            (asked.choice(), asked.lines(), in_pipe) == (choice, lines, painted),
            "{words:?}"
        );
    }
}

/// A capture with a wrong error code, and one that ends inside a packet.
static FILES: [Entry<'static>; 2] = [
    Entry {
        name: "wrong.txt",
        content: Ok(b"S b0 A 03 A 47 N P\n"),
    },
    Entry {
        name: "cut.txt",
        content: Ok(b"S b0 A 03 A 47"),
    },
];

/// A run whose lines are painted: its words, the lines, what it writes, what it reports, and its exit
/// status.
struct Run {
    words: &'static [&'static str],
    lines: Option<Lines>,
    out: &'static str,
    err: &'static str,
    status: u8,
}

/// As in the rows of `tests/files/rows.txt`.
#[rattlefmt::skip]
static RUNS: [Run; 6] = [
    Run { words: &["pmb", "log", "--sample", "wrong.txt"], lines: Some(Lines::Log), out: "            58     CLEAR_FAULTS               \x1b[33mrefused at its error code 47: 46 is right\x1b[0m\n", err: "", status: 0 },
    Run { words: &["pmb", "log", "--sample", "wrong.txt"], lines: None, out: "            58     CLEAR_FAULTS               refused at its error code 47: 46 is right\n", err: "", status: 0 },
    Run { words: &["pmb", "log", "--sample", "cut.txt"], lines: Some(Lines::Log), out: "            58     CLEAR_FAULTS               \x1b[31mthe capture ends inside the packet\x1b[0m\n", err: "", status: 1 },
    Run { words: &["pmb", "stats", "--sample", "wrong.txt"], lines: Some(Lines::Table), out: "58\n  \x1b[33mnacks 1 (byte 1)\x1b[0m\n\ntotal  packets 1  \x1b[33mnacks 1 (byte 1)\x1b[0m\n", err: "", status: 0 },
    Run { words: &["pmb", "log", "--sample", "--color", "yes", "wrong.txt"], lines: None, out: "", err: "pmb: log: BadColor\n", status: 2 },
    Run { words: &["pmb", "log", "--sample", "--color", "always", "x.txt"], lines: Some(Lines::Log), out: "", err: "pmb: x.txt: no such file\n", status: 2 },
];

/// Runs `pmb` over files, and paints these lines of what it writes.
fn paint<F: Opener, W: Sink, E: Sink>(
    alloc: Global,
    words: &[&str],
    files: &F,
    lines: Option<Lines>,
    out: W,
    err: &mut E,
) -> (W, u8) {
    run_painted::<&str, F, W, Brand, E>(alloc, words, files, lines, Explaining::Off, out, err)
}

#[test]
fn lines_are_painted(rt: HostRuntime) {
    let files = Memory::new(&FILES);
    for run in &RUNS {
        let out = Io::new(Vec::new(rt.alloc()));
        let mut err = Io::new(Vec::new(rt.alloc()));
        let (out, status) = paint(rt.alloc(), run.words, &files, run.lines, out, &mut err);
        let out = out.into_inner();
        let err = err.into_inner();
        assert!(rt;
            (out.as_slice(), err.as_slice(), status)
                == (run.out.as_bytes(), run.err.as_bytes(), run.status),
            "{:?}",
            run.words
        );
    }
}

#[test]
fn a_write_that_fails_is_reported(rt: HostRuntime) {
    let files = Memory::new(&FILES);
    let words = ["pmb", "log", "--sample", "wrong.txt"];
    let mut written = Vec::new(rt.alloc());
    let mut out = Failing::new(Io::new(&mut written));
    out.fail_after(0);
    let mut err = Io::new(Vec::new(rt.alloc()));
    let (_, status) = paint(rt.alloc(), &words, &files, Some(Lines::Log), out, &mut err);
    assert!(rt; status == 3);
    assert!(rt; written.is_empty());
    assert!(rt; err.into_inner().as_slice() == b"pmb: write failed\n".as_slice());
}
