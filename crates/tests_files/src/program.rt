//! The program over files in memory.

use crate::memory::{Entry, Memory};
use pmb_explained::{Explaining, KeptOutput};
use pmb_files::{FileFault, run_files};
use pmb_io::Io;

/// The files, by their names.
static FILES: [Entry<'static>; 8] = [
    Entry {
        name: "-",
        content: Ok(b"S b0 A 21 A 00 A 18 A P\n"),
    },
    Entry {
        name: "a.txt",
        content: Ok(b"S b0 A 21 A"),
    },
    Entry {
        name: "b.txt",
        content: Ok(b"00 A 18 A P\n"),
    },
    Entry {
        name: "c.txt",
        content: Ok(b"S 20 A 03 A P\n"),
    },
    Entry {
        name: "board.toml",
        content: Ok(b"[[device]]\naddress = 0x10\npec = \"off\""),
    },
    Entry {
        name: "mark.toml",
        content: Ok(b"device = []\n%%\n"),
    },
    Entry {
        name: "folder",
        content: Err(FileFault::IsDirectory),
    },
    Entry {
        name: "secret",
        content: Err(FileFault::PermissionDenied),
    },
];

/// A run: its words after the program's name, what it writes, what it reports, and its exit status.
struct Run {
    words: &'static [&'static str],
    out: &'static str,
    err: &'static str,
    status: u8,
}

/// The row `explain badcode` of `tests/rows/explanations.txt`.
const EXPLAINED: &str =
    "BadCode, in a line of encode or decode:\n  A code is four hexadecimal digits without 0x, its high byte first: d300 for the bytes 00 d3.\n  docs/program.md#what-pmb-encode-format-and-pmb-decode-format-write\n";

#[rattlefmt::skip]
static RUNS: [Run; 15] = [
    Run { words: &["pmb", "show", "--sample"], out: "write 58 21 00 18 # VOUT_COMMAND 12\n", err: "", status: 0 },
    Run { words: &["pmb", "show", "--sample", "-"], out: "write 58 21 00 18 # VOUT_COMMAND 12\n", err: "", status: 0 },
    Run { words: &["pmb", "show", "--sample", "--joined", "a.txt", "b.txt"], out: "write 58 21 00 18 # VOUT_COMMAND 12\n", err: "", status: 0 },
    Run { words: &["pmb", "show", "-p", "board.toml", "c.txt"], out: "write 10 03 # CLEAR_FAULTS\n", err: "", status: 0 },
    Run { words: &["pmb", "check", "-p", "board.toml", "c.txt", "c.txt"], out: "# file c.txt\npackets 1 refusals 0\n# file c.txt\npackets 1 refusals 0\n", err: "", status: 0 },
    Run { words: &["pmb", "show", "--sample", "x.txt"], out: "", err: "pmb: x.txt: no such file\n", status: 2 },
    Run { words: &["pmb", "show", "--sample", "folder"], out: "", err: "pmb: folder: is a directory\n", status: 2 },
    Run { words: &["pmb", "show", "-p", "secret"], out: "", err: "pmb: secret: permission denied\n", status: 2 },
    Run { words: &["pmb", "show", "-p", "mark.toml"], out: "", err: "pmb: mark.toml: line 2 is %%\n", status: 2 },
    Run { words: &["pmb", "show", "--sample", "-p", "board.toml"], out: "", err: "pmb: show: TwoProfiles\n", status: 2 },
    Run { words: &["pmb", "show", "--sample", "-", "-"], out: "", err: "pmb: show: TwoInputs\n", status: 2 },
    Run { words: &["pmb", "build", "--sample", "a.txt", "b.txt"], out: "", err: "pmb: build: TwoInputs\n", status: 2 },
    Run { words: &["pmb", "log", "--sample", "--color", "sometimes", "c.txt"], out: "", err: "pmb: log: BadColor\n", status: 2 },
    Run { words: &["pmb", "explain", "badcode"], out: EXPLAINED, err: "", status: 0 },
    Run { words: &["pmb", "decode", "linear11", "d300", "0xd300"], out: "12\n12\n", err: "", status: 0 },
];

#[test]
fn files_are_read_as_words_say(rt: HostRuntime) {
    let files = Memory::new(&FILES);
    for run in &RUNS {
        let inner = Io::new(Vec::new(rt.alloc()));
        let mut out = KeptOutput::new(inner, Explaining::Off, run.words);
        let mut err = Io::new(Vec::new(rt.alloc()));
        let status = run_files(rt.alloc(), run.words, &files, &mut out, &mut err);
        let out = out.into_inner().into_inner();
        let err = err.into_inner();
        assert!(rt;
            (out.as_slice(), err.as_slice(), status)
                == (run.out.as_bytes(), run.err.as_bytes(), run.status),
            "{:?}",
            run.words
        );
    }
}
