//! The program as a function, and where it has no words.

use pmb_cli::{Failing, Io, no_words, tool};
use std::io::ErrorKind;

#[test]
fn a_capture_is_shown(rt: HostRuntime) {
    let mut reader = Io::new(b"S b0 A 21 A 00 A 18 A P\n".as_slice());
    let mut out = Io::new(Vec::new(rt.alloc()));
    let mut err = Io::new(Vec::new(rt.alloc()));
    let words = ["pmb", "show", "--sample"];
    assert!(rt; tool(rt.alloc(), &words, &mut reader, &mut out, &mut err) == 0);
    let written = "write 58 21 00 18 # VOUT_COMMAND 12\n";
    assert!(rt; out.into_inner().as_slice() == written.as_bytes());
    assert!(rt; err.into_inner().is_empty());
}

// No arguments, not even the program's name, prints its help.
#[test]
fn no_words_ask_for_nothing(rt: HostRuntime) {
    let mut reader = Failing::new(Io::new(b"".as_slice()));
    reader.fail_after(0);
    let mut out = Io::new(Vec::new(rt.alloc()));
    let mut err = Io::new(Vec::new(rt.alloc()));
    let words: [&str; 0] = [];
    assert!(rt; tool(rt.alloc(), &words, &mut reader, &mut out, &mut err) == 2);
    assert!(rt; out.into_inner().is_empty());
    let told = "Reads and writes PMBus traffic, and converts between codes and quantities\n";
    assert!(rt; err.into_inner().starts_with(told.as_bytes()));
}

/// A name, why there are no words, what is told, and the status.
#[rattlefmt::skip]
static NO_WORDS: [(&str, ErrorKind, &str, u8); 2] = [
    ("not UTF-8", ErrorKind::InvalidData, "error: the words of the command are not UTF-8\n", 2),
    ("no memory", ErrorKind::OutOfMemory, "pmb: no memory\n", 4),
];

#[test]
fn words_that_are_not_there_are_told(rt: HostRuntime) {
    for &(name, kind, told, status) in &NO_WORDS {
        for most in 0..2u64 {
            let mut written = Vec::new(rt.alloc());
            let mut err = Failing::new(Io::new(&mut written));
            err.fail_after(most);
            let found = no_words(kind, &mut err);
            let text = if most == 0 { "" } else { told };
            assert!(rt;
                (found, written.as_slice()) == (status, text.as_bytes()),
                "{name}"
            );
        }
    }
}
