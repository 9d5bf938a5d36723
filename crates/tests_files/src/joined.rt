//! Files that are read as one.

use crate::memory::{Entry, Memory};
use pmb_files::Joined;
use std::io::Read;

/// Two files. The first lacks the LF at its end.
static TWO_FILES: [Entry<'static>; 2] = [
    Entry {
        name: "a.txt",
        content: Ok(b"a"),
    },
    Entry {
        name: "b.txt",
        content: Ok(b"b\n"),
    },
];

#[test]
fn files_are_joined(rt: HostRuntime) {
    let files = Memory::new(&TWO_FILES);
    let names = ["a.txt", "b.txt", "b.txt"];
    let mut reader = Joined::new(&files, b"%%\n", &names);
    let mut bytes = Vec::new(rt.alloc());
    let mut piece = [0; 2];
    for _ in 0..12 {
        let count = reader.read(&mut piece).expect(&rt, "no fault");
        bytes
            .extend_from_slice(&piece[..count])
            .expect(&rt, "memory");
    }
    assert!(rt; bytes.as_slice() == b"%%\na\nb\nb\n".as_slice());
    assert!(rt; reader.failure().is_none());
}

#[test]
fn a_file_that_is_gone_is_named(rt: HostRuntime) {
    let files = Memory::new(&TWO_FILES);
    let names = ["c.txt"];
    let mut reader = Joined::new(&files, b"", &names);
    let mut piece = [0; 2];
    assert!(rt; reader.read(&mut piece).is_err());
    assert!(rt; matches!(reader.failure(), Some(failure) if failure.name == "c.txt"));
}
