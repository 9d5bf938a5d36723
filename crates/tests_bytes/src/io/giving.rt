//! How many bytes a reader for tests gives.

use crate::compare::same;
use pmb_io::{Failing, Io, Source};

/// Each read gives as many bytes as there are, as many as the reader was told and the buffer has
/// room for at most, and these bytes; at the end none.
#[test]
fn as_many_bytes_as_it_was_told(rt: HostRuntime) {
    let text = b"0123456789";
    for most in 1..12 {
        for room in 0..12 {
            let mut reader = Failing::new(Io::new(&text[..]));
            reader.give_at_most(most);
            let mut rest = &text[..];
            for _ in 0..12 {
                let mut buffer = [0u8; 12];
                let count = most.min(room).min(rest.len());
                same(
                    &rt,
                    (most, room),
                    reader.read(&mut buffer[..room]),
                    Ok(count),
                );
                same(&rt, (most, room), &buffer[..count], &rest[..count]);
                rest = &rest[count..];
            }
            same(&rt, (most, room), rest.is_empty(), room > 0);
        }
    }
}
