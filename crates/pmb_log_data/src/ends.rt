//! The first and the last of some bytes.
//!
//! Its rows: `tests/rows/log.txt`; `tests_json`, `src/log_lines/`.

ghost use Rattle.std.specs.Prelude.{◌≡◌, ◌≤◌, ◌++◌, ◌∷◌, [], MatchOption, drop, length};
ghost use Rattle.pmb_json_objects.specs.Packets.{last_byte};
ghost use Rattle.pmb_partial_packet.specs.PartialPacket.{but_last};

/// The last byte, and those before it.
fn split(bytes: &[u8]) -> Option<(u8, &[u8])>
    ensures { MatchOption result (bytes.now ≡ []) (λ p. bytes.now ≡ p.1.now ++ p.0 ∷ []) }
{
    match bytes.split_last() {
        Some((last, front)) => Some((*last, front)),
        None => None,
    }
}

/// The last byte.
pub fn last_byte(bytes: &[u8]) -> Option<u8>
    ensures { result ≡ last_byte bytes.now }
{
    match split(bytes) {
        Some((last, _front)) => Some(last),
        None => None,
    }
}

/// All but the last byte.
pub fn but_last(bytes: &[u8]) -> &[u8]
    ensures bytes { result.now ≡ but_last bytes.now }
    ensures short { length result.now ≤ length bytes.now }
{
    match split(bytes) {
        Some((_, front)) => front,
        None => bytes,
    }
}

/// All but the first byte.
pub fn but_first(bytes: &[u8]) -> &[u8]
    ensures bytes { result.now ≡ drop 1 bytes.now }
    ensures short { length result.now ≤ length bytes.now }
{
    match bytes.split_first() {
        Some((_, rest)) => rest,
        None => bytes,
    }
}
