//! The time unit of a VCD.

ghost use Rattle.std.specs.Prelude.{◌≡◌, ◌≤◌, ◌*◌, ◌^◌, IfSome};
ghost use Rattle.pmb_vcd.specs.Timescale.{scale_of, times, unit_of};

use pmb_words::behind;

/// The femtoseconds of a time unit: 1, 10 or 100 and `s`, `ms`, `us`, `ns`, `ps` or `fs`, without
/// blanks.
pub fn timescale(text: &[u8]) -> Option<u64>
    ensures scale { result ≡ scale_of text.now }
    ensures most { IfSome result (λ scale. scale ≤ 100 * 10 ^ 15) }
{
    if let Some(name) = behind(b"100", text) {
        return so_many(100, name);
    }
    if let Some(name) = behind(b"10", text) {
        return so_many(10, name);
    }
    match behind(b"1", text) {
        Some(name) => so_many(1, name),
        None => None,
    }
}

fn so_many(count: u64, name: &[u8]) -> Option<u64>
    requires few { count ≤ 100 }
    ensures scale { result ≡ times count (unit_of name.now) }
    ensures most { IfSome result (λ scale. scale ≤ 100 * 10 ^ 15) }
{
    match unit(name) {
        Some(unit) => Some(count * unit),
        None => None,
    }
}

fn unit(name: &[u8]) -> Option<u64>
    ensures unit { result ≡ unit_of name.now }
    ensures most { IfSome result (λ unit. unit ≤ 10 ^ 15) }
{
    match name {
        b"s" => Some(1_000_000_000_000_000),
        b"ms" => Some(1_000_000_000_000),
        b"us" => Some(1_000_000_000),
        b"ns" => Some(1_000_000),
        b"ps" => Some(1_000),
        b"fs" => Some(1),
        _ => None,
    }
}
