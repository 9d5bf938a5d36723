//! What lines that were written tell.

use pmb_io::Tally;

/// How many packets and refusals there are: a line that begins with `#` is a refusal, and each other one
/// a packet.
pub fn tally_of(lines: &str) -> Tally {
    let mut tally = Tally::new();
    for line in lines.lines() {
        if line.starts_with('#') {
            tally.count_refusal();
        } else {
            tally.count_packet();
        }
    }
    tally
}

/// Whether what a run wrote before a call of it failed is a front of these lines, each of them whole.
pub fn is_front(written: &[u8], lines: &[u8]) -> bool {
    lines.starts_with(written) && (written.is_empty() || written.ends_with(b"\n"))
}
