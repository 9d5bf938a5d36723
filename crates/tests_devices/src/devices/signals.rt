//! Signals as rows tell them.

use pmb_device::HostSignal;
use std::alloc::{AllocError, Global};

fn digit(byte: u8) -> Option<u8> {
    match byte {
        b'0'..=b'9' => Some(byte - b'0'),
        b'a'..=b'f' => Some(byte - b'a' + 10),
        _ => None,
    }
}

fn signal(word: &[u8]) -> Option<HostSignal> {
    match word {
        b"S" => Some(HostSignal::Start),
        b"P" => Some(HostSignal::Stop),
        b"A" => Some(HostSignal::Ack),
        b"N" => Some(HostSignal::Nack),
        b"?" => Some(HostSignal::Ask),
        [high, low] => Some(HostSignal::Byte((digit(*high)? << 4) | digit(*low)?)),
        _ => None,
    }
}

/// The signals that words name: `S`, `P`, `A`, `N`, `?` for an Ask, and two digits for a byte.
pub(crate) fn signals(alloc: Global, text: &str) -> Result<Vec<HostSignal>, AllocError> {
    let mut all = Vec::new(alloc);
    for word in text.as_bytes().split(|byte| *byte == b' ') {
        if let Some(named) = signal(word) {
            all.push(named)?;
        }
    }
    Ok(all)
}
