//! What a packet under way had said, told as text.

use pmb_bus::Event;
use pmb_partial_packet::PartialPacket;
use pmb_transaction::Reason;
use std::alloc::{AllocError, Global};

fn tell_byte(
    text: &mut String,
    alloc: Global,
    name: &str,
    byte: Option<u8>,
) -> Result<(), AllocError> {
    match byte {
        Some(byte) => text.push_str(format!(in alloc; " {name} {byte:02x}")?.as_str()),
        None => Ok(()),
    }
}

fn tell_bytes(
    text: &mut String,
    alloc: Global,
    name: &str,
    bytes: Option<&[u8]>,
) -> Result<(), AllocError> {
    let Some(bytes) = bytes else {
        return Ok(());
    };
    text.push_str(" ")?;
    text.push_str(name)?;
    for byte in bytes {
        text.push_str(format!(in alloc; " {byte:02x}")?.as_str())?;
    }
    Ok(())
}

/// The reason, and all that was said before the event that was refused, or before the end.
pub(crate) fn told(
    alloc: Global,
    said: &PartialPacket,
    reason: Reason,
    refused: Option<Event>,
) -> Result<String, AllocError> {
    let mut text = String::new(alloc);
    text.push_str(format!(in alloc; "{reason:?}")?.as_str())?;
    tell_byte(&mut text, alloc, "device", said.device())?;
    tell_byte(&mut text, alloc, "to", said.written_to())?;
    tell_bytes(&mut text, alloc, "sent", said.sent())?;
    tell_bytes(&mut text, alloc, "reply", said.reply())?;
    if let Some(event) = refused {
        tell_byte(&mut text, alloc, "right", said.right_pec(reason, event))?;
    }
    Ok(text)
}
