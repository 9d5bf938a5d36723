//! What is said of protocol errors.

use crate::said::Said;
use pmb_transaction::Reason;

/// The page of protocol errors.
const PAGE: &str = "docs/errors.md#the-reasons";

/// Of a word of a capture that is no token.
pub(crate) const BAD_TOKEN: Said = Said {
    text: "A word of the capture is neither S, P, A or N nor two hexadecimal digits. Reading ends there;\n\
           json, log and stats go on with the next line under --keep-going.",
    page: "docs/text.md#capture-text",
};

/// Of an event that no packet can have at its place.
pub(crate) fn of_reason(reason: Reason) -> Said {
    Said {
        text: text_of(reason),
        page: PAGE,
    }
}

fn text_of(reason: Reason) -> &'static str {
    match reason {
        Reason::ReadFirst => {
            "A packet begins with an address for reading, but nothing was written before it. The host read a\n\
             byte without a command (Receive Byte), or the capture begins in the middle of a read."
        }
        Reason::BadRestart => {
            "After a repeated START comes an address that can't come there. A group has a device twice; a\n\
             read follows from another device than the one that got the command; the command can only be\n\
             written; or the STOP of a write was lost."
        }
        Reason::BadPec => {
            "The packet error code is wrong, or a byte follows where only this code may. Noise on a reply; a\n\
             device that leaves bytes out of its code; or a host that reads more bytes than there are."
        }
        Reason::UnknownDevice => {
            "A device acknowledged its address, and the profile has no such device. Add it to the profile, or\n\
             to its key ignore: in a capture an address of 7 bits is shifted, so the byte b0 or b1 is 58."
        }
        Reason::UnknownCommand => {
            "A device acknowledged a command code that its profile does not have, or can't have there: a\n\
             command of the manufacturer, or in a group one that can only be read."
        }
        Reason::TooLong => {
            "A reply goes on after its last byte: more bytes than the command or the count has, or a packet\n\
             error code though the profile says pec = \"off\"."
        }
        Reason::TooShort => {
            "A reply ends before its last byte: the host read one byte of a word, fewer bytes than the count\n\
             of a block says, or no packet error code though the profile says pec = \"on\"."
        }
        Reason::WrongEvent => {
            "No packet has such an event there: an edge too many or too few on the wires, a write that STOP\n\
             cuts short, a START after NACK. What may come is named after expected."
        }
        Reason::Truncated => {
            "The capture ends inside a packet: the buffer of the analyser was full, or the bus hangs."
        }
    }
}
