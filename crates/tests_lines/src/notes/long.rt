//! The note of the greatest length: a group of 16 parts, each with all bits of a register of two
//! bytes that has the longest names.

use crate::compare::{ensure, same};
use crate::notes::says::said;
use arrayvec::ArrayVec;
use pmb_table::Profile;
use std::test::Fail;

type Text = ArrayVec<u8, 4096>;

fn push(text: &mut Text, word: &str) {
    let _ = text.try_extend_from_slice(word.as_bytes());
}

static ADDRESSES: [&str; 16] = [
    "10", "11", "12", "13", "14", "15", "16", "17", "18", "19", "1a", "1b", "1c", "1d", "1e", "1f",
];

/// The addresses of the devices. A call keeps the proof of a loop over them from carrying the table.
fn addresses() -> &'static [&'static str] {
    &ADDRESSES
}

/// What is said of each part, in 192 bytes.
fn push_part(text: &mut Text) {
    push(text, "A_NAME_OF_THIRTY_TWO_CHARACTERS_");
    push(text, " bit15 bit14 bit13 bit12 bit11 bit10 bit9 bit8");
    push(
        text,
        " IOUT_OC_FAULT IOUT_OC_LV_FAULT IOUT_OC_WARN IOUT_UC_FAULT",
    );
    push(
        text,
        " CURRENT_SHARE POWER_LIMITING POUT_OP_FAULT POUT_OP_WARN",
    );
}

fn profile_text() -> Text {
    let mut text = Text::new();
    for address in addresses() {
        push(&mut text, "[[device]]\naddress = 0x");
        push(&mut text, address);
        push(
            &mut text,
            "\npec = \"off\"\nstandard = false\n[[device.command]]\ncode = 0x7b\n",
        );
        push(&mut text, "name = \"A_NAME_OF_THIRTY_TWO_CHARACTERS_\"\n");
        push(
            &mut text,
            "write = \"two\"\nread = \"two\"\nkind = \"status\"\n",
        );
    }
    text
}

#[test]
fn longest_note(rt: HostRuntime) -> Result<(), Fail> {
    let text = profile_text();
    let profile = Profile::from_toml(rt.alloc(), text.as_slice())?;
    let mut line = Text::new();
    let mut told = Text::new();
    push(&mut line, "write");
    for (number, address) in addresses().iter().enumerate() {
        if number > 0 {
            push(&mut line, " +");
            push(&mut told, " + ");
        }
        push(&mut line, " ");
        push(&mut line, address);
        push(&mut line, " 7b ff ff");
        push_part(&mut told);
    }
    let note = said(&profile, &[], line.as_slice());
    same(&rt, "length", note.len(), 3117);
    ensure(&rt, "the longest note", note.as_slice() == told.as_slice());
    Ok(())
}
