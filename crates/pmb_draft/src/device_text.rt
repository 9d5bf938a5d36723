//! The table of a device.
//!
//! Its rows: `tests/rows/scan.txt`.

use crate::command_tally::{CommandTally, data_form, standard_shape};
use crate::device_tally::DeviceTally;
use crate::tallies::Tallies;
use crate::text::Text;
use pmb_command::{Form, PecMode, Shape, standard};
use std::alloc::AllocError;

/// Appends the table of the device at a place, with its comments.
pub(crate) fn put_device(
    text: &mut Text,
    tallies: &Tallies,
    place: usize,
    address: u8,
) -> Result<(), AllocError> {
    let Some(device) = tallies.device(place) else {
        return Ok(());
    };
    let mode = tallies.pec_mode(place);
    let checked = tallies.fitting(place, mode, PecMode::On);
    let plain = tallies.fitting(place, mode, PecMode::Off);
    text.put("\n# ")?;
    text.put_count(device.legs(), "packet")?;
    text.put(": ")?;
    text.put_number(checked)?;
    text.put(" with a packet error code, ")?;
    text.put_number(plain)?;
    text.put(" without\n")?;
    if device.legs() > 0 && checked == 0 && plain == 0 {
        text.put(
            "# If this speaks no PMBus, remove its table, and write at the top: ignore = [0x",
        )?;
        text.put_byte(address)?;
        text.put("]\n")?;
    }
    put_pages_beyond(text, device)?;
    text.put("[[device]]\naddress = 0x")?;
    text.put_byte(address)?;
    text.put("\npec = \"")?;
    text.put(pec_word(mode))?;
    text.put("\"\n")?;
    put_pages(text, device)?;
    put_commands(text, tallies, place, mode)?;
    put_seen(text, tallies, place, mode)
}

/// Appends a comment for each page that no profile can have.
fn put_pages_beyond(text: &mut Text, device: &DeviceTally) -> Result<(), AllocError> {
    for page in 0..=255u8 {
        if device.has_page_beyond(page) {
            text.put("# PAGE was ")?;
            text.put_byte(page)?;
            text.put(": a profile has at most 32 pages\n")?;
        }
    }
    Ok(())
}

/// Appends the keys `pages` and `vout_mode`, where packets tell of them.
fn put_pages(text: &mut Text, device: &DeviceTally) -> Result<(), AllocError> {
    let count = match device.page_count() {
        Some(count) => {
            text.put("pages = ")?;
            text.put_number(count as u64)?;
            text.put("\n")?;
            count
        }
        None => 1,
    };
    let Some(first) = device.mode(0, count) else {
        return Ok(());
    };
    text.put("vout_mode = ")?;
    if device.has_one_mode(count) {
        text.put("0x")?;
        text.put_byte(first)?;
    } else {
        put_modes(text, device, count)?;
    }
    text.put("\n")
}

/// Appends an array of VOUT_MODE of each page.
fn put_modes(text: &mut Text, device: &DeviceTally, count: usize) -> Result<(), AllocError> {
    for page in 0..count {
        text.put(if page == 0 { "[0x" } else { ", 0x" })?;
        text.put_byte(device.mode(page, count).unwrap_or(0))?;
    }
    text.put("]")
}

/// Appends the array of the commands that the standard has not, or has in other forms.
fn put_commands(
    text: &mut Text,
    tallies: &Tallies,
    place: usize,
    mode: PecMode,
) -> Result<(), AllocError> {
    let mut is_open = false;
    for code in 0..=255u8 {
        if let Some(tally) = tallies.command(place, code) {
            let shape = tally.shape(code, mode);
            if standard(code).is_none() || shape != standard_shape(code) {
                if !is_open {
                    text.put("command = [\n")?;
                }
                is_open = true;
                put_command(text, code, shape, tally, mode)?;
            }
        }
    }
    if is_open { text.put("]\n") } else { Ok(()) }
}

/// Appends the table of a command.
fn put_command(
    text: &mut Text,
    code: u8,
    shape: Shape,
    tally: &CommandTally,
    mode: PecMode,
) -> Result<(), AllocError> {
    text.put("    { ")?;
    let is_guess = match standard(code) {
        Some(entry) => {
            text.put("name = \"")?;
            text.put(entry.name.as_str())?;
            text.put("\"")?;
            put_changes(text, shape, entry.shape)?;
            false
        }
        None => {
            text.put("code = 0x")?;
            text.put_byte(code)?;
            put_forms(text, shape)?
        }
    };
    text.put(" }, # ")?;
    put_fitting(text, shape, tally, mode)?;
    text.put(if is_guess { ": a guess\n" } else { "\n" })
}

/// Appends the keys in which a shape is another one than the standard's.
fn put_changes(text: &mut Text, shape: Shape, standard: Shape) -> Result<(), AllocError> {
    if shape.write != standard.write {
        put_form(text, "write", shape.write)?;
    }
    if shape.read != standard.read {
        put_form(text, "read", shape.read)?;
    }
    if shape.call != standard.call {
        put_form(text, "call", shape.call)?;
    }
    if data_form(shape) != data_form(standard) {
        text.put(", kind = \"raw\"")?;
    }
    Ok(())
}

/// Appends the forms that a shape has, and returns whether it has none: two bytes are the commonest.
fn put_forms(text: &mut Text, shape: Shape) -> Result<bool, AllocError> {
    let is_guess = shape.write.is_none() && shape.read.is_none() && shape.call.is_none();
    if is_guess {
        text.put(", write = \"two\", read = \"two\"")?;
    }
    if shape.write.is_some() {
        put_form(text, "write", shape.write)?;
    }
    if shape.read.is_some() {
        put_form(text, "read", shape.read)?;
    }
    if shape.call.is_some() {
        put_form(text, "call", shape.call)?;
    }
    Ok(is_guess)
}

/// Appends a key with the word of a form.
fn put_form(text: &mut Text, key: &str, form: Option<Form>) -> Result<(), AllocError> {
    text.put(", ")?;
    text.put(key)?;
    text.put(" = \"")?;
    text.put(form_word(form))?;
    text.put("\"")
}

/// Appends a comment for each command that the standard has in these forms.
fn put_seen(
    text: &mut Text,
    tallies: &Tallies,
    place: usize,
    mode: PecMode,
) -> Result<(), AllocError> {
    for code in 0..=255u8 {
        if let (Some(tally), Some(entry)) = (tallies.command(place, code), standard(code)) {
            let shape = tally.shape(code, mode);
            if shape == entry.shape {
                text.put("# ")?;
                text.put_byte(code)?;
                text.put(" ")?;
                text.put(entry.name.as_str())?;
                text.put(": ")?;
                put_fitting(text, shape, tally, mode)?;
                text.put("\n")?;
            }
        }
    }
    Ok(())
}

/// Appends how many packets of a command have the forms of a shape, and of how many.
fn put_fitting(
    text: &mut Text,
    shape: Shape,
    tally: &CommandTally,
    mode: PecMode,
) -> Result<(), AllocError> {
    text.put_number(tally.fitting(shape, mode))?;
    text.put(" of ")?;
    text.put_count(tally.legs() as u64, "packet")
}

fn pec_word(mode: PecMode) -> &'static str {
    match mode {
        PecMode::Off => "off",
        PecMode::On => "on",
        PecMode::Optional => "optional",
    }
}

fn form_word(form: Option<Form>) -> &'static str {
    match form {
        None => "none",
        Some(Form::Zero) => "zero",
        Some(Form::One) => "one",
        Some(Form::Two) => "two",
        Some(Form::Four) => "four",
        Some(Form::Eight) => "eight",
        Some(Form::Block) => "block",
    }
}
