//! Hints for forms that do not go together.
//!
//! Its rows: `tests/rows/hints.txt`.

use crate::coded::code_of;
use crate::draft::Draft;
use crate::keyed::Keyed;
use crate::words::is_among;
use pmb_command::{Entry, Form, Kind, standard};
use pmb_value::{NumberFormat, VidTable, VoutFormat};
use std::fmt::Write;
use toml::Table;

/// The parts of a command, in the words of a profile.
#[derive(Clone, Copy)]
pub(crate) struct Parts<'a> {
    pub(crate) code: i64,
    pub(crate) write: &'a str,
    pub(crate) read: &'a str,
    call: &'a str,
    kind: &'a str,
    pub(crate) paged: bool,
}

/// The word of a form.
fn form_word(form: Option<Form>) -> &'static str {
    match form {
        None => "none",
        Some(Form::Zero) => "zero",
        Some(Form::One) => "one",
        Some(Form::Two) => "two",
        Some(Form::Four) => "four",
        Some(Form::Eight) => "eight",
        Some(Form::Block) => "block",
    }
}

/// The word of a kind.
fn kind_word(kind: &Kind) -> &'static str {
    match kind {
        Kind::Raw => "raw",
        Kind::Number(format) => number_word(format),
        Kind::Vout => "vout",
        Kind::VoutSigned => "vout_signed",
        Kind::Status => "status",
        Kind::Text => "text",
    }
}

/// The word of a kind of numbers in a format.
fn number_word(format: &NumberFormat) -> &'static str {
    match format {
        NumberFormat::Linear11 | NumberFormat::Linear11Fixed(_) => "linear11",
        NumberFormat::Word(VoutFormat::Unsigned(_)) => "ulinear16",
        NumberFormat::Word(VoutFormat::Signed(_)) => "slinear16",
        NumberFormat::Word(VoutFormat::Direct(_)) => "direct",
        NumberFormat::Half => "half",
        NumberFormat::Vid(table) => vid_word(*table),
    }
}

/// The word of a kind of VID codes.
fn vid_word(table: VidTable) -> &'static str {
    match table {
        VidTable::Vr11 => "vid:vr11",
        VidTable::Vr12 => "vid:vr12",
        VidTable::Vr13 => "vid:vr13",
        VidTable::Imvp9 => "vid:imvp9",
        VidTable::Amd625mv => "vid:amd625mv",
        VidTable::Nvidia195mv => "vid:nvidia195mv",
    }
}

/// The parts of the standard command of a code, if there is one.
fn standard_parts(code: i64) -> Option<Parts<'static>> {
    match standard(u8::try_from(code).ok()?) {
        Some(entry) => Some(entry_parts(code, &entry)),
        None => None,
    }
}

/// The parts of a command.
fn entry_parts(code: i64, entry: &Entry) -> Parts<'static> {
    Parts {
        code,
        write: form_word(entry.shape.write),
        read: form_word(entry.shape.read),
        call: form_word(entry.shape.call),
        kind: kind_word(&entry.kind),
        paged: entry.paged,
    }
}

/// The parts of a command's table before its keys say more: those of the standard command that it
/// names, or with a code none.
fn first_parts(table: &Table) -> Option<Parts<'static>> {
    let code = code_of(table)?;
    if table.get("code").is_none() {
        return standard_parts(code);
    }
    Some(Parts {
        code,
        write: "none",
        read: "none",
        call: "none",
        kind: "raw",
        paged: false,
    })
}

/// The kind of a command's table.
fn kind_of(keyed: Keyed<'_>) -> Option<&str> {
    match keyed.text("kind") {
        Some(kind) => Some(kind),
        None => Some(first_parts(keyed.table)?.kind),
    }
}

/// Whether the kind of a command's table is one of some.
pub(crate) fn is_of_kind(keyed: Keyed<'_>, kinds: &[&str]) -> bool {
    match kind_of(keyed) {
        Some(kind) => is_among(kinds, kind),
        None => false,
    }
}

/// The parts of a command's table.
pub(crate) fn parts_of(keyed: Keyed<'_>) -> Option<Parts<'_>> {
    let first = first_parts(keyed.table)?;
    let paged = match keyed.get("paged") {
        Some(value) => value.as_bool()?,
        None => first.paged,
    };
    Some(Parts {
        code: first.code,
        write: keyed.text("write").unwrap_or(first.write),
        read: keyed.text("read").unwrap_or(first.read),
        call: keyed.text("call").unwrap_or(first.call),
        kind: keyed.text("kind").unwrap_or(first.kind),
        paged,
    })
}

impl Parts<'_> {
    /// The key of the form in which the command has its value, and the form: read, or else written.
    pub(crate) fn value_form(&self) -> (&'static str, &str) {
        if self.read == "none" && self.write != "none" {
            ("write", self.write)
        } else {
            ("read", self.read)
        }
    }

    /// Whether it has a form at all.
    fn has_form(&self) -> bool {
        self.write != "none" || self.read != "none" || self.call != "none"
    }

    /// Whether it is written and read in one form, or written without data.
    fn ways_agree(&self) -> bool {
        self.write == "none"
            || self.write == "zero"
            || self.read == "none"
            || self.write == self.read
    }

    /// The key of its first form that is not that of another command, and not none, if there is one.
    fn other_form(&self, other: &Parts<'_>) -> Option<&'static str> {
        if self.write != "none" && self.write != other.write {
            Some("write")
        } else if self.read != "none" && self.read != other.read {
            Some("read")
        } else if self.call != "none" && self.call != other.call {
            Some("call")
        } else {
            None
        }
    }
}

/// Writes which parts of a command do not go together.
pub(crate) fn form_hint(keyed: Keyed<'_>, lines: &mut Draft) -> bool {
    match parts_of(keyed) {
        Some(parts) => ways_hint(keyed, &parts, lines)
            || kept_hint(keyed, &parts, lines)
            || kind_hint(keyed, &parts, lines),
        None => false,
    }
}

/// Writes that a command has no form, or two for one value.
fn ways_hint(keyed: Keyed<'_>, parts: &Parts<'_>, lines: &mut Draft) -> bool {
    if !parts.has_form() {
        let _ = lines.text.try_push_str(
            "  write, read and call are all \"none\": one of them is needed, and a command with a \
             code has only those that its keys give\n",
        );
        return true;
    }
    if !parts.ways_agree() {
        keyed.stand_at_first(&["write", "read"], lines);
        let (write, read) = (parts.write, parts.read);
        let _ = write!(
            lines.text,
            "  write = \"{write}\", read = \"{read}\": these have to be the same, unless write is \
             \"zero\" or one of them is \"none\"\n"
        );
        return true;
    }
    false
}

/// Writes what PAGE, CLEAR_FAULTS, VOUT_MODE, COEFFICIENTS and STATUS_CML keep of the standard.
fn kept_hint(keyed: Keyed<'_>, parts: &Parts<'_>, lines: &mut Draft) -> bool {
    let name = match parts.code {
        0x00 => "PAGE",
        0x03 => "CLEAR_FAULTS",
        0x20 => "VOUT_MODE",
        0x30 => "COEFFICIENTS",
        0x7e => "STATUS_CML",
        _ => return false,
    };
    let Some(kept) = standard_parts(parts.code) else {
        return false;
    };
    if let Some(key) = parts.other_form(&kept) {
        keyed.stand_at(key, lines);
        let (write, read, call) = (kept.write, kept.read, kept.call);
        let _ = write!(
            lines.text,
            "  {name} keeps the standard's forms, or has \"none\" in their place: write = \"{write}\", \
             read = \"{read}\", call = \"{call}\"\n"
        );
        return true;
    }
    if parts.code != 0x7e && parts.kind != "raw" {
        keyed.stand_at("kind", lines);
        let kind = parts.kind;
        let _ = write!(
            lines.text,
            "  kind = \"{kind}\": {name} is always \"raw\"\n"
        );
        return true;
    }
    if parts.code == 0x00 && parts.paged {
        keyed.stand_at("paged", lines);
        let _ = lines
            .text
            .try_push_str("  paged = true: PAGE has one value for all pages\n");
        return true;
    }
    false
}

/// Writes a form that its kind can't have.
fn kind_hint(keyed: Keyed<'_>, parts: &Parts<'_>, lines: &mut Draft) -> bool {
    let (key, form) = parts.value_form();
    let kind = parts.kind;
    let needed = match kind {
        "raw" | "text" => return false,
        "status" => "status bits are \"one\" or \"two\" bytes",
        _ => "such a number has \"two\" bytes",
    };
    keyed.stand_at_first(&["kind", key], lines);
    let _ = write!(
        lines.text,
        "  kind = \"{kind}\", {key} = \"{form}\": {needed}, and kind = \"raw\" goes with each form\n"
    );
    true
}
