//! A command of a device, and what a profile says of it.

ghost use Rattle.std.specs.Prelude.{◌≡◌, ◌≤◌, IfSome, Some, length, map, option_map};
ghost use Rattle.pmb_command.specs.Entry.{entry_parts};
ghost use Rattle.pmb_command.specs.Names.{IsUnit};
ghost use Rattle.pmb_command.specs.Parts.{initial_on};
ghost use Rattle.pmb_command.specs.Standard.{standard_command};
ghost use Rattle.pmb_command.specs.Units.{standard_unit};
ghost use Rattle.pmb_keys.specs.CommandView.{bit_parts, command_parts, initial_parts};

use arrayvec::ArrayString;
use pmb_command::{Entry, Name, standard_unit};

/// The bytes that a register begins with.
#[derive(Debug, Drop)]
pub enum Initial {
    /// The same on each page.
    Same(Vec<u8>),
    /// An item for each page, from page 0 on.
    Each(Vec<Vec<u8>>),
}

impl Initial {
    /// The bytes on a page, where there are some.
    pub fn on(&self, page: u8) -> Option<&[u8]>
        ensures { option_map (λ bytes. bytes.now) result ≡ initial_on page (Some (initial_parts self.now)) }
    {
        match self {
            Initial::Same(bytes) => Some(bytes.as_slice()),
            Initial::Each(items) => match items.get(usize::from(page)) {
                Some(bytes) => Some(bytes.as_slice()),
                None => None,
            },
        }
    }
}

/// A bit of a status register, and the name that a profile gives it.
#[derive(Clone, Copy, Debug, Default)]
pub struct NamedBit {
    /// Counted from 0 at the lowest.
    pub bit: u8,
    /// 1 to 32 of A to Z, 0 to 9 and `_`.
    pub name: Name,
}

/// A command of a device, and what a profile says of it.
#[derive(Debug, Drop)]
pub struct Command {
    pub entry: Entry,
    /// What its register begins with, where the profile says.
    pub initial: Option<Initial>,
    /// The unit of its numbers, where they have one.
    pub unit: Option<ArrayString<16>>,
    /// The bits of its status register that the profile names, from the lowest up; `None` where it
    /// names none.
    pub bits: Option<Vec<NamedBit>>,
    /// Whether the profile says that it has a value for each phase.
    pub phased: bool,
}

/// The unit of the standard command with a code.
pub(crate) fn unit_of_code(code: u8) -> Option<ArrayString<16>>
    ensures unit { option_map (λ unit. unit.bytes) result ≡ standard_unit code }
    ensures fits { IfSome result (λ unit. IsUnit unit.bytes) }
{
    let text = standard_unit(code)?;
    let mut unit = ArrayString::new();
    unit.push_str(text);
    Some(unit)
}

impl Command {
    /// A standard command, of which the profile says nothing.
    pub fn standard(entry: Entry) -> Command
        ensures { command_parts result ≡ standard_command (entry_parts entry) }
    {
        Command {
            entry,
            initial: None,
            unit: unit_of_code(entry.code),
            bits: None,
            phased: false,
        }
    }

    /// The unit of its numbers, where they have one.
    pub fn unit(&self) -> Option<&str>
        ensures unit { option_map (λ unit. unit.now) result ≡ (command_parts self.now).unit }
        ensures short { IfSome result (λ unit. length unit.now ≤ 16) }
    {
        match &self.unit {
            Some(unit) => Some(unit.as_str()),
            None => None,
        }
    }

    /// The bits of its status register that the profile names, from the lowest up.
    pub fn bits(&self) -> &[NamedBit]
        ensures { map bit_parts result.now ≡ (command_parts self.now).bits }
    {
        match &self.bits {
            Some(bits) => bits.as_slice(),
            None => &[],
        }
    }
}
