//! What a written leg says, with the reply to it, as far as forms depend on that.
//!
//! Its rows: `tests/rows/scan.txt`.

use pmb_command::Form;

/// More bytes than any form has, with a packet error code: so many are counted at most.
const MOST_BYTES: u16 = 300;

/// Bytes of a leg: how many, and the first, which is the count of a block.
#[derive(Clone, Copy, Debug, PartialEq, Eq)]
pub(crate) struct LegBytes {
    count: u16,
    first: u8,
}

impl LegBytes {
    /// None.
    pub(crate) const NONE: LegBytes = LegBytes { count: 0, first: 0 };

    /// With one byte more.
    pub(crate) fn with(self, byte: u8) -> LegBytes {
        if self.count == 0 {
            return LegBytes {
                count: 1,
                first: byte,
            };
        }
        if self.count < MOST_BYTES {
            return LegBytes {
                count: self.count + 1,
                first: self.first,
            };
        }
        self
    }

    /// Whether there is none.
    pub(crate) fn is_empty(self) -> bool {
        self.count == 0
    }

    /// The first, or 0 where there is none.
    pub(crate) fn first(self) -> u8 {
        self.first
    }

    /// Whether they are data in a form, and so many bytes more.
    pub(crate) fn have_form(self, form: Form, over: u16) -> bool {
        match form.length() {
            Some(length) => self.count as usize == length + over as usize,
            None => self.count > 0
                && self.count as usize == self.first as usize + 1 + over as usize,
        }
    }
}

/// What a leg says after the code of its command.
#[derive(Clone, Copy, Debug, PartialEq, Eq)]
pub(crate) enum Said {
    /// It is not whole.
    Cut,
    /// These bytes are written.
    Wrote(LegBytes),
    /// After these bytes others are read.
    Asked { sent: LegBytes, reply: LegBytes },
}

/// A written leg whose address and code were acknowledged.
#[derive(Clone, Copy, Debug, PartialEq, Eq)]
pub(crate) struct Leg {
    pub(crate) address: u8,
    pub(crate) code: u8,
    pub(crate) said: Said,
    /// Whether its last byte is the packet error code of those before it.
    pub(crate) is_checked: bool,
}

impl Leg {
    /// Whether it is written in a form, with a packet error code or without.
    pub(crate) fn writes(&self, form: Form, checked: bool) -> bool {
        match self.said {
            Said::Wrote(sent) => self.allows(checked) && sent.have_form(form, u16::from(checked)),
            Said::Cut | Said::Asked { .. } => false,
        }
    }

    /// Whether it is read in a form.
    pub(crate) fn reads(&self, form: Form, checked: bool) -> bool {
        match self.said {
            Said::Asked { sent, reply } => {
                self.allows(checked) && sent.is_empty() && reply.have_form(form, u16::from(checked))
            }
            Said::Cut | Said::Wrote(_) => false,
        }
    }

    /// Whether it is called in a form.
    pub(crate) fn calls(&self, form: Form, checked: bool) -> bool {
        match self.said {
            Said::Asked { sent, reply } => {
                self.allows(checked)
                    && sent.have_form(form, 0)
                    && reply.have_form(form, u16::from(checked))
            }
            Said::Cut | Said::Wrote(_) => false,
        }
    }

    /// The one byte that it writes or reads, where it is one.
    pub(crate) fn byte(&self) -> Option<u8> {
        if self.writes(Form::One, false) || self.writes(Form::One, true) {
            if let Said::Wrote(sent) = self.said {
                return Some(sent.first());
            }
        }
        if self.reads(Form::One, false) || self.reads(Form::One, true) {
            if let Said::Asked { reply, .. } = self.said {
                return Some(reply.first());
            }
        }
        None
    }

    /// Whether it writes.
    pub(crate) fn is_write(&self) -> bool {
        matches!(self.said, Said::Wrote(_))
    }

    fn allows(&self, checked: bool) -> bool {
        self.is_checked || !checked
    }
}
