//! Which addresses speak no PMBus, as it was chosen.
//!
//! Its rows: `tests/rows/json_objects.txt`, others.

ghost use Rattle.std.specs.Prelude.{◌≡◌, Some};
ghost use Rattle.pmb_fact_stream.specs.Choice.{choice_data, gives_others};
ghost use Rattle.pmb_fact_stream.specs.Others.{if_ignored, is_ignored};

use crate::choice::Choice;

impl<'c> Choice<'c> {
    /// An address that speaks no PMBus; `None` for any other.
    #[inline]
    pub(crate) fn if_ignored(&self, addr: u8) -> Option<u8>
        ensures { result ≡ if_ignored (choice_data self.now).ignored (Some addr) }
    {
        if self.ignores(addr) { Some(addr) } else { None }
    }

    /// Whether an address speaks no PMBus.
    #[inline]
    pub(crate) fn ignores(&self, addr: u8) -> bool
        ensures { result ≡ is_ignored (choice_data self.now).ignored addr }
    {
        match self.ignored {
            Some(addresses) => addresses.contains(addr),
            None => false,
        }
    }

    /// Whether the last objects tell how many others came.
    pub(crate) fn gives_others(&self) -> bool
        ensures { result ≡ gives_others (choice_data self.now) }
    {
        self.ignored.is_some()
    }
}
