//! The pages of a device.
//!
//! A page may have more than waits at most, so it goes out item by item. What is empty is left out:
//! whether a page has anything is asked before it begins.
//!
//! Its rows: `tests/rows/stats.txt`, pages.

ghost use Rattle.std.specs.Prelude.{◌≡◌, IsTrue, List, OnOk, codes, map};
ghost use Rattle.pmb_facts.specs.Fact.{FactData};
ghost use Rattle.pmb_io.specs.Calls.{WriterTells};
ghost use Rattle.pmb_io.specs.Outgoing.{PutsText};
ghost use Rattle.pmb_json_text.specs.declared.item_order.ItemOrder.TheVariants.{Later};
ghost use Rattle.pmb_json_text.specs.Member.{array_text, is_key, members_text};
ghost use Rattle.pmb_keeper.specs.Setting.{Setting};
ghost use Rattle.pmb_observed.specs.Observing.{observations};
ghost use Rattle.pmb_observed.specs.Spot.{spot_at};
ghost use Rattle.pmb_observed.specs.Told.{code_bits, code_numbers, page_bits, page_numbers, spot_bits, spot_numbers};
ghost use Rattle.pmb_stats_objects.specs.Members.{list_member};
ghost use Rattle.pmb_stats_objects.specs.Pages.{bit_item, numbers_item, page_item, page_items};
ghost use Rattle.pmb_stats_objects.specs.machine.Standing.{PagesStand};
ghost use Rattle.pmb_stats_objects.specs.machine.Written.{PutsItems, PutsMembers, has_any};

use crate::items::{has_bit, has_number, put_bits, put_command_numbers};
use crate::page::{OTHER_PAGES, PAGE, begin_page, page_at};
use pmb_decimal::Digits;
use pmb_io::laws::texts_add_up;
use pmb_io::{RunFault, Sink, Waiting, make_room, put};
use pmb_json_text::{ARRAY_MEMBER, ItemOrder, begin_array};
use pmb_observed::{PageKey, PhaseKey, Spot, phase_at, phase_count, phases_of};
use pmb_stats::Statistics;
use pmb_table::DeviceProfile;

/// How many command codes there are.
const CODES: usize = 256;

/// A device of the profile, whose pages are put out.
#[derive(Clone, Copy)]
pub(crate) struct DevicePages<'s, 'p> {
    pub stats: &'s Statistics<'p>,
    pub profile: &'s DeviceProfile,
    pub addr: u8,
    /// How many digits a number has after the point at most.
    pub digits: Digits,
}

impl DevicePages<'_, '_> {
    /// A command of the device, on a page, in a phase.
    fn spot(&self, page: PageKey, code: u8, phase: PhaseKey) -> Spot
        ensures { result ≡ spot_at self.now.addr code page phase }
    {
        Spot {
            addr: self.addr,
            code,
            page,
            phase,
        }
    }

    /// Whether a command has bits that were read set on a page, in a phase.
    fn has_bits_at(&self, page: PageKey, code: u8, phase: PhaseKey) -> bool
        ensures { (setting : Setting) (facts : List FactData) → PagesStand self.now setting facts
            → result ≡ has_any (spot_bits setting.profile (observations setting facts) self.now.addr page code phase) }
    {
        match self.stats.register(self.spot(page, code, phase)) {
            Some(bits) => has_bit(bits),
            None => false,
        }
    }

    /// Whether a command has numbers on a page, in a phase.
    fn has_numbers_at(&self, page: PageKey, code: u8, phase: PhaseKey) -> bool
        ensures { (setting : Setting) (facts : List FactData) → PagesStand self.now setting facts
            → result ≡ has_any (spot_numbers setting.profile (observations setting facts) self.now.addr page code phase) }
    {
        match self.stats.numbers(self.spot(page, code, phase)) {
            Some(history) => has_number(history),
            None => false,
        }
    }

    /// Whether a command has bits that were read set on a page, in any phase.
    fn has_code_bits(&self, page: PageKey, code: u8) -> bool
        ensures { (setting : Setting) (facts : List FactData) → PagesStand self.now setting facts
            → result ≡ has_any (code_bits setting.profile (observations setting facts) self.now.addr page code) }
    {
        let Some(command) = self.profile.command(code) else {
            return false;
        };
        let phases = phases_of(self.profile, command);
        for index in 0..phase_count(phases) {
            if self.has_bits_at(page, code, phase_at(phases, index)) {
                return true;
            }
        }
        false
    }

    /// Whether a command has numbers on a page, in any phase.
    fn has_code_numbers(&self, page: PageKey, code: u8) -> bool
        ensures { (setting : Setting) (facts : List FactData) → PagesStand self.now setting facts
            → result ≡ has_any (code_numbers setting.profile (observations setting facts) self.now.addr page code) }
    {
        let Some(command) = self.profile.command(code) else {
            return false;
        };
        let phases = phases_of(self.profile, command);
        for index in 0..phase_count(phases) {
            if self.has_numbers_at(page, code, phase_at(phases, index)) {
                return true;
            }
        }
        false
    }

    /// Whether a page has bits that were read set.
    fn has_bits(&self, page: PageKey) -> bool
        ensures { (setting : Setting) (facts : List FactData) → PagesStand self.now setting facts
            → result ≡ has_any (page_bits setting.profile (observations setting facts) self.now.addr page) }
    {
        for code in 0..CODES {
            if self.has_code_bits(page, code as u8) {
                return true;
            }
        }
        false
    }

    /// Whether a page has numbers.
    fn has_numbers(&self, page: PageKey) -> bool
        ensures { (setting : Setting) (facts : List FactData) → PagesStand self.now setting facts
            → result ≡ has_any (page_numbers setting.profile (observations setting facts) self.now.addr page) }
    {
        for code in 0..CODES {
            if self.has_code_numbers(page, code as u8) {
                return true;
            }
        }
        false
    }

    /// Whether a page has anything.
    fn has_page(&self, page: PageKey) -> bool
        ensures { (setting : Setting) (facts : List FactData) → PagesStand self.now setting facts
            → result ≡ has_any (page_item self.now.digits setting.profile (observations setting facts) self.now.addr page) }
    {
        self.has_bits(page) || self.has_numbers(page)
    }

    /// Whether any page has anything.
    fn has_pages(&self) -> bool
        ensures { (setting : Setting) (facts : List FactData) → PagesStand self.now setting facts
            → result ≡ has_any (page_items self.now.digits setting.profile (observations setting facts) self.now.addr) }
    {
        let pages = self.profile.pages();
        for index in 0..usize::from(pages) + OTHER_PAGES {
            if self.has_page(page_at(pages, index)) {
                return true;
            }
        }
        false
    }

    /// Puts out the bits of a command on a page, in a phase.
    fn put_bits_at<W: Sink>(
        &self,
        page: PageKey,
        code: u8,
        phase: PhaseKey,
        place: &mut ItemOrder,
        waiting: &mut Waiting,
        writer: &mut W,
    ) -> Result<(), RunFault>
        ensures puts { (setting : Setting) (facts : List FactData) → PagesStand self.now setting facts
            → OnOk result (PutsItems (map bit_item (spot_bits setting.profile (observations setting facts) self.now.addr page code phase))
            (W.told writer.old).held waiting.old.items place.old (W.told writer.new).held waiting.new.items place.new) }
        ensures failed { WriterTells (W.told writer.old) (W.told writer.new) result }
    {
        texts_add_up();
        let Some(bits) = self.stats.register(self.spot(page, code, phase)) else {
            return Ok(());
        };
        let Some(command) = self.profile.command(code) else {
            return Ok(());
        };
        put_bits(command, phase, bits, 16, place, waiting, writer)
    }

    /// Puts out the numbers of a command on a page, in a phase.
    fn put_numbers_at<W: Sink>(
        &self,
        page: PageKey,
        code: u8,
        phase: PhaseKey,
        place: &mut ItemOrder,
        waiting: &mut Waiting,
        writer: &mut W,
    ) -> Result<(), RunFault>
        ensures puts { (setting : Setting) (facts : List FactData) → PagesStand self.now setting facts
            → OnOk result (PutsItems (map (numbers_item self.now.digits) (spot_numbers setting.profile (observations setting facts) self.now.addr page code phase))
            (W.told writer.old).held waiting.old.items place.old (W.told writer.new).held waiting.new.items place.new) }
        ensures failed { WriterTells (W.told writer.old) (W.told writer.new) result }
    {
        texts_add_up();
        let Some(history) = self.stats.numbers(self.spot(page, code, phase)) else {
            return Ok(());
        };
        let Some(command) = self.profile.command(code) else {
            return Ok(());
        };
        put_command_numbers(command, phase, self.digits, history, place, waiting, writer)
    }

    /// Puts out the bits of a command on a page, phase by phase.
    fn put_code_bits<W: Sink>(
        &self,
        page: PageKey,
        code: u8,
        place: &mut ItemOrder,
        waiting: &mut Waiting,
        writer: &mut W,
    ) -> Result<(), RunFault>
        ensures puts { (setting : Setting) (facts : List FactData) → PagesStand self.now setting facts
            → OnOk result (PutsItems (map bit_item (code_bits setting.profile (observations setting facts) self.now.addr page code))
            (W.told writer.old).held waiting.old.items place.old (W.told writer.new).held waiting.new.items place.new) }
        ensures failed { WriterTells (W.told writer.old) (W.told writer.new) result }
    {
        texts_add_up();
        let Some(command) = self.profile.command(code) else {
            return Ok(());
        };
        let phases = phases_of(self.profile, command);
        for index in 0..phase_count(phases) {
            self.put_bits_at(page, code, phase_at(phases, index), place, waiting, writer)?;
        }
        Ok(())
    }

    /// Puts out the numbers of a command on a page, phase by phase.
    fn put_code_numbers<W: Sink>(
        &self,
        page: PageKey,
        code: u8,
        place: &mut ItemOrder,
        waiting: &mut Waiting,
        writer: &mut W,
    ) -> Result<(), RunFault>
        ensures puts { (setting : Setting) (facts : List FactData) → PagesStand self.now setting facts
            → OnOk result (PutsItems (map (numbers_item self.now.digits) (code_numbers setting.profile (observations setting facts) self.now.addr page code))
            (W.told writer.old).held waiting.old.items place.old (W.told writer.new).held waiting.new.items place.new) }
        ensures failed { WriterTells (W.told writer.old) (W.told writer.new) result }
    {
        texts_add_up();
        let Some(command) = self.profile.command(code) else {
            return Ok(());
        };
        let phases = phases_of(self.profile, command);
        for index in 0..phase_count(phases) {
            self.put_numbers_at(page, code, phase_at(phases, index), place, waiting, writer)?;
        }
        Ok(())
    }

    /// Puts out the bits of a page.
    fn put_page_bits<W: Sink>(
        &self,
        page: PageKey,
        place: &mut ItemOrder,
        waiting: &mut Waiting,
        writer: &mut W,
    ) -> Result<(), RunFault>
        ensures puts { (setting : Setting) (facts : List FactData) → PagesStand self.now setting facts
            → OnOk result (PutsItems (map bit_item (page_bits setting.profile (observations setting facts) self.now.addr page))
            (W.told writer.old).held waiting.old.items place.old (W.told writer.new).held waiting.new.items place.new) }
        ensures failed { WriterTells (W.told writer.old) (W.told writer.new) result }
    {
        texts_add_up();
        for code in 0..CODES {
            self.put_code_bits(page, code as u8, place, waiting, writer)?;
        }
        Ok(())
    }

    /// Puts out the numbers of a page.
    fn put_page_numbers<W: Sink>(
        &self,
        page: PageKey,
        place: &mut ItemOrder,
        waiting: &mut Waiting,
        writer: &mut W,
    ) -> Result<(), RunFault>
        ensures puts { (setting : Setting) (facts : List FactData) → PagesStand self.now setting facts
            → OnOk result (PutsItems (map (numbers_item self.now.digits) (page_numbers setting.profile (observations setting facts) self.now.addr page))
            (W.told writer.old).held waiting.old.items place.old (W.told writer.new).held waiting.new.items place.new) }
        ensures failed { WriterTells (W.told writer.old) (W.told writer.new) result }
    {
        texts_add_up();
        for code in 0..CODES {
            self.put_code_numbers(page, code as u8, place, waiting, writer)?;
        }
        Ok(())
    }

    /// Puts out the list of a page's bits, if it has any.
    fn put_bits_list<W: Sink>(
        &self,
        page: PageKey,
        place: &mut ItemOrder,
        waiting: &mut Waiting,
        writer: &mut W,
    ) -> Result<(), RunFault>
        ensures puts { (setting : Setting) (facts : List FactData) → PagesStand self.now setting facts
            → OnOk result (PutsMembers (list_member (codes "bits") (map bit_item (page_bits setting.profile (observations setting facts) self.now.addr page)))
            (W.told writer.old).held waiting.old.items place.old (W.told writer.new).held waiting.new.items place.new) }
        ensures failed { WriterTells (W.told writer.old) (W.told writer.new) result }
    {
        texts_add_up();
        if !self.has_bits(page) {
            return Ok(());
        }
        begin_list("bits", *place, waiting, writer)?;
        *place = ItemOrder::Later;
        let mut first = ItemOrder::First;
        self.put_page_bits(page, &mut first, waiting, writer)?;
        put(waiting, b"]", writer)
    }

    /// Puts out the list of a page's numbers, if it has any.
    fn put_numbers_list<W: Sink>(
        &self,
        page: PageKey,
        place: &mut ItemOrder,
        waiting: &mut Waiting,
        writer: &mut W,
    ) -> Result<(), RunFault>
        ensures puts { (setting : Setting) (facts : List FactData) → PagesStand self.now setting facts
            → OnOk result (PutsMembers (list_member (codes "numbers") (map (numbers_item self.now.digits) (page_numbers setting.profile (observations setting facts) self.now.addr page)))
            (W.told writer.old).held waiting.old.items place.old (W.told writer.new).held waiting.new.items place.new) }
        ensures failed { WriterTells (W.told writer.old) (W.told writer.new) result }
    {
        texts_add_up();
        if !self.has_numbers(page) {
            return Ok(());
        }
        begin_list("numbers", *place, waiting, writer)?;
        *place = ItemOrder::Later;
        let mut first = ItemOrder::First;
        self.put_page_numbers(page, &mut first, waiting, writer)?;
        put(waiting, b"]", writer)
    }

    /// Puts out a page, if it has anything.
    fn put_page<W: Sink>(
        &self,
        page: PageKey,
        place: &mut ItemOrder,
        waiting: &mut Waiting,
        writer: &mut W,
    ) -> Result<(), RunFault>
        ensures puts { (setting : Setting) (facts : List FactData) → PagesStand self.now setting facts
            → OnOk result (PutsItems (page_item self.now.digits setting.profile (observations setting facts) self.now.addr page)
            (W.told writer.old).held waiting.old.items place.old (W.told writer.new).held waiting.new.items place.new) }
        ensures failed { WriterTells (W.told writer.old) (W.told writer.new) result }
    {
        texts_add_up();
        if !self.has_page(page) {
            return Ok(());
        }
        make_room(waiting, PAGE, writer)?;
        let mut list = begin_page(waiting, *place, page);
        self.put_bits_list(page, &mut list, waiting, writer)?;
        self.put_numbers_list(page, &mut list, waiting, writer)?;
        *place = ItemOrder::Later;
        put(waiting, b"}", writer)
    }

    /// Puts out the pages.
    fn put_each_page<W: Sink>(
        &self,
        place: &mut ItemOrder,
        waiting: &mut Waiting,
        writer: &mut W,
    ) -> Result<(), RunFault>
        ensures puts { (setting : Setting) (facts : List FactData) → PagesStand self.now setting facts
            → OnOk result (PutsItems (page_items self.now.digits setting.profile (observations setting facts) self.now.addr)
            (W.told writer.old).held waiting.old.items place.old (W.told writer.new).held waiting.new.items place.new) }
        ensures failed { WriterTells (W.told writer.old) (W.told writer.new) result }
    {
        texts_add_up();
        let pages = self.profile.pages();
        for index in 0..usize::from(pages) + OTHER_PAGES {
            self.put_page(page_at(pages, index), place, waiting, writer)?;
        }
        Ok(())
    }

    /// Puts out the list of the pages, if any has anything, in an object that has members.
    pub fn put_pages<W: Sink>(&self, waiting: &mut Waiting, writer: &mut W) -> Result<(), RunFault>
        ensures puts { (setting : Setting) (facts : List FactData) → PagesStand self.now setting facts
            → OnOk result (PutsText (W.told writer.old).held waiting.old.items (W.told writer.new).held waiting.new.items
            (members_text Later (list_member (codes "pages") (page_items self.now.digits setting.profile (observations setting facts) self.now.addr)))) }
        ensures failed { WriterTells (W.told writer.old) (W.told writer.new) result }
    {
        texts_add_up();
        if !self.has_pages() {
            return Ok(());
        }
        begin_list("pages", ItemOrder::Later, waiting, writer)?;
        let mut first = ItemOrder::First;
        self.put_each_page(&mut first, waiting, writer)?;
        put(waiting, b"]", writer)
    }
}

/// Begins a member whose value is a list.
fn begin_list<W: Sink>(
    key: &str,
    place: ItemOrder,
    waiting: &mut Waiting,
    writer: &mut W,
) -> Result<(), RunFault>
    requires { IsTrue (is_key key.now) }
    ensures puts { OnOk result (PutsText (W.told writer.old).held waiting.old.items (W.told writer.new).held waiting.new.items (array_text place key.now)) }
    ensures failed { WriterTells (W.told writer.old) (W.told writer.new) result }
{
    texts_add_up();
    make_room(waiting, ARRAY_MEMBER, writer)?;
    begin_array(waiting, place, key);
    Ok(())
}
