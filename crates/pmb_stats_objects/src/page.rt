//! Which page it is.
//!
//! Its rows: `tests/rows/stats.txt`, pages.

ghost use Rattle.std.specs.Prelude.{◌≡◌, ◌+◌, ◌<◌, ◌≤◌, ◌++◌, Some, codes, length, slice_get};
ghost use Rattle.pmb_json_text.specs.declared.item_order.ItemOrder.TheVariants.{First};
ghost use Rattle.pmb_json_text.specs.Member.{members_text, place_after};
ghost use Rattle.pmb_json_text.specs.Spelling.{comma};
ghost use Rattle.pmb_observed.specs.Spot.{page_keys};
ghost use Rattle.pmb_stats_objects.specs.Pages.{page_member};

use crate::member::append_comma;
use arrayvec::ArrayVec;
use pmb_json_text::{ItemOrder, NUMBER_MEMBER, begin, null_member, number_member, text_member};
use pmb_observed::PageKey;

/// The most bytes of a page's begin.
pub(crate) const PAGE: usize = 2 + NUMBER_MEMBER;

/// How many pages a device has beside those that it counts: all, an unknown one, none.
pub(crate) const OTHER_PAGES: usize = 3;

/// The page at an index, of those of a device with so many, in the order of output.
pub(crate) fn page_at(pages: u8, index: usize) -> PageKey
    requires { index < pages + OTHER_PAGES }
    ensures { slice_get (page_keys pages) index ≡ Some result }
{
    let counted = usize::from(pages);
    if index < counted {
        PageKey::OnPage(index as u8)
    } else if index == counted {
        PageKey::AllPages
    } else if index == counted + 1 {
        PageKey::UnknownPage
    } else {
        PageKey::Unpaged
    }
}

/// Begins a page as an item of a list, and returns the place of its first list.
pub(crate) fn begin_page<const N: usize>(
    out: &mut ArrayVec<u8, N>,
    place: ItemOrder,
    page: PageKey,
) -> ItemOrder
    requires room { length out.old.items + PAGE ≤ N }
    ensures begun { out.new.items ≡ out.old.items ++ (comma place ++ (codes "{" ++ members_text First (page_member page))) }
    ensures place { result ≡ place_after First (page_member page) }
    ensures short { length out.new.items ≤ length out.old.items + PAGE }
{
    append_comma(out, place);
    begin(out);
    append_page(out, page)
}

/// Appends which page it is, and returns the place after it.
fn append_page<const N: usize>(out: &mut ArrayVec<u8, N>, page: PageKey) -> ItemOrder
    requires room { length out.old.items + NUMBER_MEMBER ≤ N }
    ensures member { out.new.items ≡ out.old.items ++ members_text First (page_member page) }
    ensures place { result ≡ place_after First (page_member page) }
    ensures short { length out.new.items ≤ length out.old.items + NUMBER_MEMBER }
{
    match page {
        PageKey::OnPage(page) => number_member(out, ItemOrder::First, "page", u64::from(page)),
        PageKey::AllPages => text_member(out, ItemOrder::First, "page", b"all"),
        PageKey::UnknownPage => null_member(out, ItemOrder::First, "page"),
        PageKey::Unpaged => return ItemOrder::First,
    }
    ItemOrder::Later
}
