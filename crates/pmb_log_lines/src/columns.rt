//! The columns before what a line says.
//!
//! Its rows: `tests/rows/log.txt`; `tests_json`, `src/log_lines/`.

ghost use Rattle.std.specs.Prelude.{◌≡◌, ◌+◌, ◌≤◌, length, option_map};
ghost use Rattle.std.specs.Option.{ForSome};
ghost use Rattle.pmb_command.specs.Parts.{device_with};
ghost use Rattle.pmb_json_objects.specs.Seen.{SeenData, entry_at};
ghost use Rattle.pmb_json_objects.specs.Sees.{Sees};
ghost use Rattle.pmb_log_lines.specs.Columns.{address_column, columns, command_name, command_page, is_of_pages, name_at, name_column, page_column, page_says, time_column};
ghost use Rattle.pmb_log_lines.specs.Layout.{IsNarrow};
ghost use Rattle.pmb_log_data.specs.Text.{at_left, at_right, byte_digits};
ghost use Rattle.pmb_log_data.specs.Appends.{Appends};

use crate::layout::Layout;
use arrayvec::ArrayVec;
use itoa::Buffer;
use pmb_facts::CommandAt;
use pmb_json_objects::Seen;
use pmb_log_data::{
    append, append_at_left, append_at_right, append_byte, device, entry, name_of, page,
};

/// Appends the columns: time, address, name, page and command.
pub(crate) fn append_columns<const N: usize>(
    out: &mut ArrayVec<u8, N>,
    layout: Layout,
    seen: &Seen<'_>,
    time: Option<&[u8]>,
    device: Option<u8>,
    command: Option<CommandAt>,
)
    requires narrow { IsNarrow layout }
    requires time { ForSome time (λ t. length t.now ≤ 40) }
    requires room { length out.old.items + 250 ≤ N }
    ensures says { (known : SeenData) → Sees seen.now known
        → Appends (columns layout known (option_map (λ t. t.now) time.entry) device command) 250 out.old.items out.new.items }
    ensures longer { length out.new.items ≤ length out.old.items + 250 }
{
    append_time(out, time);
    append(out, b"  ");
    append_address(out, device);
    append(out, b"  ");
    append_name(out, layout.name, seen, device);
    append_page(out, layout.page, seen, command);
    append_command(out, layout.command, seen, command);
    append(out, b"  ");
}

fn append_time<const N: usize>(out: &mut ArrayVec<u8, N>, time: Option<&[u8]>)
    requires time { ForSome time (λ t. length t.now ≤ 40) }
    requires room { length out.old.items + 50 ≤ N }
    ensures { Appends (time_column (option_map (λ t. t.now) time.entry)) 50 out.old.items out.new.items }
{
    match time {
        Some(time) => append_at_right(out, 10, time),
        None => append_at_right(out, 10, b""),
    }
}

fn append_address<const N: usize>(out: &mut ArrayVec<u8, N>, addr: Option<u8>)
    requires { length out.old.items + 2 ≤ N }
    ensures { Appends (address_column addr) 2 out.old.items out.new.items }
{
    match addr {
        Some(addr) => append_byte(out, addr),
        None => append(out, b"  "),
    }
}

/// The name of a device; nothing where it has none, or no device is named.
fn name_at<'s>(seen: &'s Seen<'_>, addr: Option<u8>) -> &'s [u8]
    ensures name { (known : SeenData) → Sees seen.now known → result.now ≡ name_at known.profile addr }
    ensures short { length result.now ≤ 32 }
{
    let Some(addr) = addr else {
        return b"";
    };
    let Some(device) = device(seen, addr) else {
        return b"";
    };
    name_of(device)
}

fn append_name<const N: usize>(
    out: &mut ArrayVec<u8, N>,
    width: usize,
    seen: &Seen<'_>,
    addr: Option<u8>,
)
    requires narrow { width ≤ 32 }
    requires room { length out.old.items + 66 ≤ N }
    ensures says { (known : SeenData) → Sees seen.now known → Appends (name_column width (name_at known.profile addr)) 66 out.old.items out.new.items }
    ensures longer { length out.new.items ≤ length out.old.items + 66 }
{
    if width > 0 {
        append_at_left(out, width, name_at(seen, addr));
        append(out, b"  ");
    }
}

/// Whether a command is one of several pages.
fn is_of_pages(seen: &Seen<'_>, at: CommandAt) -> bool
    ensures { (known : SeenData) → Sees seen.now known
        → result ≡ is_of_pages (device_with at.addr known.profile) (entry_at known at.addr at.code) }
{
    let Some(device) = device(seen, at.addr) else {
        return false;
    };
    match entry(seen, at.addr, at.code) {
        Some(entry) => entry.paged && device.pages() > 1,
        None => false,
    }
}

fn append_page<const N: usize>(
    out: &mut ArrayVec<u8, N>,
    width: usize,
    seen: &Seen<'_>,
    command: Option<CommandAt>,
)
    requires narrow { width ≤ 2 }
    requires room { length out.old.items + 7 ≤ N }
    ensures says { (known : SeenData) → Sees seen.now known → Appends (page_column width (command_page known command)) 7 out.old.items out.new.items }
    ensures longer { length out.new.items ≤ length out.old.items + 7 }
{
    if width > 0 {
        append_command_page(out, width, seen, command);
        append(out, b"  ");
    }
}

/// Appends the page of a command, at the right of so many columns.
fn append_command_page<const N: usize>(
    out: &mut ArrayVec<u8, N>,
    width: usize,
    seen: &Seen<'_>,
    command: Option<CommandAt>,
)
    requires narrow { width ≤ 2 }
    requires room { length out.old.items + 5 ≤ N }
    ensures says { (known : SeenData) → Sees seen.now known → Appends (at_right width (command_page known command)) 5 out.old.items out.new.items }
    ensures longer { length out.new.items ≤ length out.old.items + 5 }
{
    match command {
        Some(at) if is_of_pages(seen, at) => append_number_of_page(out, width, page(seen, at.addr)),
        _ => append_at_right(out, width, b""),
    }
}

fn append_number_of_page<const N: usize>(out: &mut ArrayVec<u8, N>, width: usize, page: Option<u8>)
    requires narrow { width ≤ 2 }
    requires room { length out.old.items + 5 ≤ N }
    ensures { Appends (at_right width (page_says page)) 5 out.old.items out.new.items }
{
    match page {
        None => append_at_right(out, width, b"?"),
        Some(0xff) => append_at_right(out, width, b"*"),
        Some(page) => append_at_right(out, width, Buffer::new().format(page).as_bytes()),
    }
}

/// Appends a command's name, or its code where the device lacks it, at the left of so many columns.
fn append_command<const N: usize>(
    out: &mut ArrayVec<u8, N>,
    width: usize,
    seen: &Seen<'_>,
    command: Option<CommandAt>,
)
    requires narrow { width ≤ 32 }
    requires room { length out.old.items + 64 ≤ N }
    ensures says { (known : SeenData) → Sees seen.now known → Appends (at_left width (command_name known command)) 64 out.old.items out.new.items }
    ensures longer { length out.new.items ≤ length out.old.items + 64 }
{
    let Some(at) = command else {
        append_at_left(out, width, b"");
        return;
    };
    match entry(seen, at.addr, at.code) {
        Some(entry) => append_at_left(out, width, entry.name.as_bytes()),
        None => append_code(out, width, at.code),
    }
}

/// Appends a code at the left of so many columns.
fn append_code<const N: usize>(out: &mut ArrayVec<u8, N>, width: usize, code: u8)
    requires narrow { width ≤ 32 }
    requires room { length out.old.items + 64 ≤ N }
    ensures { Appends (at_left width (byte_digits code)) 64 out.old.items out.new.items }
{
    let mut digits = ArrayVec::<u8, 2>::new();
    append_byte(&mut digits, code);
    append_at_left(out, width, digits.as_slice());
}
