//! The VID table that an output voltage is in.
//!
//! Its rows: `tests_json`, `src/fields/voltages.rt`.

ghost use Rattle.std.specs.Prelude.{◌≡◌, ◌%◌, ◌^◌, Some, option_map, slice_get};
ghost use Rattle.std.specs.List.{list_all};
ghost use Rattle.pmb_vid.specs.Names.{same_table};
ghost use Rattle.pmb_keys.specs.VidView.{vid_parts};
ghost use Rattle.pmb_voltage.specs.Voltage.{of_page, page_table, type_table, vid_table};

use crate::voltage::NoVoltage;
use pmb_keys::VidTables;
use pmb_value::VidTable;

/// The PAGE that selects all pages.
const ALL_PAGES: u8 = 0xff;

/// Whether all tables are this one.
fn are_all(table: VidTable, tables: &[VidTable]) -> bool
    ensures { result ≡ list_all (same_table table) tables.now }
{
    tables.iter().all(|other| table == *other)
}

/// The table of pages whose tables differ.
fn of_page(tables: &[VidTable], page: Option<u8>) -> Result<VidTable, NoVoltage>
    ensures { result ≡ of_page tables.now page }
{
    let Some(page) = page else {
        return Err(NoVoltage::Unknown);
    };
    if page == ALL_PAGES {
        return Err(NoVoltage::Page);
    }
    match tables.get(usize::from(page)) {
        Some(table) => Ok(*table),
        None => Err(NoVoltage::Page),
    }
}

/// The table of pages, which may share one.
fn page_table(tables: &[VidTable], page: Option<u8>) -> Result<VidTable, NoVoltage>
    ensures { result ≡ page_table tables.now page }
{
    match tables.split_first() {
        Some((first, rest)) if are_all(*first, rest) => Ok(*first),
        _ => of_page(tables, page),
    }
}

/// The table of a type, if it has one.
fn of_type(table: Option<VidTable>) -> Result<VidTable, NoVoltage>
    ensures { result ≡ type_table (Some table) }
{
    match table {
        Some(table) => Ok(table),
        None => Err(NoVoltage::Vid),
    }
}

/// The table of the type in bits 4:0 of a mode.
fn type_table(tables: &[Option<VidTable>], mode: u8) -> Result<VidTable, NoVoltage>
    ensures { result ≡ type_table (slice_get tables.now (mode % 2 ^ 5)) }
{
    match tables.get(usize::from(mode % 32)) {
        Some(table) => of_type(*table),
        None => Err(NoVoltage::Vid),
    }
}

/// The table that VOUT_MODE and PAGE select.
pub(crate) fn vid_table(
    vid: Option<&VidTables>,
    mode: u8,
    page: Option<u8>,
) -> Result<VidTable, NoVoltage>
    ensures { result ≡ vid_table (option_map (λ vid. vid_parts vid.now) vid.entry) mode page }
{
    match vid {
        None => Err(NoVoltage::Vid),
        Some(VidTables::OfPages(tables)) => page_table(tables.as_slice(), page),
        Some(VidTables::OfTypes(tables)) => type_table(tables.as_slice(), mode),
    }
}
