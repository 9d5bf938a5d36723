//! The columns of a table, by its heading.

ghost use Rattle.std.specs.Prelude.{◌≡◌};
ghost use Rattle.pmb_csv.specs.Fields.{record_of};
ghost use Rattle.pmb_saleae.specs.Columns.{heading_of};

use pmb_csv::{count_fields, needed_column, optional_column};

/// Where the columns stand.
#[derive(Clone, Copy, Debug, PartialEq, Eq)]
pub struct Columns {
    /// How many there are.
    pub count: usize,
    /// The analyzer's name.
    pub name: usize,
    /// What a row is of.
    pub kind: usize,
    /// When it began, where that is there.
    pub start_time: Option<usize>,
    /// Whether the byte was acknowledged.
    pub ack: usize,
    /// The address.
    pub address: usize,
    /// Whether it reads.
    pub read: usize,
    /// The byte.
    pub byte: usize,
}

/// The columns that a line names, if it names those that are needed.
pub(crate) fn heading(line: &[u8]) -> Option<Columns>
    ensures { result ≡ heading_of (record_of line.now) }
{
    let name = needed_column(b"name", line)?;
    let kind = needed_column(b"type", line)?;
    let ack = needed_column(b"ack", line)?;
    let address = needed_column(b"address", line)?;
    let read = needed_column(b"read", line)?;
    let byte = needed_column(b"data", line)?;
    let start_time = optional_column(b"start_time", line)?;
    Some(Columns {
        count: count_fields(line)?,
        name,
        kind,
        start_time,
        ack,
        address,
        read,
        byte,
    })
}
