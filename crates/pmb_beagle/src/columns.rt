//! The columns of an export, by the line that names them.

ghost use Rattle.std.specs.Prelude.{◌≡◌};
ghost use Rattle.pmb_beagle.specs.Columns.{behind_hashes, heading_of};

use pmb_csv::{count_fields, needed_column, optional_column};
use pmb_words::behind;

/// Where the columns stand.
#[derive(Clone, Copy, Debug, PartialEq, Eq)]
pub struct Columns {
    /// How many there are.
    pub count: usize,
    /// The number of a row.
    pub index: usize,
    /// When it began, where that is there.
    pub time: Option<usize>,
    /// How many bytes it has, where that is there.
    pub length: Option<usize>,
    /// What is wrong with it, where that is there.
    pub error: Option<usize>,
    /// Whether it has START and STOP.
    pub marks: usize,
    /// The address.
    pub address: usize,
    /// What a row is of.
    pub sort: usize,
    /// The bytes.
    pub bytes: usize,
}

/// The columns that a line names, if it names those that are needed.
pub(crate) fn heading(line: &[u8]) -> Option<Columns>
    ensures { result ≡ heading_of line.now }
{
    let names = behind_mark(line);
    let index = needed_column(b"Index", names)?;
    let marks = needed_column(b"S/P", names)?;
    let address = needed_column(b"Addr", names)?;
    let sort = needed_column(b"Record", names)?;
    let bytes = needed_column(b"Data", names)?;
    let time = optional_column(b"m:s.ms.us", names)?;
    let length = optional_column(b"Len", names)?;
    let error = optional_column(b"Err", names)?;
    Some(Columns {
        count: count_fields(names)?,
        index,
        time,
        length,
        error,
        marks,
        address,
        sort,
        bytes,
    })
}

/// A line that begins with `#`, without this and blanks in front.
fn behind_mark(line: &[u8]) -> &[u8]
    ensures { result.now ≡ behind_hashes line.now }
{
    if behind(b"#", line).is_none() {
        return line;
    }
    let mut left = line;
    while let [byte, others @ ..] = left {
        if *byte != b'#' && *byte != b' ' {
            return left;
        }
        left = others;
    }
    left
}
