//! Cells and words of a line.

ghost use Rattle.std.specs.Prelude.{◌≡◌, ◌+◌, ◌≤◌, ◌++◌, [], length, take};
ghost use Rattle.pmb_colour.specs.Cut.{ends, first, parts_of};
ghost use Rattle.pmb_colour.specs.machine.LineParts.{parts_in};

/// How a line is cut.
#[derive(Clone, Copy, Debug, PartialEq, Eq)]
pub(crate) enum Cut {
    /// Into cells, each with the blanks behind it, two at least.
    Cells,
    /// Into words, and blanks between them.
    Words,
}

/// The last cell of a line, the one before it, and what stands before both.
#[derive(Clone, Copy)]
pub(crate) struct LineParts<'a> {
    pub(crate) front: &'a [u8],
    pub(crate) cell: &'a [u8],
    pub(crate) tail: &'a [u8],
}

/// Whether a piece ends before a byte.
pub(crate) fn ends(at: Cut, piece: &[u8], byte: u8) -> bool
    ensures { result ≡ ends at piece.now byte }
{
    match at {
        Cut::Cells => byte != b' ' && piece.ends_with(b"  "),
        Cut::Words => {
            if byte == b' ' {
                !piece.ends_with(b" ")
            } else {
                piece.ends_with(b" ")
            }
        }
    }
}

/// The length of a text's first piece.
pub(crate) fn first_len(at: Cut, text: &[u8]) -> usize
    ensures short { result ≤ length text.now }
    ensures text { take result text.now ≡ first at text.now }
    ensures len { result ≡ length (first at text.now) }
{
    for index in 0..text.len() {
        if ends(at, &text[..index], text[index]) {
            return index;
        }
    }
    text.len()
}

/// The last cell of a line, the one before it, and what stands before both.
pub(crate) fn parts_of(line: &[u8]) -> LineParts<'_>
    ensures parts { parts_in result ≡ parts_of line.now }
    ensures whole { length result.front.now + (length result.cell.now + length result.tail.now) ≡ length line.now }
{
    let mut cell = 0;
    let mut tail = 0;
    for index in 0..line.len() {
        if ends(Cut::Cells, &line[tail..index], line[index]) {
            cell = tail;
            tail = index;
        }
    }
    LineParts {
        front: &line[..cell],
        cell: &line[cell..tail],
        tail: &line[tail..],
    }
}
