//! How the data of a command go over the bus: how many bytes a form takes, and which bytes spell
//! them.
//!
//! Its rows: `tests_commands`, `src/forms.rt`, `src/shapes.rt`.

ghost use Rattle.std.specs.Prelude.{◌≡◌, ◌↔◌, ◌≤◌, ◌++◌, ℕ, List, length, IsTrue, IfSome, MatchOption};
ghost use Rattle.std.specs.Option.{option_to_list};
ghost use Rattle.pmb_command.specs.Wire.{Fits, Takes, wire, wire_length};

/// The data that a packet has after its command code (PMBus Part II 1.3, Appendix I; SMBus 3.0
/// section 6.5).
#[derive(Clone, Copy, Debug, PartialEq, Eq)]
pub enum Form {
    /// No data: Send Byte.
    Zero,
    /// One byte: Write Byte, Read Byte.
    One,
    /// Two bytes, the low one first: Write Word, Read Word, Process Call.
    Two,
    /// Four bytes, the lowest first: Write 32, Read 32.
    Four,
    /// Eight bytes, the lowest first: Write 64, Read 64.
    Eight,
    /// A count and that many bytes: Block Write, Block Read, Block Write-Block Read Process Call.
    Block,
}

impl Form {
    /// How many bytes of data the form takes, 0 to 8; `None` of a block, which tells by its count.
    #[inline]
    pub const fn length(self) -> Option<usize>
        ensures only { MatchOption result (self ≡ Form.Block) (λ exact. (n : ℕ) → (Takes self n ↔ (n ≡ exact))) }
        ensures short { IfSome result (λ exact. exact ≤ 8) }
    {
        match self {
            Form::Zero => Some(0),
            Form::One => Some(1),
            Form::Two => Some(2),
            Form::Four => Some(4),
            Form::Eight => Some(8),
            Form::Block => None,
        }
    }

    /// Whether the form takes this many bytes of data: as many as its `length`, or of a block up to
    /// 255 (SMBus 3.0 section 6.5.7).
    #[inline]
    pub const fn takes(self, length: usize) -> bool
        ensures { IsTrue result ↔ Takes self length }
    {
        match self.length() {
            Some(exact) => length == exact,
            None => length <= 255,
        }
    }

    /// Whether these bytes are data of the form: as many as it takes.
    #[inline]
    pub const fn fits(self, bytes: &[u8]) -> bool
        ensures { IsTrue result ↔ Fits self bytes.now }
    {
        self.takes(bytes.len())
    }

    /// The count that a block has on the wire before these data, of up to 255 bytes; `None` of the
    /// other forms.
    #[inline]
    pub const fn count(self, bytes: &[u8]) -> Option<u8>
        requires { length bytes.now ≤ 255 }
        ensures { option_to_list result ++ bytes.now ≡ wire self bytes.now }
    {
        match self {
            Form::Zero | Form::One | Form::Two | Form::Four | Form::Eight => None,
            Form::Block => Some(bytes.len() as u8),
        }
    }

    /// How many bytes the wire has that begins with these bytes, 0 to 256: the form's `length`, or
    /// of a block 1 and its count, which comes first (SMBus 3.0 section 6.5.7).
    #[inline]
    pub fn wire_length(self, bytes: &[u8]) -> usize
        ensures length { result ≡ wire_length self bytes.now }
        ensures short { result ≤ 256 }
    {
        match (self.length(), bytes.first()) {
            (Some(exact), _) => exact,
            (None, Some(count)) => 1 + *count as usize,
            (None, None) => 1,
        }
    }

    /// The data whose wire these bytes are: of a block those after its count.
    #[inline]
    pub fn data_within(self, bytes: &[u8]) -> &[u8]
        requires { (whole : List ℕ) × (bytes.now ≡ wire self whole) }
        ensures { (whole : List ℕ) → bytes.now ≡ wire self whole → result.now ≡ whole }
    {
        match self {
            Form::Zero | Form::One | Form::Two | Form::Four | Form::Eight => bytes,
            Form::Block => &bytes[1..],
        }
    }
}

/// The forms in which a command is written, read and called; `None` where it isn't.
#[derive(Clone, Copy, Debug, PartialEq, Eq)]
pub struct Shape {
    pub write: Option<Form>,
    pub read: Option<Form>,
    pub call: Option<Form>,
}
