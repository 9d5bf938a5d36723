//! A field of a command's data: its name, and what it says.

/// What a field says.
#[derive(Clone, Copy, Debug)]
pub enum Value<'a> {
    /// A word, such as `soft`.
    Word(&'static str),
    /// A number.
    Number(i32),
    /// Yes or no.
    Truth(bool),
    /// Some words.
    Words(&'static [&'static str]),
    /// The bits of a status register, by its code and the byte that has these bits.
    Bits(u8, u8),
    /// The code of a command.
    Code(u8),
    /// Some bytes.
    Bytes(&'a [u8]),
}

/// A field of a command's data.
#[derive(Clone, Copy, Debug)]
pub struct Field<'a> {
    /// Its name.
    pub key: &'static str,
    /// What it says.
    pub value: Value<'a>,
}

/// What fills the room that is left in a list of fields.
impl Default for Field<'_> {
    fn default() -> Self {
        Field {
            key: "",
            value: Value::Truth(false),
        }
    }
}
