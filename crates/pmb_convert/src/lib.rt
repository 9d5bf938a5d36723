//! Quantities to codes and codes to quantities, line by line.
//!
//! A FORMAT, such as `linear11` or `direct:3,2,1`, names a [`NumberFormat`]. [`encode_lines`] writes
//! for each line of an input the code nearest to its quantity, and [`decode_lines`] the exact value of
//! its code; for a line that has none, `! ` and a [`ConvertFault`].
//!
//! ```rust
//! let format = parse_format("linear11")?;
//! let mut reader = Io::new(b"12\nx\n".as_slice());
//! let mut writer = Io::new(Vec::new(rt.alloc()));
//! let tally = encode_lines(format, b"", &mut reader, &mut writer)?;
//! assert_eq!(rt; (tally.packets, tally.refusals), (1, 1));
//! assert_eq!(rt; writer.into_inner().as_slice(), b"d300\n! BadDigit\n".as_slice());
//! ```
#![tactic(auto)]

mod answer;
mod conversion;
mod convert_fault;
mod converter;
mod format_fault;
pub mod laws;
mod lines;
mod numbers;
mod spelling;

pub use conversion::Conversion;
pub use convert_fault::ConvertFault;
pub use format_fault::FormatFault;
pub use lines::{convert_lines, decode_lines, encode_lines};
pub use pmb_value::NumberFormat;
pub use spelling::parse_format;
