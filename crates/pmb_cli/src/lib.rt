//! The command `pmb` over a reader and two writers: [`tool`], which runs the task that its words ask
//! for, and the names of the crates that it stands on.
//!
//! ```rust
//! let mut reader = Io::new(b"S b0 A 21 A 00 A 18 A P\n".as_slice());
//! let mut out = Io::new(Vec::new(rt.alloc()));
//! let mut err = Io::new(Vec::new(rt.alloc()));
//! let words = ["pmb", "show", "--sample"];
//! assert_eq!(rt; tool(rt.alloc(), &words, &mut reader, &mut out, &mut err), 0);
//! assert_eq!(rt; out.into_inner().as_slice(), b"write 58 21 00 18 # VOUT_COMMAND 12\n".as_slice());
//! ```
#![tactic(auto)]

mod bus;
mod facts;
pub mod laws;
mod profile_fault;
mod program;
mod stats;
mod tasks;
mod works;

pub use pmb_build::build;
pub use pmb_capture::{check_capture, show};
pub use pmb_convert::{FormatFault, NumberFormat, decode_lines, encode_lines, parse_format};
pub use pmb_decimal::Digits;
pub use pmb_fact_stream::{Choice, Telling};
pub use pmb_import::{AddressForm, Rate, Recorder, import};
pub use pmb_io::{Failing, Io, IoFault, Sink, Source, Tally, ToolFault};
pub use pmb_log_lines::Layout;
pub use pmb_preamble::{Front, front};
pub use pmb_profile_text::describe;
pub use pmb_run::run;
pub use pmb_telling::{AfterBadToken, tell};
pub use pmb_unknown_start::Start;
pub use profile_fault::report_board;
pub use program::{no_words, tool};
