//! What wrote a recording of a bus, and what its reader is told besides.
//!
//! ```rust
//! let form = AddressForm::Shifted;
//! let recorder = Recorder::new(Source::Sigrok, None, Some(24_000_000), form);
//! assert!(rt; recorder.is_ok());
//! let recorder = Recorder::new(Source::Kernel, None, Some(24_000_000), form);
//! assert!(rt; matches!(recorder, Err(RecorderFault::SigrokOnly)));
//! ```
#![tactic(auto)]

mod fault;
pub mod laws;
mod recorder;
mod source;

pub use fault::RecorderFault;
pub use pmb_sigrok_line::{AddressForm, Rate};
pub use recorder::Recorder;
pub use source::Source;
