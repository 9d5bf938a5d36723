//! The capture of a recording: whole packets with their times, and lines that tell what is missing.
//!
//! ```rust
//! let trace = b"1.5: i2c_write: i2c-0 #0 a=058 f=0000 l=1 [03]\n1.6: i2c_result: i2c-0 n=1 ret=1\n";
//! let mut reader = Io::new(trace.as_slice());
//! let mut writer = Io::new(Vec::new(rt.alloc()));
//! let tally = import(Recorder::Kernel(None), b"", &mut reader, &mut writer)?;
//! assert_eq!(rt; tally, Tally { packets: 1, refusals: 0 });
//! assert_eq!(rt; writer.into_inner().as_slice(), b"# 1.5 s\nS b0 A 03 A P\n".as_slice());
//! ```
#![tactic(auto)]

mod follow;
mod lent;
mod recording;
mod whole;

pub use pmb_recorder::{AddressForm, Rate, Recorder, RecorderFault, Source as RecordingSource};
pub use recording::import;
pub use whole::import_whole;
