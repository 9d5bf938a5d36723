//! Requests in; packets on a bus of simulated devices, and their results, out.
//!
//! [`run`] makes the devices of a profile, gives them the packet of each request that a line of the input
//! spells, and writes what is recorded of it, and how it ended. A [`Runner`] does it line by line, on devices
//! that stay.
//!
//! ```rust
//! let profile = Profile::from_toml(rt.alloc(), SAMPLE.as_bytes())?;
//! let mut reader = Io::new(b"21 3.3\nget 58 21".as_slice());
//! let mut writer = Io::new(Vec::new(rt.alloc()));
//! let tally = run(rt.alloc(), &profile, b"set 58 ", &mut reader, &mut writer)?;
//! assert_eq!(rt; tally, Tally { packets: 2, refusals: 0 });
//! let set = b"S b0 A 21 A 9a A 06 A P\n# done\n";
//! assert!(rt; writer.into_inner().starts_with(set));
//! ```
#![tactic(auto)]

mod bench;
mod fault;
mod kept;
pub mod laws;
mod lines;
mod result;
mod runner;

pub use bench::Bench;
pub use lines::{run, run_whole};
pub use runner::Runner;
