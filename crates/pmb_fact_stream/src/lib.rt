//! The facts of a capture, told as they come.
//!
//! A [`KeptStream`] is a visitor of a [`Scan`](pmb_scan::Scan): its [`Stream`] puts out the line of each
//! fact of a packet or a refusal as soon as its last event has come, hands the fact to its keeper, and
//! counts them. It knows where each word stands, also after a word that is no token. [`Choice`] says
//! which facts are wanted, and its [`Telling`] how they are told: as objects of `json`, as lines of
//! `log`, as records of items, or not at all. A keeper is given all facts, wanted or not.
//!
//! ```rust
//! let choice = Choice { digits: Digits::default(), start: Start::AllKnown, devices: &[], ignored: None, telling: Telling::Objects };
//! let mut kept = KeptStream { stream: Stream::new(&profile, choice), keeper: Nothing };
//! let mut scan = Scan::new(&profile);
//! let text = b"S b0 A 03 A P ".as_slice();
//! let taken = scan.take_words(text, &mut kept, &mut waiting, &mut writer)?;
//! assert_eq!(rt; taken, Taken::All);
//! kept.stream.put_end(&mut kept.keeper, scan.truncation(), &mut waiting, &mut writer)?;
//! assert_eq!(rt; kept.stream.tally(), Tally { packets: 1, refusals: 0 });
//! ```
#![tactic(auto)]

mod choice;
mod facts;
mod front;
mod groups;
mod ignoring;
mod kept_stream;
mod last;
pub mod laws;
mod open_time;
mod packets;
mod stream;
mod telling;
mod visits;
mod writes;

pub use choice::Choice;
pub use kept_stream::KeptStream;
pub use pmb_table::Addresses;
pub use stream::Stream;
pub use telling::Telling;
