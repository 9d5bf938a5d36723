//! Hints for mistakes in a profile: where the fault is, the key, its value, the rule that it breaks, and
//! what would be right.
//!
//! [`hints`] reads the text anew and looks for the fault, of which only its name and its place are
//! known. What it writes is for people, and no program should read it. No clause says which lines
//! they are, but that the first one begins with the place: the rows of `tests/rows/hints.txt` do.
//!
//! ```rust
//! let text = b"[[device]]\naddress = 0xb0\npec = \"on\"\n";
//! let fault = Profile::from_toml(rt.alloc(), text).err().ok_or("no fault")?;
//! let lines = hints(rt.alloc(), text, fault);
//! assert!(rt; lines.lines.as_str().starts_with("  line 2, column 1: address = 0xb0: "));
//! assert_eq!(rt; lines.place, Some(Place { line: 2, column: 1 }));
//! ```
#![tactic(auto)]

mod bits;
mod coded;
mod draft;
mod forms;
mod initial;
mod keyed;
mod keys;
mod lines;
mod lists;
mod mistakes;
mod numbers;
mod report;
mod syntax;
mod values;
mod vid;
mod walk;
mod words;

pub use lines::{HintLines, hints};
pub use pmb_places::Place;
pub use report::{FaultReport, FaultText, explanation, fault_text};
