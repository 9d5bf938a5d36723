//! Bytes in to bytes out: readers and writers that tell what they did, and the one loop over what is
//! read, in pieces or in lines.
#![tactic(auto)]

mod count;
mod empty;
mod engine;
mod failing;
mod fault;
mod input_line;
mod io;
pub mod laws;
mod line_task;
mod lines;
mod output;
mod pieces;
mod sink;
mod source;
mod tally;

pub use empty::Empty;
pub use engine::{Engine, Flow};
pub use failing::Failing;
pub use fault::{IoFault, RunFault, ToolFault};
pub use input_line::{InputLine, without_return};
pub use io::Io;
pub use line_task::LineTask;
pub use lines::each_line;
pub use output::{ROOM, Waiting, make_room, put, send};
pub use pieces::each_piece;
pub use sink::Sink;
pub use source::Source;
pub use tally::Tally;
