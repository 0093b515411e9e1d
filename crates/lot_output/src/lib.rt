//! What a call of the program writes as it runs, and what it read and wrote, kept for what is said of
//! it afterwards.
//!
//! - `write_out`: writers in which bytes may wait. `output`: standard output; `meter`: how far a run is, on standard error.
//! - `record`: bytes that are kept. `heard`: what was heard of a call, and a writer that hears it;
//!   `course`: how far a run came, by its replies.
#![tactic(auto)]

mod course;
mod heard;
mod meter;
mod output;
mod record;
mod write_out;

pub use course::Course;
pub use heard::{Heard, Witness};
pub use meter::Meter;
pub use output::{Ended, Output, Pace};
pub use record::Record;
pub use write_out::WriteOut;
