//! The form of a dump: a ledger text from which a book can be made again (docs/FORMATS.md, Dump).
//!
//! - `head`: its first line, which says how it is written and what it holds.
//! - `heading`: the line above each entry.
//! - `end`: its last line, which says what stands above it.
//! - `kind`: which of the three a line is meant as.
//! - `cut`: how such a line is cut from its beginning on.
//! - `lines`: the lines of an input, one after another (`LineReader`).
//! - `laws`: what holds of the texts of these lines.
#![tactic(auto)]

mod cut;
mod end;
mod head;
mod heading;
mod kind;
pub mod laws;
mod lines;

pub use end::{End, read_end};
pub use head::{Head, HeadFault, read_head};
pub use heading::{Heading, read_heading};
pub use kind::{Kind, kind_of};
pub use lines::{LineEnd, LineFault, LineReader};
