//! What the program does (docs/RULES.md, The program). `serve` does an action: it makes a book, posts ledger text or a broker
//! file to it, or writes a report of it. What its callers name of the crates below is passed on.
//!
//! - `action`: `serve`, and what an action leaves.
//! - `post`: ledger text posted to the book that is there; `import`: a broker file. `lot_input` says what an input gives.
//! - `crumbs`: a check with an account that takes crumbs.
//! - `preview`: what is told of the book that a dry run would leave.
//! - `migration`: a book of edition 1 taken over; `verification`: a book verified.
//! - `restoration`: a book made of a dump; `unrestored`: why none is; `difference`: how it differs from another.
//! - `run`: commands run on the book that is there, each in one commit, or all in one or none.
//! - `report`: reports of the book that is there.
//! - `reconciliation`: what differs between a statement and the book that is there.
//! - `showing`: what a broker's export comes to, as ledger text.
//! - `halt`: why an action comes to nothing: its input, its book or its dump.
//! - `laws`: what becomes of a row that comes again.
#![tactic(auto)]

mod action;
mod crumbs;
mod difference;
mod halt;
mod import;
pub mod laws;
mod migration;
mod post;
mod preview;
mod reconciliation;
mod report;
mod restoration;
mod run;
mod showing;
mod unrestored;
mod verification;

pub use action::{Served, serve};
pub use difference::tell_differences;
pub use halt::Halt;
pub use lot_args::{Action, Effect, Notes, Preview, Request, Restore, parse_words};
pub use lot_atomic::Look;
pub use lot_completion::{Note, Watch};
pub use lot_export::{Aside, Export, ExportFault};
pub use lot_input::InputFault;
pub use lot_io::CountedWriter;
pub use lot_migrate::{MigrateFault, Progress};
pub use lot_parts::{CommandFault, DumpFault};
pub use lot_restore::RestoreFault;
pub use lot_store::{AdoptFault, CreateFault};
pub use lot_stream::Status;
pub use lot_verify::VerifyFault;
pub use preview::serve_with_preview;
pub use run::say_halt;
pub use showing::{Shown, show};
