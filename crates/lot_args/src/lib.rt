//! What the arguments of the program ask for (docs/RULES.md, The program).
//!
//! - `request`: what can be asked for; `action`: what the program is asked to do.
//! - `batch`: the names of batches.
//! - `start`: the numbers at which a run may start.
//! - `program`: the subcommands, with their help; `options`: their options.
//! - `words`: from arguments to a request (`parse_words`); `needed`: which options a call needs;
//!   `given`: which are given; `good`: which of their values are outside their rules; `values`: what
//!   the values say; `effect`: how a call is to be done; `without`: which entries of a dump are left
//!   out.
//! - `required`: what `clap` says of an import that lacks an option.
//! - `fault`: why arguments give no request. `tip`: which option is meant by one that a subcommand has under another name.
//! - `laws`: what holds of the definitions that the contracts cite.
#![tactic(auto)]

mod action;
mod batch;
mod effect;
mod fault;
mod given;
mod good;
pub mod laws;
mod needed;
mod options;
mod program;
mod request;
mod required;
mod start;
mod tip;
mod values;
mod without;
mod words;

pub use action::{
    Action, AskedImport, Format, Import, ImportBy, Keeping, Post, Reconcile, Report, Restore,
    Saying,
};
pub use batch::Batch;
pub use fault::{BadOption, Needed, WordsFault};
pub use request::{Effect, Notes, Preview, Request};
pub use required::require_options;
pub use start::Start;
pub use tip::{Tip, tip_for};
pub use words::parse_words;
