//! What the program does with its arguments, over a host: which book it opens, what for, what is done there, and the status with
//! which it ends.
//!
//! - `host`: the files, the streams and the clock of a system, as far as a call needs them.
//! - `stage`: how far it is with a call.
//! - `access`: what an action opens; `action`: an action is done on its book.
//! - `request`: what the arguments ask for is done.
#![tactic(auto)]

mod access;
mod action;
mod host;
mod request;
mod stage;

pub use access::{access_of, old_of, path_of};
pub use action::act;
pub use host::{Host, Task};
pub use request::run;
pub use stage::{Part, Stage, served_of, stage_of};
