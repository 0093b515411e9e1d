//! A database verified: whether it is a book of this edition, and whether its tables stand for one;
//! where it is damaged, for people.
//!
//! - `verification`: `verify`, which takes a connection and gives it back. The tables are judged by
//!   `judge_book` of `lot_audit`.
//! - `fault`: `VerifyFault`, why a book isn't verified.
//! - `damage`: `say_where`, where it is damaged, for people, on standard error.
#![tactic(auto)]

mod damage;
mod fault;
mod verification;

pub use damage::say_where;
pub use fault::VerifyFault;
pub use verification::verify;
