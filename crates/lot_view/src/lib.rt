//! What is known of a book, to judge commands on, and what a command looks at.
//!
//! - `view`: what is known of a book.
//! - `holdings`: what it holds, as rows.
//! - `touched`: what a command looks at.
#![tactic(auto)]

mod holdings;
mod touched;
mod view;

pub use touched::{Touched, touches};
pub use view::View;
