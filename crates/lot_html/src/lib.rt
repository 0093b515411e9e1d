//! Elements and text of a page of HTML (docs/FORMATS.md, Page).
//!
//! - `text`: text and the values of attributes, in which no byte is markup.
//! - `element`: tags with their attributes, and elements that hold a text.
//! - `number`: numbers for the eye, beside what they are.
//! - `laws`: what is written of a text says it, and elements are balanced.
#![tactic(auto)]

mod element;
pub mod laws;
mod number;
mod text;

pub use element::{push_close, push_name, push_open, push_said};
pub use number::{push_data, push_grouped};
pub use text::{push_character, push_text};

#[cfg(test)]
mod tests;
