//! A book as one page of HTML (docs/FORMATS.md, Page). What is added up is read first; what stands
//! before the sales is made of it in memory, and the sales and entries are written as they are
//! read.
//!
//! - `scope`: what a page is of.
//! - `read`: what is read of a book; `counted`: its entries, counted; `parts`: all of that
//!   together.
//! - `show`: the page.
//! - `top`: what stands before the sales; `head`: the head; `style`: how a page looks; `sums`: what
//!   sales gained; `held`: what is held; `months`: what lots come to at the end of each month.
//! - `list`: rows that are written as they are read; `sales`: the sales; `journal`: the entries.
//! - `laws`: a page is balanced.
#![tactic(auto)]

mod counted;
mod head;
mod held;
mod journal;
pub mod laws;
mod list;
mod months;
mod parts;
mod read;
mod sales;
mod scope;
mod show;
mod style;
mod sums;
mod top;

pub use scope::{Heading, PageScope};
pub use show::show_page;
