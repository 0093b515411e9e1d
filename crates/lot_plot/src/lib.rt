//! Plots of a page, as SVG, from whole numbers (docs/FORMATS.md, Page).
//!
//! - `bars`: a bar for each year.
//! - `lines`: worth and cost at the end of each month.
//! - `scale`: where a value is drawn, in thousandths of the height, rounded down.
//! - `grid`: lines at round values, with their texts.
//! - `month`: months as numbers, and their texts.
//! - `piece`: texts, numbers and percents.
//! - `laws`: plots are balanced.
#![tactic(auto)]

mod bars;
mod grid;
pub mod laws;
mod lines;
mod month;
mod piece;
mod scale;

pub use bars::{YearBar, push_bars};
pub use lines::{MonthPoint, push_lines};
pub use month::{Month, push_month};
pub use piece::{push_all, push_count, push_percent};
pub use scale::step_of;
