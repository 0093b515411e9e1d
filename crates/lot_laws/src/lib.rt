//! Laws of what a book says, of what commands come to on it, and of sales. Each is the contract of a function that does
//! nothing.
//!
//! - `steps`: the outcome of a command.
//! - `books`: entries of a book of either edition, what they hold, and judging a list of commands.
//! - `gains`: sales and their gains.
//! - `opening_numbers`: which lot was opened before which, and the orders by that.
//! - `editions`: places of migration, and how each edition decides ties.
//! - `openings`: opening numbers as facts, on which the step of edition 2 rests.
#![tactic(auto)]

pub mod books;
pub mod editions;
pub mod gains;
pub mod opening_numbers;
pub mod openings;
pub mod steps;
