//! The headline: laws of what the contract of `serve` says of calls that follow one another. Each is the contract of a function
//! that does nothing.
//!
//! - `headline`: what stands in a book after sessions that may each have been stopped, and in its files after calls.
//! - `again`: commands that are sent again.
#![tactic(auto)]

pub mod again;
pub mod headline;
