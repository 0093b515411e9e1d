//! Tests of the libraries through their public calls. They test what no contract says and no script over the program shows.
//! They stand here, above all libraries, so that no library is proved twice.
//!
//! - `commands`: the canonical texts of commands.
//! - `copies`: copies of values that the program doesn't copy.
//! - `lots`: what an inventory holds, and which lots units take in each order.
//! - `faults`: the texts of faults, and which of several faults of a number is told.
//! - `nobody`: a receiver of what a call tells as it runs.
//! - `opening_numbers`: the lots that legs leave, with their opening numbers.
//! - `streams`: readers and writers that give or take little, are interrupted, or fail, by a script.
//! - `stops`: a file of a book stops at each of its calls, once and twice, while a course is gone through: a ledger is sent, a book
//!   is made, restored, migrated, verified. A commit in doubt is kept or lost. `courses`: what is done, and what is said; `disk`: the files
//!   of a book, on disks that stop.
//!
//! Each function here is proved, too. These habits keep the proofs short. Tables of cases stand in few tests. There is no `?`,
//! which adds a path on which all live values are dropped. Tables are slices, not arrays that a loop takes by value. Assertions
//! stand in functions of their own.
#![tactic(auto)]

#[cfg(test)]
mod commands;
#[cfg(test)]
mod copies;
#[cfg(test)]
mod courses;
#[cfg(test)]
mod disk;
#[cfg(test)]
mod faults;
#[cfg(test)]
mod lots;
#[cfg(test)]
mod nobody;
#[cfg(test)]
mod opening_numbers;
#[cfg(test)]
mod stops;
#[cfg(test)]
mod streams;

#[cfg(test)]
use std::process::Abort;

#[cfg(test)]
fn assert_text(rt: &impl Abort, found: &str, want: &str) {
    assert_eq!(rt; found, want);
}

#[cfg(test)]
fn assert_that(rt: &impl Abort, holds: bool, what: &str) {
    assert!(rt; holds, "{what}");
}
