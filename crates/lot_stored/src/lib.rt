//! Which tables stand for a book: one equation for each table, between its rows and the entries of the book.
//!
//! - `laws`: a book has one list of rows in each table.
#![tactic(auto)]

pub mod laws;

/// The edition of the tables of a book. Editions are counted from 1, and each has tables of its own.
pub const EDITION: i64 = 2;
