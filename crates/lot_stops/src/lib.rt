//! Stops, over the stated disk: what is found when the files of a book are opened after a crash. The crate stands above all
//! libraries.
//!
//! - `reopening`: a crash of both files, and what a connection that is opened again stands for.
#![tactic(auto)]

pub mod reopening;
