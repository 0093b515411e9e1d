//! The files of a book, as the program opens them, or why it can't.
//!
//! - `file_system`: what a file system shows of paths; `file_maker`: what opens files to be written; `file_opener`: what opens the files of books; `files`, `located`: the files of a book there, and what may stand in their place.
//! - `cause`: why a book can't be opened; `refusal`: what the library or the system says of that.
//! - `copy`: a copy of a book in memory; `source`: where its files are read for that.
//! - `image`: a file in memory; `medium`: a file there or of the system.
//! - `noted`: a file of the system that keeps why its last call failed; `keeper`: where it keeps that.
//! - `opened`: a book that is opened: its file, or a copy of it; `opener`: what opens them.
#![tactic(auto)]

mod cause;
mod copy;
mod file_maker;
mod file_opener;
mod file_system;
mod files;
mod image;
mod keeper;
mod located;
mod medium;
mod noted;
mod opened;
mod opener;
mod refusal;
mod source;

pub use cause::Cause;
pub use copy::open_nothing;
pub use file_system::{Entry, FileSystem, Kind};
pub use files::{ensure_openable, is_missing, library_path};
pub use image::Image;
pub use medium::Medium;
pub use noted::{Failure, Noted};
pub use opened::{Access, BookFile, Database, Opened, open_book};
