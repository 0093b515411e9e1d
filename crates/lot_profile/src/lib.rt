//! What a profile says of a broker's file: its form, its tables, and what their rows are (docs/FORMATS.md, Profiles).
//!
//! - `profile`: `Profile`, all that one says.
//! - `file`: `FileForm`, how the file is written, and `Column`, which column is meant.
//! - `table`: `Table`, which lines are its rows, their order and their columns.
//! - `kind`: `KindRule`, which rows are of a kind.
//! - `role`: `Role`, what a column holds, and where that is found.
//! - `account`: `AccountOf`, the accounts that rows are posted to.
//! - `basis`: `Basis`, what counts as cost, and how far amounts may differ.
#![tactic(auto)]

mod account;
mod basis;
mod file;
mod kind;
mod profile;
mod role;
mod table;

pub use account::{AccountOf, AccountRole, Piece};
pub use basis::{Basis, CostBasis, Rewards, Rounded};
pub use file::{Column, Condition, Delimiter, Encoding, FileForm};
pub use kind::{Kind, KindRule};
pub use profile::{Profile, Symbol};
pub use role::{Role, Source, Sources};
pub use table::{Header, Order, Table};
