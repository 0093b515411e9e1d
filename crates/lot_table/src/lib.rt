//! Tables of a book over `sqlite`: what one statement does to the lists of all tables, whatever they are.
//!
//! - `statement`: `change` runs a statement that changes rows, `ask` a query. `Queryable` is what a query is asked of, a
//!   connection or a transaction.
//! - `row`: `TableRow`, a row of one table; `select` and `find`, the rows that a query answers.
//! - `cell`: `Cell`, what one column holds; `column` reads it.
//! - `make`: `make_each` makes tables, and `MakeFault`, why it doesn't.
//! - `any_text`, `opening_number`, `ordinal`, `sum`: kinds of columns that no lower crate has.
//! - `fault`: `Fault`, why a call fails.
#![tactic(auto)]

mod any_text;
mod cell;
mod fault;
mod make;
mod opening_number;
mod ordinal;
mod row;
mod statement;
mod sum;

pub use any_text::AnyText;
pub use cell::{Cell, column};
pub use fault::Fault;
pub use make::{MakeFault, make_each};
pub use opening_number::OpeningNumber;
pub use ordinal::Ordinal;
pub use row::{TableRow, find, read_all, select};
pub use statement::{Queryable, ask, change};
pub use sum::Sum;
