//! The syntax of ledger text: its lines, their tokens, and the form that a line has, with the parts that it gives.
//!
//! - `lines`: the lines of a text.
//! - `token`: what a token is.
//! - `cut`: how many bytes a token has.
//! - `front`: the token at the front of a text.
//! - `tokens`: the tokens of a line, one after another.
//! - `form`: the parts of a line, as they are written.
//! - `posting_line`: the form of a posting.
//! - `header_line`: the forms of the other lines.
//! - `take`: one token of a line.
//! - `fault`: why a line has no form.
//! - `laws`: laws of the definitions that the contracts cite.
#![tactic(auto)]

mod cut;
mod fault;
mod form;
mod front;
mod header_line;
pub mod laws;
mod lines;
mod posting_line;
mod take;
mod token;
mod tokens;

pub use fault::FormFault;
pub use form::{
    AmountForm, CostForm, CurrencyWords, DirectiveForm, HeaderForm, NotesForm, Part, Parts,
    PostingForm, PriceForm,
};
pub use header_line::header;
pub use lines::Lines;
pub use posting_line::posting;
pub use token::{Mark, Token, Uncut};
pub use tokens::{LineTokens, Tokens};
