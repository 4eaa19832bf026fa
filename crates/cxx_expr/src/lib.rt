//! The lower half of the parser: words with their places, a cursor over them, and the expressions of the grammar. The
//! layer above reads statements and declarations with `Parser`, which gives it names, references, what may stand on the
//! left of an assignment or be called, and full expressions and sums within the limits.
//!
//! Each rule of the grammar is a function of the code, and the same function is defined over lists of words in
//! `specs/Lefts` and `specs/Descent`. Nodes get the number 0, and their numbers in the normal form.
#![tactic(auto)]

mod expr;
mod full;
mod operator;
mod parser;
mod read;
mod stop;
mod within;
mod word;

pub use parser::{Parser, left_of, unnumbered};
pub use read::{Unread, read_expr, spelling_is_unique};
pub use stop::Stop;
pub use word::{Word, WordAt};
