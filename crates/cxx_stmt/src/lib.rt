//! The middle of the parser: types, parameters, and the statements of the grammar, over the expressions of
//! `cxx_expr`. The layer above reads declarations with `Dialect`, whose methods read parts of a program from a
//! `Parser`, and with the rules that are the same in all dialects, which are functions.
//!
//! Each rule of the grammar is a function of the code, and the same function is defined over lists of words in
//! `specs/`.
#![tactic(auto)]

mod dialect;
mod parts;
mod simples;
mod statements;
mod streams;
mod types;

pub use dialect::Dialect;
pub use parts::{arguments, expressions, no_parts, open_paren, placed_ref, sees_name, sign_at};
pub use types::{param, params, plain_type, pointer_to, word_type};
