//! The lexer: the tokens of a program file or an aspect file, which borrow its text, or the rule L1 to L5 that the
//! text violates, at the first place where no token stands. `Lexer` gives them one by one without memory, `lex_all`
//! all together. What a token is stands in `specs/Lexemes.antt`, what a text's tokens are in `specs/Tokens.antt`. The
//! layers above may use all that is public here, and in clauses `Tokens`, `TokList`, `Lexed`, `All`, `Strings` and
//! `Bytes`.
#![tactic(auto)]

mod all;
mod bytes;
mod directives;
mod front;
mod keywords;
mod laws;
mod lexer;
mod literals;
mod numbers;
mod signs;
mod strings;
mod tok;
mod toks;
mod words;

pub use all::lex_all;
pub use laws::{
    large_numbers_are_refused, lexers_step_in_one_way, literals_are_read,
    texts_are_lexed_in_one_way,
};
pub use lexer::{LexStep, Lexer};
pub use literals::string_bytes;
pub use tok::{Tok, TokKind};
pub use toks::Toks;
