//! All tokens of a text.

ghost use Rattle.std.specs.Prelude.{◌≡◌, ◌≤◌, length, IfOk, IfErr};
ghost use Rattle.cxx_lex.specs.All.{IfRefused};
ghost use Rattle.cxx_lex.specs.Lexed.{lexed, tokens, refused};
ghost use Rattle.cxx_lex.specs.Place.{place_after, start_of};
ghost use Rattle.cxx_lex.specs.TokList.{tokens_of};
ghost use Rattle.cxx_lex.specs.Tokens.{HasTokens, RefusedAt};

use crate::lexer::{LexStep, Lexer};
use crate::toks::Toks;
use agxx_base::{Fault, LARGEST_TEXT, Mode};
use std::alloc::Global;

/// The tokens of a text. `file` is the number of its file in places.
pub fn lex_all<'s>(alloc: Global, text: &'s [u8], file: u32, mode: Mode) -> Result<Toks<'s>, Fault>
    requires { length text.now ≤ LARGEST_TEXT }
    ensures tokens { IfOk result (λ toks. HasTokens mode file text.now (tokens_of toks.items) toks.end) }
    ensures end { IfOk result (λ toks. toks.end ≡ place_after (start_of file) text.now) }
    // The refusal stands at the first place where no token does.
    ensures refused { IfErr result (λ fault. IfRefused fault (RefusedAt mode file text.now)) }
    // The same as a function's value.
    ensures lexed { IfOk result (λ toks. lexed mode file text.now ≡ tokens (tokens_of toks.items) toks.end) }
    ensures unlexed { IfErr result (λ fault. IfRefused fault
        (λ refusal. lexed mode file text.now ≡ refused refusal)) }
{
    let mut toks = Vec::new(alloc);
    let mut lexer = Lexer::new(text, file, mode);
    'steps: loop {
        match lexer.next() {
            LexStep::Token(tok) => toks.push(tok)?,
            LexStep::End(end) => return Ok(Toks::from_vec(toks, end)),
            LexStep::Refused(refusal) => return Err(Fault::Refused(refusal)),
        }
    }
}
