//! Names and keywords.

ghost use Rattle.std.specs.Prelude.{◌≡◌, ◌≤◌, length};
ghost use Rattle.cxx_lex.specs.Words as words;
ghost use Rattle.cxx_lex.specs.WordScan as scan;

use crate::bytes::{Class, has_pair, run_len};
use crate::keywords::keyword;
use crate::tok::{Lexeme, TokKind};
use agxx_base::{Mode, Rule};

fn name_limit(mode: Mode) -> usize
    ensures { result ≡ words.name_limit mode }
{
    match mode {
        Mode::Source => 64,
        Mode::Woven => 96,
    }
}

fn is_reserved(mode: Mode, name: &[u8]) -> bool
    ensures { result ≡ words.is_reserved mode name.now }
{
    match mode {
        Mode::Source => has_pair(b'_', b'_', name),
        Mode::Woven => false,
    }
}

fn name_verdict(mode: Mode, name: &[u8]) -> Result<TokKind, Rule>
    ensures { result ≡ words.name_verdict mode name.now }
{
    if name.len() > name_limit(mode) {
        return Err(Rule::L5);
    }
    if is_reserved(mode, name) {
        return Err(Rule::L4);
    }
    Ok(TokKind::Name)
}

fn word_verdict(mode: Mode, word: &[u8]) -> Result<TokKind, Rule>
    ensures { result ≡ words.word_verdict mode word.now }
{
    match keyword(word) {
        Some(keyword) => Ok(TokKind::Keyword(keyword)),
        None => name_verdict(mode, word),
    }
}

/// The word at the front of a text that begins with a letter.
#[tactic(auto, unfolding(crate::specs::WordScan::word_lexeme))]
pub fn word(mode: Mode, text: &[u8]) -> Lexeme
    ensures value { result ≡ scan.word_lexeme mode text.now }
    ensures within { result.len ≤ length text.now }
{
    let len = run_len(Class::Part, text);
    Lexeme {
        kind: word_verdict(mode, &text[..len]),
        len,
    }
}
