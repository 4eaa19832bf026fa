//! String literals in a text.

ghost use Rattle.std.specs.Prelude.{◌≡◌, ◌≤◌, ◌+◌, length, IfSome};
ghost use Rattle.cxx_lex.specs.StringScan as scan;
ghost use Rattle.cxx_lex.specs.Strings as strings;

use crate::bytes::{begins_with, is_escape, is_plain};
use crate::tok::{Lexeme, TokKind};

/// How many bytes of plain bytes and escapes there are behind a quote.
pub fn body_len(text: &[u8]) -> usize
    ensures value { result ≡ scan.body_len text.now }
    ensures within { result ≤ length text.now }
{
    let mut n = 0;
    while n < text.len() {
        match &text[n..] {
            [b'\\', c, ..] if is_escape(*c) => n += 2,
            [b'\\', ..] => break,
            [b, ..] if is_plain(*b) => n += 1,
            _ => break,
        }
    }
    n
}

/// The string whose opening quote stands before the text.
#[tactic(auto, unfolding(crate::specs::StringScan::string_lexeme))]
pub fn string(text: &[u8]) -> Option<Lexeme>
    ensures value { result ≡ scan.string_lexeme text.now }
    ensures within { IfSome result (λ l. l.len ≤ 1 + length text.now) }
{
    let len = body_len(text);
    if !begins_with(b'"', &text[len..]) {
        return None;
    }
    Some(Lexeme {
        kind: Ok(TokKind::Text),
        len: len + 2,
    })
}

/// What is wrong with a string.
#[derive(Clone, Copy, Debug, PartialEq, Eq)]
pub enum StringFault {
    /// Its line or its file ends, maybe behind a backslash.
    Unclosed,
    /// A byte or an escape that no string has.
    BadByte,
}

/// What is wrong with a string that goes on so, if anything.
pub fn string_fault(text: &[u8]) -> Option<StringFault>
    ensures { result ≡ strings.string_fault text.now }
{
    match text {
        [] | [b'\n', ..] | [b'\\'] | [b'\\', b'\n', ..] => Some(StringFault::Unclosed),
        [b'"', ..] => None,
        [b'\\', c, ..] if is_escape(*c) => None,
        [b'\\', ..] => Some(StringFault::BadByte),
        [b, ..] if is_plain(*b) => None,
        [_, ..] => Some(StringFault::BadByte),
    }
}
