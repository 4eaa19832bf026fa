//! The names in an aspect: its own, and those of classes.

ghost use Rattle.std.specs.Prelude.{◌≡◌, ◌↔◌, ℕ, List, false, IsTrue, MatchOption};
ghost use Rattle.std.specs.List.{list_all};
ghost use Rattle.agxx_base.specs.Names.{is_known};
ghost use Rattle.cxx_lex.specs.Bytes as bytes;
ghost use Rattle.cxx_lex.specs.Tokens.{token_of};
ghost use Rattle.cxx_lex.specs.Words.{IsWord};
ghost use Rattle.ah_parse.specs.Aspects.{built_in};
ghost use Rattle.ah_parse.specs.Descent.{IsQuoted};

use cxx_lex::{Tok, TokKind};

/// Whether an aspect may have this name: no built-in aspect has it.
pub(crate) fn is_own(name: &[u8]) -> bool
    ensures { IsTrue result ↔ (is_known built_in name.now ≡ false) }
{
    name != b"GOP_Copies".as_slice() && name != b"GOP_Hamming".as_slice()
}

fn is_letter(b: u8) -> bool
    ensures { result ≡ bytes.is_letter b }
{
    (b'a' <= b && b <= b'z') || (b'A' <= b && b <= b'Z') || b == b'_'
}

fn is_part(b: u8) -> bool
    ensures { result ≡ bytes.is_part b }
{
    is_letter(b) || (b'0' <= b && b <= b'9')
}

fn are_parts(text: &[u8]) -> bool
    ensures { result ≡ list_all bytes.is_part text.now }
{
    for b in text {
        if !is_part(*b) {
            return false;
        }
    }
    true
}

/// Whether a text is a plain name: letters, digits and `_`, and no digit first.
fn is_plain(text: &[u8]) -> bool
    ensures { IsTrue result ↔ IsWord text.now }
{
    match text {
        [] => false,
        [first, rest @ ..] => is_letter(*first) && are_parts(rest),
    }
}

/// The class's name that a token has between quotes.
pub(crate) fn class_of<'t>(tok: &Tok<'t>) -> Option<&'t [u8]>
    ensures { MatchOption result ((class : List ℕ) → IsQuoted class (token_of tok.now) → ⊥)
        (λ class. IsQuoted class.now (token_of tok.now)) }
{
    if tok.kind != TokKind::Text {
        return None;
    }
    match tok.text {
        [b'"', class @ .., b'"'] => if is_plain(class) { Some(class) } else { None },
        _ => None,
    }
}
