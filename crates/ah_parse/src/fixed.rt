//! The words that stand in each aspect.

ghost use Rattle.std.specs.Prelude.{◌≡◌, ◌↔◌, IsTrue};
ghost use Rattle.cxx_lex.specs.Tokens.{token_of};
ghost use Rattle.ah_parse.specs.Aspects.{word_of};
ghost use Rattle.ah_parse.specs.Descent as spec;

use agxx_base::{Keyword, Sign};
use cxx_lex::{Tok, TokKind};
use guards::GuardKind;

/// A word that stands in each aspect.
#[derive(Clone, Copy, Debug)]
pub(crate) enum Fixed {
    Aspect,
    Colon,
    Public,
    /// The built-in aspect that guards in this way.
    Base(GuardKind),
    OpenBrace,
    Pointcut,
    /// `guarded`
    Guarded,
    OpenParen,
    CloseParen,
    Assign,
    OrOr,
    Semicolon,
    CloseBrace,
}

fn same_text(text: &[u8], other: &[u8]) -> bool
    ensures { IsTrue result ↔ (text.now ≡ other.now) }
{
    text == other
}

impl Fixed {
    fn text(self) -> &'static [u8]
        ensures { result.now ≡ spec.fixed_text self }
    {
        match self {
            Fixed::Aspect => b"aspect",
            Fixed::Colon => b":",
            Fixed::Public => b"public",
            Fixed::Base(GuardKind::Copies) => b"GOP_Copies",
            Fixed::Base(GuardKind::Hamming) => b"GOP_Hamming",
            Fixed::OpenBrace => b"{",
            Fixed::Pointcut => b"pointcut",
            Fixed::Guarded => b"guarded",
            Fixed::OpenParen => b"(",
            Fixed::CloseParen => b")",
            Fixed::Assign => b"=",
            Fixed::OrOr => b"||",
            Fixed::Semicolon => b";",
            Fixed::CloseBrace => b"}",
        }
    }

    fn has_kind(self, kind: TokKind) -> bool
        ensures { IsTrue result ↔ (kind ≡ spec.fixed_kind self) }
    {
        match self {
            Fixed::Aspect => kind == TokKind::Keyword(Keyword::Aspect),
            Fixed::Colon => kind == TokKind::Sign(Sign::Colon),
            Fixed::Public => kind == TokKind::Keyword(Keyword::Public),
            Fixed::Base(_) | Fixed::Guarded => kind == TokKind::Name,
            Fixed::OpenBrace => kind == TokKind::Sign(Sign::OpenBrace),
            Fixed::Pointcut => kind == TokKind::Keyword(Keyword::Pointcut),
            Fixed::OpenParen => kind == TokKind::Sign(Sign::OpenParen),
            Fixed::CloseParen => kind == TokKind::Sign(Sign::CloseParen),
            Fixed::Assign => kind == TokKind::Sign(Sign::Assign),
            Fixed::OrOr => kind == TokKind::Sign(Sign::OrOr),
            Fixed::Semicolon => kind == TokKind::Sign(Sign::Semicolon),
            Fixed::CloseBrace => kind == TokKind::Sign(Sign::CloseBrace),
        }
    }

    /// Whether a token is this word.
    pub(crate) fn is(self, tok: &Tok) -> bool
        ensures { IsTrue result ↔ (word_of (token_of tok.now) ≡ spec.fixed_word self) }
    {
        self.has_kind(tok.kind) && same_text(tok.text, self.text())
    }
}
