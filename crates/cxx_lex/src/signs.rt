//! Signs, the longest first.

ghost use Rattle.std.specs.Prelude.{◌≡◌, ◌≤◌, length, IfSome};
ghost use Rattle.cxx_lex.specs.SignScan as scan;

use crate::tok::{Lexeme, TokKind};
use agxx_base::Sign;

#[tactic(auto, unfolding(crate::specs::SignScan::one))]
fn one(b: u8) -> Option<Sign>
    ensures { result ≡ scan.one b }
{
    match b {
        b'{' => Some(Sign::OpenBrace),
        b'}' => Some(Sign::CloseBrace),
        b'(' => Some(Sign::OpenParen),
        b')' => Some(Sign::CloseParen),
        b';' => Some(Sign::Semicolon),
        b',' => Some(Sign::Comma),
        b':' => Some(Sign::Colon),
        b'.' => Some(Sign::Dot),
        b'+' => Some(Sign::Plus),
        b'-' => Some(Sign::Minus),
        b'*' => Some(Sign::Star),
        b'/' => Some(Sign::Slash),
        b'%' => Some(Sign::Percent),
        b'&' => Some(Sign::And),
        b'|' => Some(Sign::Or),
        b'^' => Some(Sign::Caret),
        b'~' => Some(Sign::Tilde),
        b'!' => Some(Sign::Not),
        b'<' => Some(Sign::Less),
        b'>' => Some(Sign::Greater),
        b'=' => Some(Sign::Assign),
        _ => None,
    }
}

/// A sign with `=` at its end.
#[tactic(auto, unfolding(crate::specs::SignScan::two))]
fn with_equal(b: u8) -> Option<Sign>
    ensures { result ≡ scan.two b 61 }
{
    match b {
        b'<' => Some(Sign::LessEqual),
        b'>' => Some(Sign::GreaterEqual),
        b'=' => Some(Sign::EqualEqual),
        b'!' => Some(Sign::NotEqual),
        b'+' => Some(Sign::PlusAssign),
        b'-' => Some(Sign::MinusAssign),
        b'*' => Some(Sign::StarAssign),
        b'/' => Some(Sign::SlashAssign),
        b'%' => Some(Sign::PercentAssign),
        _ => None,
    }
}

#[tactic(auto, unfolding(crate::specs::SignScan::two))]
fn two(b: u8, c: u8) -> Option<Sign>
    ensures { result ≡ scan.two b c }
{
    if c == b'=' {
        return with_equal(b);
    }
    match (b, c) {
        (b':', b':') => Some(Sign::ColonColon),
        (b'-', b'>') => Some(Sign::Arrow),
        (b'&', b'&') => Some(Sign::AndAnd),
        (b'|', b'|') => Some(Sign::OrOr),
        (b'<', b'<') => Some(Sign::ShiftLeft),
        (b'>', b'>') => Some(Sign::ShiftRight),
        (b'+', b'+') => Some(Sign::PlusPlus),
        (b'-', b'-') => Some(Sign::MinusMinus),
        _ => None,
    }
}

#[tactic(auto, unfolding(crate::specs::SignScan::three))]
fn three(b: u8, c: u8, d: u8) -> Option<Sign>
    ensures { result ≡ scan.three b c d }
{
    if b == b'.' && c == b'.' && d == b'.' {
        Some(Sign::Ellipsis)
    } else {
        None
    }
}

/// The sign, else another answer.
fn sign_or(len: usize, sign: Option<Sign>, other: Option<Lexeme>) -> Option<Lexeme>
    ensures { result ≡ scan.sign_or len sign other }
{
    match sign {
        Some(sign) => Some(Lexeme {
            kind: Ok(TokKind::Sign(sign)),
            len,
        }),
        None => other,
    }
}

/// The sign at the front of a text.
#[tactic(auto, unfolding(crate::specs::SignScan::sign_lexeme))]
pub fn sign(text: &[u8]) -> Option<Lexeme>
    ensures value { result ≡ scan.sign_lexeme text.now }
    ensures within { IfSome result (λ l. l.len ≤ length text.now) }
{
    match text {
        [] => None,
        [b] => sign_or(1, one(*b), None),
        [b, c] => sign_or(2, two(*b, *c), sign_or(1, one(*b), None)),
        [b, c, d, ..] => sign_or(
            3,
            three(*b, *c, *d),
            sign_or(2, two(*b, *c), sign_or(1, one(*b), None)),
        ),
    }
}
