//! What stands at the front of a text.

ghost use Rattle.std.specs.Prelude.{◌≡◌, ◌≤◌, ◌<◌, ◌+◌, ◌^◌, length, IfSome, IfNone};
ghost use Rattle.cxx_lex.specs.Runs as runs;
ghost use Rattle.cxx_lex.specs.Tokens as tokens;
ghost use Rattle.cxx_lex.specs.Scan as scan;

use crate::bytes::{Class, is_blank, is_digit, is_letter, is_part, run_len};
use crate::directives::directive;
use crate::numbers::number;
use crate::signs::sign;
use crate::strings::{StringFault, body_len, string, string_fault};
use crate::tok::{Lexeme, TokKind};
use crate::words::word;
use agxx_base::{Mode, Rule};

/// What a text begins with.
#[derive(Clone, Copy, Debug, PartialEq, Eq)]
pub enum Front {
    /// A blank or a comment of so many bytes.
    Gap(usize),
    /// A token of so many bytes.
    Token(TokKind, usize),
    /// No token: the rule is violated behind so many bytes.
    Refused(Rule, usize),
}

/// The longest member of the sets of tokens that stands here.
fn lexeme(mode: Mode, text: &[u8]) -> Option<Lexeme>
    requires { length text.now < 2 ^ 32 }
    ensures value { result ≡ scan.lexeme mode text.now }
    ensures within { IfSome result (λ l. l.len ≤ length text.now) }
{
    let [b, rest @ ..] = text else {
        return None;
    };
    if is_letter(*b) {
        Some(word(mode, text))
    } else if is_digit(*b) {
        Some(number(text))
    } else if *b == b'"' {
        string(rest)
    } else if *b == b'#' {
        directive(rest)
    } else {
        sign(text)
    }
}

fn closes(text: &[u8]) -> bool
    ensures { result ≡ runs.closes text.now }
{
    match text {
        [b, c, ..] => *b == b'*' && *c == b'/',
        _ => false,
    }
}

/// How many bytes there are to the end of the first `*/`.
fn close_len(text: &[u8]) -> Option<usize>
    ensures value { result ≡ runs.close_len text.now }
    ensures within { IfSome result (λ n. n ≤ length text.now) }
{
    let mut n = 0;
    while n < text.len() {
        if closes(&text[n..]) {
            return Some(n + 2);
        }
        n += 1;
    }
    None
}

/// The comment that begins here.
fn comment(text: &[u8]) -> Option<Front>
    ensures value { result ≡ scan.comment_front text.now }
    ensures within { IfSome result (λ f. scan.IsWithin f (length text.now)) }
{
    match text {
        [b'/', b'/', rest @ ..] => Some(Front::Gap(run_len(Class::InLine, rest) + 2)),
        [b'/', b'*', rest @ ..] => Some(match close_len(rest) {
            Some(len) => Front::Gap(len + 2),
            None => Front::Refused(Rule::L2, 0),
        }),
        _ => None,
    }
}

/// What is refused where no token stands.
fn nothing(text: &[u8]) -> Front
    ensures value { result ≡ scan.nothing_front text.now }
    ensures within { scan.IsWithin result (length text.now) }
{
    let [b'"', rest @ ..] = text else {
        return Front::Refused(Rule::L1, 0);
    };
    let len = body_len(rest);
    match string_fault(&rest[len..]) {
        Some(StringFault::Unclosed) => Front::Refused(Rule::L2, 0),
        Some(StringFault::BadByte) => Front::Refused(Rule::L1, len + 1),
        None => Front::Refused(Rule::L1, 0),
    }
}

/// Whether the token may not stand before the rest.
fn clashes(token: TokKind, rest: &[u8]) -> bool
    ensures { result ≡ tokens.clashes token rest.now }
{
    match (token, rest) {
        (TokKind::Number { .. }, [b, ..]) => is_part(*b),
        _ => false,
    }
}

/// What stands at the front of a text that isn't empty.
#[tactic(auto, unfolding(crate::specs::Scan::front_of))]
pub fn front_of(mode: Mode, text: &[u8]) -> Front
    requires some { 0 < length text.now }
    requires short { length text.now < 2 ^ 32 }
    ensures value { result ≡ scan.front_of mode text.now }
    ensures within { scan.IsWithin result (length text.now) }
{
    if is_blank(text[0]) {
        return Front::Gap(1);
    }
    if let Some(front) = comment(text) {
        return front;
    }
    let Some(Lexeme { kind, len }) = lexeme(mode, text) else {
        return nothing(text);
    };
    match kind {
        Err(rule) => Front::Refused(rule, 0),
        Ok(token) => {
            if clashes(token, &text[len..]) {
                Front::Refused(Rule::L1, len)
            } else {
                Front::Token(token, len)
            }
        }
    }
}
