//! `#include <..>` and `#pragma once`.

ghost use Rattle.std.specs.Prelude.{◌≡◌, ◌≤◌, ◌+◌, ◌<◌, ◌^◌, length, IfSome};
ghost use Rattle.cxx_lex.specs.DirectiveScan as scan;
ghost use Rattle.cxx_lex.specs.Directives.{bracketed};

use crate::bytes::{Class, run_len};
use crate::tok::{Lexeme, TokKind};
use agxx_base::Header;

fn header_at(text: &[u8]) -> Option<Header>
    ensures value { result ≡ scan.header_at text.now }
    ensures within { IfSome result (λ h. length (bracketed h) ≤ length text.now) }
{
    if text.starts_with(b"<cstdint>") {
        Some(Header::Cstdint)
    } else if text.starts_with(b"<cstdlib>") {
        Some(Header::Cstdlib)
    } else if text.starts_with(b"<iostream>") {
        Some(Header::Iostream)
    } else if text.starts_with(b"<mutex>") {
        Some(Header::Mutex)
    } else if text.starts_with(b"<thread>") {
        Some(Header::Thread)
    } else {
        None
    }
}

fn bracketed_len(header: Header) -> usize
    ensures { result ≡ length (bracketed header) }
{
    match header {
        Header::Cstdint | Header::Cstdlib => 9,
        Header::Iostream => 10,
        Header::Mutex => 7,
        Header::Thread => 8,
    }
}

/// The directive, where `before` bytes and `include` stand before the text.
fn include(before: usize, text: &[u8]) -> Option<Lexeme>
    requires { before + length text.now < 2 ^ 33 }
    ensures value { result ≡ scan.include_lexeme before text.now }
    ensures within { IfSome result (λ l. l.len ≤ before + length text.now) }
{
    let gap = run_len(Class::Space, text);
    let header = header_at(&text[gap..])?;
    Some(Lexeme {
        kind: Ok(TokKind::Include(header)),
        len: before + gap + bracketed_len(header),
    })
}

/// The directive, where `before` bytes and `pragma` stand before the text.
fn pragma(before: usize, text: &[u8]) -> Option<Lexeme>
    requires { before + length text.now < 2 ^ 33 }
    ensures value { result ≡ scan.pragma_lexeme before text.now }
    ensures within { IfSome result (λ l. l.len ≤ before + length text.now) }
{
    let gap = run_len(Class::Space, text);
    if gap == 0 || !text[gap..].starts_with(b"once") {
        return None;
    }
    Some(Lexeme {
        kind: Ok(TokKind::PragmaOnce),
        len: before + gap + 4,
    })
}

/// The directive whose `#` stands before the text.
#[tactic(auto, unfolding(crate::specs::DirectiveScan::directive_lexeme))]
pub fn directive(text: &[u8]) -> Option<Lexeme>
    requires { length text.now < 2 ^ 32 }
    ensures value { result ≡ scan.directive_lexeme text.now }
    ensures within { IfSome result (λ l. l.len ≤ 1 + length text.now) }
{
    let gap = run_len(Class::Space, text);
    let words = &text[gap..];
    if words.starts_with(b"include") {
        include(gap + 8, &words[7..])
    } else if words.starts_with(b"pragma") {
        pragma(gap + 7, &words[6..])
    } else {
        None
    }
}
