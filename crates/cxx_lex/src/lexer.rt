//! The tokens of a text, one by one.

ghost use Rattle.std.specs.Prelude.{◌≡◌, ◌<◌, ◌≤◌, ◌+◌, ◌-◌, ◌^◌, length};
ghost use Rattle.cxx_lex.specs.Place as place;
ghost use Rattle.cxx_lex.specs.Place.{place_after, start_of};

use crate::front::{Front, front_of};
use crate::tok::Tok;
use agxx_base::{LARGEST_TEXT, Mode, Place, Refusal};
use std::marker::Model;

/// What a lexer finds.
#[derive(Clone, Copy, Debug)]
pub enum LexStep<'s> {
    Token(Tok<'s>),
    /// The text ends here.
    End(Place),
    /// No token stands here.
    Refused(Refusal),
}

fn next_place(at: Place, b: u8) -> Place
    requires line { at.line < 2 ^ 32 - 1 }
    requires column { at.column < 2 ^ 32 - 1 }
    ensures { result ≡ place.next_place at b }
{
    let (line, column) = if b == b'\n' {
        (at.line + 1, 1)
    } else {
        (at.line, at.column + 1)
    };
    Place {
        file: at.file,
        line,
        column,
    }
}

fn place_past(at: Place, text: &[u8]) -> Place
    requires line { at.line + length text.now < 2 ^ 32 }
    requires column { at.column + length text.now < 2 ^ 32 }
    ensures value { result ≡ place_after at text.now }
    ensures line { result.line ≤ at.line + length text.now }
    ensures column { result.column ≤ at.column + length text.now }
{
    let mut now = at;
    for b in text {
        now = next_place(now, *b);
    }
    now
}

/// What is left of a text. It borrows the text and takes no memory.
#[derive(Drop)]
pub struct Lexer<'s> {
    mode: Mode,
    at: Place,
    left: &'s [u8],
}

impl<'s> Model for Lexer<'s> {
    ghost use Rattle.cxx_lex.specs.Left.{Left, left_of, IsRoomy};

    ghost Value = { Left };

    ghost view = { left_of };

    ghost invariant = { IsRoomy };
}

impl<'s> Lexer<'s> {
    ghost use Rattle.cxx_lex.specs.Steps.{Steps};

    /// A lexer at the beginning of a text. `file` is the number of the text's file in places.
    pub fn new(text: &'s [u8], file: u32, mode: Mode) -> Lexer<'s>
        requires { length text.now ≤ LARGEST_TEXT }
        ensures { result ≡ record { mode = mode; at = start_of file; text = text.now } }
    {
        Lexer {
            mode,
            at: Place {
                file,
                line: 1,
                column: 1,
            },
            left: text,
        }
    }

    /// The next token, or the end, or the first place where no token stands. Only behind a token does the lexer move:
    /// at the end, and where it refuses, it answers the same again.
    pub fn next(&mut self) -> LexStep<'s>
        ensures { Steps self.old result self.new }
    {
        let mut at = self.at;
        let mut left = self.left;
        'gaps: loop {
            if left.is_empty() {
                return LexStep::End(at);
            }
            match front_of(self.mode, left) {
                Front::Gap(len) => {
                    let (gap, rest) = left.split_at(len);
                    at = place_past(at, gap);
                    left = rest;
                }
                Front::Token(kind, len) => {
                    let (text, rest) = left.split_at(len);
                    self.left = rest;
                    self.at = place_past(at, text);
                    return LexStep::Token(Tok { kind, text, at });
                }
                Front::Refused(rule, len) => {
                    let place = place_past(at, &left[..len]);
                    return LexStep::Refused(Refusal { rule, place });
                }
            }
        }
    }
}
