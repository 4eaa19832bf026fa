//! The parts of a text between bytes that separate.

ghost use Rattle.std.specs.Prelude.{◌≡◌, ◌+◌, ◌≤◌, [], ◌∷◌, length, MatchOption};
ghost use Rattle.std.specs.List.{position_or_len};
ghost use Rattle.flip_plan.specs.Texts as spec;
ghost use Rattle.flip_plan.specs.Texts.{parts, span};

use std::marker::Model;

/// Bytes that separate parts of a text.
#[derive(Clone, Copy, Debug, PartialEq, Eq)]
pub(crate) enum Separator {
    Newline,
    /// A blank that doesn't end its line.
    Blank,
    Star,
}

fn separates(separator: Separator, b: u8) -> bool
    ensures { result ≡ spec.separates separator b }
{
    match separator {
        Separator::Newline => b == b'\n',
        Separator::Blank => b == b' ' || b == b'\t' || b == 12 || b == b'\r',
        Separator::Star => b == b'*',
    }
}

/// How many bytes stand before the first that separates.
fn part_len(separator: Separator, text: &[u8]) -> usize
    ensures value { result ≡ position_or_len (spec.separates separator) text.now }
    ensures within { result ≤ length text.now }
{
    let mut n = 0;
    while n < text.len() && !separates(separator, text[n]) {
        n += 1;
    }
    n
}

/// The parts of a text that are left.
#[derive(Drop)]
pub(crate) struct Pieces<'t> {
    separator: Separator,
    left: &'t [u8],
    is_over: bool,
}

impl<'t> Model for Pieces<'t> {
    ghost use Rattle.std.specs.Prelude.{List, ℕ, [], if◌then◌else◌};
    ghost use Rattle.flip_plan.specs.Texts.{parts};

    ghost Value = { List (List ℕ) };

    ghost view = { λ p. if p.is_over then [] else parts p.separator p.left.now };
}

impl<'t> Pieces<'t> {
    /// All parts of a text.
    #[tactic(auto, using(crate::proofs::Parts::span_parts))]
    pub(crate) fn new(separator: Separator, text: &'t [u8]) -> Pieces<'t>
        ensures value { result ≡ parts separator text.now }
        ensures size { span result ≡ length text.now + 1 }
    {
        Pieces {
            separator,
            left: text,
            is_over: false,
        }
    }

    /// Takes the next part.
    pub(crate) fn next(&mut self) -> Option<&'t [u8]>
        ensures { MatchOption result ((self.old ≡ []) × (self.new ≡ [])) (λ part. self.old ≡ part.now ∷ self.new) }
    {
        if self.is_over {
            return None;
        }
        let (part, rest) = self.left.split_at(part_len(self.separator, self.left));
        match rest {
            [] => {
                self.is_over = true;
                Some(part)
            }
            [_, left @ ..] => {
                self.left = left;
                Some(part)
            }
        }
    }
}
