//! All tokens of a text, as a list.

ghost use Rattle.std.specs.Prelude.{◌≡◌, ◌<◌, Some, length, slice_get};

use crate::tok::Tok;
use agxx_base::Place;
use std::marker::Model;

/// The tokens of a text in order, and where the text ends.
#[derive(Debug, Drop)]
pub struct Toks<'s> {
    items: Vec<Tok<'s>>,
    end: Place,
}

impl<'s> Model for Toks<'s> {
    ghost use Rattle.cxx_lex.specs.TokList.{TokList};

    ghost Value = { TokList };

    ghost view = { λ toks. record { items = toks.items.items; end = toks.end } };
}

impl<'s> Toks<'s> {
    /// The tokens of a `Vec`, which takes no memory.
    pub(crate) fn from_vec(items: Vec<Tok<'s>>, end: Place) -> Toks<'s>
        ensures { result ≡ record { items = items.entry.items; end = end } }
    {
        Toks { items, end }
    }

    /// How many tokens there are.
    pub fn len(&self) -> usize
        ensures { result ≡ length self.now.items }
    {
        self.items.len()
    }

    /// Lends all tokens in order.
    pub fn as_slice(&self) -> &[Tok<'s>]
        ensures { result.now ≡ self.now.items }
    {
        self.items.as_slice()
    }

    /// Lends the token at an index, counted from 0.
    pub fn item(&self, index: usize) -> &Tok<'s>
        requires { index < length self.now.items }
        ensures { slice_get self.now.items index ≡ Some result.now }
    {
        &self.items[index]
    }

    /// The place behind the text's last byte.
    pub fn end(&self) -> Place
        ensures { result ≡ self.now.end }
    {
        self.end
    }
}
