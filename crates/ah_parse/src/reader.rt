//! A cursor over the tokens of a guard file, and the parts of an aspect.

ghost use Rattle.std.specs.Prelude.{◌≡◌, ◌↔◌, [], ◌∷◌, IfOk, IsTrue, MatchBool, MatchOption};
ghost use Rattle.cxx_lex.specs.Tokens.{token_of};
ghost use Rattle.cxx_lex.specs.TokList.{tokens_of};
ghost use Rattle.cxx_lex.specs.Words.{IsWord};
ghost use Rattle.ah_parse.specs.Aspects.{Begins, heading, quoted, IsAspect};
ghost use Rattle.ah_parse.specs.Descent.{fixed_word, fixed_words, NeverBegins, IsName, IsNoName};
ghost use Rattle.ah_parse.specs.Descent.{IsNoAspect, IsNoOpening, IsHeading, IsNoHeading, IsNoQuoted};
ghost use Rattle.ah_parse.specs.Descent.{AreClasses, AreNoClasses, IsClass, IsNoClass, IsEnd, IsNoEnd};

use crate::aspect::GuardAspect;
use crate::fixed::Fixed;
use crate::words::{class_of, is_own};
use agxx_base::{ListOf, Memory, Text};
use cxx_lex::{Tok, TokKind};
use guards::GuardKind;
use std::alloc::Global;
use std::marker::Model;

/// The tokens that are not read yet.
#[derive(Drop)]
pub(crate) struct Reader<'t> {
    left: &'t [Tok<'t>],
}

impl<'t> Model for Reader<'t> {
    ghost use Rattle.std.specs.Prelude.{List};
    ghost use Rattle.cxx_lex.specs.TokList.{tokens_of};
    ghost use Rattle.cxx_lex.specs.Tokens.{Token};

    ghost Value = { List Token };

    ghost view = { λ reader. tokens_of reader.left.now };
}

impl<'t> Reader<'t> {
    pub(crate) fn new(left: &'t [Tok<'t>]) -> Reader<'t>
        ensures { result ≡ tokens_of left.now }
    {
        Reader { left }
    }

    pub(crate) fn is_empty(&self) -> bool
        ensures { IsTrue result ↔ (self.now ≡ []) }
    {
        self.left.is_empty()
    }

    /// Passes this word, where it comes next.
    fn pass(&mut self, word: Fixed) -> bool
        ensures { MatchBool result (Begins (fixed_word word ∷ []) self.old self.new)
            (NeverBegins (fixed_word word ∷ []) self.old × (self.new ≡ self.old)) }
    {
        match self.left {
            [] => false,
            [next, left @ ..] => {
                if !word.is(next) {
                    return false;
                }
                self.left = left;
                true
            },
        }
    }

    /// Passes these words, where they come next.
    #[tactic(auto, using(crate::proofs::Parts::never_all))]
    fn pass_all(&mut self, words: &[Fixed]) -> bool
        ensures { MatchBool result (Begins (fixed_words words.now) self.old self.new)
            (NeverBegins (fixed_words words.now) self.old) }
    {
        match words {
            [] => true,
            [word, words @ ..] => {
                if !self.pass(*word) {
                    return false;
                }
                self.pass_all(words)
            },
        }
    }

    /// Passes the name of an aspect.
    fn name(&mut self) -> Option<Tok<'t>>
        ensures { MatchOption result (IsNoName self.old)
            (λ name. IsName (token_of name) self.old self.new) }
    {
        match self.left {
            [] => None,
            [name, left @ ..] => {
                if name.kind != TokKind::Name || !is_own(name.text) {
                    return None;
                }
                self.left = left;
                Some(*name)
            },
        }
    }

    /// Passes what stands between an aspect's name and its first class, where the aspect guards in this way.
    fn pass_opening(&mut self, guard: GuardKind) -> bool
        ensures { MatchBool result (Begins (heading guard) self.old self.new)
            (NeverBegins (heading guard) self.old) }
    {
        self.pass_all(&[
            Fixed::Colon,
            Fixed::Public,
            Fixed::Base(guard),
            Fixed::OpenBrace,
            Fixed::Pointcut,
            Fixed::Guarded,
            Fixed::OpenParen,
            Fixed::CloseParen,
            Fixed::Assign,
        ])
    }

    /// Passes what stands between an aspect's name and its first class, and tells how the aspect guards.
    fn opening(&mut self) -> Option<GuardKind>
        ensures { MatchOption result (IsNoOpening self.old)
            (λ guard. Begins (heading guard) self.old self.new) }
    {
        let left = self.left;
        if self.pass_opening(GuardKind::Copies) {
            return Some(GuardKind::Copies);
        }
        self.left = left;
        if self.pass_opening(GuardKind::Hamming) {
            Some(GuardKind::Hamming)
        } else {
            None
        }
    }

    /// Passes an aspect up to its first class, and tells how it guards, and its name.
    fn heading(&mut self) -> Option<(GuardKind, Tok<'t>)>
        ensures { MatchOption result (IsNoHeading self.old)
            (λ p. IsHeading p.0 (token_of p.1) self.old self.new) }
    {
        if !self.pass(Fixed::Aspect) {
            return None;
        }
        match self.name() {
            None => None,
            Some(name) => match self.opening() {
                None => None,
                Some(guard) => Some((guard, name)),
            },
        }
    }

    /// Passes the sign behind a class, and tells whether it is the `;` behind the last.
    fn end(&mut self) -> Option<bool>
        ensures { MatchOption result (IsNoEnd self.old) (λ last. IsEnd last self.old self.new) }
    {
        if self.pass(Fixed::Semicolon) {
            return Some(true);
        }
        if self.pass(Fixed::OrOr) {
            Some(false)
        } else {
            None
        }
    }

    /// Passes a class between quotes.
    fn quoted(&mut self) -> Option<&'t [u8]>
        ensures { MatchOption result (IsNoQuoted self.old)
            (λ class. IsWord class.now × Begins (quoted class.now ∷ []) self.old self.new) }
    {
        match self.left {
            [] => None,
            [next, left @ ..] => match class_of(next) {
                None => None,
                Some(class) => {
                    self.left = left;
                    Some(class)
                },
            },
        }
    }

    /// Passes a class and the sign behind it, and tells the class, and whether it is the last.
    fn class(&mut self) -> Option<(&'t [u8], bool)>
        ensures { MatchOption result (IsNoClass self.old)
            (λ p. IsClass p.0.now p.1 self.old self.new) }
    {
        match self.quoted() {
            None => None,
            Some(class) => match self.end() {
                None => None,
                Some(last) => Some((class, last)),
            },
        }
    }

    /// The classes, up to the `;` behind them.
    fn classes(&mut self, alloc: Global) -> Result<Option<ListOf<Text>>, Memory>
        ensures { IfOk result (λ found. MatchOption found (AreNoClasses self.old)
            (λ classes. AreClasses classes self.old self.new)) }
    {
        let mut classes = ListOf::new(alloc);
        'classes: loop {
            let Some((class, last)) = self.class() else {
                return Ok(None);
            };
            let text = Text::from_bytes(alloc, class)?;
            classes.push(text)?;
            if last {
                return Ok(Some(classes));
            }
        }
    }

    /// The aspect with which the tokens begin.
    pub(crate) fn aspect(&mut self, alloc: Global) -> Result<Option<GuardAspect>, Memory>
        ensures { IfOk result (λ found. MatchOption found (IsNoAspect self.old)
            (λ aspect. IsAspect aspect self.old self.new)) }
    {
        let Some((guard, name)) = self.heading() else {
            return Ok(None);
        };
        let Some(classes) = self.classes(alloc)? else {
            return Ok(None);
        };
        if !self.pass_all(&[Fixed::CloseBrace, Fixed::Semicolon]) {
            return Ok(None);
        }
        let text = Text::from_bytes(alloc, name.text)?;
        Ok(Some(GuardAspect {
            name: text,
            at: name.at,
            kind: guard,
            classes,
        }))
    }
}
