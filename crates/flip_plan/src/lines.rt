//! The lines of a text, one by one.

ghost use Rattle.std.specs.Prelude.{◌≡◌, ◌≤◌, [], ◌∷◌, length, IfOk, MatchOption};
ghost use Rattle.flip_plan.specs.Texts.{lines_of};

use crate::line::Line;
use crate::pieces::{Pieces, Separator};
use agxx_base::{LARGEST_TEXT, Memory};
use std::alloc::Global;
use std::marker::Model;

/// The lines of a text that are left.
#[derive(Drop)]
pub(crate) struct Lines<'t> {
    file: u32,
    /// The number of the next line.
    number: u32,
    pieces: Pieces<'t>,
}

impl<'t> Model for Lines<'t> {
    ghost use Rattle.std.specs.Prelude.{List, ◌+◌, ◌≤◌};
    ghost use Rattle.agxx_base.specs.Sizes.{largest_text};
    ghost use Rattle.flip_plan.specs.Texts.{Line, lines_from, span};

    ghost Value = { List Line };

    ghost view = { λ l. lines_from l.file l.number l.pieces };

    ghost invariant = { λ l. (1 ≤ l.number) × (l.number + span l.pieces ≤ largest_text + 2) };
}

impl<'t> Lines<'t> {
    /// All lines of a text.
    pub(crate) fn new(text: &'t [u8], file: u32) -> Lines<'t>
        requires { length text.now ≤ LARGEST_TEXT }
        ensures { result ≡ lines_of file text.now }
    {
        Lines {
            file,
            number: 1,
            pieces: Pieces::new(Separator::Newline, text),
        }
    }

    /// Takes the next line.
    pub(crate) fn next(&mut self, alloc: Global) -> Result<Option<Line<'t>>, Memory>
        ensures { IfOk result (λ next. MatchOption next ((self.old ≡ []) × (self.new ≡ []))
            (λ line. self.old ≡ line ∷ self.new)) }
    {
        let Some(text) = self.pieces.next() else {
            return Ok(None);
        };
        let line = Line::read(alloc, self.file, self.number, text)?;
        self.number += 1;
        Ok(Some(line))
    }
}
