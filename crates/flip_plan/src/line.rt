//! Words and lines.

ghost use Rattle.std.specs.Prelude.{◌≡◌, ◌+◌, ◌≤◌, ◌<◌, ◌^◌, length, IfOk};
ghost use Rattle.flip_plan.specs.Kinds as kinds;
ghost use Rattle.flip_plan.specs.Texts as spec;

use crate::pieces::{Pieces, Separator};
use agxx_base::{LARGEST_TEXT, ListOf, Memory};
use std::alloc::Global;
use std::marker::Model;

/// What a line is.
#[derive(Clone, Copy, Debug, PartialEq, Eq)]
pub(crate) enum LineKind {
    Passed,
    Limit,
    Turns,
    Cycle,
    Flip,
    Free,
    Unknown,
}

/// A word of a line.
#[derive(Drop)]
pub(crate) struct Word<'t> {
    column: u32,
    text: &'t [u8],
}

impl<'t> Model for Word<'t> {
    ghost use Rattle.std.specs.Prelude.{◌+◌, ◌<◌, ◌^◌, length};
    ghost use Rattle.flip_plan.specs.Texts.{Word};

    ghost Value = { Word };

    ghost view = { λ w. record { column = w.column; text = w.text.now } };

    ghost invariant = { λ w. w.column + length w.text.now < 2 ^ 32 };
}

impl<'t> Word<'t> {
    /// The column of its first byte.
    pub(crate) fn column(&self) -> u32
        ensures { result ≡ self.now.column }
    {
        self.column
    }

    /// The column behind some of its bytes.
    pub(crate) fn column_behind(&self, count: usize) -> u32
        requires { count ≤ length self.now.text }
        ensures { result ≡ self.now.column + count }
    {
        self.column + count as u32
    }

    pub(crate) fn text(&self) -> &'t [u8]
        ensures { result.now ≡ self.now.text }
    {
        self.text
    }
}

/// A line by its words.
#[derive(Drop)]
pub(crate) struct Line<'t> {
    file: u32,
    number: u32,
    words: ListOf<Word<'t>>,
    end: u32,
}

impl<'t> Model for Line<'t> {
    ghost use Rattle.flip_plan.specs.Texts.{Line};

    ghost Value = { Line };

    ghost view = { λ l. record { file = l.file; number = l.number; words = l.words; end = l.end } };
}

fn kind_of_word(text: &[u8]) -> LineKind
    ensures { result ≡ kinds.kind_of_word text.now }
{
    if text == b"limit".as_slice() {
        LineKind::Limit
    } else if text == b"turns".as_slice() {
        LineKind::Turns
    } else if text == b"cycle".as_slice() {
        LineKind::Cycle
    } else if text == b"flip".as_slice() {
        LineKind::Flip
    } else if text == b"free".as_slice() {
        LineKind::Free
    } else {
        LineKind::Unknown
    }
}

/// The kind whose rules a line has: a `free` line has those of a `flip` line.
fn ruled_as(kind: LineKind) -> LineKind
    ensures { result ≡ kinds.ruled_as kind }
{
    match kind {
        LineKind::Free => LineKind::Flip,
        _ => kind,
    }
}

fn is_comment(text: &[u8]) -> bool
    ensures { result ≡ kinds.is_comment text.now }
{
    match text {
        [] => false,
        [b, ..] => *b == b'#',
    }
}

/// The words of a line.
fn words_of<'t>(alloc: Global, text: &'t [u8]) -> Result<ListOf<Word<'t>>, Memory>
    requires { length text.now ≤ LARGEST_TEXT }
    ensures { IfOk result (λ words. words ≡ spec.words_of text.now) }
{
    let mut words = ListOf::new(alloc);
    let mut column: u32 = 1;
    let mut pieces = Pieces::new(Separator::Blank, text);
    'pieces: while let Some(piece) = pieces.next() {
        if !piece.is_empty() {
            words.push(Word {
                column,
                text: piece,
            })?;
        }
        column += piece.len() as u32 + 1;
    }
    Ok(words)
}

impl<'t> Line<'t> {
    /// The line of a number.
    pub(crate) fn read(
        alloc: Global,
        file: u32,
        number: u32,
        text: &'t [u8],
    ) -> Result<Line<'t>, Memory>
        requires { length text.now ≤ LARGEST_TEXT }
        ensures { IfOk result (λ line. line ≡ spec.line_at file number text.now) }
    {
        let end = text.len() as u32 + 1;
        Ok(Line {
            file,
            number,
            words: words_of(alloc, text)?,
            end,
        })
    }

    pub(crate) fn file(&self) -> u32
        ensures { result ≡ self.now.file }
    {
        self.file
    }

    pub(crate) fn number(&self) -> u32
        ensures { result ≡ self.now.number }
    {
        self.number
    }

    /// The column behind its last byte.
    pub(crate) fn end(&self) -> u32
        ensures { result ≡ self.now.end }
    {
        self.end
    }

    pub(crate) fn kind(&self) -> LineKind
        ensures { result ≡ kinds.kind_of self.now }
    {
        match self.words.as_slice() {
            [] => LineKind::Passed,
            [word, ..] => {
                if is_comment(word.text()) {
                    LineKind::Passed
                } else {
                    kind_of_word(word.text())
                }
            }
        }
    }

    /// The kind whose rules it has.
    pub(crate) fn ruled(&self) -> LineKind
        ensures { result ≡ kinds.ruled_as (kinds.kind_of self.now) }
    {
        ruled_as(self.kind())
    }

    /// The column of its first word.
    pub(crate) fn first_column(&self) -> u32
        ensures { result ≡ kinds.first_column self.now.words }
    {
        match self.words.as_slice() {
            [] => 1,
            [word, ..] => word.column(),
        }
    }

    /// The words behind the first.
    pub(crate) fn behind(&self) -> &[Word<'t>]
        ensures { result.now ≡ kinds.behind self.now.words }
    {
        match self.words.as_slice() {
            [] => &[],
            [_, rest @ ..] => rest,
        }
    }
}
