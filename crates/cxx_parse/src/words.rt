//! Tokens as the words that the parser reads.

ghost use Rattle.std.specs.Prelude.{◌≡◌, ◌≤◌, map, codes, OnOk, IfOk};
ghost use Rattle.cxx_lex.specs.TokList.{tokens_of as lexed_tokens};
ghost use Rattle.cxx_lex.specs.Tokens.{token_of as lexed_token};
ghost use Rattle.cxx_expr.specs.Tokens.{tokens_of, token_of};
ghost use Rattle.cxx_parse.specs.Numbering as numbering;
ghost use Rattle.cxx_parse.specs.Owned.{owned_word, owned_token};

use agxx_base::{Header, Keyword, Memory, Mode, NameId, Names, Sign, Text};
use cxx_expr::{Word, WordAt};
use cxx_lex::{Tok, TokKind, string_bytes};
use cxx_stmt::Dialect;
use cxx_tree::{Number, Placed};
use std::alloc::Global;

/// A token, with a name by its number and a string by the bytes that it stands for.
#[derive(Debug, Drop)]
pub(crate) enum Owned {
    Name(NameId),
    Number(Number),
    Text(Text),
    Keyword(Keyword),
    Sign(Sign),
    Include(Header),
    Pragma,
}

/// How a program is read, for which the names with a meaning get numbers.
#[tactic(auto, using(crate::proofs::Numbers::longer_names))]
pub(crate) fn dialect_of(mode: Mode, names: &mut Names) -> Result<Dialect, Memory>
    ensures dialect { IfOk result (λ d. d ≡ numbering.dialect_in mode names.new) }
    ensures names { OnOk result (names.new ≡ numbering.with_special names.old) }
    ensures kept { numbering.IsLonger names.old names.new }
{
    let std = names.intern(b"std".as_slice())?;
    let mutex = names.intern(b"mutex".as_slice())?;
    let thread = names.intern(b"thread".as_slice())?;
    let cout = names.intern(b"cout".as_slice())?;
    let endl = names.intern(b"endl".as_slice())?;
    let abort = names.intern(b"abort".as_slice())?;
    Ok(Dialect {
        mode,
        std,
        mutex,
        thread,
        cout,
        endl,
        abort,
    })
}

#[tactic(auto, using(crate::proofs::Numbers::number_of_name))]
fn owned_of(alloc: Global, names: &mut Names, tok: &Tok) -> Result<Owned, Memory>
    ensures word { IfOk result (λ o. owned_word o ≡ numbering.word_in names.new tok.now.kind tok.now.text.now) }
    ensures names { OnOk result (names.new ≡ numbering.with_name names.old tok.now.kind tok.now.text.now) }
    ensures kept { numbering.IsLonger names.old names.new }
{
    match tok.kind {
        TokKind::Name => Ok(Owned::Name(names.intern(tok.text)?)),
        TokKind::Number { value, kind } => Ok(Owned::Number(Number { bits: value, kind })),
        TokKind::Text => Ok(Owned::Text(string_bytes(alloc, tok.text)?)),
        TokKind::Include(header) => Ok(Owned::Include(header)),
        TokKind::PragmaOnce => Ok(Owned::Pragma),
        TokKind::Keyword(keyword) => Ok(Owned::Keyword(keyword)),
        TokKind::Sign(sign) => Ok(Owned::Sign(sign)),
    }
}

/// The words of the tokens, for which their names get numbers.
#[tactic(auto, using(crate::proofs::Numbers::longer_self, crate::proofs::Numbers::longer_through))]
pub(crate) fn owned_words(
    alloc: Global,
    names: &mut Names,
    toks: &[Tok],
) -> Result<Vec<Placed<Owned>>, Memory>
    ensures words { IfOk result (λ found.
        map owned_token found.items ≡ numbering.words_in names.new (lexed_tokens toks.now)) }
    ensures names { OnOk result (names.new ≡ numbering.with_names names.old (lexed_tokens toks.now)) }
    ensures kept { numbering.IsLonger names.old names.new }
{
    let mut found = Vec::new(alloc);
    let mut left = toks;
    while let [tok, rest @ ..] = left {
        let item = owned_of(alloc, names, tok)?;
        found.push(Placed { at: tok.at, item })?;
        left = rest;
    }
    Ok(found)
}

fn lent(word: &Owned) -> Word<'_>
    ensures { Rattle.cxx_expr.specs.Tokens.word_of result ≡ owned_word word.now }
{
    match word {
        Owned::Name(name) => Word::Name(*name),
        Owned::Number(number) => Word::Number(*number),
        Owned::Text(text) => Word::Text(text.bytes()),
        Owned::Keyword(keyword) => Word::Keyword(*keyword),
        Owned::Sign(sign) => Word::Sign(*sign),
        Owned::Include(header) => Word::Include(*header),
        Owned::Pragma => Word::Pragma,
    }
}

/// The words as the parser is lent them.
pub(crate) fn lent_words<'w>(
    alloc: Global,
    words: &'w [Placed<Owned>],
) -> Result<Vec<WordAt<'w>>, Memory>
    ensures { IfOk result (λ found. tokens_of found.items ≡ map owned_token words.now) }
{
    let mut found = Vec::new(alloc);
    for word in words {
        found.push(Placed {
            at: word.at,
            item: lent(&word.item),
        })?;
    }
    Ok(found)
}
