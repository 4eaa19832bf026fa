//! Programs from tokens.

ghost use Rattle.std.specs.Prelude.{◌≡◌, ◌≤◌, ◌-◌, length, drop, IfOk, IfErr, OnOk};
ghost use Rattle.agxx_base.specs.declared.fault.Fault.TheVariants as fault_of;
ghost use Rattle.cxx_lex.specs.All.{IfRefused};
ghost use Rattle.cxx_lex.specs.TokList.{tokens_of as lexed_tokens};
ghost use Rattle.cxx_tree.specs.ProgramTree.{program_tree};
ghost use Rattle.cxx_tree.specs.Limits.{limits_of, grammar_of};
ghost use Rattle.cxx_expr.specs.Tokens.{tokens_of};
ghost use Rattle.cxx_stmt.specs.Dialect.{IsApart};
ghost use Rattle.cxx_parse.specs.Numbering.{IsLonger, names_of};
ghost use Rattle.cxx_parse.specs.Parsed as spec;
ghost use Rattle.cxx_parse.specs.Parsed.{
  IsProgramOf,
  IsDescent,
  IsUngrammatical,
  IsParsed,
  IsReadAs,
  IsRefused,
  SpellingIsUnique,
  ReadingIsUnique,
};

use crate::programs::program;
use crate::words::{dialect_of, lent_words, owned_words};
use agxx_base::{Fault, Mode, Names, Place, Refusal, Rule};
use cxx_expr::{Parser, Stop, WordAt};
use cxx_lex::Toks;
use cxx_stmt::Dialect;
use cxx_tree::Program;
use std::alloc::Global;

/// How deep braces, parentheses and `else if` may nest.
fn most_nesting(mode: Mode) -> usize
    ensures { result ≡ (limits_of (grammar_of mode)).nesting }
{
    match mode {
        Mode::Source => 99,
        Mode::Woven => 100,
    }
}

/// Where the program of a file that ends here begins.
fn file_start(end: Place) -> Place
    ensures { result ≡ spec.file_start end }
{
    Place {
        file: end.file,
        line: 1,
        column: 1,
    }
}

/// Where the first of the last `left` words stands, or where the file ends.
fn place_of(words: &[WordAt<'_>], left: usize, end: Place) -> Place
    requires { left ≤ length words.now }
    ensures { result ≡ spec.place_of (drop (length words.now - left) (tokens_of words.now)) end }
{
    match &words[words.len() - left..] {
        [next, ..] => next.at,
        [] => end,
    }
}

fn refused(rule: Rule, place: Place) -> Fault
    ensures { result ≡ fault_of.Refused (record { rule = rule; place = place }) }
{
    Fault::Refused(Refusal { rule, place })
}

/// The program that the words are.
fn read(
    alloc: Global,
    dialect: &Dialect,
    words: &[WordAt<'_>],
    end: Place,
) -> Result<Program, Fault>
    requires { IsApart dialect.now }
    ensures parsed { IfOk result
        (λ program. IsProgramOf dialect.now (tokens_of words.now) end (program_tree program)) }
    ensures read { IfOk result
        (λ program. IsDescent dialect.now (tokens_of words.now) end (program_tree program)) }
    ensures refused { IfErr result
        (λ fault. IfRefused fault (IsUngrammatical dialect.now (tokens_of words.now) end)) }
{
    let mut parser = Parser::new(alloc, words);
    match program(
        dialect,
        &mut parser,
        most_nesting(dialect.mode),
        file_start(end),
    ) {
        Ok(program) => Ok(program),
        Err(Stop::Syntax) => Err(refused(Rule::G1, place_of(words, parser.len(), end))),
        Err(Stop::Deep) => Err(refused(Rule::G2, place_of(words, parser.len(), end))),
        Err(Stop::Memory) => Err(Fault::Memory),
    }
}

/// The program that the tokens are, or the rule G1 or G2 that they violate. `names` gets the names of the program that
/// it lacks, and some that have a meaning at their place, and keeps all that it has; after a fault too. Each node has
/// the number 0: the normal form gives numbers.
pub fn parse_program(
    alloc: Global,
    names: &mut Names,
    toks: &Toks,
    mode: Mode,
) -> Result<Program, Fault>
    // The tree is spelled as all the tokens,
    ensures parsed { IfOk result
        (λ program. IsParsed mode names.new (lexed_tokens toks.now.items) toks.now.end
        (program_tree program)) }
    // and is the very tree that the descent reads of them, with each place in it and each number of a node;
    ensures read { IfOk result
        (λ program. IsReadAs mode names.new (lexed_tokens toks.now.items) toks.now.end
        (program_tree program)) }
    // or no tree within the limits is, and the place of G1 is the first at which no program of any size goes on.
    ensures refused { IfErr result (λ fault. IfRefused fault
        (IsRefused mode (names_of names.old (lexed_tokens toks.now.items))
        (lexed_tokens toks.now.items) toks.now.end)) }
    ensures names { OnOk result (names.new ≡ names_of names.old (lexed_tokens toks.now.items)) }
    ensures kept { IsLonger names.old names.new }
{
    let dialect = dialect_of(mode, names)?;
    let owned = owned_words(alloc, names, toks.as_slice())?;
    let words = lent_words(alloc, owned.as_slice())?;
    read(alloc, &dialect, words.as_slice(), toks.end())
}

/// Says that programs of one spelling are the same but for places and numbers of nodes. The function does nothing: it
/// carries the law.
pub fn spelling_is_unique()
    ensures { SpellingIsUnique }
{}

/// Says that tokens are read as one tree at most, places and numbers of nodes included. The function does nothing: it
/// carries the law.
pub fn reading_is_unique()
    ensures { ReadingIsUnique }
{}
