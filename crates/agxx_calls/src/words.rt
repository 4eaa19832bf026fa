//! What the words of a command line mean.

ghost use Rattle.std.specs.Prelude.{◌≡◌, ◌≢◌, ◌↔◌, ◌++◌, Some, slice_get, IsTrue, IfOk, OnErr, MatchOption};
ghost use Rattle.agxx_calls.specs.Commands as spec;
ghost use Rattle.agxx_calls.specs.Commands.{IsName, IsProgramName, IsPlanName, IsAspectName, IsNameOf};
ghost use Rattle.agxx_calls.specs.Commands.{AreMore, AreNames};
ghost use Rattle.agxx_calls.specs.Commands.{files_of, IsMeant, IsNone, Means, HasCall, IsUsage};

use crate::command::{COMMANDS, Call, Command, File, Kind};
use crate::parse::is_command_line;
use agxx_base::{ListOf, Memory, Text, Words};
use std::alloc::Global;
use std::str;

/// The most bytes of a word that names a file.
const LONGEST_NAME: usize = 255;

pub(crate) fn is_no_option(word: &[u8]) -> bool
    ensures { IsTrue result ↔ (slice_get word.now 0 ≢ Some 45) }
{
    match word.get(0) {
        None => true,
        Some(first) => *first != b'-',
    }
}

/// Whether a word may name a file.
fn is_name(word: &[u8]) -> bool
    ensures { IsTrue result ↔ IsName word.now }
{
    word.len() <= LONGEST_NAME && is_no_option(word) && str::from_utf8(word).is_ok()
}

fn is_program_name(word: &[u8]) -> bool
    ensures { IsTrue result ↔ IsProgramName word.now }
{
    is_name(word) && 3 < word.len() && &word[word.len() - 3..] == b".cc".as_slice()
}

fn is_plan_name(word: &[u8]) -> bool
    ensures { IsTrue result ↔ IsPlanName word.now }
{
    is_name(word) && 5 < word.len() && &word[word.len() - 5..] == b".plan".as_slice()
}

fn is_aspect_name(word: &[u8]) -> bool
    ensures { IsTrue result ↔ IsAspectName word.now }
{
    is_name(word) && 3 < word.len() && &word[word.len() - 3..] == b".ah".as_slice()
}

fn is_name_of(kind: Kind, word: &[u8]) -> bool
    ensures { IsTrue result ↔ IsNameOf kind word.now }
{
    match kind {
        Kind::Woven | Kind::Source => is_program_name(word),
        Kind::Plan => is_plan_name(word),
        Kind::Aspects => is_aspect_name(word),
    }
}

/// Whether all words name files of this kind.
fn are_more(kind: Kind, words: &[Text]) -> bool
    ensures { IsTrue result ↔ AreMore kind words.now }
{
    match words {
        [] => true,
        [word, words @ ..] => is_name_of(kind, word.bytes()) && are_more(kind, words),
    }
}

/// Whether words name files of these kinds, in this order, and then at most so many more of one kind.
fn are_names(kinds: &[Kind], more: Kind, most: usize, words: &[Text]) -> bool
    ensures { IsTrue result ↔ AreNames kinds.now more most words.now }
{
    match kinds {
        [] => words.len() <= most && are_more(more, words),
        [kind, kinds @ ..] => match words {
            [] => false,
            [word, words @ ..] => {
                is_name_of(*kind, word.bytes()) && are_names(kinds, more, most, words)
            }
        },
    }
}

/// Whether words are a command's word and names of its files.
fn is_meant(command: Command, word: &[u8], names: &[Text]) -> bool
    ensures { IsTrue result ↔ IsMeant command word.now names.now }
{
    word == command.word().as_bytes()
        && are_names(command.kinds(), command.more(), command.most(), names)
}

/// The first of some commands that these words mean.
fn first_meant(commands: &[Command], word: &[u8], names: &[Text]) -> Option<Command>
    ensures { MatchOption result
        (IsNone commands.now word.now names.now)
        (λ command. IsMeant command word.now names.now) }
{
    match commands {
        [] => None,
        [command, rest @ ..] => if is_meant(*command, word, names) {
            Some(*command)
        } else {
            first_meant(rest, word, names)
        },
    }
}

fn file(alloc: Global, kind: Kind, name: &Text) -> Result<File, Memory>
    ensures { IfOk result (λ made. made ≡ spec.file kind name.now) }
{
    let name = Text::from_bytes(alloc, name.bytes())?;
    Ok(File { kind, name })
}

/// The files that words name, behind those before them.
fn add_files(
    alloc: Global,
    mut files: ListOf<File>,
    kinds: &[Kind],
    more: Kind,
    words: &[Text],
) -> Result<ListOf<File>, Memory>
    ensures { IfOk result (λ added. added ≡ files ++ files_of kinds.now more words.now) }
{
    match words {
        [] => Ok(files),
        [word, words @ ..] => match kinds {
            [] => {
                files.push(file(alloc, more, word)?)?;
                add_files(alloc, files, kinds, more, words)
            }
            [kind, kinds @ ..] => {
                files.push(file(alloc, *kind, word)?)?;
                add_files(alloc, files, kinds, more, words)
            }
        },
    }
}

/// The command that words are, with its files, or none: `clap` reads them, and the rows decide on what it read. Where
/// there is no memory for `clap`, words that are no command by the rows are told to be none.
pub fn read_call(alloc: Global, words: &Words) -> Result<Option<Call>, Memory>
    ensures call { IfOk result (λ call. MatchOption call (IsUsage words.now) (Means words.now)) }
    ensures memory { OnErr result (HasCall words.now) }
{
    let [word, names @ ..] = words.as_slice() else {
        return Ok(None);
    };
    let is_read = is_command_line(alloc, words.as_slice());
    if let Ok(false) = is_read {
        return Ok(None);
    }
    match first_meant(COMMANDS, word.bytes(), names) {
        None => Ok(None),
        Some(command) => {
            is_read?;
            let files = ListOf::new(alloc);
            let files = add_files(alloc, files, command.kinds(), command.more(), names)?;
            Ok(Some(Call { command, files }))
        }
    }
}
