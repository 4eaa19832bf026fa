//! The words as `clap` reads them: each command is a subcommand whose argument takes the names of files.

ghost use Rattle.std.specs.Prelude.{◌≡◌, ◌≢◌, ◌∷◌, ◌++◌, false, map, option_map};
ghost use Rattle.std.specs.Prelude.{IfOk, MatchOption};
ghost use Rattle.clap.specs.Words.{app_of, subcommand_rows_of};
ghost use Rattle.agxx_calls.specs.Commands.{IsUsage, word_of};
ghost use Rattle.agxx_calls.specs.Parse as spec;
ghost use Rattle.agxx_calls.specs.Parse.{line_app, IsPlainWord, HasOtherWord, words_read};

use crate::command::Command;
use crate::words::is_no_option;
use agxx_base::{Memory, Text};
use clap::error::ErrorKind;
use clap::{Arg, ArgAction, ArgMatches};
use std::alloc::Global;
use std::str;

/// A word that is text and no option, as text.
fn plain_word(word: &[u8]) -> Option<&str>
    ensures { MatchOption result (IsPlainWord word.now → ⊥) (λ text. text.now ≡ word.now) }
{
    if !is_no_option(word) {
        return None;
    }
    match str::from_utf8(word) {
        Ok(text) => Some(text),
        Err(_) => None,
    }
}

/// Words as texts, behind those before them, or none where one is an option or no text.
fn add_plain<'a>(mut texts: Vec<&'a str>, words: &'a [Text]) -> Result<Option<Vec<&'a str>>, Memory>
    ensures { IfOk result (λ added. MatchOption added (HasOtherWord words.now)
        (λ added. map (λ s. s.now) added.items ≡ map (λ s. s.now) texts.entry.items ++ words.now)) }
{
    match words {
        [] => Ok(Some(texts)),
        [word, rest @ ..] => match plain_word(word.bytes()) {
            None => Ok(None),
            Some(text) => {
                texts.push(text)?;
                add_plain(texts, rest)
            }
        },
    }
}

/// A command line with one more command: its word with files behind it.
fn with_command<'a>(
    alloc: Global,
    line: clap::Command<'a>,
    command: Command,
) -> Result<clap::Command<'a>, Memory>
    ensures { IfOk result (λ more. app_of more ≡ spec.with_command (word_of command) (app_of line.entry)) }
{
    let word: &'a str = command.word();
    let files = Arg::new(alloc, "files").action(ArgAction::Append);
    let files_command = clap::Command::new(alloc, word).arg(files)?;
    Ok(line.subcommand(files_command)?)
}

/// The command line: one of the commands.
fn command_line<'a>(alloc: Global) -> Result<clap::Command<'a>, Memory>
    ensures { IfOk result (λ line. app_of line ≡ line_app) }
{
    let bare = clap::Command::new(alloc, "agxx")
        .no_binary_name(true)
        .disable_help_flag(true)
        .disable_help_subcommand(true);
    let weave = with_command(alloc, bare, Command::Weave)?;
    let exec = with_command(alloc, weave, Command::Exec)?;
    let run = with_command(alloc, exec, Command::Run)?;
    let source = with_command(alloc, run, Command::Source)?;
    Ok(source)
}

/// The words that a parse read: the subcommand's name, and its values.
fn read_words<'b, 'a>(matches: &'b ArgMatches<'a>) -> Option<(&'a str, &'b [&'a str])>
    ensures { option_map (λ p. p.0.now ∷ map (λ s. s.now) p.1.now) result
        ≡ words_read (subcommand_rows_of matches.now) }
{
    let (name, inside) = matches.subcommand()?;
    let values = inside.get_strs("files")?;
    Some((name, values))
}

/// Whether words are this one and these behind it.
fn are_words(words: &[&str], name: &str, values: &[&str]) -> bool
    ensures { result ≡ false → map (λ s. s.now) words.now ≢ name.now ∷ map (λ s. s.now) values.now }
{
    match words {
        [] => false,
        [word, rest @ ..] => *word == name && rest == values,
    }
}

/// Whether `clap` reads texts as a command's word and the files behind it.
fn is_line<'a, 'b>(alloc: Global, texts: &'a [&'b str]) -> Result<bool, Memory>
    ensures { IfOk result (λ is. is ≡ false → IsUsage (map (λ s. s.now) texts.now)) }
{
    let line = command_line(alloc)?;
    match line.try_get_matches_from(texts) {
        Ok(matches) => match read_words(&matches) {
            None => Ok(false),
            Some((name, values)) => Ok(are_words(texts, name, values)),
        },
        Err(error) => if error.kind() == ErrorKind::OutOfMemory {
            Err(Memory)
        } else {
            Ok(false)
        },
    }
}

/// Whether `clap` reads words as a command's word and the files behind it. It is given none that may be an option.
pub fn is_command_line(alloc: Global, words: &[Text]) -> Result<bool, Memory>
    ensures { IfOk result (λ is. is ≡ false → IsUsage words.now) }
{
    match add_plain(Vec::new(alloc), words)? {
        None => Ok(false),
        Some(texts) => is_line(alloc, texts.as_slice()),
    }
}
