//! What the words of a command line call for: the commands as rows, each with its word and the kinds of its files, and
//! the reading of words by `clap` and these rows. A new command is one row here (`Command`), one answer in the program,
//! and its laws; a new word is one subcommand more. Callers cite `specs/Commands.antt`: names of files, the rows, and
//! what words mean.
#![tactic(auto)]

mod command;
mod parse;
mod words;

pub use command::{Call, Command, File, Kind};
pub use words::read_call;
