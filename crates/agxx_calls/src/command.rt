//! The commands as rows: each has its word and the kinds of its files.

ghost use Rattle.std.specs.Prelude.{◌≡◌};
ghost use Rattle.agxx_calls.specs.Commands as spec;

use agxx_base::{LARGEST_SOURCE, LARGEST_TEXT, ListOf, Text};

/// What a file is read as.
#[derive(Clone, Copy, Debug, Drop)]
pub enum Kind {
    /// A program as woven text.
    Woven,
    /// A program as a source.
    Source,
    /// A plan.
    Plan,
    /// Aspects.
    Aspects,
}

/// A file that a word names.
#[derive(Debug, Drop)]
pub struct File {
    pub kind: Kind,
    pub name: Text,
}

/// What is to be done.
#[derive(Clone, Copy, Debug, Drop)]
pub enum Command {
    /// Write the woven text of a program with its aspects.
    Weave,
    /// Run a program by a plan, or by the default plan where none is given.
    Exec,
    /// Run the woven text of a program with its aspects by a plan.
    Run,
    /// Run a program by a plan whose flips are set aside.
    Source,
}

/// A command with its files, in the order of the words.
#[derive(Debug, Drop)]
pub struct Call {
    pub command: Command,
    pub files: ListOf<File>,
}

impl Kind {
    /// The most bytes of such a file.
    pub fn limit(self) -> u32
        ensures { result ≡ spec.limit_of self }
    {
        match self {
            Kind::Woven | Kind::Plan => LARGEST_TEXT,
            Kind::Source | Kind::Aspects => LARGEST_SOURCE,
        }
    }
}

/// Each command.
pub const COMMANDS: &[Command] = &[Command::Weave, Command::Exec, Command::Run, Command::Source];

/// How many aspect files there may be.
pub const MOST_ASPECT_FILES: usize = 64;

impl Command {
    /// Its word.
    pub fn word(self) -> &'static str
        ensures { result.now ≡ spec.word_of self }
    {
        match self {
            Command::Weave => "weave",
            Command::Exec => "exec",
            Command::Run => "run",
            Command::Source => "source",
        }
    }

    /// The kinds of its first files, in the order of the words.
    pub fn kinds(self) -> &'static [Kind]
        ensures { result.now ≡ spec.kinds_of self }
    {
        match self {
            Command::Weave => &[Kind::Source],
            Command::Exec => &[Kind::Woven],
            Command::Run | Command::Source => &[Kind::Plan, Kind::Source],
        }
    }

    /// The kind of the files behind these.
    pub fn more(self) -> Kind
        ensures { result ≡ spec.more_of self }
    {
        match self {
            Command::Exec => Kind::Plan,
            Command::Weave | Command::Run | Command::Source => Kind::Aspects,
        }
    }

    /// How many of them there may be.
    pub fn most(self) -> usize
        ensures { result ≡ spec.most_of self }
    {
        match self {
            Command::Exec => 1,
            Command::Weave | Command::Run | Command::Source => MOST_ASPECT_FILES,
        }
    }
}
