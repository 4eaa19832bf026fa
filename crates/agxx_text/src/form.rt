//! Of which tree the text is written.

/// Of which tree the canonical text is written.
#[derive(Clone, Copy)]
pub(crate) enum Form {
    /// The program as it was read.
    Parsed,
    /// Its normal form.
    Normal,
}

/// What a word of the command line asks for: a text, or that a program is read and nothing is written.
#[derive(Clone, Copy)]
pub(crate) enum Task {
    Read,
    Print(Form),
}

impl Task {
    /// The task of this name.
    pub(crate) fn named(word: &str) -> Option<Task> {
        match word {
            "read" => Some(Task::Read),
            "parsed" => Some(Task::Print(Form::Parsed)),
            "normal" => Some(Task::Print(Form::Normal)),
            _ => None,
        }
    }
}
