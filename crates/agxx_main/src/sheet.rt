//! Files that were read.

ghost use Rattle.std.specs.Prelude.{◌≡◌, ◌<◌, ◌++◌, length, map, IfOk};
ghost use Rattle.agxx_main.specs.CallAnswers.{sheets_of};
ghost use Rattle.agxx_main.specs.Replies.{seen, all_seen};
ghost use Rattle.agxx_main.specs.Weaving as spec;

use agxx_base::{Memory, Text};
use agxx_calls::File;
use std::alloc::Global;

/// A file that was read.
#[derive(Clone, Copy)]
pub(crate) struct Sheet<'a> {
    pub(crate) name: &'a Text,
    pub(crate) text: &'a Text,
}

/// A program's file, and its aspect files in order. The program's has the number 0, and theirs follow.
#[derive(Clone, Copy)]
pub(crate) struct Sources<'a> {
    pub(crate) program: Sheet<'a>,
    pub(crate) aspects: &'a [Sheet<'a>],
}

/// Files with their texts, behind those before them.
fn add_sheets<'a>(
    mut sheets: Vec<Sheet<'a>>,
    files: &'a [File],
    texts: &'a [Text],
) -> Result<Vec<Sheet<'a>>, Memory>
    ensures { IfOk result (λ added. map seen added.items
        ≡ map seen sheets.entry.items ++ sheets_of files.now texts.now) }
{
    match files {
        [] => Ok(sheets),
        [file, files @ ..] => match texts {
            [] => Ok(sheets),
            [text, texts @ ..] => {
                sheets.push(Sheet {
                    name: &file.name,
                    text,
                })?;
                add_sheets(sheets, files, texts)
            }
        },
    }
}

/// Files with their texts.
pub(crate) fn sheets<'a>(
    alloc: Global,
    files: &'a [File],
    texts: &'a [Text],
) -> Result<Vec<Sheet<'a>>, Memory>
    ensures { IfOk result (λ sheets. map seen sheets.items ≡ sheets_of files.now texts.now) }
{
    add_sheets(Vec::new(alloc), files, texts)
}

impl<'a> Sources<'a> {
    /// The name of the file of a number, or the program's where there is no such file.
    pub(crate) fn name_of(self, number: u32) -> &'a Text
        ensures { result.now ≡ spec.file_of (all_seen self.entry) number }
    {
        if number == 0 {
            return self.program.name;
        }
        match self.aspects.get(number as usize - 1) {
            Some(sheet) => sheet.name,
            None => self.program.name,
        }
    }
}

/// The program of a number, and the aspect files behind it.
pub(crate) fn sources_at<'a>(sheets: &'a [Sheet<'a>], index: usize) -> Sources<'a>
    requires { index < length sheets.now }
    ensures { all_seen result ≡ spec.sources_at (map seen sheets.now) index }
{
    Sources {
        program: sheets[index],
        aspects: &sheets[index + 1..],
    }
}
