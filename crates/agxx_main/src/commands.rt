//! What the commands answer.

ghost use Rattle.std.specs.Prelude.{◌≡◌, ◌≤◌, ◌<◌, ◌+◌, ◌++◌, length, map, IfOk};
ghost use Rattle.std.specs.List.{All};
ghost use Rattle.agxx_main.specs.Answers as answers;
ghost use Rattle.agxx_main.specs.CallAnswers.{executes, executes_by, by_plan, HasFiles, IsAnswerOf, IsCallAnswer};
ghost use Rattle.agxx_main.specs.Outcome.{OpensInTurn};
ghost use Rattle.agxx_main.specs.Replies.{answer_of, seen, all_seen};
ghost use Rattle.agxx_main.specs.Weaving.{IsSourceAnswer, runs, runs_source};

use crate::answer::Answer;
use crate::files::{Opened, open};
use crate::program::answer_text;
use crate::reply::Reply;
use crate::sheet::{Sheet, Sources, sheets, sources_at};
use crate::way::Way;
use crate::weave::{Use, answer_sources};
use agxx_base::{Fault, Files, LARGEST_TEXT, ListOf, Memory, Refusal, Text};
use agxx_calls::{Call, Command, File};
use flip_plan::{Plan, default_plan, read_plan};
use std::alloc::Global;

/// A rule is violated in this file.
fn refused(alloc: Global, file: Sheet, refusal: Refusal) -> Result<Reply, Memory>
    ensures { IfOk result (λ reply. answer_of reply ≡ answers.refused file.entry.name.now refusal) }
{
    Ok(Reply::Told(Answer::refused(alloc, file.name, refusal)?))
}

/// The answer of `exec` by a plan.
fn exec(alloc: Global, plan: &Plan, program: Sheet) -> Result<Reply, Memory>
    requires { length program.text.now ≤ LARGEST_TEXT }
    ensures { IfOk result (λ reply. executes (seen program.entry) plan.now (answer_of reply)) }
{
    let answer = answer_text(alloc, &Way::Woven(plan), program.name, program.text)?;
    Ok(Reply::Told(answer))
}

/// The answer of `exec` by the plan of a file.
fn exec_plan(alloc: Global, file: Sheet, program: Sheet) -> Result<Reply, Memory>
    requires program { length program.text.now ≤ LARGEST_TEXT }
    requires plan { length file.text.now ≤ LARGEST_TEXT }
    ensures { IfOk result (λ reply. by_plan (seen file.entry) (executes (seen program.entry)) (answer_of reply)) }
{
    match read_plan(alloc, file.text, 0) {
        Ok(plan) => exec(alloc, &plan, program),
        Err(Fault::Refused(refusal)) => refused(alloc, file, refusal),
        Err(Fault::Memory) => Err(Memory),
    }
}

/// The answer of `exec`, by the default plan where no file has one.
fn exec_by(alloc: Global, program: Sheet, plans: &[Sheet]) -> Result<Reply, Memory>
    requires program { length program.text.now ≤ LARGEST_TEXT }
    requires plans { All (λ sheet. length sheet.text ≤ LARGEST_TEXT) (map seen plans.now) }
    ensures { IfOk result (λ reply.
        executes_by (seen program.entry) (map seen plans.now) (answer_of reply)) }
{
    match plans {
        [] => exec(alloc, &default_plan(alloc)?, program),
        [plan, ..] => exec_plan(alloc, *plan, program),
    }
}

/// The answer of `run`.
fn run(alloc: Global, file: Sheet, sources: Sources) -> Result<Reply, Memory>
    requires plan { length file.text.now ≤ LARGEST_TEXT }
    requires few { length sources.aspects.now ≤ 64 }
    requires program { length sources.program.text.now ≤ LARGEST_TEXT }
    requires aspects { All (λ sheet. length sheet.text ≤ LARGEST_TEXT) (map seen sources.aspects.now) }
    ensures { IfOk result (λ reply. by_plan (seen file.entry)
        (λ plan. IsSourceAnswer (all_seen sources.entry) (runs plan)) (answer_of reply)) }
{
    match read_plan(alloc, file.text, 0) {
        Ok(plan) => answer_sources(alloc, &Use::Run(&plan), sources),
        Err(Fault::Refused(refusal)) => refused(alloc, file, refusal),
        Err(Fault::Memory) => Err(Memory),
    }
}

/// The answer of `source`.
fn source(alloc: Global, file: Sheet, sources: Sources) -> Result<Reply, Memory>
    requires plan { length file.text.now ≤ LARGEST_TEXT }
    requires few { length sources.aspects.now ≤ 64 }
    requires program { length sources.program.text.now ≤ LARGEST_TEXT }
    requires aspects { All (λ sheet. length sheet.text ≤ LARGEST_TEXT) (map seen sources.aspects.now) }
    ensures { IfOk result (λ reply. by_plan (seen file.entry)
        (λ plan. IsSourceAnswer (all_seen sources.entry) (runs_source plan)) (answer_of reply)) }
{
    match read_plan(alloc, file.text, 0) {
        Ok(plan) => answer_sources(alloc, &Use::Source(&plan), sources),
        Err(Fault::Refused(refusal)) => refused(alloc, file, refusal),
        Err(Fault::Memory) => Err(Memory),
    }
}

/// The answer of a command for its files.
fn answer_sheets(alloc: Global, command: Command, sheets: &[Sheet]) -> Result<Reply, Memory>
    requires files { HasFiles command (length sheets.now) }
    requires within { All (λ sheet. length sheet.text ≤ LARGEST_TEXT) (map seen sheets.now) }
    ensures { IfOk result (λ reply. IsAnswerOf command (map seen sheets.now) (answer_of reply)) }
{
    match command {
        Command::Weave => answer_sources(alloc, &Use::Write, sources_at(sheets, 0)),
        Command::Exec => exec_by(alloc, sheets[0], &sheets[1..]),
        Command::Run => run(alloc, sheets[0], sources_at(sheets, 1)),
        Command::Source => source(alloc, sheets[0], sources_at(sheets, 1)),
    }
}

/// The answer of a call for the texts of its files.
fn answer_texts(alloc: Global, call: &Call, texts: &ListOf<Text>) -> Result<Reply, Memory>
    requires files { HasFiles call.now.command (length call.now.files) }
    requires texts { length texts.now ≡ length call.now.files }
    requires within { All (λ text. length text ≤ LARGEST_TEXT) texts.now }
    ensures { IfOk result (λ reply. IsCallAnswer call.now texts.now (answer_of reply)) }
{
    let sheets = sheets(alloc, call.files.as_slice(), texts.as_slice())?;
    answer_sheets(alloc, call.command, sheets.as_slice())
}

/// Reads the files of a call that are left, in order. Answers for the first that can't be opened, or else for the texts
/// of all files.
fn answer_files<F: Files>(
    alloc: Global,
    call: &Call,
    mut texts: ListOf<Text>,
    left: &[File],
    files: &mut F,
) -> Result<Reply, Memory>
    requires files { HasFiles call.now.command (length call.now.files) }
    requires texts { length texts + length left.now ≡ length call.now.files }
    requires within { All (λ text. length text ≤ LARGEST_TEXT) texts }
    ensures due { IfOk result (λ reply. OpensInTurn (F.listed files.old) (F.faults files.old) (F.faults files.new)
        left.now (λ rest. IsCallAnswer call.now (texts ++ rest)) (answer_of reply)) }
    ensures listed { F.listed files.new ≡ F.listed files.old }
    ensures later { F.faults files.old ≤ F.faults files.new }
{
    match left {
        [] => answer_texts(alloc, call, &texts),
        [file, left @ ..] => {
            let opened = open(alloc, &file.name, file.kind.limit(), files)?;
            match opened {
                Opened::Closed(answer) => Ok(Reply::Told(answer)),
                Opened::Text(text) => {
                    texts.push(text)?;
                    answer_files(alloc, call, texts, left, files)
                }
            }
        }
    }
}

/// Does what a call asks for: reads its files in order, and answers for the first that can't be opened, or else for the
/// texts of all files.
pub(crate) fn answer_call<F: Files>(
    alloc: Global,
    call: &Call,
    files: &mut F,
) -> Result<Reply, Memory>
    requires { HasFiles call.now.command (length call.now.files) }
    ensures due { IfOk result (λ reply. OpensInTurn (F.listed files.old) (F.faults files.old) (F.faults files.new)
        call.now.files (IsCallAnswer call.now) (answer_of reply)) }
    ensures listed { F.listed files.new ≡ F.listed files.old }
    ensures later { F.faults files.old ≤ F.faults files.new }
{
    answer_files(
        alloc,
        call,
        ListOf::new(alloc),
        call.files.as_slice(),
        files,
    )
}
