//! What is answered for the text of a program.

ghost use Rattle.std.specs.Prelude.{◌≡◌, ◌≤◌, length, IfOk};
ghost use Rattle.cxx_lex.specs.TokList.{tokens_of};
ghost use Rattle.cxx_lex.specs.Tokens.{HasTokens};
ghost use Rattle.cxx_tree.specs.ProgramTree.{program_tree};
ghost use Rattle.cxx_normal.specs.Normal.{with_main, normal_among};
ghost use Rattle.agxx_main.specs.Answers.{normal_answer, IsTextAnswer};
ghost use Rattle.agxx_main.specs.RunAnswers.{mode_of, way_answer};

use crate::answer::Answer;
use crate::run::run;
use crate::way::Way;
use agxx_base::{Fault, LARGEST_TEXT, Memory, Names, Text};
use cxx_lex::{Toks, lex_all};
use cxx_normal::normal;
use cxx_parse::parse_program;
use cxx_tree::Program;
use cxx_types::check;
use std::alloc::Global;

/// The answer for a program in normal form.
fn answer_normal(
    alloc: Global,
    way: &Way,
    file: &Text,
    names: &Names,
    normal: Program,
) -> Result<Answer, Memory>
    ensures { IfOk result (λ answer. answer ≡ normal_answer (mode_of way.now) (way_answer way.now)
        file.now names.now (program_tree normal)) }
{
    match check(alloc, names, normal, way.mode()) {
        Ok(typed) => run(alloc, way, file, names, typed.program()),
        Err(Fault::Refused(refusal)) => Answer::refused(alloc, file, refusal),
        Err(Fault::Memory) => Err(Memory),
    }
}

/// The answer for a program, for whose normal form `main` gets a number among the names.
fn answer_program(
    alloc: Global,
    way: &Way,
    file: &Text,
    names: &mut Names,
    program: Program,
) -> Result<Answer, Memory>
    ensures { IfOk result (λ answer. answer ≡ normal_answer (mode_of way.now) (way_answer way.now)
        file.now (with_main names.old) (normal_among (with_main names.old) (program_tree program))) }
{
    let normal = normal(alloc, &program, names)?;
    answer_normal(alloc, way, file, names, normal)
}

/// The answer for the tokens of a file.
fn answer_tokens(
    alloc: Global,
    way: &Way,
    file: &Text,
    text: &Text,
    toks: &Toks,
) -> Result<Answer, Memory>
    requires { HasTokens (mode_of way.now) 0 text.now (tokens_of toks.now.items) toks.now.end }
    ensures { IfOk result (λ answer.
        IsTextAnswer (mode_of way.now) (way_answer way.now) file.now text.now answer) }
{
    let mut names = Names::new(alloc);
    match parse_program(alloc, &mut names, toks, way.mode()) {
        Ok(program) => answer_program(alloc, way, file, &mut names, program),
        Err(Fault::Refused(refusal)) => Answer::refused(alloc, file, refusal),
        Err(Fault::Memory) => Err(Memory),
    }
}

/// The answer for a file that was read.
pub(crate) fn answer_text(
    alloc: Global,
    way: &Way,
    file: &Text,
    text: &Text,
) -> Result<Answer, Memory>
    requires { length text.now ≤ LARGEST_TEXT }
    ensures { IfOk result (λ answer.
        IsTextAnswer (mode_of way.now) (way_answer way.now) file.now text.now answer) }
{
    match lex_all(alloc, text.bytes(), 0, way.mode()) {
        Ok(toks) => answer_tokens(alloc, way, file, text, &toks),
        Err(Fault::Refused(refusal)) => Answer::refused(alloc, file, refusal),
        Err(Fault::Memory) => Err(Memory),
    }
}
