//! What is answered for a program with aspect files.

ghost use Rattle.std.specs.Prelude.{◌≡◌, ◌≤◌, ◌+◌, ◌++◌, length, map, IfOk};
ghost use Rattle.std.specs.List.{All};
ghost use Rattle.agxx_base.specs.Refusals.{least};
ghost use Rattle.agxx_base.specs.declared.kind.Mode.TheVariants as mode;
ghost use Rattle.cxx_lex.specs.TokList.{tokens_of};
ghost use Rattle.cxx_lex.specs.Tokens.{HasTokens};
ghost use Rattle.cxx_normal.specs.Normal.{with_main, normal_among};
ghost use Rattle.cxx_tree.specs.ProgramTree.{program_tree};
ghost use Rattle.cxx_print.specs.Programs.{text_of};
ghost use Rattle.ah_parse.specs.GuardFiles as spec_files;
ghost use Rattle.protect.specs.GeneratedNames.{with_generated};
ghost use Rattle.protect.specs.Protected.{protected};
ghost use Rattle.agxx_main.specs.Answers as answers;
ghost use Rattle.agxx_main.specs.Answers.{IsTextAnswer};
ghost use Rattle.agxx_main.specs.RunAnswers.{woven_answer};
ghost use Rattle.agxx_main.specs.Replies.{answer_of, seen, all_seen, ending_of};
ghost use Rattle.agxx_main.specs.Weaving as spec;
ghost use Rattle.agxx_main.specs.Weaving.{IsSourceAnswer, IsGuardedAnswer, IsProgramAnswer, IsNormalAnswer};
ghost use Rattle.agxx_main.specs.Weaving.{IsGuardsAnswer, IsWeavingAnswer, Sized, GuardsAll, joined, woven_name};
ghost use Rattle.agxx_main.specs.Weaving.{WhereNumbered};
ghost use Rattle.guard_rules.specs.Violations.{IfNumbered};

use crate::answer::Answer;
use crate::files::at_beginning;
use crate::program::answer_text;
use crate::reply::{Reply, Woven};
use crate::run::run;
use crate::sheet::{Sheet, Sources};
use crate::way::Way;
use agxx_base::{Fault, LARGEST_TEXT, ListOf, Memory, Mode, Names, Refusal, Rule, Text};
use ah_parse::{GuardAspect, guards_of, names_in, read_guards};
use cxx_lex::{Toks, lex_all};
use cxx_normal::normal;
use cxx_parse::parse_program;
use cxx_print::{text_len, to_text};
use cxx_tree::Program;
use cxx_types::{Typed, check};
use flip_plan::Plan;
use guard_rules::check_guards;
use guards::Guards;
use protect::protect;
use std::alloc::Global;

/// What becomes of a woven program.
#[derive(Drop)]
pub(crate) enum Use<'p> {
    /// Its text is written.
    Write,
    /// Its text is read back and run by a plan.
    Run(&'p Plan),
    /// The source is run by the turns of a plan.
    Source(&'p Plan),
}

/// A program with its aspect files, and what is to become of it.
#[derive(Clone, Copy)]
struct Weaver<'a> {
    alloc: Global,
    purpose: &'a Use<'a>,
    sources: Sources<'a>,
}

/// The answer for a woven text that is read back and run.
fn run_back(alloc: Global, plan: &Plan, text: &Text) -> Result<Answer, Memory>
    requires { length text.now ≤ LARGEST_TEXT }
    ensures { IfOk result (λ answer.
        IsTextAnswer mode.Woven (woven_answer plan.now) woven_name text.now answer) }
{
    let name = Text::from_bytes(alloc, b"woven".as_slice())?;
    answer_text(alloc, &Way::Woven(plan), &name, text)
}

impl<'a> Weaver<'a> {
    /// A rule is violated in this file.
    fn refuse(self, file: &Text, refusal: Refusal) -> Result<Reply, Memory>
        ensures { IfOk result (λ reply. answer_of reply ≡ answers.refused file.now refusal) }
    {
        Ok(Reply::Told(Answer::refused(self.alloc, file, refusal)?))
    }

    /// What becomes of a program and of its woven text, which isn't too large.
    fn finish(self, names: Names, program: &Program, woven: Program) -> Result<Reply, Memory>
        requires { length (text_of names (program_tree woven)) ≤ LARGEST_TEXT }
        ensures { IfOk result (λ reply.
            (ending_of self.entry.purpose.now) (all_seen self.entry.sources) names (program_tree program.now)
            (text_of names (program_tree woven)) (answer_of reply)) }
    {
        match self.purpose {
            Use::Write => Ok(Reply::Woven(Woven {
                names,
                program: woven,
            })),
            Use::Run(plan) => {
                let text = to_text(self.alloc, &names, &woven)?;
                Ok(Reply::Told(run_back(self.alloc, plan, &text)?))
            }
            Use::Source(plan) => {
                let file = self.sources.program.name;
                let way = Way::Source(plan);
                Ok(Reply::Told(run(self.alloc, &way, file, &names, program)?))
            }
        }
    }

    /// The same, unless the text is too large.
    fn finish_sized(self, names: Names, program: &Program, woven: Program) -> Result<Reply, Memory>
        ensures { IfOk result (λ reply. Sized (all_seen self.entry.sources) (text_of names (program_tree woven))
            ((ending_of self.entry.purpose.now) (all_seen self.entry.sources) names (program_tree program.now)
            (text_of names (program_tree woven))) (answer_of reply)) }
    {
        if text_len(&names, &woven) > u64::from(LARGEST_TEXT) {
            return self.refuse(self.sources.program.name, at_beginning(Rule::W1));
        }
        self.finish(names, program, woven)
    }

    /// Weaves a program that violates no rule.
    fn weave(self, mut names: Names, program: &Program, guards: &Guards) -> Result<Reply, Memory>
        ensures { IfOk result (λ reply.
            IsWeavingAnswer (all_seen self.entry.sources) (ending_of self.entry.purpose.now)
            names guards.now (program_tree program.now) (answer_of reply)) }
    {
        let woven = protect(self.alloc, &mut names, program, guards)?;
        self.finish_sized(names, program, woven)
    }

    /// Judges the guards of a program that violates no other rule.
    fn judge_guards(self, names: Names, typed: &Typed, guards: &Guards) -> Result<Reply, Memory>
        ensures { IfOk result (λ reply. IfNumbered names typed.now (λ q.
            IsGuardsAnswer (all_seen self.entry.sources) (ending_of self.entry.purpose.now)
            names guards.now q (answer_of reply))) }
    {
        match check_guards(self.alloc, &names, typed, guards) {
            Ok(()) => self.weave(names, typed.program(), guards),
            Err(Fault::Refused(refusal)) => {
                self.refuse(self.sources.name_of(refusal.place.file), refusal)
            }
            Err(Fault::Memory) => Err(Memory),
        }
    }

    /// The guards of the aspects of several files.
    #[tactic(auto, using(crate::proofs::Weavings::guards_append))]
    fn guards(self, names: &Names, files: &[ListOf<GuardAspect>]) -> Result<Guards, Memory>
        ensures { IfOk result (λ guards. guards ≡ spec_files.guards_of names.now (joined files.now)) }
    {
        let mut guards = Guards::new(self.alloc);
        for aspects in files {
            guards_of(self.alloc, names, aspects.as_slice(), &mut guards)?;
        }
        Ok(guards)
    }

    /// Judges a program in normal form.
    fn judge(
        self,
        names: Names,
        program: Program,
        files: &[ListOf<GuardAspect>],
    ) -> Result<Reply, Memory>
        ensures { IfOk result (λ reply. WhereNumbered (program_tree program) (λ q.
            IsNormalAnswer (all_seen self.entry.sources) (ending_of self.entry.purpose.now)
            names (spec_files.guards_of names (joined files.now)) q (answer_of reply))) }
    {
        match check(self.alloc, &names, program, Mode::Source) {
            Ok(typed) => {
                let guards = self.guards(&names, files)?;
                self.judge_guards(names, &typed, &guards)
            }
            Err(Fault::Refused(refusal)) => self.refuse(self.sources.program.name, refusal),
            Err(Fault::Memory) => Err(Memory),
        }
    }

    /// Judges a program, for whose normal form `main` gets a number among the names.
    fn judge_program(
        self,
        mut names: Names,
        program: &Program,
        files: &[ListOf<GuardAspect>],
    ) -> Result<Reply, Memory>
        ensures { IfOk result (λ reply.
            IsProgramAnswer (all_seen self.entry.sources) (ending_of self.entry.purpose.now)
            names (joined files.now) (program_tree program.now) (answer_of reply)) }
    {
        let normal = normal(self.alloc, program, &mut names)?;
        self.judge(names, normal, files)
    }

    /// Reads the program of these tokens, with the aspects of these files.
    fn read_program(self, toks: &Toks, files: &[ListOf<GuardAspect>]) -> Result<Reply, Memory>
        ensures { IfOk result (λ reply.
            IsGuardedAnswer (all_seen self.entry.sources) (ending_of self.entry.purpose.now)
            (tokens_of toks.now.items) toks.now.end (joined files.now) (answer_of reply)) }
    {
        let mut names = Names::new(self.alloc);
        match parse_program(self.alloc, &mut names, toks, Mode::Source) {
            Ok(program) => self.judge_program(names, &program, files),
            Err(Fault::Refused(refusal)) => self.refuse(self.sources.program.name, refusal),
            Err(Fault::Memory) => Err(Memory),
        }
    }

    /// Reads the aspect files that are left, of which the first has this number, and then the program.
    #[tactic(auto, using(crate::proofs::Weavings::rest_short, crate::proofs::Weavings::rest_counted))]
    fn read_aspects(
        self,
        toks: &Toks,
        taken: &mut Names,
        mut files: ListOf<ListOf<GuardAspect>>,
        left: &[Sheet],
        number: u32,
    ) -> Result<Reply, Memory>
        requires few { number + length left.now ≤ 65 }
        requires within { All (λ sheet. length sheet.text ≤ LARGEST_TEXT) (map seen left.now) }
        ensures { IfOk result (λ reply. GuardsAll number taken.old (map seen left.now)
            (λ rest. IsGuardedAnswer (all_seen self.entry.sources) (ending_of self.entry.purpose.now)
            (tokens_of toks.now.items) toks.now.end (joined files ++ rest)) (answer_of reply)) }
    {
        match left {
            [] => self.read_program(toks, files.as_slice()),
            [sheet, left @ ..] => match read_guards(self.alloc, sheet.text, number, taken)? {
                None => self.refuse(sheet.name, at_beginning(Rule::U1)),
                Some(aspects) => {
                    files.push(aspects)?;
                    self.read_aspects(toks, taken, files, left, number + 1)
                }
            },
        }
    }

    /// Reads the aspect files, and then the program of these tokens.
    fn read_files(self, toks: &Toks) -> Result<Reply, Memory>
        requires few { length self.sources.aspects.now ≤ 64 }
        requires within { All (λ sheet. length sheet.text ≤ LARGEST_TEXT)
            (map seen self.sources.aspects.now) }
        ensures { IfOk result (λ reply. GuardsAll 1 (spec_files.names_in (tokens_of toks.now.items))
            (all_seen self.entry.sources).aspects
            (IsGuardedAnswer (all_seen self.entry.sources) (ending_of self.entry.purpose.now)
            (tokens_of toks.now.items) toks.now.end) (answer_of reply)) }
    {
        let mut taken = names_in(self.alloc, toks)?;
        let files = ListOf::new(self.alloc);
        self.read_aspects(toks, &mut taken, files, self.sources.aspects, 1)
    }
}

/// The answer for a program with aspect files, of which there are at most 64.
pub(crate) fn answer_sources(
    alloc: Global,
    purpose: &Use,
    sources: Sources,
) -> Result<Reply, Memory>
    requires few { length sources.aspects.now ≤ 64 }
    requires program { length sources.program.text.now ≤ LARGEST_TEXT }
    requires aspects { All (λ sheet. length sheet.text ≤ LARGEST_TEXT) (map seen sources.aspects.now) }
    ensures { IfOk result (λ reply.
        IsSourceAnswer (all_seen sources.entry) (ending_of purpose.now) (answer_of reply)) }
{
    let weaver = Weaver {
        alloc,
        purpose,
        sources,
    };
    match lex_all(alloc, sources.program.text.bytes(), 0, Mode::Source) {
        Ok(toks) => weaver.read_files(&toks),
        Err(Fault::Refused(refusal)) => weaver.refuse(sources.program.name, refusal),
        Err(Fault::Memory) => Err(Memory),
    }
}
