//! Programs that violate no rule, and what is known of them.

ghost use Rattle.std.specs.Prelude.{◌≡◌, ◌++◌, Some, IfOk, IfErr, IsSome, OnOk};
ghost use Rattle.cxx_tree.specs.ProgramTree.{program_tree};
ghost use Rattle.cxx_names.specs.Declarations as declarations;
ghost use Rattle.cxx_names.specs.LookUp as look_up;
ghost use Rattle.cxx_types.specs.Programs.{checked};
ghost use Rattle.cxx_types.specs.Violations.{too_many_names};
ghost use Rattle.cxx_types.specs.Typing as spec;
ghost use Rattle.cxx_types.specs.Typing.{IsTypedOf, IsJudged, IsChecked};

use crate::checker::Checker;
use crate::entries::EntryList;
use crate::entry::Meaning;
use crate::limits::most;
use crate::programs::has_main;
use agxx_base::{
    ClassId, Fault, ListOf, Memory, Mode, NameId, Names, NodeId, Refusal, Rule, Text, least,
};
use cxx_distinct::name_past;
use cxx_layout::{ClassList, Layout, Layouts};
use cxx_names::{Declared, Table};
use cxx_tree::{Program, TypeName};
use std::alloc::Global;

/// A program that violates no rule on names and types, with what is known of its names, nodes and classes.
#[derive(Drop)]
pub struct Typed {
    program: Program,
    texts: ListOf<Text>,
    declared: Declared,
    entries: EntryList,
    layouts: Layouts,
}

/// What was found in a program.
#[derive(Drop)]
struct Findings {
    violations: ListOf<Refusal>,
    entries: EntryList,
}

fn copied(alloc: Global, names: &Names) -> Result<ListOf<Text>, Memory>
    ensures { IfOk result (λ texts. texts ≡ names.now) }
{
    let mut texts = ListOf::new(alloc);
    for index in 0..names.len() {
        let text = names.text_of(NameId(index as u32));
        texts.push(Text::from_bytes(alloc, text)?)?;
    }
    Ok(texts)
}

/// Goes through the declarations of a program.
#[tactic(auto, unfolding(crate::specs::Programs::checked))]
fn go_through(
    alloc: Global,
    names: &Names,
    declared: &Declared,
    program: &Program,
    mode: Mode,
) -> Result<Findings, Memory>
    requires { declared.now ≡ declarations.declared names.now (program_tree program.now) }
    ensures violations { IfOk result (λ found.
        found.violations ≡ (checked names.now mode (program_tree program.now)).found) }
    ensures entries { IfOk result (λ found.
        found.entries ≡ (checked names.now mode (program_tree program.now)).entries) }
{
    let decls = program.decls.as_slice();
    let mut checker = Checker {
        alloc,
        names,
        declared,
        most: most(mode),
        found: ListOf::new(alloc),
        entries: EntryList::new(alloc),
        scope: Table::new(alloc),
        locals: 0,
        returns: 0,
    };
    checker.require(Rule::N9, program.at, has_main(names, decls))?;
    checker.decls(decls)?;
    let Checker { found, entries, .. } = checker;
    Ok(Findings {
        violations: found,
        entries,
    })
}

/// Adds that a program has too many names, if it has.
fn add_names(
    alloc: Global,
    found: &mut ListOf<Refusal>,
    program: &Program,
    mode: Mode,
) -> Result<(), Memory>
    ensures { OnOk result (found.new ≡ found.old ++ too_many_names mode (program_tree program.now)) }
{
    if let Some(place) = name_past(alloc, most(mode).names, program)? {
        found.push(Refusal {
            rule: Rule::N10,
            place,
        })?;
    }
    Ok(())
}

/// The names and types of a program, or the least violation.
#[tactic(auto, using(agxx_base::proofs::Leasts::none_is_least))]
fn judged(
    alloc: Global,
    names: &Names,
    program: Program,
    mode: Mode,
) -> Result<Result<Typed, Refusal>, Memory>
    ensures { IfOk result (λ judged. IsJudged names.now mode (program_tree program) judged) }
{
    let declared = Declared::of(alloc, names, &program)?;
    let Findings {
        mut violations,
        entries,
    } = go_through(alloc, names, &declared, &program, mode)?;
    add_names(alloc, &mut violations, &program, mode)?;
    if let Some(refusal) = least(violations.as_slice()) {
        return Ok(Err(refusal));
    }
    let layouts = Layouts::of(alloc, names, &declared)?;
    let texts = copied(alloc, names)?;
    Ok(Ok(Typed {
        program,
        texts,
        declared,
        entries,
        layouts,
    }))
}

/// The names and types of a normal program, or the rule that it violates and where: of several the first, by place and
/// then by rule. Names have the texts that `names` tells.
pub fn check(alloc: Global, names: &Names, program: Program, mode: Mode) -> Result<Typed, Fault>
    ensures typed { IfOk result (λ typed. IsTypedOf names.now mode (program_tree program) typed) }
    ensures refused { IfErr result (λ fault. IsChecked names.now mode (program_tree program) fault) }
{
    match judged(alloc, names, program, mode) {
        Ok(Ok(typed)) => Ok(typed),
        Ok(Err(refusal)) => Err(Fault::Refused(refusal)),
        Err(Memory) => Err(Fault::Memory),
    }
}

impl Typed {
    /// The program.
    pub fn program(&self) -> &Program
        ensures { result.now ≡ self.now.program }
    {
        &self.program
    }

    /// The text of a name.
    pub fn text_of(&self, name: NameId) -> &[u8]
        requires { IsSome (spec.text_of self.now name) }
        ensures { spec.text_of self.now name ≡ Some result.now }
    {
        self.texts.item(name.0 as usize).bytes()
    }

    /// The type of a node: of an expression's value, of a call's result, or of what a name stands for. What has no
    /// type of its own, as `nullptr`, an object's name or a call without a result, has the type `void`.
    pub fn type_of(&self, node: NodeId) -> TypeName
        ensures { result ≡ spec.type_of self.now node }
    {
        match self.entries.as_slice().get(node.0 as usize) {
            None => TypeName::Void,
            Some(entry) => entry.type_name,
        }
    }

    /// What the name of a node means: that of a variable, of a member with what stands before it, or of the function
    /// of a call.
    pub fn meaning_of(&self, node: NodeId) -> Meaning
        ensures { result ≡ spec.meaning_of self.now node }
    {
        match self.entries.as_slice().get(node.0 as usize) {
            None => Meaning::Other,
            Some(entry) => entry.meaning,
        }
    }

    /// The words of an object of a class.
    pub fn layout(&self, class: ClassId) -> &Layout
        requires { IsSome (spec.layout_of self.now class) }
        ensures { spec.layout_of self.now class ≡ Some result.now }
    {
        self.layouts.layout(class).unwrap()
    }

    /// The classes with a part in an object of a class, the one without a base first.
    pub fn parts(&self, class: ClassId) -> &ClassList
        requires { IsSome (spec.parts_of self.now class) }
        ensures { spec.parts_of self.now class ≡ Some result.now }
    {
        self.layouts.parts(class).unwrap()
    }

    /// Whether a class is another one or stands below it in its chain of bases.
    pub fn derives(&self, class: ClassId, from: ClassId) -> bool
        ensures { result ≡ look_up.derives self.now.declared class from }
    {
        self.declared.derives(class, from)
    }
}
