//! What a machine is set to run, and what it finds there.

ghost use Rattle.std.specs.Prelude.{◌≡◌, Some, IfOk, option_map};
ghost use Rattle.std.specs.Option.{option_copied};
ghost use Rattle.cxx_core.specs.ProgramView.{program_core, function_core, number_core};
ghost use Rattle.cxx_names.specs.Declarations.{is_text};
ghost use Rattle.step_machine.specs.Setting as spec;
ghost use Rattle.step_machine.specs.Inserted as inserted;

use crate::places::Places;
use crate::tables::{
    ClassTable, class_at, class_tables, mutex_at, object_places, sizes_at, stands_upwards, word_at,
};
use crate::texts;
use agxx_base::{ClassId, FnId, ListOf, Memory, NameId, Names};
use cxx_core::{Function, Program};
use std::alloc::Global;
use std::marker::Model;

/// What a machine is set to run: the names of a program and its core form.
#[derive(Drop)]
pub struct Setting<'p> {
    names: &'p Names,
    program: &'p Program,
    classes: ListOf<ClassTable>,
    objects: Places,
}

impl<'p> Model for Setting<'p> {
    ghost use Rattle.std.specs.Coded.{codes};
    ghost use Rattle.cxx_core.specs.Codes.{core_codes};
    ghost use Rattle.cxx_core.specs.ProgramView.{program_core};
    ghost use Rattle.step_machine.specs.Setting.{Setting};

    ghost Value = { Setting };

    ghost coded = { Prim.hlevel (codes, core_codes) };

    ghost use Rattle.step_setting.specs.Tables.{Agrees};

    ghost view = { λ s. record { names = s.names.now; program = program_core s.program.now } };

    ghost invariant = { λ s.
        Agrees (record { names = s.names.now; program = program_core s.program.now }) s.classes s.objects };
}

impl<'p> Setting<'p> {
    /// A program with the names that it was read with. Without memory, and where a class has more words or mutexes than
    /// 32 bits count, there is none.
    pub fn of(alloc: Global, names: &'p Names, program: &'p Program) -> Result<Setting<'p>, Memory>
        ensures { IfOk result (λ s. s ≡ record { names = names.now; program = program_core program.now }) }
    {
        let classes = class_tables(alloc, program.classes.as_slice())?;
        let objects = object_places(alloc, program.globals.as_slice())?;
        Ok(Setting {
            names,
            program,
            classes,
            objects,
        })
    }

    /// The program.
    pub fn program(&self) -> &'p Program
        ensures { program_core result.now ≡ self.now.program }
    {
        self.program
    }

    /// The texts of the names.
    pub fn names(&self) -> &'p Names
        ensures { result.now ≡ self.now.names }
    {
        self.names
    }

    /// The function of a number.
    pub fn function(&self, number: FnId) -> Option<&'p Function>
        ensures { option_map function_core (option_copied result) ≡ spec.function_at self.now number.0 }
    {
        self.program.functions.as_slice().get(number.0 as usize)
    }

    /// The function that the run begins with.
    pub fn main(&self) -> Option<FnId>
        ensures { option_map number_core result ≡ self.now.program.main }
    {
        self.program.main
    }

    /// Whether a function is one that protection made.
    pub fn is_generated_function(&self, function: &Function) -> bool
        ensures { result ≡ spec.is_generated_by self.now (Some (function_core function.now)) }
    {
        self.begins(function.name.item, b"__gop_")
    }

    /// Whether the function of a number is one that protection made.
    pub fn is_generated(&self, number: FnId) -> bool
        ensures { result ≡ spec.is_generated self.now (Some number.0) }
    {
        match self.function(number) {
            None => false,
            Some(function) => self.is_generated_function(function),
        }
    }

    /// The class that declares a function, if it is no free function.
    pub fn class_of_function(&self, number: Option<FnId>) -> Option<ClassId>
        ensures { result ≡ spec.class_of_function self.now (option_map number_core number) }
    {
        match number {
            None => None,
            Some(number) => match self.function(number) {
                None => None,
                Some(function) => function.class,
            },
        }
    }

    /// Whether objects of a class have the members and functions of another, if there is one: whether that is the class
    /// itself or one above it. This takes the time of the classes between them.
    pub fn is_of(&self, own: ClassId, class: Option<ClassId>) -> bool
        ensures { result ≡ spec.is_of self.now (Some own) class }
    {
        let classes = self.program.classes.as_slice();
        match class {
            None => false,
            Some(class) => stands_upwards(classes, classes.len(), Some(own), class),
        }
    }

    /// How many words an object of a class has.
    pub fn word_count(&self, class: ClassId) -> u32
        ensures { result ≡ spec.word_count self.now (Some class) }
    {
        sizes_at(self.classes.as_slice(), class).words
    }

    /// How many mutexes an object of a class has.
    pub fn mutex_count(&self, class: ClassId) -> u32
        ensures { result ≡ spec.mutex_count self.now (Some class) }
    {
        sizes_at(self.classes.as_slice(), class).mutexes
    }

    /// The number of a word, by the class that declares it.
    pub fn word_number(&self, class: ClassId, name: NameId) -> u32
        ensures { result ≡ spec.word_number self.now class name.0 }
    {
        word_at(self.classes.as_slice(), class, name)
    }

    /// The number of a mutex that is a member, by the class that declares it.
    pub fn mutex_number(&self, class: ClassId, name: NameId) -> u32
        ensures { result ≡ spec.mutex_number self.now class name.0 }
    {
        mutex_at(self.classes.as_slice(), class, name)
    }

    /// The constructor of a class.
    pub fn constructor_of(&self, class: ClassId) -> Option<FnId>
        ensures { option_map number_core result ≡ spec.constructor_of self.now class }
    {
        match class_at(self.program.classes.as_slice(), class) {
            None => None,
            Some(class) => class.constructor,
        }
    }

    /// The destructor of a class.
    pub fn destructor_of(&self, class: ClassId) -> Option<FnId>
        ensures { option_map number_core result ≡ spec.destructor_of self.now class }
    {
        match class_at(self.program.classes.as_slice(), class) {
            None => None,
            Some(class) => class.destructor,
        }
    }

    /// The number of the global object of a name.
    pub fn global_object(&self, name: NameId) -> u32
        ensures { result ≡ spec.global_object self.now name.0 }
    {
        self.objects.number(name)
    }

    /// Whether a name begins so.
    pub fn begins(&self, name: NameId, beginning: &[u8]) -> bool
        ensures { result ≡ spec.begins self.now.names name.0 beginning.now }
    {
        texts::begins(self.names, name, beginning)
    }

    /// Whether a name is this beginning with a number from 1 on.
    pub fn is_numbered(&self, name: NameId, beginning: &[u8]) -> bool
        ensures { result ≡ inserted.is_numbered self.now name.0 beginning.now }
    {
        texts::is_numbered(self.names, name, beginning)
    }

    /// Whether a name has this text.
    pub fn is_text(&self, name: NameId, text: &[u8]) -> bool
        ensures { result ≡ is_text self.now.names name.0 text.now }
    {
        cxx_names::is_text(self.names, name, text)
    }
}
