//! Declarations of locals and parameters.

ghost use Rattle.std.specs.Prelude.{◌≡◌, OnOk, IfOk, suc, option_map};
ghost use Rattle.cxx_types.specs.Calls.{lent_class};
ghost use Rattle.cxx_types.specs.Locals as spec;

use crate::checker::Checker;
use crate::context::Context;
use agxx_base::{Memory, NameId, Rule};
use cxx_names::{ClassInfo, Thing};
use cxx_tree::{Name, Placed, TypeName};

/// The number after this one.
pub(crate) fn following(number: usize) -> Result<usize, Memory>
    ensures { IfOk result (λ n. n ≡ suc number) }
{
    match number.checked_add(1) {
        Some(next) => Ok(next),
        None => Err(Memory),
    }
}

impl<'a> Checker<'a> {
    fn known_class(&mut self, type_name: Placed<TypeName>, class: NameId) -> Result<(), Memory>
        ensures { OnOk result (self.new ≡ spec.known_class type_name class self.old) }
    {
        let known = self.declared.class_named(class).is_some();
        self.require(Rule::N1, type_name.at, known)
    }

    /// The type of a variable.
    #[tactic(auto, unfolding(crate::specs::Locals::variable_type))]
    pub(crate) fn variable_type(&mut self, type_name: Placed<TypeName>) -> Result<(), Memory>
        ensures { OnOk result (self.new ≡ spec.variable_type type_name self.old) }
    {
        match type_name.item {
            TypeName::Void => self.require(Rule::N8, type_name.at, false),
            TypeName::Pointer(class) => self.known_class(type_name, class),
            _ => Ok(()),
        }
    }

    /// The type of a result.
    #[tactic(auto, unfolding(crate::specs::Locals::result_type))]
    pub(crate) fn result_type(&mut self, type_name: Placed<TypeName>) -> Result<(), Memory>
        ensures { OnOk result (self.new ≡ spec.result_type type_name self.old) }
    {
        match type_name.item {
            TypeName::Pointer(class) => self.known_class(type_name, class),
            _ => Ok(()),
        }
    }

    fn class_meant(&self, name: NameId) -> Option<&'a ClassInfo>
        ensures { option_map lent_class result ≡ spec.class_meant name self.now }
    {
        match self.declared.class_named(name) {
            None => None,
            Some(class) => self.declared.class(class),
        }
    }

    /// The name of a class is no other thing's.
    #[tactic(auto, unfolding(crate::specs::Locals::no_class))]
    pub(crate) fn no_class(&mut self, context: Context, name: Name) -> Result<(), Memory>
        ensures { OnOk result (self.new ≡ spec.no_class context name self.old) }
    {
        match self.class_meant(name.item) {
            None => Ok(()),
            Some(class) => {
                let later = if context.index < class.index {
                    class.name.at
                } else {
                    name.at
                };
                self.require(Rule::N2, later, false)
            }
        }
    }

    fn own_name(&mut self, context: Context, name: Name) -> Result<(), Memory>
        ensures { OnOk result (self.new ≡ spec.own_name context name self.old) }
    {
        let is_new = self.scope.find(name.item).is_none();
        self.require(Rule::N2, name.at, is_new)?;
        self.no_class(context, name)
    }

    fn counted_local(&mut self, name: Name) -> Result<(), Memory>
        ensures { OnOk result (self.new ≡ spec.counted_local name self.old) }
    {
        let has_room = self.locals != self.most.locals;
        self.require(Rule::N10, name.at, has_room)?;
        self.locals = following(self.locals)?;
        Ok(())
    }

    /// A local that is in scope from here on.
    #[tactic(auto, unfolding(crate::specs::Locals::local_declared))]
    pub(crate) fn local_declared(
        &mut self,
        context: Context,
        name: Name,
        thing: Thing,
    ) -> Result<(), Memory>
        ensures { OnOk result (self.new ≡ spec.local_declared context name thing self.old) }
    {
        self.own_name(context, name)?;
        self.counted_local(name)?;
        self.scope.declare(name.item, thing)
    }

    /// A parameter.
    #[tactic(auto, unfolding(crate::specs::Locals::param_declared))]
    pub(crate) fn param_declared(
        &mut self,
        context: Context,
        name: Name,
        thing: Thing,
    ) -> Result<(), Memory>
        ensures { OnOk result (self.new ≡ spec.param_declared context name thing self.old) }
    {
        self.own_name(context, name)?;
        self.scope.declare(name.item, thing)
    }
}
