//! Names of variables and members, and what stands before a member's name.

ghost use Rattle.std.specs.Prelude.{◌≡◌, IfOk, OnOk};
ghost use Rattle.cxx_names.specs.Declarations.{is_text};
ghost use Rattle.cxx_types.specs.Selections as spec;

use crate::access::{is_accessible, variable_is_accessible};
use crate::checker::Checker;
use crate::context::{Context, Holder};
use crate::entry::Meaning;
use agxx_base::{ClassId, Memory, NameId, Place, Rule};
use cxx_names::{Declared, MemberInfo, Thing, ValueType, Variable, is_text};
use cxx_tree::{Base, Name, Node, Ref, Selector};

fn thing_in(variable: Variable) -> Thing
    ensures { result ≡ spec.thing_in variable }
{
    match variable {
        Variable::Local(thing) => thing,
        Variable::Member(_, _, thing) => thing,
        Variable::Global(thing) => thing,
    }
}

fn held(declared: &Declared, viewer: Option<ClassId>, variable: Option<Variable>) -> Thing
    ensures { result ≡ spec.held declared.now viewer variable }
{
    match variable {
        None => Thing::Nothing,
        Some(variable) => {
            if variable_is_accessible(declared, viewer, Some(variable)) {
                thing_in(variable)
            } else {
                Thing::Nothing
            }
        }
    }
}

/// Whether what a variable holds is a value: an object, a thread and a mutex are none.
pub(crate) fn is_value(thing: Thing) -> bool
    ensures { result ≡ spec.is_value thing }
{
    match thing {
        Thing::Object(_) | Thing::Thread | Thing::Mutex => false,
        Thing::Value(_) | Thing::Nothing => true,
    }
}

/// The type of what a variable holds, if it is a value.
pub(crate) fn value_of(thing: Thing) -> Option<ValueType>
    ensures { result ≡ spec.value_of thing }
{
    match thing {
        Thing::Value(value_type) => Some(value_type),
        _ => None,
    }
}

fn variable_meaning(name: NameId, variable: Option<Variable>) -> Meaning
    ensures { result ≡ spec.variable_meaning name variable }
{
    match variable {
        None => Meaning::Other,
        Some(Variable::Local(_)) => Meaning::Local(name),
        Some(Variable::Member(class, _, _)) => Meaning::Member(class, name),
        Some(Variable::Global(_)) => Meaning::Global(name),
    }
}

fn own_holder(class: Option<ClassId>) -> Holder
    ensures { result ≡ spec.own_holder class }
{
    match class {
        None => Holder::Unknown,
        Some(class) => Holder::Class(class),
    }
}

fn dot_holder(thing: Thing) -> Holder
    ensures { result ≡ spec.dot_holder thing }
{
    match thing {
        Thing::Object(class) => own_holder(class),
        Thing::Thread => Holder::Thread,
        Thing::Mutex => Holder::Mutex,
        Thing::Value(_) | Thing::Nothing => Holder::Unknown,
    }
}

fn has_dot(thing: Thing) -> bool
    ensures { result ≡ spec.has_dot thing }
{
    match thing {
        Thing::Value(_) => false,
        _ => true,
    }
}

fn arrow_holder(thing: Thing) -> Holder
    ensures { result ≡ spec.arrow_holder thing }
{
    match thing {
        Thing::Value(ValueType::Pointer(class)) => Holder::Class(class),
        _ => Holder::Unknown,
    }
}

fn has_arrow(thing: Thing) -> bool
    ensures { result ≡ spec.has_arrow thing }
{
    match thing {
        Thing::Value(ValueType::Pointer(_)) => true,
        Thing::Nothing => true,
        _ => false,
    }
}

impl<'a> Checker<'a> {
    /// The variable that a name means.
    pub(crate) fn meant(&self, context: Context, reference: Ref) -> Option<Variable>
        ensures { result ≡ spec.meant context reference self.now }
    {
        self.declared
            .variable(&self.scope, context.class, reference)
    }

    fn named_rightly(
        &mut self,
        context: Context,
        reference: Ref,
        variable: Option<Variable>,
    ) -> Result<(), Memory>
        ensures { OnOk result (self.new ≡ spec.named_rightly context reference variable self.old) }
    {
        self.require(Rule::N1, reference.name.at, variable.is_some())?;
        let accessible = variable_is_accessible(self.declared, context.class, variable);
        self.require(Rule::N6, reference.name.at, accessible)
    }

    /// The node of a variable's name.
    pub(crate) fn variable_node(
        &mut self,
        context: Context,
        reference: Ref,
        variable: Option<Variable>,
    ) -> Result<(), Memory>
        ensures { OnOk result (self.new ≡ spec.variable_node context reference variable self.old) }
    {
        let value_type = value_of(held(self.declared, context.class, variable));
        self.node(value_type, variable_meaning(reference.name.item, variable))
    }

    /// A variable's name as a value.
    #[tactic(auto, unfolding(crate::specs::Selections::read))]
    pub(crate) fn read(
        &mut self,
        context: Context,
        reference: Ref,
    ) -> Result<Option<ValueType>, Memory>
        ensures { IfOk result (λ t. (self.new, t) ≡ spec.read context reference self.old) }
    {
        let variable = self.meant(context, reference);
        let thing = held(self.declared, context.class, variable);
        self.named_rightly(context, reference, variable)?;
        self.require(Rule::N3, reference.node.at, is_value(thing))?;
        self.variable_node(context, reference, variable)?;
        Ok(value_of(thing))
    }

    /// What stands before a member's name, in an expression that begins at this place.
    #[tactic(auto, unfolding(crate::specs::Selections::holder))]
    pub(crate) fn holder(
        &mut self,
        context: Context,
        at: Place,
        base: Base,
    ) -> Result<Holder, Memory>
        ensures { IfOk result (λ h. (self.new, h) ≡ spec.holder context at base self.old) }
    {
        match base {
            Base::This => {
                self.require(Rule::N8, at, context.class.is_some())?;
                Ok(own_holder(context.class))
            }
            Base::Dot(reference) => {
                let variable = self.meant(context, reference);
                let thing = held(self.declared, context.class, variable);
                self.named_rightly(context, reference, variable)?;
                self.require(Rule::N3, at, has_dot(thing))?;
                Ok(dot_holder(thing))
            }
            Base::Arrow(reference) => {
                let variable = self.meant(context, reference);
                let thing = held(self.declared, context.class, variable);
                self.named_rightly(context, reference, variable)?;
                self.require(Rule::N3, at, has_arrow(thing))?;
                Ok(arrow_holder(thing))
            }
        }
    }

    /// The node of the name before `.` or `->`.
    #[tactic(auto, unfolding(crate::specs::Selections::base_node))]
    pub(crate) fn base_node(&mut self, context: Context, base: Base) -> Result<(), Memory>
        ensures { OnOk result (self.new ≡ spec.base_node context base self.old) }
    {
        match base {
            Base::This => Ok(()),
            Base::Dot(reference) => {
                let variable = self.meant(context, reference);
                self.variable_node(context, reference, variable)
            }
            Base::Arrow(reference) => {
                let variable = self.meant(context, reference);
                self.variable_node(context, reference, variable)
            }
        }
    }

    pub(crate) fn is_thread_function(&self, name: NameId) -> bool
        ensures { result ≡ spec.is_thread_function self.now name }
    {
        is_text(self.names, name, b"join".as_slice())
    }

    pub(crate) fn is_mutex_function(&self, name: NameId) -> bool
        ensures { result ≡ spec.is_mutex_function self.now name }
    {
        is_text(self.names, name, b"lock".as_slice())
            || is_text(self.names, name, b"unlock".as_slice())
    }

    fn member_value(
        &self,
        viewer: Option<ClassId>,
        holder: ClassId,
        owner: ClassId,
        member: MemberInfo,
    ) -> Thing
        ensures { result ≡ spec.member_value self.now viewer holder (owner, member) }
    {
        if is_accessible(self.declared, member.access, viewer, holder, owner) {
            self.declared.thing_of(member.type_name)
        } else {
            Thing::Nothing
        }
    }

    fn member_by(
        &mut self,
        context: Context,
        at: Place,
        name: Name,
        holder: ClassId,
    ) -> Result<Option<ValueType>, Memory>
        ensures { IfOk result (λ t.
            (self.new, t) ≡ spec.member_by context at name holder
            (spec.member_found self.old holder name) self.old) }
    {
        match self.declared.member(holder, name.item) {
            None => {
                self.require(Rule::N1, name.at, false)?;
                self.node(None, Meaning::Other)?;
                Ok(None)
            }
            Some((owner, member)) => {
                let class = context.class;
                let thing = self.member_value(class, holder, owner, member);
                let accessible = is_accessible(self.declared, member.access, class, holder, owner);
                self.require(Rule::N6, name.at, accessible)?;
                self.require(Rule::N3, at, is_value(thing))?;
                self.node(value_of(thing), Meaning::Member(owner, name.item))?;
                Ok(value_of(thing))
            }
        }
    }

    fn no_value(
        &mut self,
        at: Place,
        name: Name,
        is_function: bool,
    ) -> Result<Option<ValueType>, Memory>
        ensures { IfOk result (λ t. (self.new, t) ≡ spec.no_value at name is_function self.old) }
    {
        self.require(Rule::N1, name.at, is_function)?;
        self.require(Rule::N8, at, !is_function)?;
        self.node(None, Meaning::Other)?;
        Ok(None)
    }

    /// A member's name behind what has members, as a value that begins at this place.
    #[tactic(auto, unfolding(crate::specs::Selections::member))]
    fn member(
        &mut self,
        context: Context,
        at: Place,
        name: Name,
        holder: Holder,
    ) -> Result<Option<ValueType>, Memory>
        ensures { IfOk result (λ t. (self.new, t) ≡ spec.member context at name holder self.old) }
    {
        match holder {
            Holder::Class(class) => self.member_by(context, at, name, class),
            Holder::Thread => {
                let is_function = self.is_thread_function(name.item);
                self.no_value(at, name, is_function)
            }
            Holder::Mutex => {
                let is_function = self.is_mutex_function(name.item);
                self.no_value(at, name, is_function)
            }
            Holder::Unknown => {
                self.node(None, Meaning::Other)?;
                Ok(None)
            }
        }
    }

    /// A member's name with what stands before it, as a value.
    #[tactic(auto, unfolding(crate::specs::Selections::selected))]
    pub(crate) fn selected(
        &mut self,
        context: Context,
        node: Node,
        selector: Selector,
    ) -> Result<Option<ValueType>, Memory>
        ensures { IfOk result (λ t. (self.new, t) ≡ spec.selected context node selector self.old) }
    {
        let holder = self.holder(context, node.at, selector.base)?;
        let value_type = self.member(context, node.at, selector.name, holder)?;
        self.base_node(context, selector.base)?;
        Ok(value_type)
    }
}
