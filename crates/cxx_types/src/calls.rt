//! Calls of functions and constructors.

ghost use Rattle.std.specs.Prelude.{◌≡◌, IfOk, option_map};
ghost use Rattle.cxx_types.specs.Calls as spec;

use crate::access::{is_accessible, own_is_accessible};
use crate::checker::Checker;
use crate::context::{Context, Holder};
use crate::entry::Meaning;
use crate::selections::value_of;
use agxx_base::{ClassId, Memory, Place, Rule};
use cxx_names::{ClassInfo, Declared, Signature, ValueType};
use cxx_tree::{Callee, Name, Node, Param, Ref, Selector, TypeName};
use std::marker::Model;

/// What a call needs to know of what is called.
#[derive(Drop)]
pub(crate) struct Called<'a> {
    pub(crate) params: &'a [Param],
    /// The type of the result, if it has one.
    pub(crate) result: Option<ValueType>,
    /// Whether the call, its arguments aside, violates no rule.
    pub(crate) is_right: bool,
}

impl<'a> Model for Called<'a> {
    ghost use Rattle.cxx_types.specs.Callable.{Callable};

    ghost Value = { Callable };

    ghost view = { λ called. record {
      params = called.params.now;
      result = called.result;
      is_right = called.is_right;
    } };
}

/// How a function is called: the number of arguments, and whether a value is wanted.
#[derive(Clone, Copy)]
pub(crate) struct Use {
    pub(crate) count: usize,
    pub(crate) as_value: bool,
}

pub(crate) fn is_void(type_name: TypeName) -> bool
    ensures { result ≡ spec.is_void type_name }
{
    match type_name {
        TypeName::Void => true,
        _ => false,
    }
}

pub(crate) fn result_type(declared: &Declared, type_name: TypeName) -> Option<ValueType>
    ensures { result ≡ spec.result_type declared.now type_name }
{
    value_of(declared.thing_of(type_name))
}

pub(crate) fn counts(count: usize, params: &[Param]) -> bool
    ensures { result ≡ spec.counts count params.now }
{
    count == params.len()
}

fn unknown<'a>() -> Called<'a>
    ensures { result ≡ spec.unknown }
{
    Called {
        params: &[],
        result: None,
        is_right: false,
    }
}

fn access_of(
    declared: &Declared,
    viewer: Option<ClassId>,
    owner: Option<ClassId>,
    signature: &Signature,
) -> bool
    ensures { result ≡ spec.access_of declared.now viewer (owner, signature.now) }
{
    match owner {
        None => true,
        Some(owner) => own_is_accessible(declared, signature.access, viewer, owner),
    }
}

pub(crate) fn ctor_of(class: Option<&ClassInfo>) -> Option<&Signature>
    ensures { option_map spec.lent_signature result ≡ spec.ctor_of (option_map spec.lent_class class.entry) }
{
    match class {
        None => None,
        Some(class) => class.ctor.as_ref(),
    }
}

impl<'a> Checker<'a> {
    fn bare(
        &mut self,
        context: Context,
        node: Node,
        reference: Ref,
        used: Use,
    ) -> Result<Called<'a>, Memory>
        ensures { IfOk result (λ f.
            (self.new, f) ≡ spec.bare_by context node reference used.count used.as_value
            (spec.function_meant context reference self.old) self.old) }
    {
        let declared = self.declared;
        match declared.function(context.class, reference) {
            None => {
                self.require(Rule::N1, reference.name.at, false)?;
                self.node(None, Meaning::Other)?;
                self.node(None, Meaning::Other)?;
                Ok(unknown())
            }
            Some((owner, signature)) => {
                let accessible = access_of(declared, context.class, owner, signature);
                let counted = counts(used.count, signature.params.as_slice());
                let result = result_type(declared, signature.result);
                let valued = !used.as_value || !is_void(signature.result);
                self.require(Rule::N6, reference.name.at, accessible)?;
                self.require(Rule::N8, node.at, !signature.is_main)?;
                self.require(Rule::N4, reference.name.at, counted)?;
                self.require(Rule::N3, node.at, valued)?;
                self.node(result, Meaning::Function(signature.id))?;
                self.node(result, Meaning::Function(signature.id))?;
                Ok(Called {
                    params: signature.params.as_slice(),
                    result,
                    is_right: accessible && !signature.is_main && counted,
                })
            }
        }
    }

    fn method(
        &mut self,
        context: Context,
        node: Node,
        name: Name,
        holder: ClassId,
        used: Use,
    ) -> Result<Called<'a>, Memory>
        ensures { IfOk result (λ f.
            (self.new, f) ≡ spec.method_by context node name holder used.count used.as_value
            (spec.method_meant holder name self.old) self.old) }
    {
        let declared = self.declared;
        match declared.method(holder, name.item) {
            None => {
                self.require(Rule::N1, name.at, false)?;
                self.node(None, Meaning::Other)?;
                Ok(unknown())
            }
            Some((owner, signature)) => {
                let access = signature.access;
                let accessible = is_accessible(declared, access, context.class, holder, owner);
                let counted = counts(used.count, signature.params.as_slice());
                let result = result_type(declared, signature.result);
                let valued = !used.as_value || !is_void(signature.result);
                self.require(Rule::N6, name.at, accessible)?;
                self.require(Rule::N4, name.at, counted)?;
                self.require(Rule::N3, node.at, valued)?;
                self.node(result, Meaning::Function(signature.id))?;
                Ok(Called {
                    params: signature.params.as_slice(),
                    result,
                    is_right: accessible && counted,
                })
            }
        }
    }

    fn asked(
        &mut self,
        node: Node,
        name: Name,
        used: Use,
        is_function: bool,
    ) -> Result<Called<'a>, Memory>
        ensures { IfOk result (λ f.
            (self.new, f) ≡ spec.asked node name used.count used.as_value is_function self.old) }
    {
        self.require(Rule::N1, name.at, is_function)?;
        self.require(Rule::N8, node.at, !is_function || !used.as_value)?;
        self.require(Rule::N4, name.at, !is_function || used.count == 0)?;
        self.node(None, Meaning::Other)?;
        Ok(unknown())
    }

    fn called_behind(
        &mut self,
        context: Context,
        node: Node,
        name: Name,
        used: Use,
        holder: Holder,
    ) -> Result<Called<'a>, Memory>
        ensures { IfOk result (λ f.
            (self.new, f) ≡ spec.called_behind context node name used.count used.as_value
            holder self.old) }
    {
        match holder {
            Holder::Class(class) => self.method(context, node, name, class, used),
            Holder::Thread => {
                let is_function = self.is_thread_function(name.item);
                self.asked(node, name, used, is_function)
            }
            Holder::Mutex => {
                let is_function = self.is_mutex_function(name.item);
                self.asked(node, name, used, is_function)
            }
            Holder::Unknown => {
                self.node(None, Meaning::Other)?;
                Ok(unknown())
            }
        }
    }

    fn method_call(
        &mut self,
        context: Context,
        node: Node,
        selector: Selector,
        used: Use,
    ) -> Result<Called<'a>, Memory>
        ensures { IfOk result (λ f.
            (self.new, f) ≡ spec.method_call context node selector used.count used.as_value self.old) }
    {
        let holder = self.holder(context, node.at, selector.base)?;
        let called = self.called_behind(context, node, selector.name, used, holder)?;
        self.base_node(context, selector.base)?;
        Ok(called)
    }

    /// A call: what is called, and the nodes of the call and of the names before its arguments.
    #[tactic(auto, unfolding(crate::specs::Calls::called))]
    pub(crate) fn called(
        &mut self,
        context: Context,
        node: Node,
        callee: Callee,
        used: Use,
    ) -> Result<Called<'a>, Memory>
        ensures { IfOk result (λ f.
            (self.new, f) ≡ spec.called context node callee used.count used.as_value self.old) }
    {
        match callee {
            Callee::Bare(reference) => self.bare(context, node, reference, used),
            Callee::Member(selector) => self.method_call(context, node, selector, used),
        }
    }

    /// The constructor of a class is used with so many arguments, in a function of the class `viewer`, if of any.
    pub(crate) fn constructed(
        &mut self,
        viewer: Option<ClassId>,
        class: ClassId,
        name: Place,
        count: usize,
    ) -> Result<Called<'a>, Memory>
        ensures { IfOk result (λ f.
            (self.new, f) ≡ spec.constructed viewer class name count
            (spec.ctor_in class self.old) self.old) }
    {
        let declared = self.declared;
        match ctor_of(declared.class(class)) {
            None => Ok(unknown()),
            Some(signature) => {
                let accessible = is_accessible(declared, signature.access, viewer, class, class);
                let counted = counts(count, signature.params.as_slice());
                self.require(Rule::N6, name, accessible)?;
                self.require(Rule::N4, name, counted)?;
                Ok(Called {
                    params: signature.params.as_slice(),
                    result: Some(ValueType::Pointer(class)),
                    is_right: accessible && counted,
                })
            }
        }
    }

    /// `new` with so many arguments: what is called, and the node of the whole.
    #[tactic(auto, unfolding(crate::specs::Calls::created))]
    pub(crate) fn created(
        &mut self,
        context: Context,
        name: Name,
        count: usize,
    ) -> Result<Called<'a>, Memory>
        ensures { IfOk result (λ f. (self.new, f) ≡ spec.created context name count self.old) }
    {
        match self.declared.class_named(name.item) {
            None => {
                self.require(Rule::N1, name.at, false)?;
                self.node(None, Meaning::Other)?;
                Ok(unknown())
            }
            Some(class) => {
                let called = self.constructed(context.class, class, name.at, count)?;
                self.node(Some(ValueType::Pointer(class)), Meaning::Other)?;
                Ok(called)
            }
        }
    }
}
