//! What names stand for.

ghost use Rattle.std.specs.Prelude.{◌≡◌, option_map};
ghost use Rattle.cxx_tree.specs.ExprTree.{expr_tree};
ghost use Rattle.cxx_names.specs.LookUp.{lent};
ghost use Rattle.cxx_core.specs.ExprView.{object_core, left_core, callee_core};
ghost use Rattle.cxx_core.specs.Meanings as spec;
ghost use Rattle.cxx_elaborate.specs.Views.{object_in};

use crate::elaborator::Elaborator;
use agxx_base::{ClassId, NameId, NumKind, Place};
use cxx_core::{Callee, Left, Member, Object, Variable};
use cxx_names::{MemberInfo, Signature, Table, Thing, ValueType};
use cxx_tree::{Base, Ref, Selector, TypeName};

fn value_type(thing: Thing) -> Option<ValueType>
    ensures { result ≡ spec.value_type thing }
{
    match thing {
        Thing::Value(value_type) => Some(value_type),
        _ => None,
    }
}

fn left_by(reference: Ref, variable: Option<cxx_names::Variable>) -> Option<Left>
    ensures { option_map left_core result ≡ spec.left_by reference variable }
{
    let name = reference.name.item;
    match variable {
        Some(cxx_names::Variable::Local(Thing::Value(value_type))) => {
            Some(Left::Variable(Variable::Local(name, value_type)))
        }
        Some(cxx_names::Variable::Member(class, _, Thing::Value(ValueType::Number(kind)))) => {
            Some(Left::Member(Member {
                at: reference.node.at,
                object: Object::Own,
                class,
                name,
                kind,
            }))
        }
        Some(cxx_names::Variable::Global(Thing::Value(value_type))) => Some(Left::Variable(
            Variable::Global(reference.global, name, value_type),
        )),
        _ => None,
    }
}

fn own_object(object: Object, class: Option<ClassId>) -> Option<(Object, ClassId)>
    ensures { option_map object_in result ≡ spec.own_object (object_core object) class }
{
    match class {
        None => None,
        Some(class) => Some((object, class)),
    }
}

fn own_if(class: Option<ClassId>) -> Option<Object>
    ensures { option_map object_core result ≡ spec.own_if class }
{
    match class {
        None => None,
        Some(_) => Some(Object::Own),
    }
}

fn object_by(reference: Ref, variable: Option<cxx_names::Variable>) -> Option<(Object, ClassId)>
    ensures { option_map object_in result ≡ spec.object_by reference variable }
{
    match variable {
        Some(cxx_names::Variable::Global(Thing::Object(Some(class)))) => {
            Some((Object::Named(reference.name.item, class), class))
        }
        _ => None,
    }
}

fn pointed_by(left: Option<Left>) -> Option<(Object, ClassId)>
    ensures { option_map object_in result ≡ spec.pointed_by (option_map left_core left) }
{
    match left {
        Some(Left::Variable(Variable::Local(name, ValueType::Pointer(class)))) => {
            let pointer = Variable::Local(name, ValueType::Pointer(class));
            Some((Object::Pointed(pointer), class))
        }
        Some(Left::Variable(Variable::Global(is_global, name, ValueType::Pointer(class)))) => {
            let pointer = Variable::Global(is_global, name, ValueType::Pointer(class));
            Some((Object::Pointed(pointer), class))
        }
        _ => None,
    }
}

impl<'a> Elaborator<'a> {
    /// The type of what a variable of a type holds, and of what a function with this result gives.
    pub(crate) fn type_named(&self, type_name: TypeName) -> Option<ValueType>
        ensures { result ≡ spec.type_named self.now.declared type_name }
    {
        value_type(self.declared.thing_of(type_name))
    }

    /// The kind of the numbers of a type.
    pub(crate) fn kind_named(&self, type_name: TypeName) -> Option<NumKind>
        ensures { result ≡ spec.kind_named self.now.declared type_name }
    {
        match self.type_named(type_name) {
            Some(ValueType::Number(kind)) => Some(kind),
            _ => None,
        }
    }

    pub(crate) fn variable_at(
        &self,
        scope: &Table<Thing>,
        reference: Ref,
    ) -> Option<cxx_names::Variable>
        ensures { result ≡ spec.variable_at self.now scope.now reference }
    {
        self.declared.variable(scope, self.class, reference)
    }

    fn object_at(&self, scope: &Table<Thing>, base: Base) -> Option<(Object, ClassId)>
        ensures { option_map object_in result ≡ spec.object_at self.now scope.now base }
    {
        match base {
            Base::This => own_object(Object::This, self.class),
            Base::Dot(reference) => object_by(reference, self.variable_at(scope, reference)),
            Base::Arrow(reference) => {
                pointed_by(left_by(reference, self.variable_at(scope, reference)))
            }
        }
    }

    /// The global object that an operand of `&` names, with its class.
    pub(crate) fn addressed(
        &self,
        scope: &Table<Thing>,
        operand: &cxx_tree::Expr,
    ) -> Option<(Object, ClassId)>
        ensures { option_map object_in result ≡ spec.addressed self.now scope.now (expr_tree operand.now) }
    {
        match operand {
            cxx_tree::Expr::Left(cxx_tree::Left::Name(reference)) => {
                object_by(*reference, self.variable_at(scope, *reference))
            }
            _ => None,
        }
    }

    fn member_found(
        &self,
        at: Place,
        object: Object,
        name: NameId,
        found: Option<(ClassId, MemberInfo)>,
    ) -> Option<Left>
        ensures { option_map left_core result ≡
            spec.member_found self.now.declared at (object_core object) name.0 found }
    {
        match found {
            None => None,
            Some((class, info)) => match self.kind_named(info.type_name) {
                None => None,
                Some(kind) => Some(Left::Member(Member {
                    at,
                    object,
                    class,
                    name,
                    kind,
                })),
            },
        }
    }

    fn member_in(&self, at: Place, name: NameId, object: Option<(Object, ClassId)>) -> Option<Left>
        ensures { option_map left_core result ≡
            spec.member_in self.now.declared at name.0 (option_map object_in object) }
    {
        match object {
            None => None,
            Some((object, class)) => {
                self.member_found(at, object, name, self.declared.member(class, name))
            }
        }
    }

    /// What may be assigned to.
    pub(crate) fn left_at(&self, scope: &Table<Thing>, left: cxx_tree::Left) -> Option<Left>
        ensures { option_map left_core result ≡ spec.left_at self.now scope.now left }
    {
        match left {
            cxx_tree::Left::Name(reference) => {
                left_by(reference, self.variable_at(scope, reference))
            }
            cxx_tree::Left::Member(node, selector) => {
                let object = self.object_at(scope, selector.base);
                self.member_in(node.at, selector.name.item, object)
            }
            cxx_tree::Left::Result(_) => None,
        }
    }

    fn bare_callee(
        &self,
        at: Place,
        reference: Ref,
        found: Option<(Option<ClassId>, &Signature)>,
    ) -> Option<Callee>
        ensures { option_map callee_core result ≡
            spec.bare_callee self.now.declared at reference (option_map lent found.entry) }
    {
        match found {
            None => None,
            Some((class, signature)) => Some(Callee {
                at,
                named: reference.name.at,
                function: signature.id,
                name: reference.name.item,
                class,
                object: own_if(class),
                is_global: reference.global,
                result: self.type_named(signature.result),
            }),
        }
    }

    fn method_in(
        &self,
        at: Place,
        selector: Selector,
        object: Option<(Object, ClassId)>,
    ) -> Option<Callee>
        ensures { option_map callee_core result ≡
            spec.method_in self.now.declared at selector.name.at selector.name.item.0
            (option_map object_in object) }
    {
        let Some((object, class)) = object else {
            return None;
        };
        let name = selector.name;
        match self.declared.method(class, name.item) {
            None => None,
            Some((owner, signature)) => Some(Callee {
                at,
                named: name.at,
                function: signature.id,
                name: name.item,
                class: Some(owner),
                object: Some(object),
                is_global: false,
                result: self.type_named(signature.result),
            }),
        }
    }

    /// The function of a call that begins at a place.
    pub(crate) fn callee_at(
        &self,
        scope: &Table<Thing>,
        at: Place,
        callee: cxx_tree::Callee,
    ) -> Option<Callee>
        ensures { option_map callee_core result ≡ spec.callee_at self.now scope.now at callee }
    {
        match callee {
            cxx_tree::Callee::Bare(reference) => {
                let found = self.declared.function(self.class, reference);
                self.bare_callee(at, reference, found)
            }
            cxx_tree::Callee::Member(selector) => {
                let object = self.object_at(scope, selector.base);
                self.method_in(at, selector, object)
            }
        }
    }
}
