//! What names mean.

ghost use Rattle.std.specs.Prelude.{◌≡◌, option_map};
ghost use Rattle.std.specs.Option.{option_copied};
ghost use Rattle.cxx_names.specs.LookUp as spec;

use crate::declarations::{ClassInfo, Declared, GlobalInfo, MemberInfo, Signature};
use crate::lineage::Lineage;
use crate::table::Table;
use crate::types::{Thing, ValueType, Variable};
use agxx_base::{ClassId, NameId, NumKind};
use cxx_tree::{Ref, TypeName};

impl Declared {
    /// Whether a class is another one or stands below it in its chain of bases.
    pub fn derives(&self, class: ClassId, from: ClassId) -> bool
        ensures { result ≡ spec.derives self.now class from }
    {
        let mut lineage = Lineage::of(self, class);
        while let Some(next) = lineage.next() {
            if from.0 == next.0 {
                return true;
            }
        }
        false
    }

    fn own_member(&self, class: ClassId, name: NameId) -> Option<MemberInfo>
        ensures { result ≡ spec.member_by name.0 (spec.class_info self.now class) }
    {
        match self.class(class) {
            None => None,
            Some(info) => info.members.find(name).copied(),
        }
    }

    /// The member of a class that a name means, with the class that declares it.
    pub fn member(&self, class: ClassId, name: NameId) -> Option<(ClassId, MemberInfo)>
        ensures { result ≡ spec.member_named self.now class name.0 }
    {
        let mut found = None;
        let mut lineage = Lineage::of(self, class);
        while let Some(next) = lineage.next() {
            if let Some(member) = self.own_member(next, name) {
                found = Some((next, member));
            }
        }
        found
    }

    fn own_method(&self, class: ClassId, name: NameId) -> Option<&Signature>
        ensures { option_copied result ≡ spec.method_by name.0 (spec.class_info self.now class) }
    {
        match self.class(class) {
            None => None,
            Some(info) => info.methods.find(name),
        }
    }

    /// The function of a class that a name means, with the class that declares it.
    pub fn method(&self, class: ClassId, name: NameId) -> Option<(ClassId, &Signature)>
        ensures { option_map spec.lent result ≡ spec.method_named self.now class name.0 }
    {
        let mut found = None;
        let mut lineage = Lineage::of(self, class);
        while let Some(next) = lineage.next() {
            if let Some(method) = self.own_method(next, name) {
                found = Some((next, method));
            }
        }
        found
    }

    fn has_own_item(&self, class: ClassId, name: NameId) -> bool
        ensures { result ≡ spec.has_item_by name.0 (spec.class_info self.now class) }
    {
        match self.class(class) {
            None => false,
            Some(info) => info.items.find(name).is_some(),
        }
    }

    /// Whether a class, or one above it, declares a member or function of a name.
    pub fn has_item(&self, class: ClassId, name: NameId) -> bool
        ensures { result ≡ spec.has_item self.now class name.0 }
    {
        let mut lineage = Lineage::of(self, class);
        while let Some(next) = lineage.next() {
            if self.has_own_item(next, name) {
                return true;
            }
        }
        false
    }

    /// What a variable of a type holds.
    pub fn thing_of(&self, type_name: TypeName) -> Thing
        ensures { result ≡ spec.thing_of self.now type_name }
    {
        match type_name {
            TypeName::Num(kind) => Thing::Value(ValueType::Number(kind)),
            TypeName::Int => Thing::Value(ValueType::Number(NumKind::I32)),
            TypeName::Unsigned => Thing::Value(ValueType::Number(NumKind::U32)),
            TypeName::Void => Thing::Nothing,
            TypeName::Pointer(class) => match self.class_named(class) {
                None => Thing::Nothing,
                Some(class) => Thing::Value(ValueType::Pointer(class)),
            },
            TypeName::Mutex => Thing::Mutex,
        }
    }

    fn global_thing(&self, global: GlobalInfo) -> Thing
        ensures { result ≡ spec.global_thing self.now global }
    {
        match global {
            GlobalInfo::Variable(type_name) => self.thing_of(type_name),
            GlobalInfo::Object(class) => Thing::Object(self.class_named(class)),
            GlobalInfo::Mutex => Thing::Mutex,
        }
    }

    fn member_variable(&self, class: Option<ClassId>, name: NameId) -> Option<Variable>
        ensures { result ≡ spec.member_variable self.now class name.0 }
    {
        let Some(class) = class else { return None };
        match self.member(class, name) {
            None => None,
            Some((owner, member)) => {
                let thing = self.thing_of(member.type_name);
                Some(Variable::Member(owner, member.access, thing))
            }
        }
    }

    fn global_variable(&self, name: NameId) -> Option<Variable>
        ensures { result ≡ spec.global_variable self.now name.0 }
    {
        match self.globals.find(name) {
            None => None,
            Some(global) => Some(Variable::Global(self.global_thing(*global))),
        }
    }

    /// The variable that a name means in a function of a class, if of any, where these locals and parameters are in
    /// scope.
    pub fn variable(
        &self,
        scope: &Table<Thing>,
        class: Option<ClassId>,
        reference: Ref,
    ) -> Option<Variable>
        ensures { result ≡ spec.variable self.now scope.now class reference }
    {
        let name = reference.name.item;
        if reference.global {
            return self.global_variable(name);
        }
        if let Some(thing) = scope.find(name) {
            return Some(Variable::Local(*thing));
        }
        if let Some(member) = self.member_variable(class, name) {
            return Some(member);
        }
        self.global_variable(name)
    }

    /// The free function that a name means.
    pub fn free_function(&self, name: NameId) -> Option<&Signature>
        ensures { option_copied result ≡ spec.free_signature self.now name.0 }
    {
        self.functions.find(name)
    }

    fn own_function(&self, class: Option<ClassId>, name: NameId) -> Option<(ClassId, &Signature)>
        ensures { option_map spec.lent result ≡ spec.own_function self.now class name.0 }
    {
        match class {
            None => None,
            Some(class) => self.method(class, name),
        }
    }

    /// The function that a name means in a function of a class, if of any, with the class that declares it.
    pub fn function(
        &self,
        class: Option<ClassId>,
        reference: Ref,
    ) -> Option<(Option<ClassId>, &Signature)>
        ensures { option_map spec.lent result ≡ spec.function self.now class reference }
    {
        let name = reference.name.item;
        if !reference.global
            && let Some((owner, method)) = self.own_function(class, name)
        {
            return Some((Some(owner), method));
        }
        match self.free_function(name) {
            None => None,
            Some(signature) => Some((None, signature)),
        }
    }

    /// Whether a class, function or global of a name stands before a place among the declarations.
    pub fn is_declared_before(&self, name: NameId, index: usize) -> bool
        ensures { result ≡ spec.is_declared_before self.now name.0 index }
    {
        match self.first.find(name) {
            None => false,
            Some(first) => *first < index,
        }
    }
}
