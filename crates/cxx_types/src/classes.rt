//! Functions and classes.

ghost use Rattle.std.specs.Prelude.{◌≡◌, [], OnOk, IfOk, map, option_map};
ghost use Rattle.cxx_tree.specs.ExprTree.{exprs_tree};
ghost use Rattle.cxx_tree.specs.ProgramTree.{function_tree, init_tree, ctor_tree, dtor_tree, item_tree, class_tree};
ghost use Rattle.cxx_types.specs.Calls.{lent_signature};
ghost use Rattle.cxx_types.specs.Classes as spec;

use crate::calls::{counts, ctor_of};
use crate::checker::Checker;
use crate::context::{Context, Owner};
use crate::conversion::may_convert;
use crate::expressions::count;
use crate::locals::following;
use crate::selections::{is_value, value_of};
use agxx_base::{ClassId, Memory, NameId, Rule};
use cxx_names::{ClassInfo, Declared, MemberInfo, Signature, Table};
use cxx_tree::{
    Access, Class, Ctor, Dtor, Expr, Function, Init, Item, Member, Name, Param, TypeName,
};

/// The most parameters of a function.
const MOST_PARAMS: usize = 16;

/// One more class than may stand above another.
const TOO_MANY_ANCESTORS: usize = 17;

/// What was seen of the items of a class.
#[derive(Clone, Copy)]
pub struct ItemsSeen {
    /// How many items there were.
    pub(crate) index: usize,
    pub(crate) members: usize,
    pub(crate) methods: usize,
    pub(crate) has_ctor: bool,
    pub(crate) has_dtor: bool,
}

const NONE_SEEN: ItemsSeen = ItemsSeen {
    index: 0,
    members: 0,
    methods: 0,
    has_ctor: false,
    has_dtor: false,
};

fn base_params(ctor: Option<&Signature>) -> &[Param]
    ensures { result.now ≡ spec.base_params (option_map lent_signature ctor.entry) }
{
    match ctor {
        None => &[],
        Some(signature) => signature.params.as_slice(),
    }
}

fn base_ctor<'d>(declared: &'d Declared, class: &ClassInfo) -> Option<&'d Signature>
    ensures { option_map lent_signature result ≡ spec.base_ctor_in declared.now class.now }
{
    match class.base {
        None => None,
        Some(base) => ctor_of(declared.class(base)),
    }
}

fn base_dtor<'d>(declared: &'d Declared, class: &ClassInfo) -> Option<&'d Signature>
    ensures { option_map lent_signature result ≡ spec.base_dtor_in declared.now class.now }
{
    match class.base {
        None => None,
        Some(base) => match declared.class(base) {
            None => None,
            Some(info) => info.dtor.as_ref(),
        },
    }
}

fn same_name(name: NameId, other: Name) -> bool
    ensures { result ≡ spec.same_name name other }
{
    name.0 == other.item.0
}

/// Whether a name is that of the base, if the base is a class that is declared before.
fn names_base(base: Option<Name>, class: &ClassInfo, name: Name) -> bool
    ensures { result ≡ spec.names_base base class.now name }
{
    class.base.is_some()
        && match base {
            None => false,
            Some(base) => same_name(base.item, name),
        }
}

fn initialises_base(base: Option<Name>, class: &ClassInfo, inits: &[Init]) -> bool
    ensures { result ≡ spec.initialises_base base class.now (map init_tree inits.now) }
{
    for init in inits {
        if names_base(base, class, init.name) {
            return true;
        }
    }
    false
}

fn is_derivable(signature: Option<&Signature>) -> bool
    ensures { result ≡ spec.is_derivable (option_map lent_signature signature.entry) }
{
    match signature {
        None => true,
        Some(signature) => !matches!(signature.access, Access::Private),
    }
}

fn lifecycle(context: Context) -> Context
    ensures { result ≡ spec.lifecycle context }
{
    Context {
        owner: Owner::Lifecycle,
        ..context
    }
}

fn is_pointer(type_name: TypeName) -> bool
    ensures { result ≡ spec.is_pointer type_name }
{
    matches!(type_name, TypeName::Pointer(_))
}

impl<'a> Checker<'a> {
    fn param(&mut self, context: Context, index: usize, param: &Param) -> Result<(), Memory>
        ensures { OnOk result (self.new ≡ spec.param context index param.now self.old) }
    {
        self.variable_type(param.type_name)?;
        self.require(Rule::N10, param.name.at, index != MOST_PARAMS)?;
        let thing = self.declared.thing_of(param.type_name.item);
        self.param_declared(context, param.name, thing)
    }

    fn params(&mut self, context: Context, params: &[Param]) -> Result<(), Memory>
        ensures { OnOk result (self.new ≡ spec.params context 0 params.now self.old) }
    {
        let mut index = 0;
        for param in params {
            self.param(context, index, param)?;
            index = following(index)?;
        }
        Ok(())
    }

    /// Leaves a function.
    fn begin(&mut self)
        ensures { self.new ≡ spec.begun self.old }
    {
        self.scope.truncate(0);
        self.locals = 0;
        self.returns = 0;
    }

    #[tactic(auto, unfolding(crate::specs::Classes::function))]
    pub(crate) fn function(&mut self, context: Context, function: &Function) -> Result<(), Memory>
        ensures { OnOk result (self.new ≡ spec.function context (function_tree function.now) self.old) }
    {
        self.result_type(function.result)?;
        self.params(context, function.params.as_slice())?;
        self.body(context, &function.body)?;
        self.begin();
        Ok(())
    }

    fn base_init(&mut self, context: Context, class: &ClassInfo, init: &Init) -> Result<(), Memory>
        ensures { OnOk result
            (self.new ≡ spec.base_init context class.now (init_tree init.now) self.old) }
    {
        let arguments = init.arguments.as_slice();
        let params = base_params(base_ctor(self.declared, class));
        self.require(Rule::N4, init.name.at, counts(count(arguments), params))?;
        self.base_arguments(context, arguments)?;
        self.arguments(context, params, arguments)?;
        Ok(())
    }

    fn member_arguments(
        &mut self,
        context: Context,
        name: Name,
        type_name: TypeName,
        arguments: &[Expr],
    ) -> Result<(), Memory>
        ensures { OnOk result
            (self.new ≡ spec.member_arguments context name type_name
            (exprs_tree arguments.now) self.old) }
    {
        if let [first, rest @ ..] = arguments {
            let value = self.expr(context, first)?;
            let to = value_of(self.declared.thing_of(type_name));
            let is_right = may_convert(self.declared, value, to);
            self.require(Rule::N3, name.at, is_right)?;
            self.arguments(context, &[], rest)?;
        }
        Ok(())
    }

    fn member_init(
        &mut self,
        context: Context,
        init: &Init,
        member: Option<MemberInfo>,
    ) -> Result<(), Memory>
        ensures { OnOk result
            (self.new ≡ spec.member_init context (init_tree init.now) member self.old) }
    {
        let arguments = init.arguments.as_slice();
        match member {
            None => {
                self.require(Rule::N1, init.name.at, false)?;
                self.arguments(context, &[], arguments)?;
                Ok(())
            }
            Some(member) => {
                let is_right = is_value(self.declared.thing_of(member.type_name));
                self.require(Rule::N4, init.name.at, count(arguments) == 1)?;
                self.require(Rule::N3, init.name.at, is_right)?;
                self.member_arguments(context, init.name, member.type_name, arguments)
            }
        }
    }

    fn init(
        &mut self,
        context: Context,
        base: Option<Name>,
        class: &ClassInfo,
        before: &Table<usize>,
        init: &Init,
    ) -> Result<(), Memory>
        ensures { OnOk result
            (self.new ≡ spec.init context base class.now before.now (init_tree init.now) self.old) }
    {
        let is_new = before.find(init.name.item).is_none();
        self.require(Rule::N2, init.name.at, is_new)?;
        if names_base(base, class, init.name) {
            self.base_init(context, class, init)
        } else {
            let member = class.members.find(init.name.item).copied();
            self.member_init(context, init, member)
        }
    }

    fn inits(
        &mut self,
        context: Context,
        base: Option<Name>,
        class: &ClassInfo,
        inits: &[Init],
    ) -> Result<(), Memory>
        ensures { OnOk result
            (self.new ≡ spec.inits context base class.now [] (map init_tree inits.now) self.old) }
    {
        let mut before = Table::new(self.alloc);
        for init in inits {
            self.init(context, base, class, &before, init)?;
            before.declare(init.name.item, 0)?;
        }
        Ok(())
    }

    fn base_alone(
        &mut self,
        name: Name,
        base: Option<Name>,
        class: &ClassInfo,
        inits: &[Init],
    ) -> Result<(), Memory>
        ensures { OnOk result
            (self.new ≡ spec.base_alone name base class.now (map init_tree inits.now) self.old) }
    {
        let params = base_params(base_ctor(self.declared, class));
        let is_right = initialises_base(base, class, inits) || counts(0, params);
        self.require(Rule::N4, name.at, is_right)
    }

    fn of_class(&mut self, class: &ClassInfo, name: Name) -> Result<(), Memory>
        ensures { OnOk result (self.new ≡ spec.of_class class.now name self.old) }
    {
        self.require(Rule::N1, name.at, same_name(class.name.item, name))
    }

    #[tactic(auto, unfolding(crate::specs::Classes::ctor))]
    fn ctor(
        &mut self,
        context: Context,
        base: Option<Name>,
        class: &ClassInfo,
        is_second: bool,
        ctor: &Ctor,
    ) -> Result<(), Memory>
        ensures { OnOk result
            (self.new ≡ spec.ctor context base class.now is_second (ctor_tree ctor.now) self.old) }
    {
        let context = lifecycle(context);
        let inits = ctor.inits.as_slice();
        self.require(Rule::N2, ctor.name.at, !is_second)?;
        self.of_class(class, ctor.name)?;
        self.params(context, ctor.params.as_slice())?;
        self.base_alone(ctor.name, base, class, inits)?;
        self.inits(context, base, class, inits)?;
        self.body(context, &ctor.body)?;
        self.begin();
        Ok(())
    }

    #[tactic(auto, unfolding(crate::specs::Classes::dtor))]
    fn dtor(
        &mut self,
        context: Context,
        class: &ClassInfo,
        is_second: bool,
        dtor: &Dtor,
    ) -> Result<(), Memory>
        ensures { OnOk result
            (self.new ≡ spec.dtor context class.now is_second (dtor_tree dtor.now) self.old) }
    {
        self.require(Rule::N2, dtor.name.at, !is_second)?;
        self.of_class(class, dtor.name)?;
        self.body(lifecycle(context), &dtor.body)?;
        self.begin();
        Ok(())
    }

    fn inherited(&self, base: Option<ClassId>, name: NameId) -> bool
        ensures { result ≡ spec.inherited base name self.now }
    {
        match base {
            None => false,
            Some(base) => self.declared.has_item(base, name),
        }
    }

    fn own_item(
        &mut self,
        context: Context,
        class: &ClassInfo,
        index: usize,
        name: Name,
    ) -> Result<(), Memory>
        ensures { OnOk result (self.new ≡ spec.own_item context class.now index name self.old) }
    {
        let stands_before = match class.items.find(name.item) {
            None => false,
            Some(first) => *first < index,
        };
        let is_there = stands_before || self.inherited(class.base, name.item);
        self.require(Rule::N2, name.at, !is_there)?;
        self.no_class(context, name)
    }

    #[tactic(auto, unfolding(crate::specs::Classes::member))]
    fn member_item(
        &mut self,
        context: Context,
        class: &ClassInfo,
        seen: ItemsSeen,
        member: Member,
    ) -> Result<(), Memory>
        ensures { OnOk result (self.new ≡ spec.member context class.now seen member self.old) }
    {
        let has_room = seen.members != self.most.members;
        self.require(Rule::N10, member.name.at, has_room)?;
        self.variable_type(member.type_name)?;
        let pointer = is_pointer(member.type_name.item);
        self.require(Rule::N8, member.name.at, !pointer)?;
        self.own_item(context, class, seen.index, member.name)
    }

    #[tactic(auto, unfolding(crate::specs::Classes::method))]
    fn method_item(
        &mut self,
        context: Context,
        class: &ClassInfo,
        seen: ItemsSeen,
        function: &Function,
    ) -> Result<(), Memory>
        ensures { OnOk result
            (self.new ≡ spec.method context class.now seen (function_tree function.now) self.old) }
    {
        let has_room = seen.methods != self.most.methods;
        self.require(Rule::N10, function.name.at, has_room)?;
        self.own_item(context, class, seen.index, function.name)?;
        let within = Context {
            owner: Owner::Function(function.result.item),
            ..context
        };
        self.function(within, function)
    }

    fn item(
        &mut self,
        context: Context,
        base: Option<Name>,
        class: &ClassInfo,
        seen: ItemsSeen,
        item: &Item,
    ) -> Result<(), Memory>
        ensures { OnOk result
            (self.new ≡ spec.item context base class.now seen (item_tree item.now) self.old) }
    {
        match item {
            Item::Label(_, _) => Ok(()),
            Item::Member(member) => self.member_item(context, class, seen, *member),
            Item::Function(function) => self.method_item(context, class, seen, function),
            Item::Ctor(ctor) => self.ctor(context, base, class, seen.has_ctor, ctor),
            Item::Dtor(dtor) => self.dtor(context, class, seen.has_dtor, dtor),
        }
    }

    fn items(
        &mut self,
        context: Context,
        base: Option<Name>,
        class: &ClassInfo,
        items: &[Item],
    ) -> Result<(), Memory>
        ensures { OnOk result
            (self.new ≡ spec.items context base class.now spec.none_seen
            (map item_tree items.now) self.old) }
    {
        let mut seen = NONE_SEEN;
        for item in items {
            self.item(context, base, class, seen, item)?;
            seen = next_seen(seen, item)?;
        }
        Ok(())
    }

    fn base_is_known(&mut self, base: Option<Name>, class: &ClassInfo) -> Result<(), Memory>
        ensures { OnOk result (self.new ≡ spec.base_is_known base class.now self.old) }
    {
        match base {
            None => Ok(()),
            Some(name) => self.require(Rule::N5, name.at, class.base.is_some()),
        }
    }

    fn head(&mut self, base: Option<Name>, class: &ClassInfo) -> Result<(), Memory>
        ensures { OnOk result (self.new ≡ spec.head base class.now self.old) }
    {
        let declared = self.declared;
        let is_right = is_derivable(base_ctor(declared, class))
            && is_derivable(base_dtor(declared, class));
        self.base_is_known(base, class)?;
        self.require(Rule::N6, class.name.at, is_right)?;
        let has_room = class.ancestors != TOO_MANY_ANCESTORS;
        self.require(Rule::N10, class.name.at, has_room)
    }

    /// A class, of which this is known, with its items. The context has the class and its place among the declarations.
    #[tactic(auto, unfolding(crate::specs::Classes::class))]
    pub(crate) fn class(
        &mut self,
        context: Context,
        info: &ClassInfo,
        class: &Class,
    ) -> Result<(), Memory>
        ensures { OnOk result (self.new ≡ spec.class context info.now (class_tree class.now) self.old) }
    {
        self.head(class.base, info)?;
        self.items(context, class.base, info, class.items.as_slice())
    }
}

/// What was seen of the items of a class after one more.
fn next_seen(seen: ItemsSeen, item: &Item) -> Result<ItemsSeen, Memory>
    ensures { IfOk result (λ next. next ≡ spec.next_seen (item_tree item.now) seen) }
{
    let index = following(seen.index)?;
    let next = ItemsSeen { index, ..seen };
    match item {
        Item::Label(_, _) => Ok(next),
        Item::Member(_) => {
            let members = following(seen.members)?;
            Ok(ItemsSeen { members, ..next })
        }
        Item::Function(_) => {
            let methods = following(seen.methods)?;
            Ok(ItemsSeen { methods, ..next })
        }
        Item::Ctor(_) => Ok(ItemsSeen {
            has_ctor: true,
            ..next
        }),
        Item::Dtor(_) => Ok(ItemsSeen {
            has_dtor: true,
            ..next
        }),
    }
}
