//! The classes, functions and globals of a program.

ghost use Rattle.std.specs.Prelude.{◌≡◌, suc, map, IfOk, OnOk};
ghost use Rattle.cxx_tree.specs.ProgramTree.{item_tree, class_tree, function_tree};
ghost use Rattle.cxx_tree.specs.ProgramTree.{decl_tree, global_tree, program_tree};
ghost use Rattle.std.specs.Option.{option_copied};
ghost use Rattle.cxx_names.specs.Declarations as spec;

use crate::table::Table;
use agxx_base::{ClassId, FnId, ListOf, Memory, NameId, Names};
use cxx_tree::{
    Access, Class, ClassWord, Ctor, Decl, Dtor, Function, Global, Item, Member, Name, Param,
    Program, TypeName,
};
use sqlite_items::Items;
use std::alloc::Global as Heap;

/// A member of a class.
#[derive(Clone, Copy, Debug, PartialEq, Eq)]
pub struct MemberInfo {
    pub type_name: TypeName,
    pub access: Access,
}

/// A function, constructor or destructor, as far as its calls need it.
#[derive(Drop)]
pub struct Signature {
    pub id: FnId,
    /// `void` for a constructor or destructor.
    pub result: TypeName,
    pub params: Items<Param>,
    /// Public for a free function.
    pub access: Access,
    /// Whether it is a free function named `main`.
    pub is_main: bool,
}

/// A class.
#[derive(Drop)]
pub struct ClassInfo {
    pub name: Name,
    /// The class's place among the declarations, from 0.
    pub index: usize,
    /// The base, if it is a class that is declared before.
    pub base: Option<ClassId>,
    /// How many classes stand above it in its chain of bases.
    pub ancestors: usize,
    pub members: Table<MemberInfo>,
    pub methods: Table<Signature>,
    /// The names of members and functions, each with the place of the first of them among the items.
    pub items: Table<usize>,
    pub ctor: Option<Signature>,
    pub dtor: Option<Signature>,
}

/// A global, as it is declared.
#[derive(Clone, Copy, Debug, PartialEq, Eq)]
pub enum GlobalInfo {
    Variable(TypeName),
    /// An object of the class of this name.
    Object(NameId),
    Mutex,
}

/// The classes, functions and globals of a program. Of several of one name the first is meant.
#[derive(Drop)]
pub struct Declared {
    /// The names of all of them, each with the place of the first among the declarations.
    pub(crate) first: Table<usize>,
    pub(crate) class_names: Table<ClassId>,
    pub(crate) classes: ListOf<ClassInfo>,
    pub(crate) functions: Table<Signature>,
    pub(crate) globals: Table<GlobalInfo>,
    /// How many declarations were gone through.
    pub(crate) count: usize,
    /// How many functions, constructors and destructors have a number.
    pub(crate) numbered: u32,
}

/// The items of a class as they are gone through.
#[derive(Drop)]
struct ClassItems {
    info: ClassInfo,
    /// The access of the next item.
    shown: Access,
    /// How many items were gone through.
    count: usize,
    numbered: u32,
}

/// Whether the text of a name is this one.
pub fn is_text(names: &Names, name: NameId, text: &[u8]) -> bool
    ensures { result ≡ spec.is_text names.now name.0 text.now }
{
    (name.0 as usize) < names.len() && names.text_of(name) == text
}

/// The number after this one, if it is below 2^32.
fn following(number: u32) -> Result<u32, Memory>
    ensures { IfOk result (λ n. n ≡ suc number) }
{
    match number.checked_add(1) {
        Some(next) => Ok(next),
        None => Err(Memory),
    }
}

fn following_place(place: usize) -> Result<usize, Memory>
    ensures { IfOk result (λ n. n ≡ suc place) }
{
    match place.checked_add(1) {
        Some(next) => Ok(next),
        None => Err(Memory),
    }
}

/// The access of items before any label.
pub fn default_access(word: ClassWord) -> Access
    ensures { result ≡ spec.default_access word }
{
    match word {
        ClassWord::Class => Access::Private,
        ClassWord::Struct => Access::Public,
    }
}

fn params_of(alloc: Heap, params: &[Param]) -> Result<Items<Param>, Memory>
    ensures { IfOk result (λ ps. ps ≡ params.now) }
{
    Ok(Items::from_slice(alloc, params)?)
}

impl ClassItems {
    fn member(&mut self, member: Member) -> Result<(), Memory>
        ensures { OnOk result (self.new ≡ spec.with_member self.old member) }
    {
        let info = MemberInfo {
            type_name: member.type_name.item,
            access: self.shown,
        };
        self.info.members.declare(member.name.item, info)?;
        self.info.items.declare(member.name.item, self.count)?;
        self.count = following_place(self.count)?;
        Ok(())
    }

    fn method(&mut self, alloc: Heap, function: &Function) -> Result<(), Memory>
        ensures { OnOk result (self.new ≡ spec.with_method self.old (function_tree function.now)) }
    {
        let signature = Signature {
            id: FnId(self.numbered),
            result: function.result.item,
            params: params_of(alloc, function.params.as_slice())?,
            access: self.shown,
            is_main: false,
        };
        self.info.methods.declare(function.name.item, signature)?;
        self.info.items.declare(function.name.item, self.count)?;
        self.count = following_place(self.count)?;
        self.numbered = following(self.numbered)?;
        Ok(())
    }

    fn ctor(&mut self, alloc: Heap, ctor: &Ctor) -> Result<(), Memory>
        ensures { OnOk result (self.new ≡ spec.with_ctor self.old ctor.now.params) }
    {
        if self.info.ctor.is_none() {
            self.info.ctor = Some(Signature {
                id: FnId(self.numbered),
                result: TypeName::Void,
                params: params_of(alloc, ctor.params.as_slice())?,
                access: self.shown,
                is_main: false,
            });
        }
        self.count = following_place(self.count)?;
        self.numbered = following(self.numbered)?;
        Ok(())
    }

    fn dtor(&mut self, alloc: Heap) -> Result<(), Memory>
        ensures { OnOk result (self.new ≡ spec.with_dtor self.old) }
    {
        if self.info.dtor.is_none() {
            self.info.dtor = Some(Signature {
                id: FnId(self.numbered),
                result: TypeName::Void,
                params: Items::new(alloc),
                access: self.shown,
                is_main: false,
            });
        }
        self.count = following_place(self.count)?;
        self.numbered = following(self.numbered)?;
        Ok(())
    }

    fn label(&mut self, access: Access) -> Result<(), Memory>
        ensures { OnOk result (self.new ≡ spec.with_label self.old access) }
    {
        self.shown = access;
        self.count = following_place(self.count)?;
        Ok(())
    }

    fn item(&mut self, alloc: Heap, item: &Item) -> Result<(), Memory>
        ensures { OnOk result (self.new ≡ spec.with_item self.old (item_tree item.now)) }
    {
        match item {
            Item::Label(_, access) => self.label(*access),
            Item::Member(member) => self.member(*member),
            Item::Function(function) => self.method(alloc, function),
            Item::Ctor(ctor) => self.ctor(alloc, ctor),
            Item::Dtor(_) => self.dtor(alloc),
        }
    }

    fn items(&mut self, alloc: Heap, items: &[Item]) -> Result<(), Memory>
        ensures { OnOk result (self.new ≡ spec.with_items self.old (map item_tree items.now)) }
    {
        for item in items {
            self.item(alloc, item)?;
        }
        Ok(())
    }
}

impl Declared {
    /// No declarations, which takes no memory.
    fn empty(alloc: Heap) -> Declared
        ensures { result ≡ spec.empty }
    {
        Declared {
            first: Table::new(alloc),
            class_names: Table::new(alloc),
            classes: ListOf::new(alloc),
            functions: Table::new(alloc),
            globals: Table::new(alloc),
            count: 0,
            numbered: 0,
        }
    }

    /// The class that a name means.
    pub fn class_named(&self, name: NameId) -> Option<ClassId>
        ensures { result ≡ spec.class_named self.now name.0 }
    {
        self.class_names.find(name).copied()
    }

    fn base_named(&self, base: Option<Name>) -> Option<ClassId>
        ensures { result ≡ spec.base_named self.now base }
    {
        match base {
            None => None,
            Some(name) => self.class_named(name.item),
        }
    }

    /// The class of a number.
    pub fn class(&self, class: ClassId) -> Option<&ClassInfo>
        ensures { option_copied result ≡ spec.class_at self.now class }
    {
        self.classes.as_slice().get(class.0 as usize)
    }

    /// All classes, by their numbers.
    pub fn classes(&self) -> &[ClassInfo]
        ensures { result.now ≡ self.now.classes }
    {
        self.classes.as_slice()
    }

    fn ancestors_below(&self, base: Option<ClassId>) -> Result<usize, Memory>
        ensures { IfOk result (λ n. n ≡ spec.ancestors_below self.now base) }
    {
        match base {
            None => Ok(0),
            Some(class) => match self.class(class) {
                None => Ok(1),
                Some(info) => following_place(info.ancestors),
            },
        }
    }

    fn class_begun(&self, alloc: Heap, class: &Class) -> Result<ClassInfo, Memory>
        ensures { IfOk result (λ info. info ≡ spec.class_begun self.now (class_tree class.now)) }
    {
        let base = self.base_named(class.base);
        let ancestors = self.ancestors_below(base)?;
        Ok(ClassInfo {
            name: class.name,
            index: self.count,
            base,
            ancestors,
            members: Table::new(alloc),
            methods: Table::new(alloc),
            items: Table::new(alloc),
            ctor: None,
            dtor: None,
        })
    }

    fn class_items(&self, alloc: Heap, class: &Class) -> Result<ClassItems, Memory>
        ensures { IfOk result (λ items. items ≡ spec.class_items self.now (class_tree class.now)) }
    {
        let mut items = ClassItems {
            info: self.class_begun(alloc, class)?,
            shown: default_access(class.word),
            count: 0,
            numbered: self.numbered,
        };
        items.items(alloc, class.items.as_slice())?;
        Ok(items)
    }

    /// The number of the next class.
    fn next_class(&self) -> Result<ClassId, Memory>
        ensures { IfOk result (λ class. class ≡ spec.next_class self.now) }
    {
        match u32::try_from(self.classes.len()) {
            Ok(number) => Ok(ClassId(number)),
            Err(_) => Err(Memory),
        }
    }

    fn declare_class(&mut self, alloc: Heap, class: &Class) -> Result<(), Memory>
        ensures { OnOk result (self.new ≡ spec.with_class self.old (class_tree class.now)) }
    {
        let number = self.next_class()?;
        let ClassItems {
            info,
            shown: _,
            count: _,
            numbered,
        } = self.class_items(alloc, class)?;
        self.first.declare(class.name.item, self.count)?;
        self.class_names.declare(class.name.item, number)?;
        self.classes.push(info)?;
        self.numbered = numbered;
        self.count = following_place(self.count)?;
        Ok(())
    }

    fn declare_function(
        &mut self,
        alloc: Heap,
        names: &Names,
        function: &Function,
    ) -> Result<(), Memory>
        ensures { OnOk result (self.new ≡ spec.with_function names.now self.old (function_tree function.now)) }
    {
        let signature = Signature {
            id: FnId(self.numbered),
            result: function.result.item,
            params: params_of(alloc, function.params.as_slice())?,
            access: Access::Public,
            is_main: is_text(names, function.name.item, b"main".as_slice()),
        };
        self.first.declare(function.name.item, self.count)?;
        self.functions.declare(function.name.item, signature)?;
        self.numbered = following(self.numbered)?;
        self.count = following_place(self.count)?;
        Ok(())
    }

    fn declare_global(&mut self, global: &Global) -> Result<(), Memory>
        ensures { OnOk result (self.new ≡ spec.with_global self.old (global_tree global.now)) }
    {
        let (name, info) = match global {
            Global::Variable(variable) => (
                variable.name.item,
                GlobalInfo::Variable(variable.type_name.item),
            ),
            Global::Object(object) => (object.name.item, GlobalInfo::Object(object.class.item)),
            Global::Mutex(_, name) => (name.item, GlobalInfo::Mutex),
        };
        self.first.declare(name, self.count)?;
        self.globals.declare(name, info)?;
        self.count = following_place(self.count)?;
        Ok(())
    }

    fn pass_over(&mut self) -> Result<(), Memory>
        ensures { OnOk result (self.new ≡ spec.passed_over self.old) }
    {
        self.count = following_place(self.count)?;
        Ok(())
    }

    fn declare(&mut self, alloc: Heap, names: &Names, decl: &Decl) -> Result<(), Memory>
        ensures { OnOk result (self.new ≡ spec.with_decl names.now self.old (decl_tree decl.now)) }
    {
        match decl {
            Decl::Class(class) => self.declare_class(alloc, class),
            Decl::ClassName(_) => self.pass_over(),
            Decl::Function(function) => self.declare_function(alloc, names, function),
            Decl::Proto(_) => self.pass_over(),
            Decl::Global(global) => self.declare_global(global),
        }
    }

    /// What a program declares.
    pub fn of(alloc: Heap, names: &Names, program: &Program) -> Result<Declared, Memory>
        ensures { IfOk result (λ declared. declared ≡ spec.declared names.now (program_tree program.now)) }
    {
        let mut declared = Declared::empty(alloc);
        for decl in program.decls.as_slice() {
            declared.declare(alloc, names, decl)?;
        }
        Ok(declared)
    }
}
