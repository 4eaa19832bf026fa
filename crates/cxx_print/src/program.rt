//! Declarations and programs.

ghost use Rattle.std.specs.Prelude.{◌≡◌, map, option_map};
ghost use Rattle.agxx_base.specs.declared.vocabulary.Sign.TheVariants as sg;
ghost use Rattle.cxx_print.specs.Document.{line, ◌⨾◌};
ghost use Rattle.cxx_print.specs.Expressions as base;
ghost use Rattle.cxx_print.specs.Printing.{Prints};
ghost use Rattle.cxx_print.specs.Programs as form;
ghost use Rattle.cxx_print.specs.Statements.{optional};
ghost use Rattle.cxx_tree.specs.ExprTree.{exprs_tree};
ghost use Rattle.cxx_tree.specs.ProgramTree.{function_tree, init_tree, ctor_tree, dtor_tree, item_tree};
ghost use Rattle.cxx_tree.specs.ProgramTree.{class_tree, object_tree, global_tree, decl_tree, program_tree};

use crate::printer::Printer;
use agxx_base::{Keyword, Sign, Sink, SpecialName};
use cxx_tree::{
    Access, Class, ClassName, ClassWord, Const, Ctor, Decl, Directive, Dtor, Expr, Function,
    Global, Init, Item, Member, Name, Number, Object, Param, Placed, Program, Proto, Variable,
};

// A label stands at the column of its class.
fn item_level(item: &Item) -> u32
    ensures { result ≡ form.item_level (item_tree item.now) }
{
    match item {
        Item::Label(_, _) => 0,
        _ => 1,
    }
}

impl<'n> Printer<'n> {
    fn class_word<O: Sink>(&mut self, sink: &mut O, word: ClassWord)
        ensures { Prints O.taken O.faults (self.old, sink.old) (self.new, sink.new) (form.class_word word) }
    {
        match word {
            ClassWord::Class => self.keyword(sink, Keyword::Class),
            ClassWord::Struct => self.keyword(sink, Keyword::Struct),
        }
    }

    fn access<O: Sink>(&mut self, sink: &mut O, access: Access)
        ensures { Prints O.taken O.faults (self.old, sink.old) (self.new, sink.new) (form.access access) }
    {
        match access {
            Access::Public => self.keyword(sink, Keyword::Public),
            Access::Protected => self.keyword(sink, Keyword::Protected),
            Access::Private => self.keyword(sink, Keyword::Private),
        }
    }

    fn public_base<O: Sink>(&mut self, sink: &mut O, base: Name)
        ensures { Prints O.taken O.faults (self.old, sink.old) (self.new, sink.new) (form.public_base base) }
    {
        self.spaced(sink, Sign::Colon);
        self.keyword(sink, Keyword::Public);
        self.gap(sink);
        self.name(sink, base);
    }

    fn optional_base<O: Sink>(&mut self, sink: &mut O, base: Option<Name>)
        ensures { Prints O.taken O.faults (self.old, sink.old) (self.new, sink.new) (optional form.public_base base) }
    {
        if let Some(base) = base {
            self.public_base(sink, base);
        }
    }

    fn param<O: Sink>(&mut self, sink: &mut O, param: Param)
        ensures { Prints O.taken O.faults (self.old, sink.old) (self.new, sink.new) (form.param param) }
    {
        self.typed(sink, param.type_name, param.name);
    }

    fn param_after_comma<O: Sink>(&mut self, sink: &mut O, param: Param)
        ensures { Prints O.taken O.faults (self.old, sink.old) (self.new, sink.new) (base.comma ⨾ form.param param) }
    {
        self.comma(sink);
        self.param(sink, param);
    }

    fn params_after_commas<O: Sink>(&mut self, sink: &mut O, params: &[Param])
        ensures { Prints O.taken O.faults (self.old, sink.old) (self.new, sink.new)
            (form.params_after_commas params.now) }
    {
        for param in params {
            self.param_after_comma(sink, *param);
        }
    }

    fn separated_params<O: Sink>(&mut self, sink: &mut O, params: &[Param])
        ensures { Prints O.taken O.faults (self.old, sink.old) (self.new, sink.new)
            (form.separated_params params.now) }
    {
        match params {
            [] => {}
            [first, rest @ ..] => {
                self.param_and_others(sink, *first, rest);
                return;
            }
        }
    }

    fn param_and_others<O: Sink>(&mut self, sink: &mut O, first: Param, rest: &[Param])
        ensures { Prints O.taken O.faults (self.old, sink.old) (self.new, sink.new)
            (form.param first ⨾ form.params_after_commas rest.now) }
    {
        self.param(sink, first);
        self.params_after_commas(sink, rest);
    }

    fn params<O: Sink>(&mut self, sink: &mut O, params: &[Param])
        ensures { Prints O.taken O.faults (self.old, sink.old) (self.new, sink.new) (form.params params.now) }
    {
        self.sign(sink, Sign::OpenParen);
        self.separated_params(sink, params);
        self.sign(sink, Sign::CloseParen);
    }

    fn member<O: Sink>(&mut self, sink: &mut O, member: Member)
        ensures { Prints O.taken O.faults (self.old, sink.old) (self.new, sink.new) (form.member member) }
    {
        self.typed(sink, member.type_name, member.name);
        self.semicolon(sink);
    }

    fn function<O: Sink>(&mut self, sink: &mut O, level: u32, function: &Function)
        ensures { Prints O.taken O.faults (self.old, sink.old) (self.new, sink.new)
            (form.function level (function_tree function.now)) }
    {
        self.typed(sink, function.result, function.name);
        self.params(sink, function.params.as_slice());
        self.gap(sink);
        self.block(sink, level, &function.body);
    }

    fn heading<O: Sink>(&mut self, sink: &mut O, proto: &Proto)
        ensures { Prints O.taken O.faults (self.old, sink.old) (self.new, sink.new) (form.heading proto.now) }
    {
        self.typed(sink, proto.result, proto.name);
        self.params(sink, proto.params.as_slice());
    }

    fn proto<O: Sink>(&mut self, sink: &mut O, proto: &Proto)
        ensures { Prints O.taken O.faults (self.old, sink.old) (self.new, sink.new) (form.proto proto.now) }
    {
        self.heading(sink, proto);
        self.semicolon(sink);
    }

    fn init<O: Sink>(&mut self, sink: &mut O, init: &Init)
        ensures { Prints O.taken O.faults (self.old, sink.old) (self.new, sink.new) (form.init (init_tree init.now)) }
    {
        self.name(sink, init.name);
        self.arguments(sink, init.arguments.as_slice());
    }

    fn init_after_comma<O: Sink>(&mut self, sink: &mut O, init: &Init)
        ensures { Prints O.taken O.faults (self.old, sink.old) (self.new, sink.new)
            (base.comma ⨾ form.init (init_tree init.now)) }
    {
        self.comma(sink);
        self.init(sink, init);
    }

    fn inits_after_commas<O: Sink>(&mut self, sink: &mut O, inits: &[Init])
        ensures { Prints O.taken O.faults (self.old, sink.old) (self.new, sink.new)
            (form.inits_after_commas (map init_tree inits.now)) }
    {
        for init in inits {
            self.init_after_comma(sink, init);
        }
    }

    fn inits<O: Sink>(&mut self, sink: &mut O, inits: &[Init])
        ensures { Prints O.taken O.faults (self.old, sink.old) (self.new, sink.new)
            (form.inits (map init_tree inits.now)) }
    {
        match inits {
            [] => {}
            [first, rest @ ..] => {
                self.init_and_others(sink, first, rest);
                return;
            }
        }
    }

    fn init_and_others<O: Sink>(&mut self, sink: &mut O, first: &Init, rest: &[Init])
        ensures { Prints O.taken O.faults (self.old, sink.old) (self.new, sink.new)
            (base.spaced sg.Colon ⨾ form.init (init_tree first.now)
            ⨾ form.inits_after_commas (map init_tree rest.now)) }
    {
        self.spaced(sink, Sign::Colon);
        self.init(sink, first);
        self.inits_after_commas(sink, rest);
    }

    fn ctor<O: Sink>(&mut self, sink: &mut O, level: u32, ctor: &Ctor)
        ensures { Prints O.taken O.faults (self.old, sink.old) (self.new, sink.new)
            (form.ctor level (ctor_tree ctor.now)) }
    {
        self.name(sink, ctor.name);
        self.params(sink, ctor.params.as_slice());
        self.inits(sink, ctor.inits.as_slice());
        self.gap(sink);
        self.block(sink, level, &ctor.body);
    }

    fn dtor<O: Sink>(&mut self, sink: &mut O, level: u32, dtor: &Dtor)
        ensures { Prints O.taken O.faults (self.old, sink.old) (self.new, sink.new)
            (form.dtor level (dtor_tree dtor.now)) }
    {
        self.sign(sink, Sign::Tilde);
        self.name(sink, dtor.name);
        self.no_arguments(sink);
        self.gap(sink);
        self.block(sink, level, &dtor.body);
    }

    fn label<O: Sink>(&mut self, sink: &mut O, access: Access)
        ensures { Prints O.taken O.faults (self.old, sink.old) (self.new, sink.new) (form.label access) }
    {
        self.access(sink, access);
        self.sign(sink, Sign::Colon);
    }

    fn item<O: Sink>(&mut self, sink: &mut O, item: &Item)
        ensures { Prints O.taken O.faults (self.old, sink.old) (self.new, sink.new) (form.item (item_tree item.now)) }
    {
        match item {
            Item::Label(_, access) => self.label(sink, *access),
            Item::Member(member) => self.member(sink, *member),
            Item::Function(function) => self.function(sink, 1, function),
            Item::Ctor(ctor) => self.ctor(sink, 1, ctor),
            Item::Dtor(dtor) => self.dtor(sink, 1, dtor),
        }
    }

    fn item_line<O: Sink>(&mut self, sink: &mut O, item: &Item)
        ensures { Prints O.taken O.faults (self.old, sink.old) (self.new, sink.new)
            (form.item_line (item_tree item.now)) }
    {
        self.indented(sink, item_level(item));
        self.item(sink, item);
        self.newline(sink);
    }

    fn items<O: Sink>(&mut self, sink: &mut O, items: &[Item])
        ensures { Prints O.taken O.faults (self.old, sink.old) (self.new, sink.new)
            (form.items (map item_tree items.now)) }
    {
        for item in items {
            self.item_line(sink, item);
        }
    }

    fn class_head<O: Sink>(&mut self, sink: &mut O, word: ClassWord, name: Name)
        ensures { Prints O.taken O.faults (self.old, sink.old) (self.new, sink.new) (form.class_head word name) }
    {
        self.class_word(sink, word);
        self.gap(sink);
        self.name(sink, name);
    }

    fn class_body<O: Sink>(&mut self, sink: &mut O, items: &[Item])
        ensures { Prints O.taken O.faults (self.old, sink.old) (self.new, sink.new)
            (form.class_body (map item_tree items.now)) }
    {
        self.sign(sink, Sign::OpenBrace);
        self.newline(sink);
        self.items(sink, items);
        self.sign(sink, Sign::CloseBrace);
        self.semicolon(sink);
    }

    fn class<O: Sink>(&mut self, sink: &mut O, class: &Class)
        ensures { Prints O.taken O.faults (self.old, sink.old) (self.new, sink.new)
            (form.class (class_tree class.now)) }
    {
        self.class_head(sink, class.word, class.name);
        self.optional_base(sink, class.base);
        self.gap(sink);
        self.class_body(sink, class.items.as_slice());
    }

    fn class_name<O: Sink>(&mut self, sink: &mut O, class: ClassName)
        ensures { Prints O.taken O.faults (self.old, sink.old) (self.new, sink.new) (form.class_name class) }
    {
        self.class_head(sink, class.word, class.name);
        self.semicolon(sink);
    }

    fn negative<O: Sink>(&mut self, sink: &mut O, number: Number)
        ensures { Prints O.taken O.faults (self.old, sink.old) (self.new, sink.new)
            (base.sign sg.Minus ⨾ base.number number) }
    {
        self.sign(sink, Sign::Minus);
        self.number(sink, number);
    }

    fn constant<O: Sink>(&mut self, sink: &mut O, constant: Const)
        ensures { Prints O.taken O.faults (self.old, sink.old) (self.new, sink.new) (form.const constant) }
    {
        match constant {
            Const::Number(true, number) => self.negative(sink, number),
            Const::Number(false, number) => self.number(sink, number),
            Const::Flag(is_set) => self.flag(sink, is_set),
            Const::Null => self.keyword(sink, Keyword::Nullptr),
        }
    }

    fn initial_constant<O: Sink>(&mut self, sink: &mut O, constant: Placed<Const>)
        ensures { Prints O.taken O.faults (self.old, sink.old) (self.new, sink.new) (form.constant constant) }
    {
        self.spaced(sink, Sign::Assign);
        self.constant(sink, constant.item);
    }

    fn optional_constant<O: Sink>(&mut self, sink: &mut O, constant: Option<Placed<Const>>)
        ensures { Prints O.taken O.faults (self.old, sink.old) (self.new, sink.new)
            (optional form.constant constant) }
    {
        if let Some(constant) = constant {
            self.initial_constant(sink, constant);
        }
    }

    fn declared<O: Sink>(&mut self, sink: &mut O, variable: Variable)
        ensures { Prints O.taken O.faults (self.old, sink.old) (self.new, sink.new) (form.declared variable) }
    {
        self.typed(sink, variable.type_name, variable.name);
        self.optional_constant(sink, variable.initial);
    }

    fn variable<O: Sink>(&mut self, sink: &mut O, variable: Variable)
        ensures { Prints O.taken O.faults (self.old, sink.old) (self.new, sink.new) (form.variable variable) }
    {
        self.declared(sink, variable);
        self.semicolon(sink);
    }

    fn object_arguments<O: Sink>(&mut self, sink: &mut O, arguments: &[Expr])
        ensures { Prints O.taken O.faults (self.old, sink.old) (self.new, sink.new)
            (form.object_arguments (exprs_tree arguments.now)) }
    {
        match arguments {
            [] => {}
            [_, ..] => {
                self.arguments(sink, arguments);
                return;
            }
        }
    }

    fn named_object<O: Sink>(&mut self, sink: &mut O, object: &Object)
        ensures { Prints O.taken O.faults (self.old, sink.old) (self.new, sink.new)
            (form.named_object (object_tree object.now)) }
    {
        self.name(sink, object.class);
        self.gap(sink);
        self.name(sink, object.name);
        self.object_arguments(sink, object.arguments.as_slice());
    }

    fn object<O: Sink>(&mut self, sink: &mut O, object: &Object)
        ensures { Prints O.taken O.faults (self.old, sink.old) (self.new, sink.new)
            (form.object (object_tree object.now)) }
    {
        self.named_object(sink, object);
        self.semicolon(sink);
    }

    fn named_mutex<O: Sink>(&mut self, sink: &mut O, name: Name)
        ensures { Prints O.taken O.faults (self.old, sink.old) (self.new, sink.new) (form.named_mutex name) }
    {
        self.std_name(sink, SpecialName::Mutex);
        self.gap(sink);
        self.name(sink, name);
    }

    fn mutex<O: Sink>(&mut self, sink: &mut O, name: Name)
        ensures { Prints O.taken O.faults (self.old, sink.old) (self.new, sink.new)
            (base.ended (form.named_mutex name)) }
    {
        self.named_mutex(sink, name);
        self.semicolon(sink);
    }

    fn global<O: Sink>(&mut self, sink: &mut O, global: &Global)
        ensures { Prints O.taken O.faults (self.old, sink.old) (self.new, sink.new)
            (form.global (global_tree global.now)) }
    {
        match global {
            Global::Variable(variable) => self.variable(sink, *variable),
            Global::Object(object) => self.object(sink, object),
            Global::Mutex(_, name) => self.mutex(sink, *name),
        }
    }

    fn decl<O: Sink>(&mut self, sink: &mut O, decl: &Decl)
        ensures { Prints O.taken O.faults (self.old, sink.old) (self.new, sink.new) (form.decl (decl_tree decl.now)) }
    {
        match decl {
            Decl::Class(class) => self.class(sink, class),
            Decl::ClassName(class) => self.class_name(sink, *class),
            Decl::Function(function) => self.function(sink, 0, function),
            Decl::Proto(proto) => self.proto(sink, proto),
            Decl::Global(global) => self.global(sink, global),
        }
    }

    fn decl_line<O: Sink>(&mut self, sink: &mut O, decl: &Decl)
        ensures { Prints O.taken O.faults (self.old, sink.old) (self.new, sink.new)
            (line 0 (form.decl (decl_tree decl.now))) }
    {
        self.indented(sink, 0);
        self.decl(sink, decl);
        self.newline(sink);
    }

    fn decls<O: Sink>(&mut self, sink: &mut O, decls: &[Decl])
        ensures { Prints O.taken O.faults (self.old, sink.old) (self.new, sink.new)
            (form.decls (map decl_tree decls.now)) }
    {
        for decl in decls {
            self.decl_line(sink, decl);
        }
    }

    fn directive<O: Sink>(&mut self, sink: &mut O, directive: Directive)
        ensures { Prints O.taken O.faults (self.old, sink.old) (self.new, sink.new) (form.directive directive) }
    {
        match directive {
            Directive::Include(header) => self.include(sink, header),
            Directive::Pragma => self.pragma(sink),
        }
    }

    fn directive_line<O: Sink>(&mut self, sink: &mut O, directive: Directive)
        ensures { Prints O.taken O.faults (self.old, sink.old) (self.new, sink.new)
            (line 0 (form.directive directive)) }
    {
        self.indented(sink, 0);
        self.directive(sink, directive);
        self.newline(sink);
    }

    fn directives<O: Sink>(&mut self, sink: &mut O, directives: &[Directive])
        ensures { Prints O.taken O.faults (self.old, sink.old) (self.new, sink.new) (form.directives directives.now) }
    {
        for directive in directives {
            self.directive_line(sink, *directive);
        }
    }

    pub(crate) fn program<O: Sink>(&mut self, sink: &mut O, program: &Program)
        ensures { Prints O.taken O.faults (self.old, sink.old) (self.new, sink.new)
            (form.program (program_tree program.now)) }
    {
        self.directives(sink, program.directives.as_slice());
        self.decls(sink, program.decls.as_slice());
    }
}
