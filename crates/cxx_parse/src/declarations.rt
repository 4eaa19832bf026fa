//! Declarations outside of classes.

ghost use Rattle.std.specs.Prelude.{◌≡◌, ◌<◌, ◌≤◌, length, map, OnOk};
ghost use Rattle.cxx_tree.specs.ExprTree.{expr_tree};
ghost use Rattle.cxx_tree.specs.ProgramTree.{decl_tree};
ghost use Rattle.cxx_expr.specs.Full.{most_operators};
ghost use Rattle.cxx_expr.specs.Outcome.{Reads};
ghost use Rattle.cxx_stmt.specs.declared.dialect.Dialect.{Dialect};
ghost use Rattle.cxx_parse.specs.Declarations as grammar;

use crate::classes::{body_of, class, mutex_name};
use crate::constants::constant;
use agxx_base::{Keyword, Place, Sign};
use cxx_expr::{Parser, Stop, Word};
use cxx_stmt::{Dialect, expressions, open_paren, params, pointer_to, sign_at, word_type};
use cxx_tree::{
    ClassWord, Const, Decl, Expr, Global, Name, Object, Param, Placed, Proto, TypeName, Variable,
};
use sqlite_items::Items;

/// The initial value of a variable, if it has one.
#[tactic(auto, unfolding(crate::specs::Declarations::initial_constant))]
fn initial_constant(words: &mut Parser<'_>) -> Result<Option<Placed<Const>>, Stop>
    ensures reads { Reads (λ c. c) (grammar.initial_constant words.old) result words.new }
    ensures left { length words.new ≤ length words.old }
{
    let Some(at) = sign_at(words, Sign::Assign) else {
        return Ok(None);
    };
    words.advance();
    let item = constant(words)?;
    Ok(Some(Placed { at, item }))
}

/// Behind the type and the name of a variable.
#[tactic(auto, unfolding(crate::specs::Declarations::variable))]
fn variable(words: &mut Parser<'_>, type_name: Placed<TypeName>, name: Name) -> Result<Decl, Stop>
    ensures reads { Reads decl_tree (grammar.variable type_name name words.old) result words.new }
    ensures left { length words.new ≤ length words.old }
    ensures eats { OnOk result (length words.new < length words.old) }
{
    let initial = initial_constant(words)?;
    words.expect(Sign::Semicolon)?;
    Ok(Decl::Global(Global::Variable(Variable {
        type_name,
        name,
        initial,
    })))
}

/// A global mutex, behind `std ::`, of which `std` stands at this place.
#[tactic(auto, unfolding(crate::specs::Declarations::mutex))]
fn mutex(dialect: &Dialect, words: &mut Parser<'_>, at: Place) -> Result<Decl, Stop>
    ensures reads { Reads decl_tree (grammar.mutex dialect.now at words.old) result words.new }
    ensures left { length words.new ≤ length words.old }
    ensures eats { OnOk result (length words.new < length words.old) }
{
    let name = mutex_name(dialect, words)?;
    words.expect(Sign::Semicolon)?;
    Ok(Decl::Global(Global::Mutex(at, name)))
}

/// Behind the parameters of a function.
#[tactic(auto, unfolding(crate::specs::Declarations::function_or_proto))]
fn function_or_proto(
    dialect: &Dialect,
    words: &mut Parser<'_>,
    depth: usize,
    result_type: Placed<TypeName>,
    name: Name,
    params: Items<Param>,
) -> Result<Decl, Stop>
    ensures reads { Reads decl_tree
        (grammar.function_or_proto most_operators dialect.now depth result_type name params
        words.old)
        result words.new }
    ensures left { length words.new ≤ length words.old }
    ensures eats { OnOk result (length words.new < length words.old) }
{
    if words.sees(Sign::Semicolon) {
        words.advance();
        return Ok(Decl::Proto(Proto {
            result: result_type,
            name,
            params,
        }));
    }
    let function = body_of(dialect, words, depth, result_type, name, params)?;
    Ok(Decl::Function(function))
}

/// Behind a type and a name.
#[tactic(auto, unfolding(crate::specs::Declarations::typed_decl))]
fn typed_decl(
    dialect: &Dialect,
    words: &mut Parser<'_>,
    depth: usize,
    type_name: Placed<TypeName>,
    name: Name,
) -> Result<Decl, Stop>
    ensures reads { Reads decl_tree
        (grammar.typed_decl most_operators dialect.now depth type_name name words.old)
        result words.new }
    ensures left { length words.new ≤ length words.old }
    ensures eats { OnOk result (length words.new < length words.old) }
{
    if !words.sees(Sign::OpenParen) {
        return variable(words, type_name, name);
    }
    let params = params(words, depth)?;
    function_or_proto(dialect, words, depth, type_name, name, params)
}

/// Behind a type.
#[tactic(auto, unfolding(crate::specs::Declarations::decl_of_type))]
fn decl_of_type(
    dialect: &Dialect,
    words: &mut Parser<'_>,
    depth: usize,
    type_name: Placed<TypeName>,
) -> Result<Decl, Stop>
    ensures reads { Reads decl_tree
        (grammar.decl_of_type most_operators dialect.now depth type_name words.old)
        result words.new }
    ensures left { length words.new ≤ length words.old }
    ensures eats { OnOk result (length words.new < length words.old) }
{
    let name = words.name()?;
    typed_decl(dialect, words, depth, type_name, name)
}

/// The arguments of a global object, if it has some.
#[tactic(auto, unfolding(crate::specs::Declarations::object_arguments))]
fn object_arguments(words: &mut Parser<'_>, depth: usize) -> Result<Items<Expr>, Stop>
    ensures reads { (d : Dialect) → Reads (map expr_tree)
        (grammar.object_arguments most_operators d depth words.old)
        result words.new }
    ensures left { length words.new ≤ length words.old }
{
    if !words.sees(Sign::OpenParen) {
        return Ok(Items::new(words.alloc()));
    }
    let below = open_paren(words, depth)?;
    let found = expressions(words, below)?;
    words.expect(Sign::CloseParen)?;
    Ok(found)
}

/// Behind the class and the name of an object.
#[tactic(auto, unfolding(crate::specs::Declarations::object_of))]
fn object_of(words: &mut Parser<'_>, depth: usize, class: Name, name: Name) -> Result<Decl, Stop>
    ensures reads { (d : Dialect) → Reads decl_tree
        (grammar.object_of most_operators d depth class name words.old)
        result words.new }
    ensures left { length words.new ≤ length words.old }
    ensures eats { OnOk result (length words.new < length words.old) }
{
    let arguments = object_arguments(words, depth)?;
    words.expect(Sign::Semicolon)?;
    Ok(Decl::Global(Global::Object(Object {
        class,
        name,
        arguments,
    })))
}

/// Behind the class of an object.
#[tactic(auto, unfolding(crate::specs::Declarations::object))]
fn object(words: &mut Parser<'_>, depth: usize, class: Name) -> Result<Decl, Stop>
    ensures reads { (d : Dialect) → Reads decl_tree
        (grammar.object most_operators d depth class words.old)
        result words.new }
    ensures left { length words.new ≤ length words.old }
    ensures eats { OnOk result (length words.new < length words.old) }
{
    let name = words.name()?;
    object_of(words, depth, class, name)
}

/// Behind a name: of an object's class, or of a class in a type; or `std`.
#[tactic(auto, unfolding(crate::specs::Declarations::name_decl))]
fn name_decl(
    dialect: &Dialect,
    words: &mut Parser<'_>,
    depth: usize,
    name: Name,
) -> Result<Decl, Stop>
    ensures reads { Reads decl_tree
        (grammar.name_decl most_operators dialect.now depth name words.old)
        result words.new }
    ensures left { length words.new ≤ length words.old }
    ensures eats { OnOk result (length words.new < length words.old) }
{
    if words.sees(Sign::Star) {
        words.advance();
        return decl_of_type(dialect, words, depth, pointer_to(name));
    }
    if !words.sees(Sign::ColonColon) {
        return object(words, depth, name);
    }
    if name.item.0 != dialect.std.0 {
        return Err(Stop::Syntax);
    }
    words.advance();
    mutex(dialect, words, name.at)
}

/// What begins with a keyword, which comes next.
fn keyword_decl(
    dialect: &Dialect,
    words: &mut Parser<'_>,
    depth: usize,
    at: Place,
    keyword: Keyword,
) -> Result<Decl, Stop>
    ensures reads { Reads decl_tree
        (grammar.keyword_decl most_operators dialect.now depth at keyword words.old)
        result words.new }
    ensures left { length words.new ≤ length words.old }
    ensures eats { OnOk result (length words.new < length words.old) }
{
    match keyword {
        Keyword::Class => {
            words.advance();
            class(dialect, words, depth, at, ClassWord::Class)
        }
        Keyword::Struct => {
            words.advance();
            class(dialect, words, depth, at, ClassWord::Struct)
        }
        other => typed_by(dialect, words, depth, at, word_type(other)),
    }
}

/// A type, which comes next, and a declaration behind it.
fn typed_by(
    dialect: &Dialect,
    words: &mut Parser<'_>,
    depth: usize,
    at: Place,
    type_name: Option<TypeName>,
) -> Result<Decl, Stop>
    ensures reads { Reads decl_tree
        (grammar.decl_of_word most_operators dialect.now depth at type_name words.old)
        result words.new }
    ensures left { length words.new ≤ length words.old }
    ensures eats { OnOk result (length words.new < length words.old) }
{
    let Some(item) = type_name else {
        return Err(Stop::Syntax);
    };
    words.advance();
    decl_of_type(dialect, words, depth, Placed { at, item })
}

/// A declaration, in which braces, parentheses and `else if` nest no deeper than `depth`.
#[tactic(auto, unfolding(crate::specs::Declarations::decl))]
pub(crate) fn decl(dialect: &Dialect, words: &mut Parser<'_>, depth: usize) -> Result<Decl, Stop>
    ensures reads { Reads decl_tree (grammar.decl most_operators dialect.now depth words.old)
        result words.new }
    ensures left { length words.new ≤ length words.old }
    ensures eats { OnOk result (length words.new < length words.old) }
{
    let Some(next) = words.peek() else {
        return Err(Stop::Syntax);
    };
    match next.item {
        Word::Keyword(keyword) => keyword_decl(dialect, words, depth, next.at, keyword),
        Word::Name(item) => {
            words.advance();
            name_decl(dialect, words, depth, Placed { at: next.at, item })
        }
        _ => Err(Stop::Syntax),
    }
}
