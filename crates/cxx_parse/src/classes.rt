//! Functions and classes.

ghost use Rattle.std.specs.Prelude.{◌≡◌, ◌<◌, ◌≤◌, length, map, OnOk};
ghost use Rattle.cxx_tree.specs.ProgramTree.{
  function_tree,
  init_tree,
  ctor_tree,
  dtor_tree,
  item_tree,
  decl_tree,
};
ghost use Rattle.cxx_expr.specs.Full.{most_operators};
ghost use Rattle.cxx_expr.specs.Outcome.{Reads};
ghost use Rattle.cxx_stmt.specs.declared.dialect.Dialect.{Dialect};
ghost use Rattle.cxx_stmt.specs.Parts as parts;
ghost use Rattle.cxx_parse.specs.Classes as grammar;

use agxx_base::{Keyword, Place, Sign};
use cxx_expr::{Parser, Stop, Word};
use cxx_stmt::{Dialect, arguments, no_parts, params, pointer_to, sees_name, word_type};
use cxx_tree::{
    Access, Class, ClassName, ClassWord, Ctor, Decl, Dtor, Function, Init, Item, Member, Name,
    Param, Placed, TypeName,
};
use sqlite_items::Items;

/// The access that a keyword is.
fn access_word(keyword: Keyword) -> Option<Access>
    ensures { result ≡ grammar.access_word keyword }
{
    match keyword {
        Keyword::Public => Some(Access::Public),
        Keyword::Protected => Some(Access::Protected),
        Keyword::Private => Some(Access::Private),
        _ => None,
    }
}

/// `mutex` and a name, behind `std ::`.
#[tactic(auto, unfolding(crate::specs::Classes::mutex_name))]
pub(crate) fn mutex_name(dialect: &Dialect, words: &mut Parser<'_>) -> Result<Name, Stop>
    ensures reads { Reads (λ n. n) (grammar.mutex_name dialect.now words.old) result words.new }
    ensures left { length words.new ≤ length words.old }
    ensures eats { OnOk result (length words.new < length words.old) }
{
    if !sees_name(words, dialect.mutex) {
        return Err(Stop::Syntax);
    }
    words.advance();
    words.name()
}

/// A member that is a mutex, behind `std`, which stands at this place.
#[tactic(auto, unfolding(crate::specs::Classes::mutex_member))]
fn mutex_member(dialect: &Dialect, words: &mut Parser<'_>, at: Place) -> Result<Item, Stop>
    ensures reads { Reads item_tree (grammar.mutex_member dialect.now at words.old)
        result words.new }
    ensures left { length words.new ≤ length words.old }
    ensures eats { OnOk result (length words.new < length words.old) }
{
    let name = mutex_name(dialect, words)?;
    words.expect(Sign::Semicolon)?;
    Ok(Item::Member(Member {
        type_name: Placed {
            at,
            item: TypeName::Mutex,
        },
        name,
    }))
}

/// `public` and the base's name, behind `:`.
#[tactic(auto, unfolding(crate::specs::Classes::public_base))]
fn public_base(words: &mut Parser<'_>) -> Result<Name, Stop>
    ensures reads { Reads (λ n. n) (grammar.public_base words.old) result words.new }
    ensures left { length words.new ≤ length words.old }
{
    let Some(next) = words.peek() else {
        return Err(Stop::Syntax);
    };
    let Word::Keyword(Keyword::Public) = next.item else {
        return Err(Stop::Syntax);
    };
    words.advance();
    words.name()
}

/// A class's base, if it has one.
#[tactic(auto, unfolding(crate::specs::Classes::base))]
fn base(words: &mut Parser<'_>) -> Result<Option<Name>, Stop>
    ensures reads { Reads (λ n. n) (grammar.base words.old) result words.new }
    ensures left { length words.new ≤ length words.old }
{
    if !words.sees(Sign::Colon) {
        return Ok(None);
    }
    words.advance();
    let name = public_base(words)?;
    Ok(Some(name))
}

/// Behind a function's name and its parameters.
#[tactic(auto, unfolding(crate::specs::Classes::body_of))]
pub(crate) fn body_of(
    dialect: &Dialect,
    words: &mut Parser<'_>,
    depth: usize,
    result_type: Placed<TypeName>,
    name: Name,
    params: Items<Param>,
) -> Result<Function, Stop>
    ensures reads { Reads function_tree
        (grammar.body_of most_operators dialect.now depth result_type name params words.old)
        result words.new }
    ensures left { length words.new ≤ length words.old }
    ensures eats { OnOk result (length words.new < length words.old) }
{
    let body = dialect.block(words, depth)?;
    Ok(Function {
        result: result_type,
        name,
        params,
        body,
    })
}

/// Behind a function's name.
#[tactic(auto, unfolding(crate::specs::Classes::function_of))]
fn function_of(
    dialect: &Dialect,
    words: &mut Parser<'_>,
    depth: usize,
    result_type: Placed<TypeName>,
    name: Name,
) -> Result<Function, Stop>
    ensures reads { Reads function_tree
        (grammar.function_of most_operators dialect.now depth result_type name words.old)
        result words.new }
    ensures left { length words.new ≤ length words.old }
    ensures eats { OnOk result (length words.new < length words.old) }
{
    let params = params(words, depth)?;
    body_of(dialect, words, depth, result_type, name, params)
}

/// An initialiser of a constructor.
#[tactic(auto, unfolding(crate::specs::Classes::init))]
fn init(words: &mut Parser<'_>, depth: usize) -> Result<Init, Stop>
    ensures reads { (d : Dialect) → Reads init_tree (grammar.init most_operators d depth words.old)
        result words.new }
    ensures left { length words.new ≤ length words.old }
    ensures eats { OnOk result (length words.new < length words.old) }
{
    let name = words.name()?;
    let arguments = arguments(words, depth)?;
    Ok(Init { name, arguments })
}

/// One initialiser or more, with commas between.
fn some_inits(words: &mut Parser<'_>, depth: usize) -> Result<Items<Init>, Stop>
    ensures reads { (d : Dialect) → Reads (map init_tree)
        (parts.some (grammar.init most_operators d depth) words.old)
        result words.new }
    ensures left { length words.new ≤ length words.old }
{
    let mut found = Items::new(words.alloc());
    'items: loop {
        let item = init(words, depth)?;
        found.push(item)?;
        if !words.sees(Sign::Comma) {
            break;
        }
        words.advance();
    }
    Ok(found)
}

/// The initialisers of a constructor, if it has some.
#[tactic(auto, unfolding(crate::specs::Classes::inits))]
fn inits(words: &mut Parser<'_>, depth: usize) -> Result<Items<Init>, Stop>
    ensures reads { (d : Dialect) → Reads (map init_tree)
        (grammar.inits most_operators d depth words.old)
        result words.new }
    ensures left { length words.new ≤ length words.old }
{
    if !words.sees(Sign::Colon) {
        return Ok(Items::new(words.alloc()));
    }
    words.advance();
    some_inits(words, depth)
}

/// Behind a constructor's name and its parameters.
#[tactic(auto, unfolding(crate::specs::Classes::ctor_body))]
fn ctor_body(
    dialect: &Dialect,
    words: &mut Parser<'_>,
    depth: usize,
    name: Name,
    params: Items<Param>,
) -> Result<Ctor, Stop>
    ensures reads { Reads ctor_tree
        (grammar.ctor_body most_operators dialect.now depth name params words.old)
        result words.new }
    ensures left { length words.new ≤ length words.old }
    ensures eats { OnOk result (length words.new < length words.old) }
{
    let inits = inits(words, depth)?;
    let body = dialect.block(words, depth)?;
    Ok(Ctor {
        name,
        params,
        inits,
        body,
    })
}

/// Behind a constructor's name.
#[tactic(auto, unfolding(crate::specs::Classes::ctor))]
fn ctor(dialect: &Dialect, words: &mut Parser<'_>, depth: usize, name: Name) -> Result<Ctor, Stop>
    ensures reads { Reads ctor_tree (grammar.ctor most_operators dialect.now depth name words.old)
        result words.new }
    ensures left { length words.new ≤ length words.old }
    ensures eats { OnOk result (length words.new < length words.old) }
{
    let params = params(words, depth)?;
    ctor_body(dialect, words, depth, name, params)
}

/// Behind `~`, which stands at this place.
#[tactic(auto, unfolding(crate::specs::Classes::dtor))]
fn dtor(dialect: &Dialect, words: &mut Parser<'_>, depth: usize, at: Place) -> Result<Dtor, Stop>
    ensures reads { Reads dtor_tree (grammar.dtor most_operators dialect.now depth at words.old)
        result words.new }
    ensures left { length words.new ≤ length words.old }
    ensures eats { OnOk result (length words.new < length words.old) }
{
    let name = words.name()?;
    no_parts(words, depth)?;
    let body = dialect.block(words, depth)?;
    Ok(Dtor { at, name, body })
}

/// Behind the type and the name of a member or a member function.
#[tactic(auto, unfolding(crate::specs::Classes::typed_item))]
fn typed_item(
    dialect: &Dialect,
    words: &mut Parser<'_>,
    depth: usize,
    type_name: Placed<TypeName>,
    name: Name,
) -> Result<Item, Stop>
    ensures reads { Reads item_tree
        (grammar.typed_item most_operators dialect.now depth type_name name words.old)
        result words.new }
    ensures left { length words.new ≤ length words.old }
    ensures eats { OnOk result (length words.new < length words.old) }
{
    if words.sees(Sign::Semicolon) {
        words.advance();
        return Ok(Item::Member(Member { type_name, name }));
    }
    let function = function_of(dialect, words, depth, type_name, name)?;
    Ok(Item::Function(function))
}

/// Behind the type of a member or a member function.
#[tactic(auto, unfolding(crate::specs::Classes::item_of_type))]
fn item_of_type(
    dialect: &Dialect,
    words: &mut Parser<'_>,
    depth: usize,
    type_name: Placed<TypeName>,
) -> Result<Item, Stop>
    ensures reads { Reads item_tree
        (grammar.item_of_type most_operators dialect.now depth type_name words.old)
        result words.new }
    ensures left { length words.new ≤ length words.old }
    ensures eats { OnOk result (length words.new < length words.old) }
{
    let name = words.name()?;
    typed_item(dialect, words, depth, type_name, name)
}

/// Behind a name: of a constructor, or of a class in a type; or `std`.
#[tactic(auto, unfolding(crate::specs::Classes::name_item))]
fn name_item(
    dialect: &Dialect,
    words: &mut Parser<'_>,
    depth: usize,
    name: Name,
) -> Result<Item, Stop>
    ensures reads { Reads item_tree
        (grammar.name_item most_operators dialect.now depth name words.old)
        result words.new }
    ensures left { length words.new ≤ length words.old }
    ensures eats { OnOk result (length words.new < length words.old) }
{
    if words.sees(Sign::OpenParen) {
        let ctor = ctor(dialect, words, depth, name)?;
        return Ok(Item::Ctor(ctor));
    }
    if words.sees(Sign::Star) {
        words.advance();
        return item_of_type(dialect, words, depth, pointer_to(name));
    }
    if dialect.is_woven() && name.item.0 == dialect.std.0 && words.sees(Sign::ColonColon) {
        words.advance();
        return mutex_member(dialect, words, name.at);
    }
    Err(Stop::Syntax)
}

/// An access label, or an item that begins with a type: this keyword comes next.
fn label_or_type(
    dialect: &Dialect,
    words: &mut Parser<'_>,
    depth: usize,
    at: Place,
    access: Option<Access>,
    type_name: Option<TypeName>,
) -> Result<Item, Stop>
    ensures reads { Reads item_tree
        (grammar.label_or_type most_operators dialect.now depth at access type_name words.old)
        result words.new }
    ensures left { length words.new ≤ length words.old }
    ensures eats { OnOk result (length words.new < length words.old) }
{
    if let Some(access) = access {
        words.advance();
        words.expect(Sign::Colon)?;
        return Ok(Item::Label(at, access));
    }
    let Some(item) = type_name else {
        return Err(Stop::Syntax);
    };
    words.advance();
    item_of_type(dialect, words, depth, Placed { at, item })
}

/// What stands in the braces of a class.
#[tactic(auto, unfolding(crate::specs::Classes::item))]
fn item(dialect: &Dialect, words: &mut Parser<'_>, depth: usize) -> Result<Item, Stop>
    ensures reads { Reads item_tree (grammar.item most_operators dialect.now depth words.old)
        result words.new }
    ensures left { length words.new ≤ length words.old }
    ensures eats { OnOk result (length words.new < length words.old) }
{
    let Some(next) = words.peek() else {
        return Err(Stop::Syntax);
    };
    match next.item {
        Word::Keyword(keyword) => label_or_type(
            dialect,
            words,
            depth,
            next.at,
            access_word(keyword),
            word_type(keyword),
        ),
        Word::Name(item) => {
            words.advance();
            name_item(dialect, words, depth, Placed { at: next.at, item })
        }
        Word::Sign(Sign::Tilde) => {
            words.advance();
            let dtor = dtor(dialect, words, depth, next.at)?;
            Ok(Item::Dtor(dtor))
        }
        _ => Err(Stop::Syntax),
    }
}

/// Items up to a closing brace, which is passed.
fn braced_items(
    dialect: &Dialect,
    words: &mut Parser<'_>,
    depth: usize,
) -> Result<Items<Item>, Stop>
    ensures reads { Reads (map item_tree)
        (parts.braced (grammar.item most_operators dialect.now depth) words.old)
        result words.new }
    ensures left { length words.new ≤ length words.old }
{
    let mut found = Items::new(words.alloc());
    'items: while !words.sees(Sign::CloseBrace) {
        let item = item(dialect, words, depth)?;
        found.push(item)?;
    }
    words.advance();
    Ok(found)
}

/// The items of a class in braces.
#[tactic(auto, unfolding(crate::specs::Classes::items))]
fn items(dialect: &Dialect, words: &mut Parser<'_>, depth: usize) -> Result<Items<Item>, Stop>
    ensures reads { Reads (map item_tree) (grammar.items most_operators dialect.now depth words.old)
        result words.new }
    ensures left { length words.new ≤ length words.old }
    ensures eats { OnOk result (length words.new < length words.old) }
{
    if !words.sees(Sign::OpenBrace) {
        return Err(Stop::Syntax);
    }
    if depth == 0 {
        return Err(Stop::Deep);
    }
    words.advance();
    braced_items(dialect, words, depth - 1)
}

/// Behind `class` or `struct`, which stands at this place, and a name.
#[tactic(auto, unfolding(crate::specs::Classes::class_of, crate::specs::Classes::class_items))]
fn class_of(
    dialect: &Dialect,
    words: &mut Parser<'_>,
    depth: usize,
    at: Place,
    word: ClassWord,
    name: Name,
) -> Result<Decl, Stop>
    ensures reads { Reads decl_tree
        (grammar.class_of most_operators dialect.now depth at word name words.old)
        result words.new }
    ensures left { length words.new ≤ length words.old }
    ensures eats { OnOk result (length words.new < length words.old) }
{
    if words.sees(Sign::Semicolon) {
        words.advance();
        return Ok(Decl::ClassName(ClassName { at, word, name }));
    }
    let base = base(words)?;
    let items = items(dialect, words, depth)?;
    words.expect(Sign::Semicolon)?;
    Ok(Decl::Class(Class {
        at,
        word,
        name,
        base,
        items,
    }))
}

/// Behind `class` or `struct`, which stands at this place.
#[tactic(auto, unfolding(crate::specs::Classes::class))]
pub(crate) fn class(
    dialect: &Dialect,
    words: &mut Parser<'_>,
    depth: usize,
    at: Place,
    word: ClassWord,
) -> Result<Decl, Stop>
    ensures reads { Reads decl_tree
        (grammar.class most_operators dialect.now depth at word words.old)
        result words.new }
    ensures left { length words.new ≤ length words.old }
    ensures eats { OnOk result (length words.new < length words.old) }
{
    let name = words.name()?;
    class_of(dialect, words, depth, at, word, name)
}
