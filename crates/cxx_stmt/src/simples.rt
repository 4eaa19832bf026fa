//! Locals, and the statements that may stand in the head of a `for`.

ghost use Rattle.std.specs.Prelude.{◌≡◌, ◌<◌, ◌≤◌, length, option_map, OnOk};
ghost use Rattle.cxx_tree.specs.StmtTree.{initial_tree, local_tree, simple_tree, start_tree};
ghost use Rattle.cxx_expr.specs.Full.{most_operators};
ghost use Rattle.cxx_expr.specs.Outcome.{Reads};
ghost use Rattle.cxx_expr.specs.Tokens as tokens;
ghost use Rattle.cxx_stmt.specs.Simples as grammar;
ghost use Rattle.cxx_stmt.specs.Types.{word_type};

use crate::parts::{arguments, sign_at};
use crate::types::{pointer_to, word_type};
use agxx_base::{Keyword, Sign};
use cxx_expr::{Parser, Stop, Word, WordAt, left_of, unnumbered};
use cxx_tree::{
    Assign, Base, BinOp, Bump, Call, Callee, Initial, Left, Local, Name, Placed, Ref, Simple,
    Start, TypeName,
};

/// The operator of a sign of assignment, or none for `=`.
fn assign_of(sign: Sign) -> Option<Option<BinOp>>
    ensures { result ≡ grammar.assign_of sign }
{
    match sign {
        Sign::Assign => Some(None),
        Sign::PlusAssign => Some(Some(BinOp::Add)),
        Sign::MinusAssign => Some(Some(BinOp::Subtract)),
        Sign::StarAssign => Some(Some(BinOp::Multiply)),
        Sign::SlashAssign => Some(Some(BinOp::Divide)),
        Sign::PercentAssign => Some(Some(BinOp::Remainder)),
        _ => None,
    }
}

/// Whether a sign adds or subtracts one.
fn bump_of(sign: Sign) -> Option<bool>
    ensures { result ≡ grammar.bump_of sign }
{
    match sign {
        Sign::PlusPlus => Some(true),
        Sign::MinusMinus => Some(false),
        _ => None,
    }
}

/// The sign of an assignment that comes next.
fn assign_next(words: &Parser<'_>) -> Option<Placed<Option<BinOp>>>
    ensures { result ≡ grammar.assign_next (tokens.next words.now) }
{
    let next = words.peek()?;
    let Word::Sign(sign) = next.item else {
        return None;
    };
    let item = assign_of(sign)?;
    Some(Placed { at: next.at, item })
}

/// The `++` or `--` that comes next.
fn bump_next(words: &Parser<'_>) -> Option<Placed<bool>>
    ensures { result ≡ grammar.bump_next (tokens.next words.now) }
{
    let next = words.peek()?;
    let Word::Sign(sign) = next.item else {
        return None;
    };
    let item = bump_of(sign)?;
    Some(Placed { at: next.at, item })
}

/// What may be assigned to or called, which begins with this word.
fn callee_at(words: &mut Parser<'_>, next: WordAt<'_>) -> Result<Callee, Stop>
    ensures reads { Reads (λ c. c)
        (grammar.callee_at next.entry.at (tokens.word_of next.entry.item) words.old)
        result words.new }
    ensures left { length words.new ≤ length words.old }
    ensures eats { OnOk result (length words.new < length words.old) }
{
    match next.item {
        Word::Name(_) => words.target(next.at),
        Word::Sign(Sign::ColonColon) => words.target(next.at),
        Word::Keyword(Keyword::This) => {
            words.advance();
            words.expect(Sign::Arrow)?;
            words.selected(Base::This)
        }
        _ => Err(Stop::Syntax),
    }
}

/// What may be assigned to or called, and where it begins.
#[tactic(auto, unfolding(crate::specs::Simples::callee))]
fn callee(words: &mut Parser<'_>) -> Result<Placed<Callee>, Stop>
    ensures reads { Reads (λ c. c) (grammar.callee words.old) result words.new }
    ensures left { length words.new ≤ length words.old }
    ensures eats { OnOk result (length words.new < length words.old) }
{
    let Some(next) = words.peek() else {
        return Err(Stop::Syntax);
    };
    let item = callee_at(words, next)?;
    Ok(Placed { at: next.at, item })
}

/// The same as what stands on the left of an assignment.
fn left_at(callee: Placed<Callee>) -> Left
    ensures { result ≡ grammar.left_at callee }
{
    left_of(unnumbered(callee.at), callee.item)
}

/// `++` or `--`, in front or not.
fn bump(left: Left, sign: Placed<bool>, in_front: bool) -> Simple
    ensures { simple_tree result ≡ grammar.bump_tree left sign in_front }
{
    Simple::Bump(Bump {
        left,
        sign: sign.at,
        adds: sign.item,
        in_front,
    })
}

/// At the sign of an assignment, which comes next.
#[tactic(auto, unfolding(crate::specs::Simples::assigned))]
fn assigned(
    words: &mut Parser<'_>,
    depth: usize,
    left: Left,
    sign: Placed<Option<BinOp>>,
) -> Result<Simple, Stop>
    ensures reads { Reads simple_tree (grammar.assigned most_operators depth left sign words.old)
        result words.new }
    ensures left { length words.new ≤ length words.old }
{
    words.advance();
    let value = words.expr(depth)?;
    Ok(Simple::Assign(Assign { left, sign, value }))
}

/// Behind the left side of an assignment, or of `++` or `--`.
#[tactic(auto, unfolding(crate::specs::Simples::changed))]
fn changed(words: &mut Parser<'_>, depth: usize, left: Left) -> Result<Simple, Stop>
    ensures reads { Reads simple_tree (grammar.changed most_operators depth left words.old)
        result words.new }
    ensures left { length words.new ≤ length words.old }
{
    if let Some(sign) = assign_next(words) {
        return assigned(words, depth, left, sign);
    }
    let Some(sign) = bump_next(words) else {
        return Err(Stop::Syntax);
    };
    words.advance();
    Ok(bump(left, sign, false))
}

/// Behind what may be assigned to or called.
#[tactic(auto, unfolding(crate::specs::Simples::simple_behind))]
fn simple_behind(
    words: &mut Parser<'_>,
    depth: usize,
    callee: Placed<Callee>,
) -> Result<Simple, Stop>
    ensures reads { Reads simple_tree (grammar.simple_behind most_operators depth callee words.old)
        result words.new }
    ensures left { length words.new ≤ length words.old }
{
    if !words.sees(Sign::OpenParen) {
        return changed(words, depth, left_at(callee));
    }
    let arguments = arguments(words, depth)?;
    Ok(Simple::CallStmt(Call {
        node: unnumbered(callee.at),
        callee: callee.item,
        arguments,
    }))
}

/// A statement that may stand in the head of a `for`.
#[tactic(auto, unfolding(crate::specs::Simples::simple))]
pub(crate) fn simple(words: &mut Parser<'_>, depth: usize) -> Result<Simple, Stop>
    ensures reads { Reads simple_tree (grammar.simple most_operators depth words.old)
        result words.new }
    ensures left { length words.new ≤ length words.old }
    ensures eats { OnOk result (length words.new < length words.old) }
{
    if let Some(sign) = bump_next(words) {
        words.advance();
        let callee = callee(words)?;
        return Ok(bump(left_at(callee), sign, true));
    }
    let callee = callee(words)?;
    simple_behind(words, depth, callee)
}

/// The initial value of a local, if it has one.
#[tactic(auto, unfolding(crate::specs::Simples::initial))]
fn initial(words: &mut Parser<'_>, depth: usize) -> Result<Option<Initial>, Stop>
    ensures reads { Reads (option_map initial_tree) (grammar.initial most_operators depth words.old)
        result words.new }
    ensures left { length words.new ≤ length words.old }
{
    let Some(sign) = sign_at(words, Sign::Assign) else {
        return Ok(None);
    };
    words.advance();
    let value = words.expr(depth)?;
    Ok(Some(Initial { sign, value }))
}

/// Behind the type of a local.
#[tactic(auto, unfolding(crate::specs::Simples::local_of))]
fn local_of(
    words: &mut Parser<'_>,
    depth: usize,
    type_name: Placed<TypeName>,
) -> Result<Local, Stop>
    ensures reads { Reads local_tree (grammar.local_of most_operators depth type_name words.old)
        result words.new }
    ensures left { length words.new ≤ length words.old }
    ensures eats { OnOk result (length words.new < length words.old) }
{
    let name = words.name()?;
    let initial = initial(words, depth)?;
    Ok(Local {
        type_name,
        name,
        initial,
    })
}

/// Behind a name: the class of a local's type, or what a simple statement begins with.
#[tactic(auto, unfolding(crate::specs::Simples::start_behind))]
pub(crate) fn start_behind(words: &mut Parser<'_>, depth: usize, name: Name) -> Result<Start, Stop>
    ensures reads { Reads start_tree (grammar.start_behind most_operators depth name words.old)
        result words.new }
    ensures left { length words.new ≤ length words.old }
{
    if words.sees(Sign::Star) {
        words.advance();
        return Ok(Start::Local(local_of(words, depth, pointer_to(name))?));
    }
    let item = words.selected_of(Ref {
        node: unnumbered(name.at),
        global: false,
        name,
    })?;
    let callee = Placed { at: name.at, item };
    Ok(Start::Simple(simple_behind(words, depth, callee)?))
}

/// A local or a simple statement, which begins with a keyword.
fn start_word(words: &mut Parser<'_>, depth: usize, next: Placed<Keyword>) -> Result<Start, Stop>
    ensures reads { Reads start_tree
        (grammar.start_word most_operators depth next.at (word_type next.item) words.old)
        result words.new }
    ensures left { length words.new ≤ length words.old }
    ensures eats { OnOk result (length words.new < length words.old) }
{
    let Some(item) = word_type(next.item) else {
        return Ok(Start::Simple(simple(words, depth)?));
    };
    words.advance();
    let type_name = Placed { at: next.at, item };
    Ok(Start::Local(local_of(words, depth, type_name)?))
}

/// A local or a simple statement.
#[tactic(auto, unfolding(crate::specs::Simples::start))]
pub(crate) fn start(words: &mut Parser<'_>, depth: usize) -> Result<Start, Stop>
    ensures reads { Reads start_tree (grammar.start most_operators depth words.old)
        result words.new }
    ensures left { length words.new ≤ length words.old }
    ensures eats { OnOk result (length words.new < length words.old) }
{
    let Some(next) = words.peek() else {
        return Err(Stop::Syntax);
    };
    match next.item {
        Word::Name(item) => {
            words.advance();
            start_behind(words, depth, Placed { at: next.at, item })
        }
        Word::Keyword(item) => start_word(words, depth, Placed { at: next.at, item }),
        _ => Ok(Start::Simple(simple(words, depth)?)),
    }
}
