//! Statements that begin with `std ::`: prints, threads and `std::abort()`.

ghost use Rattle.std.specs.Prelude.{◌≡◌, ◌≤◌, length, map, if◌then◌else◌};
ghost use Rattle.agxx_base.specs.declared.vocabulary.Sign.TheVariants as sg;
ghost use Rattle.cxx_tree.specs.ExprTree.{expr_tree};
ghost use Rattle.cxx_tree.specs.StmtTree.{printed_tree, stmt_tree};
ghost use Rattle.cxx_expr.specs.Full.{most_operators};
ghost use Rattle.cxx_expr.specs.Outcome.{Reads};
ghost use Rattle.cxx_expr.specs.Tokens as tokens;
ghost use Rattle.cxx_stmt.specs.Parts as parts;
ghost use Rattle.cxx_stmt.specs.Streams as grammar;

use crate::dialect::Dialect;
use crate::parts::{expressions, no_parts, open_paren, placed_ref, sees_name};
use agxx_base::{Place, Sign, Text};
use cxx_expr::{Parser, Stop, Word};
use cxx_tree::{Expr, Print, Printed, Quoted, Ref, Stmt, Thread};
use sqlite_items::Items;

fn is_colons(word: Word<'_>) -> bool
    ensures { result ≡ tokens.is_sign sg.ColonColon (tokens.word_of word.entry) }
{
    match word {
        Word::Sign(Sign::ColonColon) => true,
        _ => false,
    }
}

/// Whether `::` stands behind the next word.
fn sees_colons_behind(words: &Parser<'_>) -> bool
    ensures { result ≡ tokens.sees sg.ColonColon (tokens.after words.now) }
{
    match words.second() {
        Some(second) => is_colons(second.item),
        None => false,
    }
}

/// A sum, as an operand of a print.
fn value(words: &mut Parser<'_>, depth: usize) -> Result<Printed, Stop>
    ensures reads { Reads printed_tree (grammar.value most_operators depth words.old)
        result words.new }
    ensures left { length words.new ≤ length words.old }
{
    Ok(Printed::Value(words.sum(depth)?))
}

/// Behind `std::abort`.
#[tactic(auto, unfolding(crate::specs::Streams::abort))]
fn abort(words: &mut Parser<'_>, depth: usize, at: Place) -> Result<Stmt, Stop>
    ensures reads { Reads stmt_tree (grammar.abort depth at words.old) result words.new }
    ensures left { length words.new ≤ length words.old }
{
    no_parts(words, depth)?;
    Ok(Stmt::Abort(at))
}

/// The arguments of a thread, each behind a comma.
fn other_expressions(words: &mut Parser<'_>, depth: usize) -> Result<Items<Expr>, Stop>
    ensures reads { Reads (map expr_tree)
        (parts.others (λ ts. parts.expressions most_operators depth ts) words.old)
        result words.new }
    ensures left { length words.new ≤ length words.old }
{
    if !words.sees(Sign::Comma) {
        return Ok(Items::new(words.alloc()));
    }
    words.advance();
    expressions(words, depth)
}

/// A thread's function and the arguments.
#[tactic(auto, unfolding(crate::specs::Streams::started))]
fn started(words: &mut Parser<'_>, depth: usize) -> Result<(Ref, Items<Expr>), Stop>
    ensures reads { Reads (λ part. (part.0, map expr_tree part.1))
        (grammar.started most_operators depth words.old)
        result words.new }
    ensures left { length words.new ≤ length words.old }
{
    let function = placed_ref(words)?;
    let arguments = other_expressions(words, depth)?;
    Ok((function, arguments))
}

/// Behind `std::thread`.
#[tactic(auto, unfolding(crate::specs::Streams::thread))]
fn thread(words: &mut Parser<'_>, depth: usize, at: Place) -> Result<Stmt, Stop>
    ensures reads { Reads stmt_tree (grammar.thread most_operators depth at words.old)
        result words.new }
    ensures left { length words.new ≤ length words.old }
{
    let name = words.name()?;
    let below = open_paren(words, depth)?;
    let (function, arguments) = started(words, below)?;
    words.expect(Sign::CloseParen)?;
    Ok(Stmt::Thread(Thread {
        at,
        name,
        function,
        arguments,
    }))
}

impl Dialect {
    /// Whether `std ::` comes next.
    fn sees_std(&self, words: &Parser<'_>) -> bool
        ensures { result ≡ grammar.sees_std self.now words.now }
    {
        sees_name(words, self.std) && sees_colons_behind(words)
    }

    /// `endl` behind `std ::`, which stands at this place.
    fn endl(&self, words: &mut Parser<'_>, at: Place) -> Result<Printed, Stop>
        ensures reads { Reads printed_tree (grammar.endl self.now at words.old) result words.new }
        ensures left { length words.new ≤ length words.old }
    {
        if !sees_name(words, self.endl) {
            return Err(Stop::Syntax);
        }
        words.advance();
        Ok(Printed::Endl(at))
    }

    /// An operand of a print that is no string.
    fn computed(&self, words: &mut Parser<'_>, depth: usize, at: Place) -> Result<Printed, Stop>
        ensures reads { Reads printed_tree
            (if grammar.sees_std self.now words.old
            then grammar.endl self.now at (tokens.after (tokens.after words.old))
            else grammar.value most_operators depth words.old)
            result words.new }
        ensures left { length words.new ≤ length words.old }
    {
        if !self.sees_std(words) {
            return value(words, depth);
        }
        words.advance();
        words.advance();
        self.endl(words, at)
    }

    /// An operand of a print, behind `<<`.
    #[tactic(auto, unfolding(crate::specs::Streams::operand))]
    fn operand(&self, words: &mut Parser<'_>, depth: usize) -> Result<Printed, Stop>
        ensures reads { Reads printed_tree (grammar.operand most_operators self.now depth words.old)
            result words.new }
        ensures left { length words.new ≤ length words.old }
    {
        let Some(next) = words.peek() else {
            return Err(Stop::Syntax);
        };
        let Word::Text(bytes) = next.item else {
            return self.computed(words, depth, next.at);
        };
        words.advance();
        let bytes = Text::from_vec(Vec::from_slice(words.alloc(), bytes)?);
        Ok(Printed::Text(Quoted { at: next.at, bytes }))
    }

    /// The operands of a print, each behind `<<`.
    #[tactic(auto, unfolding(crate::specs::Streams::operands))]
    fn operands(&self, words: &mut Parser<'_>, depth: usize) -> Result<Items<Printed>, Stop>
        ensures reads { Reads (map printed_tree)
            (grammar.operands most_operators self.now depth words.old)
            result words.new }
        ensures left { length words.new ≤ length words.old }
    {
        if !words.sees(Sign::ShiftLeft) {
            return Err(Stop::Syntax);
        }
        let mut found = Items::new(words.alloc());
        'operands: while words.sees(Sign::ShiftLeft) {
            words.advance();
            let operand = self.operand(words, depth)?;
            found.push(operand)?;
        }
        Ok(found)
    }

    /// Behind `std::cout`.
    #[tactic(auto, unfolding(crate::specs::Streams::print))]
    fn print(&self, words: &mut Parser<'_>, depth: usize, at: Place) -> Result<Stmt, Stop>
        ensures reads { Reads stmt_tree (grammar.print most_operators self.now depth at words.old)
            result words.new }
        ensures left { length words.new ≤ length words.old }
    {
        let operands = self.operands(words, depth)?;
        Ok(Stmt::Print(Print { at, operands }))
    }

    /// Behind `std ::`, which stands at this place. No semicolon is read.
    #[tactic(auto, unfolding(crate::specs::Streams::std_stmt))]
    pub(crate) fn std_stmt(
        &self,
        words: &mut Parser<'_>,
        depth: usize,
        at: Place,
    ) -> Result<Stmt, Stop>
        ensures reads { Reads stmt_tree
            (grammar.std_stmt most_operators self.now depth at words.old)
            result words.new }
        ensures left { length words.new ≤ length words.old }
    {
        if sees_name(words, self.thread) {
            words.advance();
            return thread(words, depth, at);
        }
        if sees_name(words, self.cout) {
            words.advance();
            return self.print(words, depth, at);
        }
        if self.is_woven() && sees_name(words, self.abort) {
            words.advance();
            return abort(words, depth, at);
        }
        Err(Stop::Syntax)
    }
}
