//! A cursor over words, with the rules that have no expression in them.

ghost use Rattle.std.specs.Prelude.{◌≡◌, ◌<◌, ◌≤◌, ◌-◌, length, option_map, IsTrue, ◌↔◌, [], OnOk};
ghost use Rattle.cxx_expr.specs.Lefts as grammar;
ghost use Rattle.cxx_expr.specs.Lefts.{node_at, left_by};
ghost use Rattle.cxx_expr.specs.Outcome as outcome;
ghost use Rattle.cxx_expr.specs.Outcome.{Reads};
ghost use Rattle.agxx_base.specs.declared.vocabulary.Sign.TheVariants as sg;
ghost use Rattle.cxx_expr.specs.Tokens as tokens;

use crate::operator::same_sign;
use crate::stop::Stop;
use crate::word::{Word, WordAt};
use agxx_base::{NodeId, Place, Sign};
use cxx_tree::{Base, Callee, Left, Name, Node, Placed, Ref, Selector};
use std::alloc::Global;
use std::marker::Model;

/// What a parser has not read yet.
#[derive(Drop)]
pub struct Parser<'w> {
    pub(crate) alloc: Global,
    pub(crate) left: &'w [WordAt<'w>],
}

impl<'w> Model for Parser<'w> {
    ghost use Rattle.std.specs.Prelude.{List};
    ghost use Rattle.cxx_tree.specs.declared.node.Placed.{Placed};
    ghost use Rattle.cxx_tree.specs.Words.{Word};
    ghost use Rattle.cxx_expr.specs.Tokens.{tokens_of};

    ghost Value = { List (Placed Word) };

    ghost view = { λ p. tokens_of p.left.now };
}

/// A node as it is read: its number is given by the normal form.
pub fn unnumbered(at: Place) -> Node
    ensures { result ≡ node_at at }
{
    Node { at, id: NodeId(0) }
}

/// What stands on the left of an assignment, of the same parts as the function of a call.
pub fn left_of(node: Node, callee: Callee) -> Left
    ensures { result ≡ left_by node callee }
{
    match callee {
        Callee::Bare(reference) => Left::Name(reference),
        Callee::Member(selector) => Left::Member(node, selector),
    }
}

impl<'w> Parser<'w> {
    pub fn new(alloc: Global, left: &'w [WordAt<'w>]) -> Parser<'w>
        ensures { result ≡ tokens.tokens_of left.now }
    {
        Parser { alloc, left }
    }

    pub fn len(&self) -> usize
        ensures { result ≡ length self.now }
    {
        self.left.len()
    }

    /// Where the trees that are read lie.
    pub fn alloc(&self) -> Global {
        self.alloc
    }

    /// The word that comes next.
    pub fn peek(&self) -> Option<WordAt<'w>>
        ensures { option_map tokens.token_of result ≡ tokens.next self.now }
    {
        match self.left {
            [] => None,
            [next, ..] => Some(*next),
        }
    }

    /// The word that comes after the next one.
    pub fn second(&self) -> Option<WordAt<'w>>
        ensures { option_map tokens.token_of result ≡ tokens.next (tokens.after self.now) }
    {
        match self.left {
            [_, second, ..] => Some(*second),
            _ => None,
        }
    }

    pub fn is_empty(&self) -> bool
        ensures { IsTrue result ↔ (self.now ≡ []) }
    {
        self.left.is_empty()
    }

    /// Whether this sign comes next.
    pub fn sees(&self, sign: Sign) -> bool
        ensures { result ≡ tokens.sees sign self.now }
    {
        match self.left {
            [] => false,
            [next, ..] => match next.item {
                Word::Sign(found) => same_sign(found, sign),
                _ => false,
            },
        }
    }

    /// Passes the next word.
    pub fn advance(&mut self)
        ensures after { self.new ≡ tokens.after self.old }
        ensures shorter { length self.new ≡ length self.old - 1 }
    {
        if let [_, left @ ..] = self.left {
            self.left = left;
        }
    }

    /// Passes this sign, which has to come next.
    pub fn expect(&mut self, sign: Sign) -> Result<(), Stop>
        ensures left { length self.new ≤ length self.old }
        ensures eats { OnOk result (length self.new < length self.old) }
        ensures reads { Reads (λ u. u) (outcome.expect sign self.old) result self.new }
    {
        if self.sees(sign) {
            self.advance();
            Ok(())
        } else {
            Err(Stop::Syntax)
        }
    }

    /// A name, where it stands.
    #[tactic(auto, unfolding(crate::specs::Lefts::name))]
    pub fn name(&mut self) -> Result<Name, Stop>
        ensures left { length self.new ≤ length self.old }
        ensures eats { OnOk result (length self.new < length self.old) }
        ensures reads { Reads (λ n. n) (grammar.name self.old) result self.new }
    {
        let [next, ..] = self.left else {
            return Err(Stop::Syntax);
        };
        let Word::Name(item) = next.item else {
            return Err(Stop::Syntax);
        };
        let name = Placed { at: next.at, item };
        self.advance();
        Ok(name)
    }

    /// Passes `::` if it comes next, and says whether it did.
    fn passes_colons(&mut self) -> bool
        ensures seen { result ≡ tokens.sees sg.ColonColon self.old }
        ensures after { self.new ≡ grammar.past_colons self.old }
        ensures left { length self.new ≤ length self.old }
    {
        let global = self.sees(Sign::ColonColon);
        if global {
            self.advance();
        }
        global
    }

    /// A reference to a name, which begins at this place.
    #[tactic(auto, unfolding(crate::specs::Lefts::reference))]
    pub fn reference(&mut self, at: Place) -> Result<Ref, Stop>
        ensures left { length self.new ≤ length self.old }
        ensures eats { OnOk result (length self.new < length self.old) }
        ensures reads { Reads (λ r. r) (grammar.reference at self.old) result self.new }
    {
        let global = self.passes_colons();
        let name = self.name()?;
        Ok(Ref {
            node: unnumbered(at),
            global,
            name,
        })
    }

    /// The name of a member, behind what stands before it.
    #[tactic(auto, unfolding(crate::specs::Lefts::selected))]
    pub fn selected(&mut self, base: Base) -> Result<Callee, Stop>
        ensures left { length self.new ≤ length self.old }
        ensures reads { Reads (λ c. c) (grammar.selected base self.old) result self.new }
    {
        let name = self.name()?;
        Ok(Callee::Member(Selector { base, name }))
    }

    /// The rest of what begins with a reference to a name: that alone, or a member of it.
    #[tactic(auto, unfolding(crate::specs::Lefts::selected_of))]
    pub fn selected_of(&mut self, reference: Ref) -> Result<Callee, Stop>
        ensures left { length self.new ≤ length self.old }
        ensures reads { Reads (λ c. c) (grammar.selected_of reference self.old) result self.new }
    {
        if self.sees(Sign::Dot) {
            self.advance();
            self.selected(Base::Dot(reference))
        } else if self.sees(Sign::Arrow) {
            self.advance();
            self.selected(Base::Arrow(reference))
        } else {
            Ok(Callee::Bare(reference))
        }
    }

    /// What begins with a reference to a name at this place: that alone, or a member of it.
    #[tactic(auto, unfolding(crate::specs::Lefts::target))]
    pub fn target(&mut self, at: Place) -> Result<Callee, Stop>
        ensures left { length self.new ≤ length self.old }
        ensures eats { OnOk result (length self.new < length self.old) }
        ensures reads { Reads (λ c. c) (grammar.target at self.old) result self.new }
    {
        let reference = self.reference(at)?;
        self.selected_of(reference)
    }
}
