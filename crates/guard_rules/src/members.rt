//! The rules on members: none is a `bool`, and there aren't too many.

ghost use Rattle.std.specs.Prelude.{◌≡◌, map};
ghost use Rattle.agxx_base.specs.declared.rule.Rule.TheVariants as rule;
ghost use Rattle.cxx_tree.specs.ProgramTree.{item_tree, decl_tree};
ghost use Rattle.guard_rules.specs.BoolMember.{is_bool, bool_at};
ghost use Rattle.guard_rules.specs.TooManyMembers as spec;
ghost use Rattle.guard_rules.specs.ThroughMembers.{through_bools};
ghost use Rattle.guard_rules.specs.Parts.{places_of};
ghost use Rattle.guard_rules.specs.Nearest.{nearest, through_each};

use crate::known::Known;
use agxx_base::{NumKind, Place, Refusal, Rule, nearer};
use cxx_tree::{Decl, Item, TypeName};

/// The most members of a part.
const MOST_MEMBERS: usize = 120;

fn is_bool(type_name: TypeName) -> bool
    ensures { result ≡ is_bool type_name }
{
    matches!(type_name, TypeName::Num(NumKind::Bool))
}

fn bool_in(found: Option<Refusal>, items: &[Item]) -> Option<Refusal>
    ensures { result ≡ nearest rule.P2 found (places_of bool_at (map item_tree items.now)) }
{
    let mut first = found;
    for item in items {
        if let Item::Member(member) = item
            && is_bool(member.type_name.item)
        {
            first = nearer(
                first,
                Refusal {
                    rule: Rule::P2,
                    place: member.name.at,
                },
            );
        }
    }
    first
}

fn member_behind(count: usize, items: &[Item]) -> Option<Place>
    ensures { result ≡ spec.member_behind count (map item_tree items.now) }
{
    let mut left = count;
    for item in items {
        if let Item::Member(member) = item {
            if left == 0 {
                return Some(member.name.at);
            }
            left -= 1;
        }
    }
    None
}

impl<'a> Known<'a> {
    fn bools_in(&self, found: Option<Refusal>, decl: &Decl) -> Option<Refusal>
        ensures { result ≡ through_bools self.now.guards (decl_tree decl.now) found }
    {
        match decl {
            Decl::Class(class) if self.is_guarded(class.name.item) => {
                bool_in(found, class.items.as_slice())
            }
            _ => found,
        }
    }

    /// The first of what is found and the `bool` members of guarded classes.
    pub(crate) fn bool_members(&self, found: Option<Refusal>, decls: &[Decl]) -> Option<Refusal>
        ensures { result ≡ through_each (through_bools self.now.guards)
            (map decl_tree decls.now) found }
    {
        let mut first = found;
        for decl in decls {
            first = self.bools_in(first, decl);
        }
        first
    }

    fn one_too_many(&self, decl: &Decl) -> Option<Place>
        ensures { result ≡ spec.one_too_many self.now.guards (decl_tree decl.now) }
    {
        match decl {
            Decl::Class(class) if self.is_guarded(class.name.item) => {
                member_behind(MOST_MEMBERS, class.items.as_slice())
            }
            _ => None,
        }
    }

    /// The first of what is found and the members past the limit.
    pub(crate) fn members_past(&self, found: Option<Refusal>, decls: &[Decl]) -> Option<Refusal>
        ensures { result ≡ nearest rule.P3 found
            (places_of (spec.one_too_many self.now.guards) (map decl_tree decls.now)) }
    {
        let mut first = found;
        for decl in decls {
            if let Some(place) = self.one_too_many(decl) {
                first = nearer(
                    first,
                    Refusal {
                        rule: Rule::P3,
                        place,
                    },
                );
            }
        }
        first
    }
}
