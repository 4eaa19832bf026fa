//! The rule that no class is guarded by two aspects.

ghost use Rattle.std.specs.Prelude.{◌≡◌};
ghost use Rattle.agxx_base.specs.declared.rule.Rule.TheVariants as rule;
ghost use Rattle.guards.specs.Guarding.{guard_of};
ghost use Rattle.guard_rules.specs.GuardedTwice as spec;
ghost use Rattle.guard_rules.specs.Parts.{places_of};
ghost use Rattle.guard_rules.specs.Nearest.{nearest};

use crate::known::Known;
use agxx_base::{Place, Refusal, Rule, nearer};
use guards::Guard;

fn same_place(a: Place, b: Place) -> bool
    ensures { result ≡ spec.same_place a b }
{
    a.file == b.file && a.line == b.line && a.column == b.column
}

impl<'a> Known<'a> {
    fn is_later(&self, guard: Guard) -> bool
        ensures { result ≡ spec.is_later guard.at (guard_of self.now.guards guard.class) }
    {
        match self.firsts.place(guard.class) {
            None => false,
            Some(first) => !same_place(first, guard.at),
        }
    }

    fn later_at(&self, guard: Guard) -> Option<Place>
        ensures { result ≡ spec.later_at self.now.guards self.now.declared guard }
    {
        if self.declared.class_named(guard.class).is_some() && self.is_later(guard) {
            Some(guard.at)
        } else {
            None
        }
    }

    /// The first of what is found and the guards of classes that another aspect guards first.
    pub(crate) fn guarded_twice(&self, found: Option<Refusal>, guards: &[Guard]) -> Option<Refusal>
        ensures { result ≡ nearest rule.P4 found
            (places_of (spec.later_at self.now.guards self.now.declared) guards.now) }
    {
        let mut first = found;
        for guard in guards {
            if let Some(place) = self.later_at(*guard) {
                first = nearer(
                    first,
                    Refusal {
                        rule: Rule::P4,
                        place,
                    },
                );
            }
        }
        first
    }
}
