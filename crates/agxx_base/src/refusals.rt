//! The order of refusals, and the one that is told of several.

ghost use Rattle.std.specs.Prelude.{◌≡◌};
ghost use Rattle.agxx_base.specs.Refusals as spec;
ghost use Rattle.agxx_base.specs.Refusals.{LeastIsLeast};

use crate::Refusal;

fn then_by(a: u32, b: u32, otherwise: bool) -> bool
    ensures { result ≡ spec.then_by a b otherwise }
{
    if a < b {
        true
    } else if b < a {
        false
    } else {
        otherwise
    }
}

/// Whether one refusal is told before another: by place, and at one place by rule.
pub fn is_before(a: Refusal, b: Refusal) -> bool
    ensures { result ≡ spec.is_before a b }
{
    let by_rule = a.rule.rank() < b.rule.rank();
    let by_column = then_by(a.place.column, b.place.column, by_rule);
    let by_line = then_by(a.place.line, b.place.line, by_column);
    then_by(a.place.file, b.place.file, by_line)
}

/// The first of the refusal that is found and another.
pub fn nearer(found: Option<Refusal>, other: Refusal) -> Option<Refusal>
    ensures { result ≡ spec.nearer found other }
{
    match found {
        None => Some(other),
        Some(one) => {
            if is_before(other, one) {
                Some(other)
            } else {
                Some(one)
            }
        }
    }
}

/// The first of several refusals.
pub fn least(refusals: &[Refusal]) -> Option<Refusal>
    ensures { result ≡ spec.least refusals.now }
{
    let mut found = None;
    for refusal in refusals {
        found = nearer(found, *refusal);
    }
    found
}

/// Says that the refusal that is told is one of those that there are, that none is before it, and that nothing is told
/// only where there is none. The function does nothing: it carries its law.
pub fn least_is_least()
    ensures { LeastIsLeast }
{}
