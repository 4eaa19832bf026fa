//! The first violation of a text.

ghost use Rattle.std.specs.Prelude.{◌≡◌, ◌≤◌, length, IfOk};
ghost use Rattle.agxx_base.specs.Refusals.{least, least_from};
ghost use Rattle.flip_plan.specs.Rules as spec;

use crate::lines::Lines;
use crate::rules::{after, check_line};
use crate::seen::Seen;
use agxx_base::{LARGEST_TEXT, Memory, Place, Refusal, Rule, nearer};
use std::alloc::Global;

fn at_first() -> Seen
    ensures { result ≡ spec.at_first }
{
    Seen {
        limit: false,
        cycle: false,
        turn_room: 100_000_000,
        cycle_room: 1_000_000,
        flip_room: 100_000,
    }
}

/// No `limit`.
#[tactic(auto, unfolding(crate::specs::Rules::unlimited))]
fn unlimited(found: Option<Refusal>, file: u32, seen: Seen) -> Option<Refusal>
    ensures { result ≡ least_from found (spec.unlimited file seen) }
{
    if seen.limit {
        return found;
    }
    let place = Place {
        file,
        line: 1,
        column: 1,
    };
    nearer(
        found,
        Refusal {
            rule: Rule::F5,
            place,
        },
    )
}

/// The first violation of a text, if there is one.
#[tactic(auto, using(agxx_base::proofs::Leasts::least_append))]
pub(crate) fn first_violation(
    alloc: Global,
    text: &[u8],
    file: u32,
) -> Result<Option<Refusal>, Memory>
    requires { length text.now ≤ LARGEST_TEXT }
    ensures { IfOk result (λ found. found ≡ least (spec.violations_of_plan file text.now)) }
{
    let mut found = None;
    let mut seen = at_first();
    let mut lines = Lines::new(text, file);
    'lines: while let Some(line) = lines.next(alloc)? {
        found = check_line(found, seen, &line);
        seen = after(seen, &line);
    }
    Ok(unlimited(found, file, seen))
}
