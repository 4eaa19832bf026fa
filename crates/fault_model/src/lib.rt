//! The fault model: where the parts of objects are, who is inside them, which flips are admissible, and what a run by
//! a plan comes to. Callers cite `Progress` (`planned_of`) and `Verdict`. The specs are read in this order: `Parts`,
//! `Inside`, `Engaged`, `PlanLines`, `Admissible`, `Progress`, `Comings`, `Exact`, `Cost`; what holds of every run
//! stands in `Laws` and `LaidOut`, of every turn in `Stays`, and two threads at work on one object in `Example`.
#![tactic(auto)]

mod laws;
mod verdict;

pub use laws::{
    admissible_hits_go_together, check_words_are_least, erased_are_counted, example_runs,
    inside_is_emptied, parts_are_laid_out, state_tells_flips, stays_change_at_the_top,
    verdict_looks_back,
};
pub use verdict::Verdict;
