//! Runs by plans: which flips fall before each turn, whose turn it is, what waits, and what is told in the end.
//!
//! Callers cite `Runs` (`planned`, `unflipped`) and `Reports`. The specs are read in this order: `Watches` (what a watch
//! keeps, and where a run stands), `Begins`, `Places`, `Wakings`, `Turns`, `Runs`, `Reports`.
#![tactic(auto)]

mod laws;
mod moments;
mod output;
mod place;
mod report;
mod runs;
mod target;
mod turn;
mod wake;
mod watch;

pub use laws::{plans_without_flips, turns_add_up};
pub use output::write_output;
pub use report::{Report, RunError};
pub use runs::{run_plan, run_unflipped};
pub use target::Target;
pub use watch::Watch;
