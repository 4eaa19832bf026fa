//! Laws on definitions alone. Each function does nothing: it carries its law.

ghost use Rattle.plan_runs.specs.Laws.{RunsUnflipped, AddsUp};

/// Says that a plan without flips runs as if they were set aside, and that no flip is counted.
pub fn plans_without_flips()
    ensures { RunsUnflipped }
{}

/// Says that the turns that are told are the sum of those of each kind.
pub fn turns_add_up()
    ensures { AddsUp }
{}
