//! Laws on definitions alone. Each function does nothing: it carries its law.

ghost use Rattle.run_laws.specs.NeverHalted.{SourcesNeverHalt};
ghost use Rattle.run_laws.specs.TurnLimits.{TurnsAreLimited};

/// Says that a run takes as many turns as its plan allows at most, and just as many where it still goes on.
pub fn turns_are_limited()
    ensures { TurnsAreLimited }
{}

/// Says that no run of a source is halted, under whatever plan.
pub fn sources_never_halt()
    ensures { SourcesNeverHalt }
{}
