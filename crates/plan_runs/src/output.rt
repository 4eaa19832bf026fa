//! What a run writes.

ghost use Rattle.std.specs.Prelude.{◌≡◌, IfOk};
ghost use Rattle.plan_runs.specs.Outputs.{WritesOutput};

use crate::report::{Report, RunError};
use agxx_base::{Failed, Sink, write_whole};

/// Writes the output of a run that is over, and hands on what it tells.
pub fn write_output<O: Sink>(
    report: Report,
    output: &[u8],
    sink: &mut O,
) -> Result<Report, RunError>
    ensures report { IfOk result (λ told. told ≡ report) }
    ensures output { WritesOutput (O.taken sink.old) (O.taken sink.new) output.now
        (O.faults sink.old) (O.faults sink.new) result }
{
    match write_whole(sink, output) {
        Ok(()) => Ok(report),
        Err(Failed) => Err(RunError::WriteFault),
    }
}
