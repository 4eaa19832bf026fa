//! What a run tells when it is over.

use agxx_base::Memory;
use step_machine::State;
use thiserror::Error;

/// What has become of a run, how many turns of each kind were taken, and how many flips changed a bit.
#[derive(Clone, Copy, Debug, PartialEq, Eq)]
pub struct Report {
    pub state: State,
    /// All turns: the sum of the next four.
    pub turns: u64,
    pub source: u64,
    pub inserted: u64,
    pub blocked: u64,
    pub idle: u64,
    pub flips: u64,
}

/// Why a run gives no report.
#[derive(Clone, Copy, Debug, PartialEq, Eq, Error)]
pub enum RunError {
    #[error("no memory")]
    Memory,
    #[error("the output could not be written")]
    WriteFault,
}

impl From<Memory> for RunError {
    fn from(_: Memory) -> RunError {
        RunError::Memory
    }
}
