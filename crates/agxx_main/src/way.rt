//! The ways in which an accepted program is run.

ghost use Rattle.std.specs.Prelude.{◌≡◌};
ghost use Rattle.agxx_main.specs.RunAnswers.{mode_of};

use agxx_base::Mode;
use flip_plan::Plan;

/// How an accepted program is run.
#[derive(Drop)]
pub(crate) enum Way<'p> {
    /// As a woven program, by a plan with its flips.
    Woven(&'p Plan),
    /// As a source, by the turns of a plan.
    Source(&'p Plan),
}

impl<'p> Way<'p> {
    /// The mode that the program is read in.
    pub(crate) fn mode(&self) -> Mode
        ensures { result ≡ mode_of self.now }
    {
        match self {
            Way::Woven(_) => Mode::Woven,
            Way::Source(_) => Mode::Source,
        }
    }
}
