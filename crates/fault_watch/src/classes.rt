//! The classes of a program by their numbers.

ghost use Rattle.std.specs.Prelude.{◌≡◌, length, option_map};
ghost use Rattle.std.specs.Option.{option_copied};
ghost use Rattle.cxx_core.specs.ProgramView.{class_core};
ghost use Rattle.step_machine.specs.Setting.{class_at};

use agxx_base::ClassId;
use cxx_core::Class;
use step_setting::Setting;

/// How many classes there are.
pub(crate) fn class_count(setting: &Setting<'_>) -> usize
    ensures { result ≡ length setting.now.program.classes }
{
    setting.program().classes.len()
}

/// The class of a number.
pub(crate) fn class_at<'p>(setting: &Setting<'p>, class: ClassId) -> Option<&'p Class>
    ensures { option_map class_core (option_copied result) ≡ class_at setting.now class }
{
    setting.program().classes.as_slice().get(class.0 as usize)
}
