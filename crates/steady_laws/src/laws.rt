//! Laws on definitions alone. Each function does nothing: it carries its law.

ghost use Rattle.steady_laws.specs.Elaboration.{EntryElaborates};
ghost use Rattle.steady_laws.specs.Steady.{BlocksAreSteady};

/// The functions that are generated to enter and leave a part are, in core form, the blocks that these laws speak of,
/// where each name means its member, its mutex or its function.
pub fn entry_is_what_is_generated()
    ensures { EntryElaborates }
{}

/// While the counter is above 0, each step of entering and leaving leaves the words of the part as they are, and goes
/// on in the same way whatever they are: the counter goes up or down by 1, and neither repair nor renewal is called.
pub fn blocks_are_steady()
    ensures { BlocksAreSteady }
{}
