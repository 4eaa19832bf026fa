//! Laws of the codes.

ghost use Rattle.codec_laws.specs.Values.{CopiesKeepValues};
ghost use Rattle.codec_laws.specs.BlockRuns.{CopiesRun};
ghost use Rattle.codec_laws.specs.BlockTurns.{BlocksTurn};
ghost use Rattle.codec_laws.specs.Elaboration.{CopiesElaborate};
ghost use Rattle.codec_laws.specs.Names.{CopiesNamesDiffer};

/// Says that two copies keep the values of the members: what is encoded begins with them, and where at most one bit has
/// flipped, repair leaves what was encoded. Each bit of a repaired word is what at least two of three words have.
pub fn copies_keep_values()
    ensures { CopiesKeepValues }
{}

/// Says that names that are generated for a part with two copies begin with `__gop_`, that all of them differ, and that
/// the members that are generated have these names and the members' widths.
pub fn generated_names_differ()
    ensures { CopiesNamesDiffer }
{}

/// Says that the blocks that repair and renew two copies, run by themselves, leave the words that repair and renewal
/// mean, in a bounded number of steps.
pub fn blocks_do_what_they_mean()
    ensures { CopiesRun }
{}

/// Says that the blocks of two copies name nothing but the words of their part, and that a step of what names nothing
/// else does among other threads what it does by itself: its frame goes on, and at most one word of the part changes.
pub fn blocks_turn_among_others()
    ensures { BlocksTurn }
{}

/// Says that the statements that are generated for two copies are, in core form, the blocks that these laws speak of,
/// where each name means its member and the locals' names are new.
pub fn blocks_are_what_is_generated()
    ensures { CopiesElaborate }
{}
