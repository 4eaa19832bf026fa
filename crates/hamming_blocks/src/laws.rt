//! Laws of what is generated for check words.

ghost use Rattle.hamming_blocks.specs.BlockRuns.{HammingRun};
ghost use Rattle.hamming_blocks.specs.Elaboration.{HammingElaborates};
ghost use Rattle.hamming_blocks.specs.Names.{HammingNamesDiffer};
ghost use Rattle.hamming_blocks.specs.OfPart.{HammingIsOfPart};

/// Says that the blocks of check words, run by themselves, do what repair and renewal mean, in a bounded number of
/// steps: repair halts exactly where the words can't be repaired, and else leaves the words that repair leaves; renewal
/// leaves what is encoded of the members.
pub fn check_blocks_do_what_they_mean()
    ensures { HammingRun }
{}

/// Says that the blocks of check words name nothing but the words of their part, their own locals and numbers.
pub fn check_blocks_are_of_part()
    ensures { HammingIsOfPart }
{}

/// Says that the statements that are generated for check words are, in core form, the blocks that these laws speak of,
/// where each name means its member and the locals' names are new.
pub fn check_blocks_are_what_is_generated()
    ensures { HammingElaborates }
{}

/// Says that names that are generated for a part with check words begin with `__gop_`, that all of them differ, and
/// that the members that are generated have these names and 64 bits.
pub fn check_names_differ()
    ensures { HammingNamesDiffer }
{}
