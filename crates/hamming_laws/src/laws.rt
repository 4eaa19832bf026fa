//! Laws on definitions alone. Each function does nothing: it carries its law.

ghost use Rattle.hamming_laws.specs.Masks.{MasksArePlaces};
ghost use Rattle.hamming_laws.specs.Places.{PlacesMend};
ghost use Rattle.hamming_laws.specs.PositionsOfWords.{PositionsAreAll};
ghost use Rattle.hamming_laws.specs.WordValues.{WordsAreValues};
ghost use Rattle.hamming_laws.specs.Words.{WordsMend};

/// The number of check words is the least that is enough, and members and check words have the positions from 1 on,
/// each once.
pub fn positions_are_all()
    ensures { PositionsAreAll }
{}

/// At one bit place each single inversion is found and undone, two are noticed, what is right is left as it is, and
/// what repair leaves is right.
pub fn places_mend()
    ensures { PlacesMend }
{}

/// The words of a part begin with its members; each single flip is repaired; two at one bit place are beyond repair;
/// and what repair leaves is what is encoded of its members.
pub fn words_mend()
    ensures { WordsMend }
{}

/// The formulas over whole words that the generated statements compute have at each bit place the bits that are
/// meant there. So they tell exactly which words are beyond repair, and give the words that repair leaves and those
/// that are encoded of the members.
pub fn masks_are_places()
    ensures { MasksArePlaces }
{}

/// The operations of the formulas are the machine's operators on its values of 64 bits, and a member enters as the
/// bits of its own width alone, also where it is below 0.
pub fn words_are_values()
    ensures { WordsAreValues }
{}
