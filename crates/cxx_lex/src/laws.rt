//! Laws of the definitions: the functions do nothing.

ghost use Rattle.cxx_lex.specs.Laws.{
  HasOneReading,
  HasOneRefusal,
  IsNeverBoth,
  IsAlwaysOne,
  TellsTokens,
  TellsRefusals,
  RefusesLargeNumbers,
  StepsInOneWay,
};
ghost use Rattle.cxx_lex.specs.Strings.{ReadsQuoted};

/// A text has one list of tokens and one end, or one refusal, and never both. `lexed` tells which.
pub fn texts_are_lexed_in_one_way()
    ensures tokens { HasOneReading }
    ensures refusal { HasOneRefusal }
    ensures never { IsNeverBoth }
    ensures always { IsAlwaysOne }
    ensures tells_tokens { TellsTokens }
    ensures tells_refusals { TellsRefusals }
{}

/// `string_value` of a literal is what the literal was made of.
pub fn literals_are_read()
    ensures { ReadsQuoted }
{}

/// A number is refused exactly where it is above 2^64 - 1, or a decimal without `u` above 2^63 - 1.
pub fn large_numbers_are_refused()
    ensures { RefusesLargeNumbers }
{}

/// A lexer steps in one way, so that it tells the same again where it ended or refused.
pub fn lexers_step_in_one_way()
    ensures { StepsInOneWay }
{}
