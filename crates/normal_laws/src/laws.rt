//! Laws on definitions alone. Each function does nothing: it carries its law.

ghost use Rattle.normal_laws.specs.Kept.{NormalFitsWoven, NormalIsWritten};
ghost use Rattle.normal_laws.specs.Same.{NormalRespectsSame};

/// Programs that are the same but for places and numbers of nodes have normal forms that are.
pub fn normal_respects_same()
    ensures { NormalRespectsSame }
{}

/// The normal form of a written program is written, and within the limits of woven programs where the program is within
/// those of sources.
pub fn normal_keeps_text()
    ensures written { NormalIsWritten }
    ensures fits { NormalFitsWoven }
{}
