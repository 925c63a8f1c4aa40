//! The law that the table carries. The function does nothing, and its contract is the law.

ghost use Rattle.interp_build_defs.specs.Interpreter.{SourceGivesWords};

/// The interpreter's source is assembled and linked to the words that are shipped, from `>2000` up, and to no others.
#[tactic(auto, using(crate::proofs::Joined::source_gives_words))]
pub fn source_gives_words()
    ensures { SourceGivesWords }
{}
