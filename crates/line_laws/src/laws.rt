//! Laws of the definitions. Each function does nothing, and its contract is the law.

ghost use Rattle.line_laws.specs.Laws.{KnownLinesHaveTheirWords, KnownLinesAreAssembled};
ghost use Rattle.line_laws.specs.Texts.{FedTextsHaveTheirLines};

/// The module of plain lines that are known by themselves has their words, one after the other, and nothing else.
#[tactic(auto, using(crate::proofs::Whole::have_their_words))]
pub fn known_lines_have_their_words()
    ensures { KnownLinesHaveTheirWords }
{}

/// Each of such lines has its known place and its known outcome.
#[tactic(auto, using(crate::proofs::Locations::known_lines_are_assembled))]
pub fn known_lines_are_assembled()
    ensures { KnownLinesAreAssembled }
{}

/// The lines of a text whose lines are each ended by a line feed are these lines.
#[tactic(auto, using(crate::proofs::FedTexts::fed_texts_have_their_lines))]
pub fn fed_texts_have_their_lines()
    ensures { FedTextsHaveTheirLines }
{}
