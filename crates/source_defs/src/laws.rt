//! A law of the definitions. The function does nothing, and its contract is the law.

ghost use Rattle.source_defs.specs.EndedLines.{TextsHaveTheirLines};

/// The text of lines that are each ended by a carriage return and a line feed has these lines.
pub fn texts_have_their_lines()
    ensures { TextsHaveTheirLines }
{}
