//! Laws of the definitions that the contracts of this crate cite.

ghost use Rattle.source_defs.specs.Least.{LeastPlacesAreLeast};
ghost use Rattle.source_defs.specs.LineLaw.{LinesAreLines};
ghost use Rattle.source_defs.specs.FieldLaw.{FieldsAreApart};

/// A place that is defined as the least with a property is the least with it.
pub fn least_places()
    ensures { LeastPlacesAreLeast }
{}

/// The lines of a text, each with its ending, are the text, and no line holds an ending.
pub fn lines_of_a_text()
    ensures { LinesAreLines }
{}

/// The fields of a line are apart in it: the label is the name from column 1 up to the first blank, in upper case;
/// blanks alone are between it, the operation and the operand field, and none in them but in quotes. A comment has
/// no fields.
pub fn fields_of_a_line()
    ensures { FieldsAreApart }
{}
