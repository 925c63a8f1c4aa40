//! Laws of the interpreter's words. Each function does nothing, and its contract is the law.
ghost use Rattle.native_interp.specs.Entries as spec;
ghost use Rattle.native_interp.specs.Source.{LinesAreInForm};

/// The first four words are the addresses of the entry points.
pub fn entries_come_first()
    ensures { spec.EntriesComeFirst }
{}

/// Each part of the interpreter is at the address that is its constant.
pub fn routines_are_in_place()
    ensures { spec.RoutinesAreInPlace }
{}

/// The first table leads from each code byte to the instruction of its operation, and from the others to the stop.
pub fn codes_are_dispatched()
    ensures { spec.CodesAreDispatched }
{}

/// The second table leads from each code byte to the row of its operation.
pub fn rows_are_dispatched()
    ensures { spec.RowsAreDispatched }
{}

/// The lines of the source are short texts in the form of a source that sets no place but its origin, and whose EQU
/// lines give numbers alone.
pub fn lines_are_in_form()
    ensures { LinesAreInForm }
{}
