//! The listing of a GPL source: what its rows and names are, and their text. The definitions are in `specs/`.
#![tactic(auto)]

ghost use Rattle.gpl_list_defs.specs.Laws.{ListingsGivePrograms};

/// The bytes of the rows at their addresses are the image of the source, and the names are its names; the line that is
/// refused of a source is reported.
#[tactic(auto, using(crate::proofs::RowLaws::listings_give_programs))]
pub fn listings_give_programs()
    ensures { ListingsGivePrograms }
{}
