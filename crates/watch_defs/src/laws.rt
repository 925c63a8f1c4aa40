//! Laws of the definitions. Each function does nothing, and its contract is the law.

ghost use Rattle.watch_defs.specs.Laws.{HitsAreFirst};
ghost use Rattle.watch_defs.specs.RangeLaw.{RangesHoldByTheirBytes};

/// What is found is the first hit: no item holds at a step before it, and none that is before it in the list holds
/// at its step. Where nothing is found no item holds at any step of the run.
#[tactic(auto, using(crate::proofs::FirstHits::hits_are_first))]
pub fn hits_are_first()
    ensures { HitsAreFirst }
{}

/// A range holds at a step exactly where one of its bytes differs before and after it. Its change is the lowest
/// address of such a byte, with the byte that is there after the step.
#[tactic(auto, using(crate::proofs::Changes::ranges_hold_by_their_bytes))]
pub fn ranges_hold_by_their_bytes()
    ensures { RangesHoldByTheirBytes }
{}
