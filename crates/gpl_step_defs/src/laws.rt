//! Laws of the definitions. Each function does nothing, and its contract is the law.

ghost use Rattle.gpl_step_defs.specs.Laws.{RunsAreSteps, StepsKeepStates};

/// A run is its steps one after the other, up to its limit or to the first that stops.
pub fn runs_are_steps()
    ensures { RunsAreSteps }
{}

/// A program begins in a state, and a step leaves one.
pub fn steps_keep_states()
    ensures { StepsKeepStates }
{}
