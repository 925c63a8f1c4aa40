//! The listing of GROM as a GPL source: definitions alone.
#![tactic(auto)]
