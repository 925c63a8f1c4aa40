//! That the text of a module reads as that module. The laws are in `proofs/`, and no rule of the format is here.
#![tactic(auto)]
