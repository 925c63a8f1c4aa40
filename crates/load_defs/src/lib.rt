//! What a machine is that linked memory is loaded into. The definitions are in `specs/`.
#![tactic(auto)]
