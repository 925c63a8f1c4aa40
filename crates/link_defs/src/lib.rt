//! Linked memory: where the words of modules stand, what the names of one mean in another, and where the program is
//! entered. The definitions are in `specs/`.
#![tactic(auto)]
