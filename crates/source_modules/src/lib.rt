//! That the module of a source is one that object text holds, and so reads back as that module. The laws are in
//! `proofs/`.
#![tactic(auto)]
