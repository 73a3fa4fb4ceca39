// The TVR and the choice: what the restrictions and the floor limit find, in five bytes, and the cryptogram that is
// requested. `action` reads a session's store; the other files work on plain bytes and numbers, with an `Option` where
// a value may be missing.
#![tactic(auto, using(crate::proofs::Tests::choices))]

pub mod action;
pub mod byte;
pub mod choice;
pub mod cvm;
pub mod digits;
pub mod restrictions;
pub mod tvr;
