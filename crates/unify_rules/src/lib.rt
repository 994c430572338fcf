//! What unification of indices answers: a relation by turns, its laws, and examples.
//!
//! There is no code here but that of the contracts: the definitions are in `specs/`.
#![tactic(auto)]

pub mod examples;
pub mod laws;
