//! Which case tree the clauses of a function have, or why they have none.
//! The definitions stand in `specs/`, and nothing here runs.
#![tactic(auto)]

pub mod laws;
