//! Left sides of clauses: what each pattern needs of the type that is reached, and what it makes of the left side; and their laws. The
//! definitions stand in `specs/`; nothing here runs.
#![tactic(auto)]

pub mod examples;
pub mod laws;
