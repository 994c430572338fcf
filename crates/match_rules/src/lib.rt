//! When a case tree follows its clauses, and that each clause then holds wherever it is the first that matches.
//! The definitions and the statements stand in `specs/`; nothing here runs.
#![tactic(auto)]

pub mod laws;
