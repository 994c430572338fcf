//! The written rules: how a resolved expression is checked at a type, or is a type, where nothing is left out that would have to be
//! found; and their laws. The definitions stand in `specs/`; nothing here runs.
#![tactic(auto)]

pub mod examples;
pub mod laws;
