//! Data and record declarations by the written rules: what a declaration is elaborated to, or which refusal comes first, and where; and
//! their laws. The definitions stand in `specs/`; nothing here runs.
#![tactic(auto)]

pub mod examples;
pub mod laws;
