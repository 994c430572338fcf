//! The kernel's reading of terms, families, case trees and declarations: which type it gives, or which refusal; and its laws.
//! The definitions stand in `specs/`; nothing here runs.
#![tactic(auto)]

pub mod decl_laws;
pub mod examples;
pub mod laws;
