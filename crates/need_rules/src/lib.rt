//! What a type needs of the next argument of a spine, and at the spine's end, by the type's bounded head form: a definition, and the law
//! that there is exactly one need. The definitions stand in `specs/`; nothing here runs.
#![tactic(auto)]

pub mod laws;
