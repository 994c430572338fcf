//! What is in scope: the texts that have numbers, the globals with their ids, the fields of records, and the variables around an
//! expression. Names are looked up here and put in; which names a declaration uses is not known here.
#![tactic(auto)]

mod global;
mod locals;
mod scope;
mod texts;

pub use global::GlobalId;
pub use locals::Locals;
pub use scope::{Fields, Scope, ScopeMark};
pub use texts::Texts;
