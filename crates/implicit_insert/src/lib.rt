//! What the next argument of a spine is, by the head form of its type: an argument that is given, one that is inserted, a projection,
//! or a refusal.
#![tactic(auto)]

mod need;
mod table;

pub use need::{Need, Next};
pub use table::next_argument;
