//! Bounded head forms: the head that a term comes to with the number of steps, or the metavariable that
//! it waits for, or that the fuel does not suffice.
#![tactic(auto)]

mod answer;
mod at_answer;
mod at_term;
mod at_tree;
mod bounded;
mod branches;
mod elim;
mod env;
mod lookup;
mod resolve;
mod settle;
mod spine;
mod state;

pub use answer::{Head, Reduced};
pub use bounded::{applied, head, reduce};
pub use elim::{Elim, Spine};
pub use state::Applied;
