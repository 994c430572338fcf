//! Bounded conversion: whether two terms are convertible, by their head forms and the parts of these,
//! with a fuel for each head form and to a depth.
//!
//! Two head forms ask for parts to be compared (`outcome`, `parts`); `comparing` goes through a list of
//! the pairs that wait, and keeps the pairs that it has opened.
#![tactic(auto)]

mod arguments;
mod comparing;
mod conv;
mod form;
mod heads;
mod kept;
mod outcome;
mod parts;
mod pending;
mod spine;

pub use comparing::convert;
pub use conv::Conv;
