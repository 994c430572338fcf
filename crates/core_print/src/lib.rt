//! Terms, contexts and left sides in print.
//!
//! A printed name differs from every other that it could be taken for; what a reader of the source did not write, implicit arguments
//! and parameters, is left out; nothing is unfolded. A term is printed as the tree that it is, whatever of it is shared, and
//! one of more than 10,000 nodes is `...`.
#![tactic(auto)]

mod context;
mod context_text;
mod globals;
mod label;
pub mod laws;
mod left_side;
mod page;
mod parts;
mod pattern_names;
mod scope;
mod term;
mod variables;
mod view;
mod walk;

pub use context_text::print_context;
pub use left_side::print_left_side;
pub use term::print_term;
