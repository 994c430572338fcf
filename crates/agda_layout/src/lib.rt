//! Finds the blocks of a file from the columns of its tokens, and puts brackets around them, so that the grammar
//! needs no columns.
#![tactic(auto)]

mod header;
mod laid;
pub mod laws;
mod layout;
mod state;

pub use laid::{Laid, LayoutError};
pub use layout::lay_out;
