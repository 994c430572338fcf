//! The load of a text: its stages in order, the walk over its declarations, and its first error. A type and a family are each elaborated
//! by the written rules, measured, and checked by the kernel.
#![tactic(auto)]

mod errors;
mod families;
mod judge;
pub mod laws;
mod lines;
mod loaded_file;
mod measure;
mod stages;
mod state;
mod stop;
mod unbuilt;

pub use loaded_file::{Loaded, LoadedFile};
pub use stages::load;
