//! What every layer shares: the error of a call that runs out of memory, a list that a type can
//! hold, the level of a universe, and lemmas on lists (in proofs/).
#![tactic(auto)]

mod level;
mod many;
mod no_memory;

pub use level::{LEVEL_LIMIT, Level};
pub use many::Many;
pub use no_memory::NoMemory;
