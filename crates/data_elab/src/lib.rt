//! Data and record declarations: their parameters, the type after the colon, and their constructors or fields become a core declaration.
//!
//! What is answered is defined in `data_rules`. `heading` reads what stands before `where`, `constructors` and `fields` what follows.
#![tactic(auto)]

mod constructors;
mod error;
mod eta;
mod family;
mod fields;
mod heading;
mod params;
mod queue;
mod reader;
mod record;
mod shapes;
mod sources;

pub use error::{DataError, DataKind};
pub use family::elab_written;
