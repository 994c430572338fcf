//! The bytes of reports and errors: what the load of a text says, as plain data, and the lines that say it.
#![tactic(auto)]

mod bytes;
mod error;
mod report;

pub use bytes::{error_bytes, report_bytes};
pub use error::{KernelKind, LoadError, LoadKind};
pub use report::{Goal, Report, Typed};
