//! The grammar of the language: which lists of signs are an expression or a file, of which tree each of them is the signs, how
//! deep a sign is nested, and where and why any other list is refused. A derivation is a value, and reading runs nothing here: the
//! crates that read are proved against these definitions, and the laws say what they mean.
#![tactic(auto)]

mod bracket;
mod entry;
mod error;
pub mod laws;
mod sign;

pub use bracket::Bracket;
pub use entry::Entry;
pub use error::{ParseError, ParseKind};
pub use sign::{Kind, Mark, Sign};
