//! Elaboration: expressions whose names are resolved become core terms.
//!
//! `written` checks expressions that leave nothing out, exactly as `written_rules` says: `exprs` goes through an expression,
//! `binders` into lambdas and function types, `spine` along the arguments of a name, and `record` through the values of a record.
#![tactic(auto)]

mod binders;
mod error;
mod exprs;
mod groups;
mod labels;
mod names;
mod record;
mod spine;
mod values;
mod writer;
mod written;

pub use error::{ElabError, ElabKind, WrittenError};
pub use written::{check_written, type_written};
