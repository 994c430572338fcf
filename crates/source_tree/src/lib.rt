//! The syntax trees of a file, as the parser makes them and name resolution reads them: one variant for each alternative of
//! the grammar, each with the part of the text that it stands in and its place.
#![tactic(auto)]

mod decl;
mod equality;
mod expr;
mod nodes;
mod pattern;
mod place;

pub use decl::{Clause, Decl, File, RecordItem, Signature};
pub use equality::same;
pub use expr::{Arg, Binder, Expr, FieldValue};
pub use nodes::size;
pub use pattern::Pattern;
pub use place::{Name, Place};
