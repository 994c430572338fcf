//! Left sides of clauses, pattern by pattern, exactly as the rules of left sides (`lhs_rules`) say.
//!
//! `walk` takes the patterns and projections of a clause in order, `visit` reads one pattern. `constructors`, with `opening`, `equations`
//! and `asking`, puts a constructor for a variable, and `splitting` and `branch` bring the left side into its branch; `settle` makes the
//! checked left side in the end.
#![tactic(auto)]

mod absurd;
mod asking;
mod branch;
mod clause;
mod constructors;
mod due;
mod elaborator;
mod equations;
mod error;
mod families;
mod forms;
mod left;
mod moving;
mod opening;
mod settle;
mod slots;
mod splitting;
mod spots;
mod term;
mod vars;
mod visit;
mod walk;

pub use clause::left_side;
pub use error::{LhsError, LhsKind};
