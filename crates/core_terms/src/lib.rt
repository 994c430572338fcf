//! What solved metavariables make of terms, and the signature of the declarations that terms speak of,
//! with their clauses and case trees.
//!
//! The terms themselves, by id, are those of `term_pool`, and all of it is passed on: a layer above
//! uses this crate alone, or `term_pool` alone where it needs no declarations.
#![tactic(auto)]

mod clause;
mod instance;
mod pattern;
mod signature;
mod solutions;
mod telescope;
mod tree;

pub use clause::{CheckedLeft, ConDecl, CoreClause, Dot, Solved};
pub use instance::{instantiate, same_term};
pub use pattern::{Braces, CorePat, Origin, PatShape};
pub use signature::{CoreDecl, DefEntry, DefState, FamEntry, SigMark, Signature};
pub use solutions::{NoSolutions, Solutions};
pub use telescope::{Entry, Telescope};
pub use term_pool::{
    Args, ConId, Count, DefId, FamId, FieldId, Limits, MOST_LEVELS, MOST_NODES, MetaId, NameId,
    Names, NoMemory, Node, Parts, PoolMark, Row, TermId, TermPool, count_nodes, fill, shift, subst,
    under,
};
pub use tree::{Branch, CoBranch, ConBranch, Step, Tree, Way};
