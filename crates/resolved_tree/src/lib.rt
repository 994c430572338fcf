//! Declarations whose names are resolved: the trees that name resolution makes, and that elaboration reads.
#![tactic(auto)]

mod copying;
mod resolved;

pub use resolved::{
    Resolved, ResolvedArg, ResolvedBinder, ResolvedClause, ResolvedExpr, ResolvedItem,
    ResolvedName, ResolvedPattern, ResolvedSignature, ResolvedValue,
};
