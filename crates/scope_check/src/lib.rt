//! Names: which variable or global each name of a declaration stands for, and the refusals of names.
//! A [`Scope`] holds what is in scope after the declarations so far, and [`resolve`] reads one more.
#![tactic(auto)]

mod decls;
mod depth;
mod error;
mod exprs;
mod families;
mod functions;
mod head;
mod holes;
pub mod laws;
mod mentions;
mod names;
mod opens;
mod parts;
mod patterns;
mod postulates;
mod records;

pub use decls::resolve;
pub use error::{ScopeError, ScopeKind};
pub use resolved_tree::{
    Resolved, ResolvedArg, ResolvedBinder, ResolvedClause, ResolvedExpr, ResolvedItem,
    ResolvedName, ResolvedPattern, ResolvedSignature, ResolvedValue,
};
pub use scope_table::{Scope, ScopeMark};
