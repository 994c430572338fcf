//! Unification of indices: which variables of a context have to be what for the two sides of equations
//! to be the same, that they never are, or the two head forms to which no rule applies.
//!
//! `unifying` takes the equations one after the other, the first one first; `ruling` finds the rule for
//! the first one, `rule` that for its head forms; `dependence` and `cycle` are walks through terms
//! (`walk`); `branch` makes the context of what is not solved.
#![tactic(auto)]

mod branch;
mod constructors;
mod cycle;
mod dependence;
mod equation;
mod order;
mod put;
mod queue;
mod rename;
mod rule;
mod ruling;
mod start;
mod state;
mod unified;
mod unifying;
mod walk;

pub use equation::Equation;
pub use unified::{Reason, Unified};
pub use unifying::unify;
