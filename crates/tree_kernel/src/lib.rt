//! The kernel of case trees and declarations: reads them against the declarative rules, and adds what it accepts to the signature.
//!
//! What it answers is defined in `specs/Reading.antt`, over `kernel_rules`; that what it accepts is derivable are laws of this definition
//! (module `laws`). `tree` takes what waits to be read one after the other; `node` reads a node of a tree, `rest` the fields of a cosplit
//! and the constructors of a split, `branch` what unification says of a constructor; `opening` makes the context of a constructor.
#![tactic(auto)]

mod branch;
mod decl;
mod environment;
mod error;
mod job;
pub mod laws;
mod node;
mod opening;
mod reader;
mod rest;
mod same;
mod tree;

pub use decl::check_decl;
pub use error::DeclError;
pub use tree::check_tree;
