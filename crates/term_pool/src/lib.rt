//! Terms by id that share their parts, what becomes of their variables, and the texts of their names.
//!
//! A [`TermPool`] keeps each node once and names it by a [`TermId`]; contracts see the tree that an
//! id stands for. Everything above works on ids, and reads in contracts as if it worked on trees.
#![tactic(auto)]

mod args;
mod change;
mod count;
mod ids;
mod limits;
mod measures;
mod names;
mod node;
mod pool;
mod shifting;
mod table;
mod traversal;

pub use count::{Count, count_nodes};
pub use el_base::{Many as Row, NoMemory};
pub use ids::{ConId, DefId, FamId, FieldId, MetaId, NameId, TermId};
pub use limits::Limits;
pub use measures::{MOST_LEVELS, MOST_NODES};
pub use names::Names;
pub use node::{Args, Node, Parts};
pub use pool::{PoolMark, TermPool};
pub use shifting::{fill, shift, subst, under};
pub use table::Table;
