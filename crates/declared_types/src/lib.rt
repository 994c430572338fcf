//! The types of declared names: of families, of constructors at the parameters of their family, and of fields of a term of their
//! record; and the arguments at which a head form shows a family.
//!
//! What has a type in a signature by the rules (`core_rules`) is made here in a pool. Nothing is checked: that parameters fit their
//! telescope is the caller's to know.
#![tactic(auto)]

mod arguments;
mod constructors;
mod families;
mod records;

pub use arguments::{arguments_for, params_for, same_flag};
pub use constructors::{con_end, con_type, type_of_con};
pub use families::{fam_type, pi_over};
pub use records::{type_of_field, with_fields};
