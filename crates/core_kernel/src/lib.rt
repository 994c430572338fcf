//! The kernel: reads core terms and families against the declarative rules, by bounded head forms and bounded conversion.
//!
//! What it answers is defined in `kernel_rules`, and so is that what it accepts is derivable. `terms` walks terms, `spine` the
//! arguments of a function, `family` the constructors of a family.
#![tactic(auto)]

mod checker;
mod constructors;
mod error;
mod family;
mod kernel;
mod records;
mod spine;
mod telescope;
mod terms;

pub use error::{FamilyError, KernelError};
pub use family::check_family;
pub use kernel::{check, infer, is_type};
