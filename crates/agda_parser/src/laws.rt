//! What the definitions say of each other.

pub use agda_grammar::laws::{
    nesting_of_derivations, nesting_of_files, one_answer, refused_is_underivable,
};
