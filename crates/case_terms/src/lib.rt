//! Terms in words and signatures, for the programs of cases that show what the functions on terms answer. No text is read for them: a
//! row of a list has its words between bars (`cases`), a term is built from its words (`words`), a telescope or a family from those of
//! its parts (`telescopes`, `families`), a function from its clauses and the steps of its case tree (`functions`, `case_trees`), one
//! signature by hand (`declared`), and two metavariables are solved (`metas`). What a call asks of its terms is tested (`scope`), and the
//! terms that it answers are printed in words again (`printed`).
#![tactic(auto)]

mod case_trees;
mod cases;
mod declared;
mod families;
mod fault;
mod functions;
mod ids;
mod known_trees;
mod lefts;
mod metas;
mod printed;
mod scope;
mod telescopes;
mod terms;
mod trees;
mod words;

pub use case_trees::case_tree;
pub use cases::{Case, read_case, read_metas};
pub use declared::{Bodies, signature, signature_of};
pub use families::{declaration, declarations, family};
pub use fault::Fault;
pub use functions::function;
pub use lefts::is_left_in;
pub use metas::{Metas, Solved, is_chain};
pub use printed::words_of;
pub use scope::{
    are_entries, is_decl_in_scope, is_declared_in, is_family_in_scope, is_in_scope,
    is_tree_in_scope,
};
pub use telescopes::{further, read_times, telescope};
pub use terms::{are_in, is_in};
pub use words::{read_number, term};
