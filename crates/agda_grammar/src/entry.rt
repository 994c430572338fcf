use source_tree::{Clause, Decl, Signature};

/// What an item of a file gives, before clauses are put to their signatures.
#[derive(Drop)]
pub enum Entry {
    /// `x y : A`.
    Signature(Signature),
    /// `f p q = e`.
    Clause(Clause),
    /// Any other declaration.
    Other(Decl),
}
