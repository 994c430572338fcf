use crate::state::Applied;
use core_terms::{MetaId, TermId};

/// The bounded head form of a term, with the number of steps to it.
#[derive(Clone, Copy, Debug, PartialEq, Eq)]
pub enum Head {
    /// The head form.
    Form {
        term: TermId,
        used: u32,
    },
    /// The term comes to this one, which waits for the unsolved metavariable: it is its head, or the
    /// head of the value that a split waits for.
    Blocked {
        meta: MetaId,
        term: TermId,
        used: u32,
    },
    /// More steps than the fuel are needed.
    OutOfFuel,
    NoMemory,
}

/// The same with its head and eliminations apart.
#[derive(Drop)]
pub enum Reduced {
    /// A head form, or a term that waits for a metavariable.
    Found {
        meta: Option<MetaId>,
        term: Applied,
        used: u32,
    },
    OutOfFuel,
}
