use term_pool::{MetaId, NameId, Row, TermId};

/// The verdict on two terms.
#[derive(Debug, Drop)]
pub enum Conv {
    /// They are convertible.
    Yes,
    /// The first parts that are not convertible come to these two head forms, the left one's first.
    /// `under` has the names of the binders around them, outermost first.
    No {
        left: TermId,
        right: TermId,
        under: Row<NameId>,
    },
    /// A head form needs more steps than the fuel.
    OutOfFuel,
    /// There are parts more levels down than the depth.
    OutOfDepth,
    /// A head form waits for this unsolved metavariable.
    Blocked {
        meta: MetaId,
    },
    NoMemory,
}
