use core_terms::{Branch, ConId, TermId};

/// What unification answers.
#[derive(Debug, Drop)]
pub enum Unified {
    /// The variables that are left and the values of all.
    Solved(Branch),
    /// The equations have no solution.
    Refuted(Reason),
    /// No rule applies to these two head forms.
    Stuck { left: TermId, right: TermId },
    OutOfFuel,
    OutOfDepth,
    NoMemory,
}

/// Why equations have no solution.
#[derive(Clone, Copy, Debug, PartialEq, Eq)]
pub enum Reason {
    /// Two constructors are different.
    Conflict { left: ConId, right: ConId },
    /// The variable is to be a term in which it stands strictly under constructors.
    Cycle { var: u32 },
}
