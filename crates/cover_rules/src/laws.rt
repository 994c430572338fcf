//! What is known of case trees. Each law is the contract of a function that does nothing.
//! The statements stand in `specs/Laws.antt`, under the same names.

ghost use Rattle.cover_rules.specs.Laws.{OneCover, AcceptedCovers, MissingClashes, CoverFalls, ExactlyOneCover, ClausesPlain};
ghost use Rattle.cover_rules.specs.Example.{FirstCovered, SuccessorMissed};

/// A left side has at most one answer, whichever metavariables are solved.
pub fn one_cover()
    ensures { OneCover }
{}

/// A tree that is accepted follows its clauses.
pub fn accepted_covers()
    ensures { AcceptedCovers }
{}

/// Missing carries a left side that is reached, where every clause clashes.
pub fn missing_clashes()
    ensures { MissingClashes }
{}

/// From each left side to those below it the rank falls.
pub fn cover_falls()
    ensures { CoverFalls }
{}

/// Each left side has exactly one answer: a tree, or the first reason why there is none.
pub fn exactly_one_cover()
    ensures { ExactlyOneCover }
{}

/// One clause for zero misses the successor.
pub fn successor_missed()
    ensures { SuccessorMissed }
{}

/// The first item of a vector that has one: its one clause has the tree that refutes nil.
pub fn first_covered()
    ensures { FirstCovered }
{}

/// The patterns of a clause name constructors by their kind.
pub fn clauses_plain()
    ensures { ClausesPlain }
{}
