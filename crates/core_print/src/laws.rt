//! Worked rows of the definition, and laws. Each is the contract of a function that does nothing. The
//! terms and the statements stand in `specs/Examples.antt`.

ghost use Rattle.core_print.specs.Examples.{Applications, Arrows, ContextLines, Contexts, CutShort, Different, DifferentIsNotAmong, FreeNameStays, HigherSort, LeftOut, LeftSides, Metavariables, Projections};

/// Arrows that bind and do not, and their parentheses.
pub fn arrows()
    ensures { Arrows }
{}

/// The sort of level 1 is `Set1`.
pub fn higher_sort()
    ensures { HigherSort }
{}

/// Parentheses round arguments and heads.
pub fn applications()
    ensures { Applications }
{}

/// Implicit arguments and parameters are left out.
pub fn left_out()
    ensures { LeftOut }
{}

/// Projections, and what stands before them.
pub fn projections()
    ensures { Projections }
{}

/// Names of binders are made different from all others.
pub fn different()
    ensures { Different }
{}

/// Holes and other metavariables.
pub fn metavariables()
    ensures { Metavariables }
{}

/// The names of a context.
pub fn contexts()
    ensures { Contexts }
{}

/// A large term is cut short.
pub fn cut_short()
    ensures { CutShort }
{}

/// A name that is made different is none of those that are taken.
pub fn different_is_not_among()
    ensures { DifferentIsNotAmong }
{}

/// A name that is not taken stays as it is.
pub fn free_name_stays()
    ensures { FreeNameStays }
{}

/// Left sides.
pub fn left_sides()
    ensures { LeftSides }
{}

/// The lines of a context, and which entries are in scope.
pub fn context_lines()
    ensures { ContextLines }
{}
