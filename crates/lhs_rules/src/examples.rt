//! Left sides read by hand: each form of pattern is accepted where the type takes it, and refused at its place where it does not.
//! Each is the contract of a function that does nothing. The statements stand in `specs/Examples.antt`.

ghost use Rattle.lhs_rules.specs.Examples.{VariablesTaken, OnePatternTooMany, NumberNotAbsurd, BracesRefused, NoConstructorOfSet, ImplicitPatterns, FirstField, ConsImpossible, ConsMisaligned, ConsSolved, SolvedForced, TooManyInserted};

/// A variable names its entry, and an underscore has the name of its binder.
pub fn variables_taken()
    ensures { VariablesTaken }
{}

/// A pattern too many is refused at its place.
pub fn one_pattern_too_many()
    ensures { OnePatternTooMany }
{}

/// `()` is refused where a constructor is left.
pub fn number_not_absurd()
    ensures { NumberNotAbsurd }
{}

/// Braces are refused where no implicit argument is left.
pub fn braces_refused()
    ensures { BracesRefused }
{}

/// A constructor of another family and a projection of no record are refused at their places.
pub fn no_constructor_of_set()
    ensures { NoConstructorOfSet }
{}

/// A pattern for an implicit argument is inserted, or written in braces, here as a dotted pattern under the binder's name.
pub fn implicit_patterns()
    ensures { ImplicitPatterns }
{}

/// A projection of the record that the type is.
pub fn first_field()
    ensures { FirstField }
{}

/// A constructor whose index is another one is refused at its place.
pub fn cons_impossible()
    ensures { ConsImpossible }
{}

/// A constructor with a pattern too few is refused at its place, and braces that no argument takes at the braces.
pub fn cons_misaligned()
    ensures { ConsMisaligned }
{}

/// An index that the type forces solves a variable, whose pattern is a name for its value.
pub fn cons_solved()
    ensures { ConsSolved }
{}

/// A constructor for such a variable is refused at its place.
pub fn solved_forced()
    ensures { SolvedForced }
{}

/// After 2,000 inserted patterns one more is refused, at the pattern before which it would stand.
pub fn too_many_inserted()
    ensures { TooManyInserted }
{}
