//! Laws of the kernel's reading of terms. Each is the contract of a function that does nothing.
//! The statements stand in `specs/Laws.antt`, under the same names.

ghost use Rattle.kernel_rules.specs.Laws.{OneOutcome, ExactlyOneOutcome, AcceptedIsTyped, CheckedIsTyped, TypeIsTyped};

/// A term has at most one outcome.
pub fn one_outcome()
    ensures { OneOutcome }
{}

/// A term in scope has exactly one outcome: where its type is inferred, where it is to be a type, and where it is checked at a type.
pub fn exactly_one_outcome()
    ensures { ExactlyOneOutcome }
{}

/// A term whose type is inferred over a sound signature has this type.
pub fn accepted_is_typed()
    ensures { AcceptedIsTyped }
{}

/// A term that is accepted at a wanted type over a sound signature has this type.
pub fn checked_is_typed()
    ensures { CheckedIsTyped }
{}

/// A term that is accepted as a type over a sound signature has the sort of the level that is given.
pub fn type_is_typed()
    ensures { TypeIsTyped }
{}
