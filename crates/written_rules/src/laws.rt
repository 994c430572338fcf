//! Laws of the written rules. Each is the contract of a function that does nothing.
//! The statements stand in `specs/Laws.antt`, under the same names.

ghost use Rattle.written_rules.specs.Laws.{ExactlyOneWritten, AcceptedInScope, AcceptedTypeInScope};

/// An expression has exactly one answer: where it is checked at a type, where it is to be a type, and in a dotted pattern.
pub fn exactly_one_written()
    ensures { ExactlyOneWritten }
{}

/// The core term of an expression that is accepted at a type is in scope.
pub fn accepted_in_scope()
    ensures { AcceptedInScope }
{}

/// The core term of an expression that is accepted as a type is in scope.
pub fn accepted_type_in_scope()
    ensures { AcceptedTypeInScope }
{}
