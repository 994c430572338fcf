//! Laws of data and record declarations. Each is the contract of a function that does nothing.
//! The statements stand in `specs/Laws.antt`, under the same names.

ghost use Rattle.data_rules.specs.Laws.{ExactlyOneFamily, AcceptedFamilyInScope};

/// A data or record declaration has exactly one answer: its family, or its first refusal.
pub fn exactly_one_family()
    ensures { ExactlyOneFamily }
{}

/// The family of a declaration that is accepted is in scope, and has the shape of a data type or of a record, where the signature is in scope.
pub fn accepted_family_in_scope()
    ensures { AcceptedFamilyInScope }
{}
