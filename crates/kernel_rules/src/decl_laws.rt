//! Laws of the kernel's reading of families, case trees and declarations. Each is the contract of a function that does nothing.
//! The statements stand in `specs/DeclLaws.antt`, under the same names.

ghost use Rattle.kernel_rules.specs.DeclLaws.{AcceptedFamilyIsGood, OneFamilyOutcome, ExactlyOneFamilyOutcome, AcceptedTreeIsTyped, OneTreeOutcome, AcceptedIsGood, AcceptedIsDerivable, OneDeclOutcome, ExactlyOneDeclOutcome, AllAcceptedIsDerivable};

/// A family that is accepted over a derivable signature is good.
pub fn accepted_family_is_good()
    ensures { AcceptedFamilyIsGood }
{}

/// A family has at most one outcome.
pub fn one_family_outcome()
    ensures { OneFamilyOutcome }
{}

/// A family in scope has exactly one outcome.
pub fn exactly_one_family_outcome()
    ensures { ExactlyOneFamilyOutcome }
{}

/// A case tree that is accepted over a sound signature is typed.
pub fn accepted_tree_is_typed()
    ensures { AcceptedTreeIsTyped }
{}

/// A case tree has at most one outcome.
pub fn one_tree_outcome()
    ensures { OneTreeOutcome }
{}

/// A declaration that is accepted over a derivable signature is good.
pub fn accepted_is_good()
    ensures { AcceptedIsGood }
{}

/// A derivable signature with a declaration that is accepted over it is derivable.
pub fn accepted_is_derivable()
    ensures { AcceptedIsDerivable }
{}

/// A declaration has at most one outcome.
pub fn one_decl_outcome()
    ensures { OneDeclOutcome }
{}

/// A declaration in scope has exactly one outcome.
pub fn exactly_one_decl_outcome()
    ensures { ExactlyOneDeclOutcome }
{}

/// A signature each of whose declarations is accepted over those before it is derivable.
pub fn all_accepted_is_derivable()
    ensures { AllAcceptedIsDerivable }
{}
