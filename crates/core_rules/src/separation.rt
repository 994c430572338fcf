//! What is not convertible: so the rules do not make all terms equal. Each law is the contract of a function that does nothing.
//! The statements stand in `specs/Separation.antt`, under the same names.

ghost use Rattle.core_rules.specs.Separation.{SortsApart, ConstructorsApart, SetIsNotItsType, ZeroIsNoSuccessor};

/// In a signature without records and without functions that have a tree, sorts of different levels are not convertible.
pub fn sorts_apart()
    ensures { SortsApart }
{}

/// Nor are different constructors, at any arguments.
pub fn constructors_apart()
    ensures { ConstructorsApart }
{}

/// `Set` and `Set 1` are not convertible over the empty signature.
pub fn set_is_not_its_type()
    ensures { SetIsNotItsType }
{}

/// `zero` and `suc t` are not convertible over the natural numbers.
pub fn zero_is_no_successor()
    ensures { ZeroIsNoSuccessor }
{}
