//! Derivations written out by hand: the rules hold of real declarations and terms. Each is the contract of a function that does nothing.
//! The signatures, the terms and the statements stand in `specs/Examples.antt`.

ghost use Rattle.core_rules.specs.Examples.{PostulatesDerivable, FamiliesDerivable, PairOfProjections, NoEtaWithoutFields, DoubledSize, ProjectionOfPair, PairTyped, ProjectionsTyped};

/// The signature of `Nat : Set`, `z : Nat`, `P : Nat → Set` and `y : P z` is derivable.
pub fn postulates_derivable()
    ensures { PostulatesDerivable }
{}

/// The signature of the data type `Nat`, the data type `Vec` with an index, and the record `Pair` with eta is derivable.
pub fn families_derivable()
    ensures { FamiliesDerivable }
{}

/// `pair (fst p) (snd p)` converts to `p`.
pub fn pair_of_projections()
    ensures { PairOfProjections }
{}

/// `snd (pair x y)` converts to `y`.
pub fn projection_of_pair()
    ensures { ProjectionOfPair }
{}

/// `pair x y` has type `Pair A B` where `x` has type `A`, `y` has type `B`, and these are types.
pub fn pair_typed()
    ensures { PairTyped }
{}

/// `fst p` has type `A` and `snd p` has type `B` where `p` has type `Pair A B`.
pub fn projections_typed()
    ensures { ProjectionsTyped }
{}

/// The eta rule for records has no instance at a record without fields.
pub fn no_eta_without_fields()
    ensures { NoEtaWithoutFields }
{}

/// A variable applied to itself, this to itself, and so on sixty times has 2^61 - 1 nodes.
pub fn doubled_size()
    ensures { DoubledSize }
{}
