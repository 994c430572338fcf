//! Case trees written out by hand: typed, derivable, and what calls unfold to. Each is the contract of a function that does nothing.
//! The signatures, the trees and the statements stand in `specs/TreeExamples.antt`, `specs/Addition.antt` and `specs/VectorHead.antt`.

ghost use Rattle.core_rules.specs.VectorHead.{FirstTyped};
ghost use Rattle.core_rules.specs.TreeExamples.{AdditionDerivable, PlusUnfolds, FirstDerivable, FirstUnfolds, AppendDerivable, AppendUnfolds, AgainTyped, AgainUnfolds, SwapsDerivable, SwapUnfolds, TurnUnfolds, SolvingAsksForTypes, EtaIsNeeded, KeepingApartIsNeeded};

/// The natural numbers with addition by its case tree are derivable.
pub fn addition_derivable()
    ensures { AdditionDerivable }
{}

/// `plus zero u` converts to `u`, and `plus (suc t) u` to `suc (plus t u)`.
pub fn plus_unfolds()
    ensures { PlusUnfolds }
{}

/// The tree that gives the first item of a vector which has one is typed: one constructor's index equation is solved, the
/// other's refuted.
pub fn first_typed()
    ensures { FirstTyped }
{}

/// So the signature of numbers, vectors and this function is derivable.
pub fn first_derivable()
    ensures { FirstDerivable }
{}

/// The first item of `cons x xs` converts to `x`.
pub fn first_unfolds()
    ensures { FirstUnfolds }
{}

/// The signature of `Nat`, `Vec`, `plus` and `append : {A : Set} {m n : Nat} → Vec A m → Vec A n → Vec A (plus m n)` is
/// derivable. In each branch of the split the index equation solves `m`.
pub fn append_derivable()
    ensures { AppendDerivable }
{}

/// `append nil ys` converts to `ys`, and `append (cons x xs) ys` to `cons x (append xs ys)`.
pub fn append_unfolds()
    ensures { AppendUnfolds }
{}

/// A split in the middle of a context is typed. Its constructor has two arguments, of which the branch keeps one, since the
/// index equation solves the other.
pub fn again_typed()
    ensures { AgainTyped }
{}

/// It unfolds at both constructors, with the value of the index in the place of the argument that was solved.
pub fn again_unfolds()
    ensures { AgainUnfolds }
{}

/// The signature of pairs and of their exchange, once by a record split and once by a cosplit, is derivable.
pub fn swaps_derivable()
    ensures { SwapsDerivable }
{}

/// The record split takes the arguments of a constructor, and the projections of a variable.
pub fn swap_unfolds()
    ensures { SwapUnfolds }
{}

/// The cosplit unfolds under each projection.
pub fn turn_unfolds()
    ensures { TurnUnfolds }
{}

/// A variable is not solved by one whose type depends on it, also through another type, nor by a term in which it stands.
pub fn solving_asks_for_types()
    ensures { SolvingAsksForTypes }
{}

/// Where a record split is of a record without eta, a call can come to a head form although its tree gives nothing.
pub fn eta_is_needed()
    ensures { EtaIsNeeded }
{}

/// Where a branch keeps a variable twice, a call can come to a head form although its tree gives nothing at any argument.
pub fn keeping_apart_is_needed()
    ensures { KeepingApartIsNeeded }
{}
