//! Outcomes counted by hand: the kernel accepts and refuses real declarations. Each is the contract of a function that does nothing.
//! The declarations and the statements stand in `specs/Examples.antt`.

ghost use Rattle.kernel_rules.specs.Examples.{PlainUnifies, NatAccepted, AdditionAccepted, BoxTooBig, AbsurdRefused};

/// The unifier that unifies only where there are no equations is a unifier.
pub fn plain_unifies()
    ensures { PlainUnifies }
{}

/// The natural numbers are accepted.
pub fn nat_accepted()
    ensures { NatAccepted }
{}

/// Addition by its case tree is accepted.
pub fn addition_accepted()
    ensures { AdditionAccepted }
{}

/// A data type in `Set` of which a constructor holds a set is refused as too big.
pub fn box_too_big()
    ensures { BoxTooBig }
{}

/// A tree that takes the natural numbers to be empty is refused.
pub fn absurd_refused()
    ensures { AbsurdRefused }
{}
