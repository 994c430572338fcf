//! Laws of left sides. Each is the contract of a function that does nothing.
//! The statements stand in `specs/Laws.antt`, under the same names.

ghost use Rattle.lhs_rules.specs.Laws.{ExactlyOneLeft, AcceptedKeepsNothing, AcceptedClausesReady, AcceptedLeftInScope, LeftIsReached, LeftIsTyped};

use cover_rules::laws::clauses_plain;

/// A clause has exactly one answer: its checked left side, or its first refusal.
pub fn exactly_one_left()
    ensures { ExactlyOneLeft }
{}

/// A clause with a pattern `()` that is accepted has one as matching sees it.
pub fn accepted_keeps_nothing()
    ensures { AcceptedKeepsNothing }
{}

/// Clauses that are accepted, each of which has a right side or a pattern `()`, are as covering asks.
pub fn accepted_clauses_ready()
    ensures { AcceptedClausesReady }
{
    clauses_plain();
}

/// The left side of a clause that is accepted is in scope, where the signature, the function's type and the solutions of metavariables are.
pub fn accepted_left_in_scope()
    ensures { AcceptedLeftInScope }
{}

/// The left side of a clause is reached from the function by the steps of typed trees, over a sound signature.
pub fn left_is_reached()
    ensures { LeftIsReached }
{}

/// It has its type, where the constructors that are put in it fit.
pub fn left_is_typed()
    ensures { LeftIsTyped }
{}
