//! The law of needs. It is the contract of a function that does nothing; the statement stands in `specs/Needs.antt`.

ghost use Rattle.need_rules.specs.Needs.{ExactlyOneNeed};

/// A spine has exactly one need, or the fuel does not suffice for the head form of its type; whichever metavariables are solved and
/// whatever its arguments hold.
pub fn exactly_one_need<E>()
    ensures { ExactlyOneNeed E }
{}
