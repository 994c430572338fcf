//! First match. Each law is the contract of a function that does nothing.
//! The statements stand in `specs/Laws.antt`, under the same names.

ghost use Rattle.match_rules.specs.Laws.{CoveredClausesHold, DerivableClausesHold, AdditionClausesHold, PlusOfSuccessor, VectorClausesHold, ForcedIndexFits, FirstOfCons, OtherFlagUnfit, OtherFieldUnfit, PairClausesHold, SwapOfAny, OneMatch, NoMatchAndClash, OneFirstMatch};

/// In a signature in scope whose trees are typed, each clause of a function whose tree follows its clauses holds.
pub fn covered_clauses_hold()
    ensures { CoveredClausesHold }
{}

/// In a derivable signature each clause of a function whose tree follows its clauses holds.
pub fn derivable_clauses_hold()
    ensures { DerivableClausesHold }
{}

/// Addition by its clauses is derivable, they are in scope, its tree follows them, and each of them holds.
pub fn addition_clauses_hold()
    ensures { AdditionClausesHold }
{}

/// The second clause of addition, at a call that fits.
pub fn plus_of_successor()
    ensures { PlusOfSuccessor }
{}

/// The first item of a vector by its clause is derivable, the clause is in scope, its tree follows it, and it holds.
pub fn vector_clauses_hold()
    ensures { VectorClausesHold }
{}

/// Its call at cons fits exactly where the implicit argument of cons is the number, names apart.
pub fn forced_index_fits()
    ensures { ForcedIndexFits }
{}

/// The clause at such a call.
pub fn first_of_cons()
    ensures { FirstOfCons }
{}

/// A call of addition whose constructor has its argument in braces does not fit.
pub fn other_flag_unfit()
    ensures { OtherFlagUnfit }
{}

/// A projection that a cosplit has no branch for does not fit.
pub fn other_field_unfit()
    ensures { OtherFieldUnfit }
{}

/// Pairs turned by a clause on a record that has eta: derivable, the clause is in scope, the tree follows it, and it holds.
pub fn pair_clauses_hold()
    ensures { PairClausesHold }
{}

/// The clause at any pair.
pub fn swap_of_any()
    ensures { SwapOfAny }
{}

/// Patterns match eliminations in one way.
pub fn one_match()
    ensures { OneMatch }
{}

/// Patterns do not both match eliminations and clash with them.
pub fn no_match_and_clash()
    ensures { NoMatchAndClash }
{}

/// One clause at most is the first that matches.
pub fn one_first_match()
    ensures { OneFirstMatch }
{}
