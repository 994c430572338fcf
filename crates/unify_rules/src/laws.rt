//! The laws of the unifier. Each is the contract of a function that does nothing; the statements are in `specs/UnifierLaws`.

ghost use Rattle.unify_rules.specs.Answered.{AnswersUnify, ExactlyOneAnswer};
ghost use Rattle.unify_rules.specs.UnifierLaws.{OneOutcome, OutcomeStands, TurnsFall, OutcomeBySteps, SolvedSolves, ConflictRefutes, CycleRefutes, SolvedJoins, BranchInOrder, BranchTypes, OutcomeWithSolutions, TurnWithSolutions, VerdictOfHeadForms};

/// A state has one answer, after one number of turns.
pub fn one_outcome()
    ensures { OneOutcome }
{}

/// Each state has an answer: unification ends.
pub fn outcome_stands()
    ensures { OutcomeStands }
{}

/// A measure falls with each turn that goes on.
pub fn turns_fall()
    ensures { TurnsFall }
{}

/// In a signature in scope with typed trees what the answer says comes by steps of unification.
pub fn outcome_by_steps()
    ensures { OutcomeBySteps }
{}

/// Solved: the solutions solve the equations.
pub fn solved_solves()
    ensures { SolvedSolves }
{}

/// A conflict refutes the equations.
pub fn conflict_refutes()
    ensures { ConflictRefutes }
{}

/// A cycle refutes the equations.
pub fn cycle_refutes()
    ensures { CycleRefutes }
{}

/// Solved: the branch that the solutions give joins them, for any equations in scope.
pub fn solved_joins()
    ensures { SolvedJoins }
{}

/// Each entry of the branch stands inside those on which its type depends.
pub fn branch_in_order()
    ensures { BranchInOrder }
{}

/// Each entry of the branch is in scope of those outside it, and has the type of its variable under the branch's values.
pub fn branch_types()
    ensures { BranchTypes }
{}

/// With solutions of metavariables the answer says the same of the signature, context and equations in which they are replaced.
pub fn outcome_with_solutions()
    ensures { OutcomeWithSolutions }
{}

/// A turn may take head forms and verdict with the solutions, and replace these afterwards.
pub fn turn_with_solutions()
    ensures { TurnWithSolutions }
{}

/// Two terms have the verdict of their head forms, where these are not the same term.
pub fn verdict_of_head_forms()
    ensures { VerdictOfHeadForms }
{}

/// In a sound signature the answers are those of a unifier: what it solves and refutes comes by steps, and its branches join.
pub fn answers_unify()
    ensures { AnswersUnify }
{}

/// All equations in any context have exactly one answer.
pub fn exactly_one_answer()
    ensures { ExactlyOneAnswer }
{}
