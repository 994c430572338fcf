ghost use Rattle.std.specs.Prelude.{◌≡◌, ◌<◌, length, map, IfOk, OnOk};
ghost use Rattle.core_rules.specs.Heads.{Solutions};
ghost use Rattle.core_rules.specs.Unification.{solve as solve_lem};
ghost use Rattle.unify_rules.specs.Unifier.{after};
ghost use Rattle.term_pool.specs.Pool.{Extends, tree};
ghost use Rattle.index_unify.specs.State.{AllSettled, EndsBelow, IsSettled, RuleBelow, RuleSettled, StateBelow, equations_of, next_in, rule_in, solutions_of, state_in};

use crate::equation::{Equation, Solution};
use crate::put::{put_in_equations, put_in_solutions, put_in_terms};
use crate::rule::{Ending, Rule};
use core_terms::{NoMemory, TermId, TermPool};
use std::alloc::Global;

/// How far a unification has come: the types of the variables, each in the whole context, that of
/// variable 0 first; the equations that are left, the first one last; the solutions, the last one last.
#[derive(Drop)]
pub(crate) struct State {
    pub types: Vec<TermId>,
    pub equations: Vec<Equation>,
    pub solutions: Vec<Solution>,
}

/// Does what the rule says, where the equation that it is for is taken out: how unification ends by
/// it, if it ends.
pub(crate) fn apply(
    alloc: Global,
    pool: &mut TermPool,
    state: &mut State,
    rule: Rule,
) -> Result<Option<Ending>, NoMemory>
    requires state { StateBelow (length pool.old.trees) state.old }
    requires rule { RuleBelow (length pool.old.trees) rule }
    ensures extends { Extends pool.old pool.new }
    ensures below { OnOk result (StateBelow (length pool.new.trees) state.new) }
    ensures ends { IfOk result (EndsBelow (length pool.new.trees)) }
    ensures count { OnOk result (length state.new.types.items ≡ length state.old.types.items) }
    ensures settled { OnOk result ((s : Solutions) → RuleSettled s pool.old rule → AllSettled s pool.old state.old.equations.items
        → AllSettled s pool.new state.new.equations.items) }
    ensures is { IfOk result (λ o. next_in pool.new o state.new ≡ after (rule_in pool.old rule)
        (map (tree pool.old) state.old.types.items) (equations_of pool.old state.old.equations.items)
        (solutions_of pool.old state.old.solutions.items)) }
{
    match rule {
        Rule::Delete => Ok(None),
        Rule::Solve(solution) => {
            solve(alloc, pool, state, solution)?;
            Ok(None)
        }
        Rule::Inject(equations) => {
            state.equations.extend_from_slice(equations.as_slice())?;
            Ok(None)
        }
        Rule::Ends(ending) => Ok(Some(ending)),
    }
}

/// The solution joins the others, and its value is put for its variable everywhere. This takes the
/// size of the types, the equations and the solutions, once for each solution.
fn solve(
    alloc: Global,
    pool: &mut TermPool,
    state: &mut State,
    solution: Solution,
) -> Result<(), NoMemory>
    requires state { StateBelow (length pool.old.trees) state.old }
    requires value { solution.value < length pool.old.trees }
    ensures extends { Extends pool.old pool.new }
    ensures below { OnOk result (StateBelow (length pool.new.trees) state.new) }
    ensures count { OnOk result (length state.new.types.items ≡ length state.old.types.items) }
    ensures settled { OnOk result ((s : Solutions) → IsSettled s (tree pool.old solution.value)
        → AllSettled s pool.old state.old.equations.items → AllSettled s pool.new state.new.equations.items) }
    ensures is { OnOk result (state_in pool.new state.new ≡ solve_lem solution.var (tree pool.old solution.value)
        (map (tree pool.old) state.old.types.items) (equations_of pool.old state.old.equations.items)
        (solutions_of pool.old state.old.solutions.items)) }
{
    state.types = put_in_terms(alloc, pool, &solution, state.types.as_slice())?;
    state.equations = put_in_equations(alloc, pool, &solution, state.equations.as_slice())?;
    let mut solutions = put_in_solutions(alloc, pool, &solution, state.solutions.as_slice())?;
    solutions.push(solution)?;
    state.solutions = solutions;
    Ok(())
}
