ghost use Rattle.std.specs.Prelude.{ℕ, ◌<◌, length, map, Option, IfOk};
ghost use Rattle.std.specs.List.{AllByRecursion};
ghost use Rattle.core_rules.specs.Term.{Term};
ghost use Rattle.core_rules.specs.InScope.{IsAcyclic};
ghost use Rattle.term_pool.specs.Pool.{Extends, tree};
ghost use Rattle.core_terms.specs.Signature.{Stands, signature_in};
ghost use Rattle.core_terms.specs.Solutions.{AreIn, solved_in};
ghost use Rattle.index_unify.specs.Unified.{EquationStands};
ghost use Rattle.index_unify.specs.State.{EquationSettled, IsSettled, RuleBelow, RuleSettled, rule_in};
ghost use Rattle.index_unify.specs.Rules.{IsForm, IsRuling, RuledBy};

use crate::equation::Equation;
use crate::rule::{Ending, Rule, rule_of};
use conversion::{Conv, convert};
use core_terms::{Limits, NoMemory, Signature, Solutions, TermId, TermPool, instantiate};
use std::alloc::Global;
use weak_head::{Head, head};

/// The rule for the first equation: after the head forms of its sides, by whether these sides are
/// convertible, and where they are not found so by their head forms.
pub(crate) fn rule_for<S: Solutions>(
    alloc: Global,
    pool: &mut TermPool,
    sig: &Signature,
    sol: &S,
    types: &[TermId],
    equation: Equation,
    limits: Limits,
) -> Result<Rule, NoMemory>
    requires types { AllByRecursion (λ i. i < length pool.old.trees) types.now }
    requires equation { EquationStands (length pool.old.trees) equation }
    requires settled { EquationSettled (solved_in pool.old (S.solution sol.now)) pool.old equation }
    requires stands { Stands pool.old sig.now }
    requires solutions { AreIn pool.old (S.solution sol.now) }
    requires acyclic { IsAcyclic (solved_in pool.old (S.solution sol.now)) }
    ensures extends { Extends pool.old pool.new }
    ensures below { IfOk result (RuleBelow (length pool.new.trees)) }
    ensures settled { IfOk result (RuleSettled (solved_in pool.old (S.solution sol.now)) pool.new) }
    ensures is { IfOk result (λ r. IsRuling (signature_in pool.old sig.now) (solved_in pool.old (S.solution sol.now))
        limits.fuel limits.depth (map (tree pool.old) types.now) (tree pool.old equation.left) (tree pool.old equation.right)
        (rule_in pool.new r)) }
{
    let Some(left) = form(alloc, pool, sig, sol, equation.left, limits.fuel)? else {
        return Ok(Rule::Ends(Ending::OutOfFuel));
    };
    let Some(right) = form(alloc, pool, sig, sol, equation.right, limits.fuel)? else {
        return Ok(Rule::Ends(Ending::OutOfFuel));
    };
    let verdict = convert(alloc, pool, sig, sol, equation.left, equation.right, limits);
    by_verdict(alloc, pool, types, left, right, verdict)
}

/// The rule by the verdict on the sides, whose head forms these are.
fn by_verdict(
    alloc: Global,
    pool: &TermPool,
    types: &[TermId],
    left: TermId,
    right: TermId,
    verdict: Conv,
) -> Result<Rule, NoMemory>
    requires types { AllByRecursion (λ i. i < length pool.now.trees) types.now }
    requires left { left < length pool.now.trees }
    requires right { right < length pool.now.trees }
    ensures is { IfOk result (λ r. RuledBy (map (tree pool.now) types.now) (tree pool.now left) (tree pool.now right)
        pool.now verdict (rule_in pool.now r)) }
    ensures below { IfOk result (RuleBelow (length pool.now.trees)) }
    ensures settled { IfOk result (λ r. (s : ℕ → Option Term) → IsSettled s (tree pool.now left) → IsSettled s (tree pool.now right)
        → RuleSettled s pool.now r) }
{
    match verdict {
        Conv::Yes => Ok(Rule::Delete),
        Conv::OutOfFuel => Ok(Rule::Ends(Ending::OutOfFuel)),
        Conv::OutOfDepth => Ok(Rule::Ends(Ending::OutOfDepth)),
        Conv::NoMemory => Err(NoMemory),
        Conv::No { .. } | Conv::Blocked { .. } => rule_of(alloc, pool, types, left, right),
    }
}

/// The head form of a term with solved metavariables replaced, also where it waits for one; none where
/// the fuel does not suffice.
fn form<S: Solutions>(
    alloc: Global,
    pool: &mut TermPool,
    sig: &Signature,
    sol: &S,
    t: TermId,
    fuel: u32,
) -> Result<Option<TermId>, NoMemory>
    requires t { t < length pool.old.trees }
    requires stands { Stands pool.old sig.now }
    requires solutions { AreIn pool.old (S.solution sol.now) }
    requires acyclic { IsAcyclic (solved_in pool.old (S.solution sol.now)) }
    ensures extends { Extends pool.old pool.new }
    ensures is { IfOk result (IsForm (signature_in pool.old sig.now) (solved_in pool.old (S.solution sol.now))
        (tree pool.old t) fuel pool.new) }
{
    match head(alloc, pool, sig, sol, t, fuel) {
        Head::Form { term, .. } => {
            let made = instantiate(alloc, pool, sol, term)?;
            Ok(Some(made))
        }
        Head::Blocked { term, .. } => {
            let made = instantiate(alloc, pool, sol, term)?;
            Ok(Some(made))
        }
        Head::OutOfFuel => Ok(None),
        Head::NoMemory => Err(NoMemory),
    }
}
