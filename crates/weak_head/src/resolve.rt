ghost use Rattle.std.specs.Prelude.{◌≡◌, ◌<◌, length, map, IfOk};
ghost use Rattle.std.specs.List.{AllByRecursion};
ghost use Rattle.core_rules.specs.Term.{env_of};
ghost use Rattle.core_rules.specs.InScope.{IsAcyclic};
ghost use Rattle.term_pool.specs.Pool.{Extends, IsArgs, args, tree};
ghost use Rattle.core_terms.specs.Solutions.{AreIn, solved_in};
ghost use Rattle.weak_head.specs.Pending.{IsResolved};

use core_terms::{Args, NoMemory, Node, Solutions, TermId, TermPool, under};
use std::alloc::Global;

/// The term with solved metavariables at its head replaced, until its head is none.
pub(crate) fn resolve<S: Solutions>(
    alloc: Global,
    pool: &mut TermPool,
    sol: &S,
    t: TermId,
) -> Result<TermId, NoMemory>
    requires t { t < length pool.old.trees }
    requires solutions { AreIn pool.old (S.solution sol.now) }
    requires acyclic { IsAcyclic (solved_in pool.old (S.solution sol.now)) }
    ensures extends { Extends pool.old pool.new }
    ensures within { IfOk result (λ u. u < length pool.new.trees) }
    ensures is { IfOk result (λ u.
        IsResolved (solved_in pool.old (S.solution sol.now)) (tree pool.old t) (tree pool.new u)) }
{
    let mut at = t;
    loop {
        let Node::Meta { meta, args } = pool.node(at) else {
            return Ok(at);
        };
        let Some(solution) = sol.lookup(meta) else {
            return Ok(at);
        };
        let env = values(pool, args)?;
        at = under(alloc, pool, solution, &env)?;
    }
}

/// The items of an argument list as an environment, innermost first.
fn values(pool: &TermPool, a: Args) -> Result<Vec<TermId>, NoMemory>
    requires { IsArgs (tree pool.now) (length pool.now.trees) a }
    ensures within { IfOk result (λ v. AllByRecursion (λ i. i < length pool.now.trees) v.items) }
    ensures is { IfOk result (λ v. map (tree pool.now) v.items ≡ env_of (args pool.now a)) }
{
    let mut values = pool.args(a)?.into_vec();
    values.reverse();
    Ok(values)
}
