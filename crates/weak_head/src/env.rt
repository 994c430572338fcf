ghost use Rattle.std.specs.Prelude.{◌≡◌, ℕ, ◌<◌, length, map, IfOk};
ghost use Rattle.core_rules.specs.Term.{Term};
ghost use Rattle.core_rules.specs.Substitution.{value_at};
ghost use Rattle.core_rules.specs.Run.{spread};
ghost use Rattle.term_pool.specs.Pool.{Extends, StandsFor, tree};
ghost use Rattle.weak_head.specs.Elims.{env_in};
ghost use Rattle.weak_head.specs.States.{Ids};

use core_terms::{NoMemory, Node, TermId, TermPool};
use std::alloc::Global;

/// The value of variable `k`; the last value of an environment is that of variable 0. A variable
/// without a value stands for a closed term.
pub(crate) fn value(pool: &mut TermPool, env: &[TermId], k: u32) -> Result<TermId, NoMemory>
    requires { Ids (length pool.old.trees) env.now }
    ensures extends { Extends pool.old pool.new }
    ensures is { IfOk result (λ v. StandsFor pool.new v (value_at (env_in (tree pool.old) env.now) k)) }
{
    let at = k as usize;
    if at < env.len() {
        return Ok(env[env.len() - 1 - at]);
    }
    let closed = pool.add(Node::Sort(0))?;
    Ok(closed)
}

/// The environment with these values in the place of variable `k`.
pub(crate) fn spread(
    alloc: Global,
    env: &[TermId],
    k: u32,
    parts: &[TermId],
) -> Result<Vec<TermId>, NoMemory>
    ensures is { IfOk result (λ v. (f : ℕ → Term) →
        env_in f v.items ≡ spread k (map f parts.now) (env_in f env.now)) }
    ensures below { IfOk result (λ v. (n : ℕ) → Ids n env.now → Ids n parts.now → Ids n v.items) }
{
    let at = k as usize;
    let mut all = Vec::new(alloc);
    all.extend_from_slice(&env[..env.len().saturating_sub(at).saturating_sub(1)])?;
    all.extend_from_slice(parts)?;
    all.extend_from_slice(&env[env.len().saturating_sub(at)..])?;
    Ok(all)
}

/// For each of these variables, which stand innermost first, its value.
pub(crate) fn kept(
    alloc: Global,
    pool: &mut TermPool,
    env: &[TermId],
    keep: &[u32],
) -> Result<Vec<TermId>, NoMemory>
    requires { Ids (length pool.old.trees) env.now }
    ensures extends { Extends pool.old pool.new }
    ensures below { IfOk result (λ v. Ids (length pool.new.trees) v.items) }
    ensures is { IfOk result (λ v. env_in (tree pool.new) v.items ≡
        map (value_at (env_in (tree pool.old) env.now)) keep.now) }
{
    let mut all = Vec::new(alloc);
    let mut left = keep.len();
    while left > 0 {
        left -= 1;
        let v = value(pool, env, keep[left])?;
        all.push(v)?;
    }
    Ok(all)
}
