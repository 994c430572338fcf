//! Lists of terms for the variables of a context, the innermost first.

ghost use Rattle.std.specs.Prelude.{◌≡◌, ℕ, ◌<◌, ◌+◌, ◌-◌, ◌++◌, length, map, reverse, IfOk};
ghost use Rattle.std.specs.List.{AllByRecursion};
ghost use Rattle.core_rules.specs.Substitution.{shift};
ghost use Rattle.core_rules.specs.TypedTree.{into, vars};
ghost use Rattle.term_pool.specs.Pool.{Extends, tree};

use core_terms::{NoMemory, Node, TermId, TermPool, shift};
use std::alloc::Global;

/// The terms, and after them so many variables from `from` on.
pub(crate) fn with_vars(
    pool: &mut TermPool,
    terms: Vec<TermId>,
    from: u32,
    count: u32,
) -> Result<Vec<TermId>, NoMemory>
    requires terms { AllByRecursion (λ t. t < length pool.old.trees) terms.items }
    ensures extends { Extends pool.old pool.new }
    ensures below { IfOk result (λ v. AllByRecursion (λ t. t < length pool.new.trees) v.items) }
    ensures is { IfOk result (λ v. map (tree pool.new) v.items ≡ map (tree pool.old) terms.items ++ vars from count) }
{
    let mut made = terms;
    let mut at = from;
    let mut left = count;
    while left > 0 {
        let var = pool.add(Node::Var(at))?;
        made.push(var)?;
        let Some(next) = at.checked_add(1) else {
            return Err(NoMemory);
        };
        at = next;
        left -= 1;
    }
    Ok(made)
}

/// The terms, and after them those of the list inside so many variables more.
pub(crate) fn with_raised(
    alloc: Global,
    pool: &mut TermPool,
    terms: Vec<TermId>,
    list: &[TermId],
    by: u32,
) -> Result<Vec<TermId>, NoMemory>
    requires terms { AllByRecursion (λ t. t < length pool.old.trees) terms.items }
    requires list { AllByRecursion (λ t. t < length pool.old.trees) list.now }
    ensures extends { Extends pool.old pool.new }
    ensures below { IfOk result (λ v. AllByRecursion (λ t. t < length pool.new.trees) v.items) }
    ensures is { IfOk result (λ v. map (tree pool.new) v.items
        ≡ map (tree pool.old) terms.items ++ map (λ t. shift t 0 by) (map (tree pool.old) list.now)) }
{
    let mut made = terms;
    let mut left = list;
    while let [term, more @ ..] = left {
        let raised = shift(alloc, pool, *term, 0, by)?;
        made.push(raised)?;
        left = more;
    }
    Ok(made)
}

/// Where so many new variables stand in the place of a variable, which has `at` inside it and `outer` outside it: what stands for each
/// variable, where the term, over the new variables and the outer ones, stands for that one.
pub(crate) fn spread(
    alloc: Global,
    pool: &mut TermPool,
    at: u32,
    new: u32,
    outer: u32,
    term: TermId,
) -> Result<Vec<TermId>, NoMemory>
    requires term { term < length pool.old.trees }
    ensures extends { Extends pool.old pool.new }
    ensures below { IfOk result (λ v. AllByRecursion (λ t. t < length pool.new.trees) v.items) }
    ensures is { IfOk result (λ v. (n : ℕ) → outer ≡ n - (at + 1) → map (tree pool.new) v.items ≡ into at n new (tree pool.old term)) }
{
    let Some(from) = at.checked_add(new) else {
        return Err(NoMemory);
    };
    let raised = shift(alloc, pool, term, 0, at)?;
    let mut inner = with_vars(pool, Vec::new(alloc), 0, at)?;
    inner.push(raised)?;
    with_vars(pool, inner, from, outer)
}

/// What stands for each variable of a constructor's argument, or of its indices: so many arguments before it, and then the parameters,
/// the last one first.
pub(crate) fn at_params(
    alloc: Global,
    pool: &mut TermPool,
    params: &[TermId],
    count: u32,
) -> Result<Vec<TermId>, NoMemory>
    requires params { AllByRecursion (λ t. t < length pool.old.trees) params.now }
    ensures extends { Extends pool.old pool.new }
    ensures below { IfOk result (λ v. AllByRecursion (λ t. t < length pool.new.trees) v.items) }
    ensures is { IfOk result (λ v. map (tree pool.new) v.items ≡ vars 0 count ++ map (λ t. shift t 0 count) (map (tree pool.old) params.now)) }
{
    let before = with_vars(pool, Vec::new(alloc), 0, count)?;
    with_raised(alloc, pool, before, params, count)
}

/// The terms, the last one first.
pub(crate) fn reversed(alloc: Global, terms: &[TermId]) -> Result<Vec<TermId>, NoMemory>
    ensures { IfOk result (λ v. v.items ≡ reverse terms.now) }
{
    let mut turned = Vec::from_slice(alloc, terms)?;
    turned.reverse();
    Ok(turned)
}
