//! The equations between the indices of a constructor and those of a variable's type.

ghost use Rattle.std.specs.Prelude.{◌≡◌, ◌<◌, ◌+◌, ◌++◌, length, map, IfOk};
ghost use Rattle.std.specs.List.{AllByRecursion};
ghost use Rattle.core_rules.specs.Substitution.{shift, under};
ghost use Rattle.core_rules.specs.TypedTree.{equations, vars};
ghost use Rattle.term_pool.specs.Pool.{Extends, StandsFor, tree};
ghost use Rattle.index_unify.specs.Unified.{EquationStands, equations_in};

use crate::vars::at_params;
use core_terms::{NoMemory, TermId, TermPool, shift, under};
use index_unify::Equation;
use std::alloc::Global;

/// An index of a constructor, for whose parameters and arguments the terms stand, inside so many variables more.
fn con_index(
    alloc: Global,
    pool: &mut TermPool,
    index: TermId,
    env: &[TermId],
    inner: u32,
) -> Result<TermId, NoMemory>
    requires index { index < length pool.old.trees }
    requires env { AllByRecursion (λ t. t < length pool.old.trees) env.now }
    ensures extends { Extends pool.old pool.new }
    ensures is { IfOk result (λ t. StandsFor pool.new t (shift (under (map (tree pool.old) env.now) (tree pool.old index)) 0 inner)) }
{
    let there = under(alloc, pool, index, env)?;
    shift(alloc, pool, there, 0, inner)
}

/// The indices of a constructor, the terms for whose parameters and arguments are these, inside `inner` variables more, and those of the
/// variable's type inside `by` variables more.
fn equated(
    alloc: Global,
    pool: &mut TermPool,
    ends: &[TermId],
    env: &[TermId],
    inner: u32,
    own: &[TermId],
    by: u32,
) -> Result<Vec<Equation>, NoMemory>
    requires ends { AllByRecursion (λ t. t < length pool.old.trees) ends.now }
    requires env { AllByRecursion (λ t. t < length pool.old.trees) env.now }
    requires own { AllByRecursion (λ t. t < length pool.old.trees) own.now }
    ensures extends { Extends pool.old pool.new }
    ensures below { IfOk result (λ v. AllByRecursion (EquationStands (length pool.new.trees)) v.items) }
    ensures is { IfOk result (λ v. equations_in pool.new v.items
        ≡ equations (map (λ t. shift (under (map (tree pool.old) env.now) t) 0 inner) (map (tree pool.old) ends.now))
        (map (λ t. shift t 0 by) (map (tree pool.old) own.now))) }
{
    let mut made = Vec::new(alloc);
    let mut left = ends;
    let mut others = own;
    while let [end, more @ ..] = left {
        let [index, rest @ ..] = others else {
            return Ok(made);
        };
        let first = con_index(alloc, pool, *end, env, inner)?;
        let second = shift(alloc, pool, *index, 0, by)?;
        made.push(Equation {
            left: first,
            right: second,
        })?;
        left = more;
        others = rest;
    }
    Ok(made)
}

/// The equations between the indices of a constructor, which has so many arguments, at the parameters, the last one first, and those of
/// the type of a variable inside which so many others stand.
pub(crate) fn index_equations(
    alloc: Global,
    pool: &mut TermPool,
    ends: &[TermId],
    count: u32,
    params: &[TermId],
    own: &[TermId],
    inner: u32,
) -> Result<Vec<Equation>, NoMemory>
    requires ends { AllByRecursion (λ t. t < length pool.old.trees) ends.now }
    requires params { AllByRecursion (λ t. t < length pool.old.trees) params.now }
    requires own { AllByRecursion (λ t. t < length pool.old.trees) own.now }
    ensures extends { Extends pool.old pool.new }
    ensures below { IfOk result (λ v. AllByRecursion (EquationStands (length pool.new.trees)) v.items) }
    ensures is { IfOk result (λ v. equations_in pool.new v.items
        ≡ equations (map (λ t. shift (under (vars 0 count ++ map (λ u. shift u 0 count) (map (tree pool.old) params.now)) t) 0 inner)
        (map (tree pool.old) ends.now)) (map (λ t. shift t 0 (inner + count)) (map (tree pool.old) own.now))) }
{
    let Some(by) = inner.checked_add(count) else {
        return Err(NoMemory);
    };
    let env = at_params(alloc, pool, params, count)?;
    equated(alloc, pool, ends, env.as_slice(), inner, own, by)
}
