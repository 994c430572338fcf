ghost use Rattle.std.specs.Prelude.{◌≡◌, ℕ, ◌<◌, ◌↔◌, ◌∷◌, ◌++◌, [], length, IfOk, OnOk, IsTrue, Some};
ghost use Rattle.std.specs.List.{AllByRecursion};
ghost use Rattle.core_rules.specs.InScope.{IsAcyclic};
ghost use Rattle.core_rules.specs.Bounded.{AreSame};
ghost use Rattle.core_rules.specs.Term.{env_of};
ghost use Rattle.core_rules.specs.Substitution.{under};
ghost use Rattle.term_pool.specs.Pool.{args as args_lem, Below, Extends, IsArgs, StandsFor, node_tree, tree};
ghost use Rattle.core_terms.specs.Solutions.{AreIn, AreInstances, IsInstance, is_solved as is_solved_lem, solved_in, wanted};

use crate::solutions::Solutions;
use std::alloc::Global;
use term_pool::{Args, NoMemory, Node, Parts, Table, TermId, TermPool, under};

/// The term with solved metavariables replaced, in their solutions too. It works once for each shared
/// node, and a term in which no metavariable stands is not walked at all. A variable that would reach
/// 2^32 is out of memory.
pub fn instantiate<S: Solutions>(
    alloc: Global,
    pool: &mut TermPool,
    sol: &S,
    t: TermId,
) -> Result<TermId, NoMemory>
    requires t { t < length pool.old.trees }
    requires solutions { AreIn pool.old (S.solution sol.now) }
    requires acyclic { IsAcyclic (solved_in pool.old (S.solution sol.now)) }
    ensures extends { Extends pool.old pool.new }
    ensures is { IfOk result
        (λ r. IsInstance pool.new (solved_in pool.old (S.solution sol.now)) (tree pool.old t) r) }
{
    if !pool.has_meta(t) {
        return Ok(t);
    }
    let mut table = Table::new(alloc);
    let mut pending = Vec::new(alloc);
    // Acyclic solutions end long before: a node is looked at three times at most for each that
    // names it, and once more.
    for _turn in 0..u64::MAX {
        if let Some(made) = table.get(t, 0) {
            return Ok(made);
        }
        let next = last_or(&mut pending, t);
        turn(alloc, pool, &mut table, &mut pending, sol, next)?;
    }
    Err(NoMemory)
}

/// The last of those that wait, or `t` where none does.
fn last_or(pending: &mut Vec<TermId>, t: TermId) -> TermId
    ensures within { (n : ℕ) → t < n → AllByRecursion (λ i. i < n) pending.old.items → result < n }
    ensures others { (n : ℕ) → AllByRecursion (λ i. i < n) pending.old.items
        → AllByRecursion (λ i. i < n) pending.new.items }
{
    match pending.pop() {
        Some(last) => last,
        None => t,
    }
}

/// Makes the instance of a node, or lets it wait for what it is made of.
fn turn<S: Solutions>(
    alloc: Global,
    pool: &mut TermPool,
    table: &mut Table,
    pending: &mut Vec<TermId>,
    sol: &S,
    t: TermId,
) -> Result<(), NoMemory>
    requires t { t < length pool.old.trees }
    requires solutions { AreIn pool.old (S.solution sol.now) }
    requires acyclic { IsAcyclic (solved_in pool.old (S.solution sol.now)) }
    requires made { AreInstances (solved_in pool.old (S.solution sol.now)) table.old pool.old }
    requires pending { AllByRecursion (λ i. i < length pool.old.trees) pending.old.items }
    ensures extends { Extends pool.old pool.new }
    ensures made { OnOk result
        (AreInstances (solved_in pool.old (S.solution sol.now)) table.new pool.new) }
    ensures pending { OnOk result
        (AllByRecursion (λ i. i < length pool.new.trees) pending.new.items) }
{
    if table.get(t, 0).is_some() {
        return Ok(());
    }
    if !pool.has_meta(t) {
        return table.put(t, 0, t);
    }
    let node = pool.node(t);
    let Some(parts) = wanted(sol, &node) else {
        return table.put(t, 0, t);
    };
    let Some(first) = table.get(parts.0, 0) else {
        return wait(pending, t, parts.0);
    };
    let Some(second) = table.get(parts.1, 0) else {
        return wait(pending, t, parts.1);
    };
    let made = joined(alloc, pool, sol, &node, parts, (first, second))?;
    table.put(t, 0, made)
}

/// Lets `t` wait for `part`.
fn wait(pending: &mut Vec<TermId>, t: TermId, part: TermId) -> Result<(), NoMemory>
    ensures { OnOk result (pending.new.items ≡ pending.old.items ++ t ∷ part ∷ []) }
{
    pending.push(t)?;
    pending.push(part)?;
    Ok(())
}

/// What a node is made of. Of a solved metavariable that is its arguments and its solution.
fn wanted<S: Solutions>(sol: &S, node: &Node) -> Option<(TermId, TermId)>
    ensures { result ≡ wanted (S.solution sol.now) node.now }
{
    if let Node::Meta { meta, args } = *node {
        return match sol.lookup(meta) {
            Some(solution) => Some((args.list(), solution)),
            None => Some((args.list(), args.list())),
        };
    }
    match node.parts() {
        Parts::Variable(_) | Parts::Alone => None,
        Parts::Two { first, second, .. } => Some((first, second)),
    }
}

fn is_solved<S: Solutions>(sol: &S, node: &Node) -> bool
    ensures { result ≡ is_solved_lem (S.solution sol.now) node.now }
{
    match *node {
        Node::Meta { meta, .. } => sol.lookup(meta).is_some(),
        _ => false,
    }
}

/// The instance of a node, of the instances of what it is made of.
fn joined<S: Solutions>(
    alloc: Global,
    pool: &mut TermPool,
    sol: &S,
    node: &Node,
    parts: (TermId, TermId),
    made: (TermId, TermId),
) -> Result<TermId, NoMemory>
    requires below { Below (tree pool.old) (length pool.old.trees) node.now }
    requires solutions { AreIn pool.old (S.solution sol.now) }
    requires acyclic { IsAcyclic (solved_in pool.old (S.solution sol.now)) }
    requires parts { wanted (S.solution sol.now) node.now ≡ Some (parts.0, parts.1) }
    requires first { IsInstance pool.old (solved_in pool.old (S.solution sol.now)) (tree pool.old parts.0) made.0 }
    requires second { IsInstance pool.old (solved_in pool.old (S.solution sol.now)) (tree pool.old parts.1) made.1 }
    ensures extends { Extends pool.old pool.new }
    ensures is { IfOk result (λ r. IsInstance pool.new
        (solved_in pool.old (S.solution sol.now)) (node_tree (tree pool.old) node.now) r) }
{
    if is_solved(sol, node) {
        return put_args(alloc, pool, Args::of(made.0), made.1);
    }
    pool.add(node.with_two(made.0, made.1))
}

/// The solution under these arguments, which stand outermost first.
fn put_args(alloc: Global, pool: &mut TermPool, args: Args, t: TermId) -> Result<TermId, NoMemory>
    requires args { IsArgs (tree pool.old) (length pool.old.trees) args }
    requires t { t < length pool.old.trees }
    ensures extends { Extends pool.old pool.new }
    ensures is { IfOk result
        (λ r. StandsFor pool.new r (under (env_of (args_lem pool.old args)) (tree pool.old t))) }
{
    let mut env = pool.args(args)?.into_vec();
    env.as_mut_slice().reverse();
    under(alloc, pool, t, env.as_slice())
}

/// Whether two terms, with solved metavariables replaced, differ in names at most. Where no
/// metavariable stands in them, two numbers are compared.
pub fn same_term<S: Solutions>(
    alloc: Global,
    pool: &mut TermPool,
    sol: &S,
    t: TermId,
    u: TermId,
) -> Result<bool, NoMemory>
    requires t { t < length pool.old.trees }
    requires u { u < length pool.old.trees }
    requires solutions { AreIn pool.old (S.solution sol.now) }
    requires acyclic { IsAcyclic (solved_in pool.old (S.solution sol.now)) }
    ensures extends { Extends pool.old pool.new }
    ensures is { IfOk result (λ b. IsTrue b
        ↔ AreSame (solved_in pool.old (S.solution sol.now)) (tree pool.old t) (tree pool.old u)) }
{
    if t == u {
        return Ok(true);
    }
    let made = instantiate(alloc, pool, sol, t)?;
    let other = instantiate(alloc, pool, sol, u)?;
    Ok(pool.same_class(made, other))
}
