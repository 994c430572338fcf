//! The context of a constructor that is put for a variable.

ghost use Rattle.std.specs.Prelude.{◌≡◌, ◌<◌, ◌+◌, ◌∷◌, ◌++◌, length, map, reverse, IfOk};
ghost use Rattle.std.specs.List.{AllByRecursion};
ghost use Rattle.core_rules.specs.Signature.{Entry as EntryOf};
ghost use Rattle.core_rules.specs.Mapped.{AllEntries, telescope_map};
ghost use Rattle.core_rules.specs.Term.{Con, Term, from_list};
ghost use Rattle.core_rules.specs.Substitution.{shift, under};
ghost use Rattle.core_rules.specs.Elimination.{args, elims, vars_from};
ghost use Rattle.core_rules.specs.Signature.{onto};
ghost use Rattle.core_rules.specs.TypedTree.{entries_under, into, new_con, opened, vars};
ghost use Rattle.term_pool.specs.Pool.{Extends, StandsFor, tree};
ghost use Rattle.index_unify.specs.Unified.{context_in};
ghost use Rattle.lhs_elab.specs.Opening.{inner_under};

use crate::vars::{at_params, reversed, spread, with_raised};
use core_terms::{ConId, Entry, NoMemory, Node, Row, Telescope, TermId, TermPool, under};
use std::alloc::Global;

/// The head at the variables of the entries. Each variable is given as its entry is.
fn at_variables(pool: &mut TermPool, head: TermId, entries: &[Entry]) -> Result<TermId, NoMemory>
    requires head { head < length pool.old.trees }
    ensures extends { Extends pool.old pool.new }
    ensures is { IfOk result (λ t. StandsFor pool.new t (elims (tree pool.old head)
        (args (telescope_map (tree pool.old) entries.now) (vars_from 0 (length entries.now))))) }
{
    let mut made = head;
    let mut left = entries;
    while let [entry, more @ ..] = left {
        let Ok(index) = u32::try_from(more.len()) else {
            return Err(NoMemory);
        };
        let arg = pool.add(Node::Var(index))?;
        let next = pool.add(Node::App {
            flag: entry.flag,
            fun: made,
            arg,
        })?;
        made = next;
        left = more;
    }
    Ok(made)
}

/// The constructor at the parameters.
fn con_at(pool: &mut TermPool, con: ConId, params: &[TermId]) -> Result<TermId, NoMemory>
    requires params { AllByRecursion (λ t. t < length pool.old.trees) params.now }
    ensures extends { Extends pool.old pool.new }
    ensures is { IfOk result (λ t. StandsFor pool.new t (Con con (from_list (map (tree pool.old) params.now)))) }
{
    let list = pool.add_args(params)?;
    pool.add(Node::Con { con, params: list })
}

/// The constructor at the parameters, with new variables as its arguments.
pub(crate) fn new_con(
    alloc: Global,
    pool: &mut TermPool,
    con: ConId,
    params: &[TermId],
    entries: &[Entry],
) -> Result<TermId, NoMemory>
    requires params { AllByRecursion (λ t. t < length pool.old.trees) params.now }
    ensures extends { Extends pool.old pool.new }
    ensures is { IfOk result (λ t. StandsFor pool.new t
        (new_con con (map (tree pool.old) params.now) (telescope_map (tree pool.old) entries.now))) }
{
    let Ok(count) = u32::try_from(entries.len()) else {
        return Err(NoMemory);
    };
    let raised = with_raised(alloc, pool, Vec::new(alloc), params, count)?;
    let head = con_at(pool, con, raised.as_slice())?;
    at_variables(pool, head, entries)
}

/// The entries, and after them the arguments of a constructor at the parameters, the last one first.
fn with_arguments(
    alloc: Global,
    pool: &mut TermPool,
    entries: Vec<Entry>,
    arguments: &[Entry],
    params: &[TermId],
) -> Result<Vec<Entry>, NoMemory>
    requires entries { AllEntries (λ t. t < length pool.old.trees) entries.items }
    requires arguments { AllEntries (λ t. t < length pool.old.trees) arguments.now }
    requires params { AllByRecursion (λ t. t < length pool.old.trees) params.now }
    ensures extends { Extends pool.old pool.new }
    ensures below { IfOk result (λ v. AllEntries (λ t. t < length pool.new.trees) v.items) }
    ensures is { IfOk result (λ v. telescope_map (tree pool.new) v.items ≡ telescope_map (tree pool.old) entries.items
        ++ entries_under (map (tree pool.old) params.now) 0 (telescope_map (tree pool.old) arguments.now)) }
{
    let mut made = entries;
    let mut left = arguments;
    let mut before = 0;
    while let [entry, more @ ..] = left {
        let ty = argument_type(alloc, pool, entry.ty, params, before)?;
        made.push(Entry { ty, ..*entry })?;
        let Some(next) = before.checked_add(1) else {
            return Err(NoMemory);
        };
        before = next;
        left = more;
    }
    Ok(made)
}

/// The type of an argument of a constructor at the parameters, the last one first, where so many arguments stand before it.
fn argument_type(
    alloc: Global,
    pool: &mut TermPool,
    ty: TermId,
    params: &[TermId],
    before: u32,
) -> Result<TermId, NoMemory>
    requires ty { ty < length pool.old.trees }
    requires params { AllByRecursion (λ t. t < length pool.old.trees) params.now }
    ensures extends { Extends pool.old pool.new }
    ensures is { IfOk result (λ t. StandsFor pool.new t
        (under (vars 0 before ++ map (λ u. shift u 0 before) (map (tree pool.old) params.now)) (tree pool.old ty))) }
{
    let env = at_params(alloc, pool, params, before)?;
    under(alloc, pool, ty, env.as_slice())
}

/// The type of an entry inside the variable that is split, where `at` entries stand between them.
fn inner_type(
    alloc: Global,
    pool: &mut TermPool,
    ty: TermId,
    at: u32,
    new: u32,
    outer: u32,
    term: TermId,
) -> Result<TermId, NoMemory>
    requires ty { ty < length pool.old.trees }
    requires term { term < length pool.old.trees }
    ensures extends { Extends pool.old pool.new }
    ensures is { IfOk result (λ t. StandsFor pool.new t
        (under (into at (outer + 1 + at) new (tree pool.old term)) (tree pool.old ty))) }
{
    let env = spread(alloc, pool, at, new, outer, term)?;
    under(alloc, pool, ty, env.as_slice())
}

/// The entries, and after them those inside a variable, where the term, over `new` variables and the `outer` ones, stands for it.
fn with_inner(
    alloc: Global,
    pool: &mut TermPool,
    entries: Vec<Entry>,
    inner: &[Entry],
    new: u32,
    outer: u32,
    term: TermId,
) -> Result<Vec<Entry>, NoMemory>
    requires entries { AllEntries (λ t. t < length pool.old.trees) entries.items }
    requires inner { AllEntries (λ t. t < length pool.old.trees) inner.now }
    requires term { term < length pool.old.trees }
    ensures extends { Extends pool.old pool.new }
    ensures below { IfOk result (λ v. AllEntries (λ t. t < length pool.new.trees) v.items) }
    ensures is { IfOk result (λ v. telescope_map (tree pool.new) v.items ≡ telescope_map (tree pool.old) entries.items
        ++ inner_under (tree pool.old term) new outer 0 (telescope_map (tree pool.old) inner.now)) }
{
    let mut made = entries;
    let mut left = inner;
    let mut at = 0;
    while let [entry, more @ ..] = left {
        let ty = inner_type(alloc, pool, entry.ty, at, new, outer, term)?;
        made.push(Entry { ty, ..*entry })?;
        let Some(next) = at.checked_add(1) else {
            return Err(NoMemory);
        };
        at = next;
        left = more;
    }
    Ok(made)
}

/// The context of a constructor that is put for a variable, which has these entries outside it and inside it, at the parameters of the
/// variable's type.
pub(crate) fn con_context(
    alloc: Global,
    pool: &mut TermPool,
    outer: &[Entry],
    inner: &[Entry],
    con: ConId,
    params: &[TermId],
    arguments: &[Entry],
) -> Result<Telescope, NoMemory>
    requires outer { AllEntries (λ t. t < length pool.old.trees) outer.now }
    requires inner { AllEntries (λ t. t < length pool.old.trees) inner.now }
    requires params { AllByRecursion (λ t. t < length pool.old.trees) params.now }
    requires arguments { AllEntries (λ t. t < length pool.old.trees) arguments.now }
    ensures extends { Extends pool.old pool.new }
    ensures below { IfOk result (λ v. AllEntries (λ t. t < length pool.new.trees) v) }
    ensures long { IfOk result (λ v. length v ≡ length outer.now + length arguments.now + length inner.now) }
    ensures is { IfOk result (λ v. (e : EntryOf Term) → context_in pool.new v
        ≡ opened (length inner.now) (new_con con (map (tree pool.old) params.now) (telescope_map (tree pool.old) arguments.now))
        (entries_under (reverse (map (tree pool.old) params.now)) 0 (telescope_map (tree pool.old) arguments.now))
        (onto (telescope_map (tree pool.old) inner.now) (e ∷ context_in pool.old outer.now))) }
{
    let Ok(count) = u32::try_from(outer.len()) else {
        return Err(NoMemory);
    };
    let Ok(new) = u32::try_from(arguments.len()) else {
        return Err(NoMemory);
    };
    let term = new_con(alloc, pool, con, params, arguments)?;
    let turned = reversed(alloc, params)?;
    let before = Vec::from_slice(alloc, outer)?;
    let there = with_arguments(alloc, pool, before, arguments, turned.as_slice())?;
    let all = with_inner(alloc, pool, there, inner, new, count, term)?;
    Ok(Telescope {
        entries: Row::from_vec(all),
    })
}
