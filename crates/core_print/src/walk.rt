ghost use Rattle.std.specs.Prelude.{◌≡◌, ◌+◌, ◌<◌, ◌≤◌, ◌||◌, length, nat_lt, IfOk, OnOk};
ghost use Rattle.core_rules.specs.Term.{size, size_all, occurs as occurs_lem, occurs_in};
ghost use Rattle.term_pool.specs.Pool.{IsArgs, Pool, args as items_of, tree};
ghost use Rattle.core_print.specs.Printed.{most_nodes};
ghost use Rattle.core_print.specs.Walks.{AreIn, IsIn, IsStart, Leaves, inner_size, is_var, occurs_in_parts, occurs_in_what, occurs_inside, sizes, what_size};

use core_terms::{Args, NoMemory, Node, TermId, TermPool};
use std::alloc::Global;

/// The most nodes of a term that is printed in full.
const MOST_PRINTED: u32 = 10_000;

/// A term, or the items of an argument list.
#[derive(Clone, Copy)]
enum What {
    Whole(TermId),
    Items(Args),
}

/// What a walk has still to look at, under so many binders.
#[derive(Clone, Copy)]
struct Part {
    what: What,
    under: u64,
}

/// Whether a term has more nodes than are printed. It looks at so many at most.
pub(crate) fn is_long(alloc: Global, pool: &TermPool, t: TermId) -> Result<bool, NoMemory>
    requires { t < length pool.now.trees }
    ensures { IfOk result (λ b. b ≡ nat_lt most_nodes (size (tree pool.now t))) }
{
    let mut pending = started(alloc, t)?;
    let mut nodes: u32 = 0;
    // A term that is not too long has few turns: one for each of its nodes, and two for each of its
    // argument lists and their items.
    for _turn in 0..u32::MAX {
        let Some(part) = pending.pop() else {
            return Ok(false);
        };
        nodes += count(pool, &mut pending, &part)?;
        if nodes > MOST_PRINTED {
            return Ok(true);
        }
    }
    Err(NoMemory)
}

/// Whether variable 0 occurs in a term, in what is not printed too. It does not look where no variable
/// reaches so far.
pub(crate) fn occurs(alloc: Global, pool: &TermPool, t: TermId) -> Result<bool, NoMemory>
    requires { t < length pool.now.trees }
    ensures { IfOk result (λ b. b ≡ occurs_lem 0 (tree pool.now t)) }
{
    let mut pending = started(alloc, t)?;
    for _turn in 0..u64::MAX {
        let Some(part) = pending.pop() else {
            return Ok(false);
        };
        if look(pool, &mut pending, &part)? {
            return Ok(true);
        }
    }
    Err(NoMemory)
}

/// Counts the outermost node of a part, and leaves what the part is made of.
fn count(pool: &TermPool, pending: &mut Vec<Part>, part: &Part) -> Result<u32, NoMemory>
    requires part { IsIn pool.now part.now }
    requires pending { AreIn pool.now pending.old.items }
    ensures parts { OnOk result (AreIn pool.now pending.new.items) }
    ensures few { IfOk result (λ n. n ≤ 1) }
    ensures count { IfOk result (λ n. n + sizes pool.now pending.new.items
        ≡ what_size pool.now part.now.what + sizes pool.now pending.old.items) }
{
    match part.what {
        What::Whole(t) => {
            push_parts(pool, pending, t, part.under)?;
            Ok(1)
        }
        What::Items(args) => {
            push_items(pool, pending, args, part.under)?;
            Ok(0)
        }
    }
}

/// Whether a part is the variable that is looked for, or else leaves what the part is made of, where the
/// variable can occur in it.
fn look(pool: &TermPool, pending: &mut Vec<Part>, part: &Part) -> Result<bool, NoMemory>
    requires part { IsIn pool.now part.now }
    requires pending { AreIn pool.now pending.old.items }
    ensures parts { OnOk result (AreIn pool.now pending.new.items) }
    ensures found { IfOk result (λ b. (b || occurs_in_parts pool.now pending.new.items)
        ≡ (occurs_in_what pool.now part.now.under part.now.what || occurs_in_parts pool.now pending.old.items)) }
{
    match part.what {
        What::Whole(t) => {
            if is_variable(pool, t, part.under) {
                return Ok(true);
            }
            if pool.reach(t) > part.under {
                push_parts(pool, pending, t, part.under)?;
            }
            Ok(false)
        }
        What::Items(args) => {
            push_items(pool, pending, args, part.under)?;
            Ok(false)
        }
    }
}

/// What a walk over a term begins with.
fn started(alloc: Global, t: TermId) -> Result<Vec<Part>, NoMemory>
    ensures { IfOk result (λ v. IsStart t v.items) }
{
    let mut pending = Vec::new(alloc);
    pending.push(Part {
        what: What::Whole(t),
        under: 0,
    })?;
    Ok(pending)
}

fn is_variable(pool: &TermPool, t: TermId, index: u64) -> bool
    requires { t < length pool.now.trees }
    ensures { result ≡ is_var index (tree pool.now t) }
{
    match pool.node(t) {
        Node::Var(i) => i as u64 == index,
        _ => false,
    }
}

/// Leaves the first item of a list and the rest.
fn push_items(
    pool: &TermPool,
    pending: &mut Vec<Part>,
    args: Args,
    under: u64,
) -> Result<(), NoMemory>
    requires { IsArgs (tree pool.now) (length pool.now.trees) args }
    ensures { OnOk result (Leaves pool.now pending.old.items pending.new.items
        (size_all (items_of pool.now args)) (occurs_in under (items_of pool.now args))) }
{
    let Some(cell) = pool.first(args) else {
        return Ok(());
    };
    push_list(pending, cell.1, under)?;
    push_whole(pending, cell.0, under)?;
    Ok(())
}

/// Leaves the parts of a term.
fn push_parts(
    pool: &TermPool,
    pending: &mut Vec<Part>,
    t: TermId,
    under: u64,
) -> Result<(), NoMemory>
    requires { t < length pool.now.trees }
    ensures { OnOk result (Leaves pool.now pending.old.items pending.new.items
        (inner_size (tree pool.now t)) (occurs_inside under (tree pool.now t))) }
{
    match pool.node(t) {
        Node::Var(_) | Node::Sort(_) | Node::Def(_) | Node::Fam(_) => Ok(()),
        Node::Pi { dom, cod, .. } => push_binder(pending, dom, cod, under),
        Node::Lam { dom, body, .. } => push_binder(pending, dom, body, under),
        Node::App { fun, arg, .. } => {
            push_whole(pending, arg, under)?;
            push_whole(pending, fun, under)
        }
        Node::Con { params, .. } => push_list(pending, params, under),
        Node::Meta { args, .. } => push_list(pending, args, under),
        Node::Proj { of, .. } => push_whole(pending, of, under),
    }
}

fn push_whole(pending: &mut Vec<Part>, t: TermId, under: u64) -> Result<(), NoMemory>
    ensures { OnOk result ((p : Pool) → t < length p.trees → Leaves p pending.old.items pending.new.items
        (size (tree p t)) (occurs_lem under (tree p t))) }
{
    pending.push(Part {
        what: What::Whole(t),
        under,
    })?;
    Ok(())
}

fn push_list(pending: &mut Vec<Part>, args: Args, under: u64) -> Result<(), NoMemory>
    ensures { OnOk result ((p : Pool) → IsArgs (tree p) (length p.trees) args → Leaves p pending.old.items pending.new.items
        (size_all (items_of p args)) (occurs_in under (items_of p args))) }
{
    pending.push(Part {
        what: What::Items(args),
        under,
    })?;
    Ok(())
}

/// The parts of a binder, of which the second stands under one more variable.
fn push_binder(
    pending: &mut Vec<Part>,
    first: TermId,
    second: TermId,
    under: u64,
) -> Result<(), NoMemory>
    ensures { OnOk result ((p : Pool) → first < length p.trees → second < length p.trees → Leaves p pending.old.items pending.new.items
        (size (tree p first) + size (tree p second)) (occurs_lem under (tree p first) || occurs_lem (under + 1) (tree p second))) }
{
    let Some(inner) = under.checked_add(1) else {
        return Err(NoMemory);
    };
    push_whole(pending, second, inner)?;
    push_whole(pending, first, under)?;
    Ok(())
}
