ghost use Rattle.std.specs.Prelude.{◌≡◌, ◌<◌, length, IfOk};
ghost use Rattle.core_rules.specs.Term.{Sort};
ghost use Rattle.term_pool.specs.Pool.{Extends, tree};
ghost use Rattle.core_cases.specs.Acyclic.{one};

use crate::fault::Fault;
use core_rules::Flag;
use core_terms::{
    Count, MetaId, NameId, NoMemory, NoSolutions, Node, Solutions, TermId, TermPool, count_nodes,
    instantiate, same_term, shift, subst, under,
};
use std::alloc::Global;
use std::io;

/// One metavariable is solved.
#[derive(Drop)]
struct One {
    meta: MetaId,
    term: TermId,
}

impl Solutions for One {
    ghost solution = { λ s m. one s.meta s.term m };

    fn lookup(&self, m: MetaId) -> Option<TermId> {
        if m.number() == self.meta.number() {
            Some(self.term)
        } else {
            None
        }
    }
}

/// The term applied to itself, and this to itself, sixty times.
fn doubled_term(pool: &mut TermPool, t: TermId) -> Result<TermId, NoMemory>
    requires { t < length pool.old.trees }
    ensures extends { Extends pool.old pool.new }
    ensures within { IfOk result (λ r. r < length pool.new.trees) }
{
    let mut term = t;
    for _ in 0..60 {
        term = pool.add(Node::App {
            flag: Flag::Explicit,
            fun: term,
            arg: term,
        })?;
    }
    Ok(term)
}

/// The term applied to the argument a million times.
fn chain_of(pool: &mut TermPool, t: TermId, arg: TermId) -> Result<TermId, NoMemory>
    requires t { t < length pool.old.trees }
    requires arg { arg < length pool.old.trees }
    ensures extends { Extends pool.old pool.new }
    ensures within { IfOk result (λ r. r < length pool.new.trees) }
{
    let mut term = t;
    for _ in 0..1_000_000 {
        term = pool.add(Node::App {
            flag: Flag::Explicit,
            fun: term,
            arg,
        })?;
    }
    Ok(term)
}

/// The metavariable that is solved, applied to nothing.
#[tactic(auto, using(term_pool::specs::Growth::growth))]
fn hole(pool: &mut TermPool) -> Result<TermId, NoMemory>
    ensures extends { Extends pool.old pool.new }
    ensures within { IfOk result (λ r. r < length pool.new.trees) }
{
    let args = pool.add_args(&[])?;
    pool.add(Node::Meta {
        meta: MetaId::new(0),
        args,
    })
}

/// A variable, a sort and the metavariable: three nodes.
fn add_leaves(pool: &mut TermPool) -> Result<(), NoMemory> {
    pool.add(Node::Var(0))?;
    pool.add(Node::Sort(0))?;
    hole(pool)?;
    Ok(())
}

/// The term with a sort for the metavariable.
fn instance(alloc: Global, pool: &mut TermPool, one: &One, t: TermId) -> Result<TermId, NoMemory>
    requires t { t < length pool.old.trees }
    requires solution { one.now.term < length pool.old.trees }
    requires sort { tree pool.old one.now.term ≡ Sort 0 }
    ensures { Extends pool.old pool.new }
{
    instantiate(alloc, pool, one, t)
}

/// Whether the terms are the same with a sort for the metavariable.
fn is_same(
    alloc: Global,
    pool: &mut TermPool,
    one: &One,
    t: TermId,
    u: TermId,
) -> Result<bool, NoMemory>
    requires t { t < length pool.old.trees }
    requires u { u < length pool.old.trees }
    requires solution { one.now.term < length pool.old.trees }
    requires sort { tree pool.old one.now.term ≡ Sort 0 }
    ensures { Extends pool.old pool.new }
{
    same_term(alloc, pool, one, t, u)
}

fn same_term_of_none(
    alloc: Global,
    pool: &mut TermPool,
    t: TermId,
    u: TermId,
) -> Result<bool, NoMemory>
    requires t { t < length pool.old.trees }
    requires u { u < length pool.old.trees }
{
    same_term(alloc, pool, &NoSolutions, t, u)
}

fn is_too_large(pool: &TermPool, t: TermId) -> Result<bool, NoMemory>
    requires { t < length pool.now.trees }
{
    Ok(count_nodes(pool, t)? == Count::TooLarge)
}

fn print_size(rt: &HostRuntime, word: &str, pool: &TermPool, t: TermId) -> Result<(), Fault>
    requires { t < length pool.now.trees }
{
    let is_too_large = is_too_large(pool, t)?;
    println!(rt; "{word}: {} nodes, too large: {is_too_large}", pool.len())?;
    Ok(())
}

fn print_nodes(rt: &HostRuntime, word: &str, pool: &TermPool) -> io::Result<()> {
    println!(rt; "{word}: {} nodes", pool.len())
}

fn print_same(rt: &HostRuntime, word: &str, pool: &TermPool, same: bool) -> io::Result<()> {
    println!(rt; "{word}: {} nodes, the same: {same}", pool.len())
}

/// By hand: the variable, the sort, which is the empty list too, and the metavariable are three nodes.
/// Doubling makes 60 nodes. Raised it has 61 others; with the sort for the variable 60 others, which
/// are those of the term under the sort and of the metavariable's term with its solution.
pub fn doubled(rt: &HostRuntime) -> Result<(), Fault> {
    let mut pool = TermPool::new(rt.alloc())?;
    add_leaves(&mut pool)?;
    print_doubled(rt, &mut pool)
}

#[tactic(auto, using(term_pool::specs::Growth::growth))]
fn print_doubled(rt: &HostRuntime, pool: &mut TermPool) -> Result<(), Fault> {
    let term = print_term(rt, pool)?;
    let closed = print_changed(rt, pool, term)?;
    let waiting = print_waiting(rt, pool)?;
    print_instance(rt, pool, waiting, closed)?;
    print_compared(rt, pool, "the same with its solution", waiting, closed)?;
    print_compared(rt, pool, "the same as that of the variable", waiting, term)
}

/// The doubled variable.
#[tactic(auto, using(term_pool::specs::Growth::growth))]
fn print_term(rt: &HostRuntime, pool: &mut TermPool) -> Result<TermId, Fault>
    ensures extends { Extends pool.old pool.new }
    ensures within { IfOk result (λ r. r < length pool.new.trees) }
{
    let variable = pool.add(Node::Var(0))?;
    let term = doubled_term(pool, variable)?;
    print_size(rt, "doubled", pool, term)?;
    Ok(term)
}

/// The term under the sort, after the other changes of it.
#[tactic(auto, using(term_pool::specs::Growth::growth))]
fn print_changed(rt: &HostRuntime, pool: &mut TermPool, term: TermId) -> Result<TermId, Fault>
    requires { term < length pool.old.trees }
    ensures extends { Extends pool.old pool.new }
    ensures within { IfOk result (λ r. r < length pool.new.trees) }
{
    print_raised(rt, pool, term)?;
    let replaced = print_replaced(rt, pool, term)?;
    let closed = closed(rt.alloc(), pool, term)?;
    print_same(rt, "closed", pool, closed == replaced)?;
    Ok(closed)
}

fn print_raised(rt: &HostRuntime, pool: &mut TermPool, term: TermId) -> Result<(), Fault>
    requires { term < length pool.old.trees }
    ensures { Extends pool.old pool.new }
{
    shift(rt.alloc(), pool, term, 0, 7)?;
    print_nodes(rt, "raised", pool)?;
    Ok(())
}

/// The term with the sort for the variable.
#[tactic(auto, using(term_pool::specs::Growth::growth))]
fn print_replaced(rt: &HostRuntime, pool: &mut TermPool, term: TermId) -> Result<TermId, Fault>
    requires { term < length pool.old.trees }
    ensures { Extends pool.old pool.new }
{
    let set = pool.add(Node::Sort(0))?;
    let replaced = subst(rt.alloc(), pool, term, 0, set)?;
    print_nodes(rt, "replaced", pool)?;
    Ok(replaced)
}

#[tactic(auto, using(term_pool::specs::Growth::growth))]
fn closed(alloc: Global, pool: &mut TermPool, t: TermId) -> Result<TermId, NoMemory>
    requires { t < length pool.old.trees }
    ensures extends { Extends pool.old pool.new }
    ensures within { IfOk result (λ r. r < length pool.new.trees) }
{
    let set = pool.add(Node::Sort(0))?;
    under(alloc, pool, t, &[set])
}

/// The doubled metavariable.
#[tactic(auto, using(term_pool::specs::Growth::growth))]
fn print_waiting(rt: &HostRuntime, pool: &mut TermPool) -> Result<TermId, Fault>
    ensures extends { Extends pool.old pool.new }
    ensures within { IfOk result (λ r. r < length pool.new.trees) }
{
    let hole = hole(pool)?;
    let waiting = doubled_term(pool, hole)?;
    print_nodes(rt, "of the metavariable", pool)?;
    Ok(waiting)
}

#[tactic(auto, using(term_pool::specs::Growth::growth))]
fn print_instance(
    rt: &HostRuntime,
    pool: &mut TermPool,
    waiting: TermId,
    closed: TermId,
) -> Result<(), Fault>
    requires { waiting < length pool.old.trees }
    ensures { Extends pool.old pool.new }
{
    let term = pool.add(Node::Sort(0))?;
    let meta = MetaId::new(0);
    let made = instance(rt.alloc(), pool, &One { meta, term }, waiting)?;
    print_same(rt, "with its solution", pool, made == closed)?;
    Ok(())
}

#[tactic(auto, using(term_pool::specs::Growth::growth))]
fn print_compared(
    rt: &HostRuntime,
    pool: &mut TermPool,
    word: &str,
    t: TermId,
    u: TermId,
) -> Result<(), Fault>
    requires t { t < length pool.old.trees }
    requires u { u < length pool.old.trees }
    ensures { Extends pool.old pool.new }
{
    let term = pool.add(Node::Sort(0))?;
    let meta = MetaId::new(0);
    let same = is_same(rt.alloc(), pool, &One { meta, term }, t, u)?;
    println!(rt; "{word}: {same}")?;
    Ok(())
}

/// Terms doubled apart, whose binders have two names.
pub fn apart(rt: &HostRuntime) -> Result<(), Fault> {
    let mut pool = TermPool::new(rt.alloc())?;
    print_apart(rt, &mut pool)
}

#[tactic(auto, using(term_pool::specs::Growth::growth))]
fn print_apart(rt: &HostRuntime, pool: &mut TermPool) -> Result<(), Fault> {
    let first = doubled_type(pool, 1)?;
    let second = doubled_type(pool, 2)?;
    let same = same_term_of_none(rt.alloc(), pool, first, second)?;
    println!(rt;
        "doubled apart: one id {}, the same term {same}",
        first == second
    )?;
    Ok(())
}

/// A function type whose binder has this name, doubled.
#[tactic(auto, using(term_pool::specs::Growth::growth))]
fn doubled_type(pool: &mut TermPool, name: u32) -> Result<TermId, NoMemory>
    ensures extends { Extends pool.old pool.new }
    ensures within { IfOk result (λ r. r < length pool.new.trees) }
{
    let set = pool.add(Node::Sort(0))?;
    let ty = pool.add(Node::Pi {
        flag: Flag::Explicit,
        name: NameId::new(name),
        dom: set,
        cod: set,
    })?;
    doubled_term(pool, ty)
}

/// By hand: the chain over the variable makes a million nodes, and raised a million and one others; that
/// over the metavariable a million, and with its solution a million others.
pub fn chain(rt: &HostRuntime) -> Result<(), Fault> {
    let mut pool = TermPool::new(rt.alloc())?;
    add_leaves(&mut pool)?;
    print_chain(rt, &mut pool)?;
    print_waiting_chain(rt, &mut pool)
}

#[tactic(auto, using(term_pool::specs::Growth::growth))]
fn print_chain(rt: &HostRuntime, pool: &mut TermPool) -> Result<(), Fault> {
    let variable = pool.add(Node::Var(0))?;
    let term = chain_of(pool, variable, variable)?;
    print_size(rt, "chain", pool, term)?;
    print_raised(rt, pool, term)
}

#[tactic(auto, using(term_pool::specs::Growth::growth))]
fn print_waiting_chain(rt: &HostRuntime, pool: &mut TermPool) -> Result<(), Fault> {
    let hole = hole(pool)?;
    let set = pool.add(Node::Sort(0))?;
    let waiting = chain_of(pool, set, hole)?;
    print_nodes(rt, "of the metavariable", pool)?;
    print_chain_instance(rt, pool, waiting)
}

#[tactic(auto, using(term_pool::specs::Growth::growth))]
fn print_chain_instance(rt: &HostRuntime, pool: &mut TermPool, waiting: TermId) -> Result<(), Fault>
    requires { waiting < length pool.old.trees }
{
    let term = pool.add(Node::Sort(0))?;
    let meta = MetaId::new(0);
    instance(rt.alloc(), pool, &One { meta, term }, waiting)?;
    print_nodes(rt, "with its solution", pool)?;
    Ok(())
}
