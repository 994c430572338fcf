ghost use Rattle.std.specs.Prelude.{◌<◌, length, IfOk};
ghost use Rattle.term_pool.specs.Pool.{Extends};

use crate::fault::Fault;
use core_rules::Flag;
use term_pool::{Count, NameId, Names, NoMemory, Node, PoolMark, TermId, TermPool, count_nodes};

/// What a count says: nodes and levels, or zeros.
fn counted(count: Count) -> (u32, u32) {
    match count {
        Count::Within { nodes, depth } => (nodes, depth),
        Count::TooLarge => (0, 0),
    }
}

pub fn names(rt: &HostRuntime) -> Result<(), Fault> {
    let mut names = Names::new(rt.alloc())?;
    print_names(rt, &mut names)
}

fn print_names(rt: &HostRuntime, names: &mut Names) -> Result<(), Fault> {
    let nat = names.add("ℕ")?.number();
    let empty = names.add("")?.number();
    println!(rt; "names {nat} and {empty}, {} in all", names.len())?;
    names.cut(1);
    println!(rt; "one is left: {}", names.len())?;
    Ok(())
}

/// By hand: a sort, a variable, and the function type without a name and with each of two names are five
/// ids. The first two are left after the cut.
pub fn pool(rt: &HostRuntime) -> Result<(), Fault> {
    let mut pool = TermPool::new(rt.alloc())?;
    let mark = leaves(&mut pool)?;
    print_types(rt, &mut pool)?;
    print_cut(rt, &mut pool, mark)
}

/// A sort and a variable, and the mark after them.
fn leaves(pool: &mut TermPool) -> Result<PoolMark, NoMemory> {
    pool.add(Node::Sort(0))?;
    pool.add(Node::Var(0))?;
    Ok(pool.mark())
}

/// The function type over the sort and the variable, whose binder has this name.
#[tactic(auto, using(term_pool::specs::Growth::growth))]
fn named(pool: &mut TermPool, name: u32) -> Result<TermId, NoMemory>
    ensures extends { Extends pool.old pool.new }
    ensures within { IfOk result (λ r. r < length pool.new.trees) }
{
    let dom = pool.add(Node::Sort(0))?;
    let cod = pool.add(Node::Var(0))?;
    pool.add(Node::Pi {
        flag: Flag::Implicit,
        name: NameId::new(name),
        dom,
        cod,
    })
}

fn print_types(rt: &HostRuntime, pool: &mut TermPool) -> Result<(), Fault> {
    print_one(rt, pool)?;
    print_other(rt, pool)?;
    print_measures(rt, pool)
}

fn print_one(rt: &HostRuntime, pool: &mut TermPool) -> Result<(), Fault> {
    let whole = named(pool, 4)?;
    let again = named(pool, 4)?;
    println!(rt; "one node is one id: {}", whole == again)?;
    Ok(())
}

#[tactic(auto, using(term_pool::specs::Growth::growth))]
fn print_other(rt: &HostRuntime, pool: &mut TermPool) -> Result<(), Fault> {
    let whole = named(pool, 4)?;
    let other = named(pool, 5)?;
    let same = pool.same_class(whole, other);
    println!(rt; "another name: {}, the same term: {same}", whole != other)?;
    Ok(())
}

fn print_measures(rt: &HostRuntime, pool: &mut TermPool) -> Result<(), Fault> {
    let whole = named(pool, 4)?;
    let (nodes, levels) = counted(count_nodes(pool, whole)?);
    println!(rt; "{nodes} nodes, {levels} levels")?;
    let bound = pool.add(Node::Var(0))?;
    println!(rt; "reach {}", pool.reach(bound))?;
    Ok(())
}

fn print_cut(rt: &HostRuntime, pool: &mut TermPool, mark: PoolMark) -> Result<(), Fault> {
    let second = pool.copy()?;
    pool.cut(mark);
    println!(rt; "{} left of {}", pool.len(), second.len())?;
    Ok(())
}
