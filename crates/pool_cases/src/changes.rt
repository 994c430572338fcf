ghost use Rattle.std.specs.Prelude.{◌<◌, length, IfOk};
ghost use Rattle.term_pool.specs.Pool.{Extends};

use crate::fault::Fault;
use core_rules::Flag;
use std::alloc::Global;
use std::io;
use term_pool::{NameId, NoMemory, Node, TermId, TermPool, fill, shift, subst, under};

/// The index of a variable, or a number that none has.
fn index(pool: &TermPool, t: TermId) -> u32
    requires { t < length pool.now.trees }
{
    match pool.node(t) {
        Node::Var(index) => index,
        _ => 999,
    }
}

/// The variables of a function type over an application: its domain's, the function's, the argument's.
fn indices(pool: &TermPool, t: TermId) -> (u32, u32, u32)
    requires { t < length pool.now.trees }
{
    let Node::Pi { dom, cod, .. } = pool.node(t) else {
        return (999, 999, 999);
    };
    let Node::App { fun, arg, .. } = pool.node(cod) else {
        return (999, 999, 999);
    };
    (index(pool, dom), index(pool, fun), index(pool, arg))
}

fn print_indices(rt: &HostRuntime, word: &str, seen: (u32, u32, u32)) -> io::Result<()> {
    println!(rt; "{word}: {} {} {}", seen.0, seen.1, seen.2)
}

/// The application of a variable to a variable.
#[tactic(auto, using(term_pool::specs::Growth::growth))]
fn application(pool: &mut TermPool, fun: u32, arg: u32) -> Result<TermId, NoMemory>
    ensures extends { Extends pool.old pool.new }
    ensures within { IfOk result (λ r. r < length pool.new.trees) }
{
    let fun = pool.add(Node::Var(fun))?;
    let arg = pool.add(Node::Var(arg))?;
    pool.add(Node::App {
        flag: Flag::Explicit,
        fun,
        arg,
    })
}

/// The type (x : 0) → 0 1.
#[tactic(auto, using(term_pool::specs::Growth::growth))]
fn function_type(pool: &mut TermPool) -> Result<TermId, NoMemory>
    ensures extends { Extends pool.old pool.new }
    ensures within { IfOk result (λ r. r < length pool.new.trees) }
{
    let cod = application(pool, 0, 1)?;
    let dom = pool.add(Node::Var(0))?;
    pool.add(Node::Pi {
        flag: Flag::Explicit,
        name: NameId::new(0),
        dom,
        cod,
    })
}

/// By hand: in (x : 0) → 0 1 variable 0 is x under the binder, and 1 is the outer 0. Raised by 2 it is
/// (x : 2) → 0 3; with variable 5 for variable 0 it is (x : 5) → 0 6.
pub fn binders(rt: &HostRuntime) -> Result<(), Fault> {
    let mut pool = TermPool::new(rt.alloc())?;
    print_raised(rt, &mut pool)?;
    print_replaced(rt, &mut pool)
}

fn print_raised(rt: &HostRuntime, pool: &mut TermPool) -> Result<(), Fault> {
    let pi = function_type(pool)?;
    let raised = shift(rt.alloc(), pool, pi, 0, 2)?;
    print_indices(rt, "raised", indices(pool, raised))?;
    Ok(())
}

#[tactic(auto, using(term_pool::specs::Growth::growth))]
fn print_replaced(rt: &HostRuntime, pool: &mut TermPool) -> Result<(), Fault> {
    let pi = function_type(pool)?;
    let by = pool.add(Node::Var(5))?;
    let replaced = subst(rt.alloc(), pool, pi, 0, by)?;
    print_indices(rt, "replaced", indices(pool, replaced))?;
    Ok(())
}

/// By hand: in the application of variable 0 to variable 2 the items 7 and 8 stand for the variables 0
/// and 1. The later variable moves down to 0, or becomes a sort.
pub fn items(rt: &HostRuntime) -> Result<(), Fault> {
    let mut pool = TermPool::new(rt.alloc())?;
    print_items(rt, &mut pool)
}

fn print_items(rt: &HostRuntime, pool: &mut TermPool) -> Result<(), Fault> {
    println!(rt; "filled: {}", is_filled(rt.alloc(), pool)?)?;
    println!(rt; "closed: {}", is_closed(rt.alloc(), pool)?)?;
    println!(rt; "a closed term stays: {}", stays(rt.alloc(), pool)?)?;
    Ok(())
}

#[tactic(auto, using(term_pool::specs::Growth::growth))]
fn is_filled(alloc: Global, pool: &mut TermPool) -> Result<bool, NoMemory> {
    let seven = pool.add(Node::Var(7))?;
    let eight = pool.add(Node::Var(8))?;
    let whole = application(pool, 0, 2)?;
    let filled = fill(alloc, pool, whole, &[seven, eight])?;
    let expected = application(pool, 7, 0)?;
    Ok(filled == expected)
}

#[tactic(auto, using(term_pool::specs::Growth::growth))]
fn is_closed(alloc: Global, pool: &mut TermPool) -> Result<bool, NoMemory> {
    let seven = pool.add(Node::Var(7))?;
    let eight = pool.add(Node::Var(8))?;
    let whole = application(pool, 0, 2)?;
    let closed = under(alloc, pool, whole, &[seven, eight])?;
    let expected = over_sort(pool)?;
    Ok(closed == expected)
}

/// The application of variable 7 to a sort.
#[tactic(auto, using(term_pool::specs::Growth::growth))]
fn over_sort(pool: &mut TermPool) -> Result<TermId, NoMemory> {
    let fun = pool.add(Node::Var(7))?;
    let arg = pool.add(Node::Sort(0))?;
    pool.add(Node::App {
        flag: Flag::Explicit,
        fun,
        arg,
    })
}

#[tactic(auto, using(term_pool::specs::Growth::growth))]
fn stays(alloc: Global, pool: &mut TermPool) -> Result<bool, NoMemory> {
    let seven = pool.add(Node::Var(7))?;
    let set = pool.add(Node::Sort(0))?;
    let before = pool.len();
    let filled = fill(alloc, pool, set, &[seven])?;
    Ok(filled == set && pool.len() == before)
}
