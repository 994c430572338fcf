ghost use Rattle.std.specs.Prelude.{◌↔◌, ◌<◌, length, IsTrue};
ghost use Rattle.std.specs.List.{AllByRecursion};

use crate::fault::Fault;
use core_rules::Flag;
use core_terms::{ConId, DefId, FamId, FieldId, MetaId, NameId, Node, TermId, TermPool};

/// The flag and the number of the name of a binder.
#[derive(Clone, Copy)]
pub struct Binder {
    pub flag: Flag,
    pub name: u32,
}

/// Whether an id stands in the pool.
pub fn is_in(pool: &TermPool, t: TermId) -> bool
    ensures { IsTrue result ↔ (t < length pool.now.trees) }
{
    (t.number() as usize) < pool.len()
}

/// Whether all of them stand there.
pub fn are_in(pool: &TermPool, ids: &[TermId]) -> bool
    ensures { IsTrue result → AllByRecursion (λ t. t < length pool.now.trees) ids.now }
{
    let mut left = ids;
    while let [t, more @ ..] = left {
        if !is_in(pool, *t) {
            return false;
        }
        left = more;
    }
    true
}

pub fn variable(pool: &mut TermPool, index: u32) -> Result<TermId, Fault> {
    Ok(pool.add(Node::Var(index))?)
}

pub fn sort(pool: &mut TermPool, level: u32) -> Result<TermId, Fault> {
    Ok(pool.add(Node::Sort(level))?)
}

pub fn family(pool: &mut TermPool, number: u32) -> Result<TermId, Fault> {
    Ok(pool.add(Node::Fam(FamId::new(number)))?)
}

pub fn definition(pool: &mut TermPool, number: u32) -> Result<TermId, Fault> {
    Ok(pool.add(Node::Def(DefId::new(number)))?)
}

/// A constructor at parameters.
#[tactic(auto, using(term_pool::specs::Growth::growth))]
pub fn constructor(pool: &mut TermPool, number: u32, params: &[TermId]) -> Result<TermId, Fault> {
    if !are_in(pool, params) {
        return Err(Fault::Stray);
    }
    let params = pool.add_args(params)?;
    let con = ConId::new(number);
    Ok(pool.add(Node::Con { con, params })?)
}

/// A metavariable at two arguments, the outermost first.
#[tactic(auto, using(term_pool::specs::Growth::growth))]
pub fn metavariable(
    pool: &mut TermPool,
    number: u32,
    outer: TermId,
    inner: TermId,
) -> Result<TermId, Fault> {
    if !is_in(pool, outer) {
        return Err(Fault::Stray);
    }
    if !is_in(pool, inner) {
        return Err(Fault::Stray);
    }
    let args = pool.add_args(&[outer, inner])?;
    let meta = MetaId::new(number);
    Ok(pool.add(Node::Meta { meta, args })?)
}

pub fn apply(pool: &mut TermPool, flag: Flag, fun: TermId, arg: TermId) -> Result<TermId, Fault> {
    if !is_in(pool, fun) {
        return Err(Fault::Stray);
    }
    if !is_in(pool, arg) {
        return Err(Fault::Stray);
    }
    Ok(pool.add(Node::App { flag, fun, arg })?)
}

pub fn project(pool: &mut TermPool, field: u32, of: TermId) -> Result<TermId, Fault> {
    if !is_in(pool, of) {
        return Err(Fault::Stray);
    }
    let field = FieldId::new(field);
    Ok(pool.add(Node::Proj { field, of })?)
}

/// A function type with this binder.
pub fn pi(pool: &mut TermPool, binder: Binder, dom: TermId, cod: TermId) -> Result<TermId, Fault> {
    if !is_in(pool, dom) {
        return Err(Fault::Stray);
    }
    if !is_in(pool, cod) {
        return Err(Fault::Stray);
    }
    let (flag, name) = (binder.flag, NameId::new(binder.name));
    Ok(pool.add(Node::Pi {
        flag,
        name,
        dom,
        cod,
    })?)
}

/// A lambda with this binder.
pub fn lambda(
    pool: &mut TermPool,
    binder: Binder,
    dom: TermId,
    body: TermId,
) -> Result<TermId, Fault> {
    if !is_in(pool, dom) {
        return Err(Fault::Stray);
    }
    if !is_in(pool, body) {
        return Err(Fault::Stray);
    }
    let (flag, name) = (binder.flag, NameId::new(binder.name));
    Ok(pool.add(Node::Lam {
        flag,
        name,
        dom,
        body,
    })?)
}

/// An explicit binder without a name.
fn plain() -> Binder {
    Binder {
        flag: Flag::Explicit,
        name: 0,
    }
}

/// The body under so many explicit lambdas.
pub fn lambdas(
    pool: &mut TermPool,
    dom: TermId,
    body: TermId,
    times: u32,
) -> Result<TermId, Fault> {
    let mut t = body;
    for _ in 0..times {
        t = lambda(pool, plain(), dom, t)?;
    }
    Ok(t)
}

/// The explicit function type that takes so many arguments.
pub fn pis(pool: &mut TermPool, dom: TermId, cod: TermId, times: u32) -> Result<TermId, Fault> {
    let mut t = cod;
    for _ in 0..times {
        t = pi(pool, plain(), dom, t)?;
    }
    Ok(t)
}

/// The function at the argument so many times over.
pub fn spine(pool: &mut TermPool, fun: TermId, arg: TermId, times: u32) -> Result<TermId, Fault> {
    let mut t = fun;
    for _ in 0..times {
        t = apply(pool, Flag::Explicit, t, arg)?;
    }
    Ok(t)
}

/// The function at what the function is at, so often, and at last at the argument.
pub fn repeat(pool: &mut TermPool, fun: TermId, arg: TermId, times: u32) -> Result<TermId, Fault> {
    let mut t = arg;
    for _ in 0..times {
        t = apply(pool, Flag::Explicit, fun, t)?;
    }
    Ok(t)
}

/// The function at the term twice, at this twice, and so on, so often.
pub fn double(pool: &mut TermPool, fun: TermId, arg: TermId, times: u32) -> Result<TermId, Fault> {
    let mut t = arg;
    for _ in 0..times {
        t = at_twice(pool, fun, t)?;
    }
    Ok(t)
}

fn at_twice(pool: &mut TermPool, fun: TermId, arg: TermId) -> Result<TermId, Fault> {
    let at = apply(pool, Flag::Explicit, fun, arg)?;
    apply(pool, Flag::Explicit, at, arg)
}
