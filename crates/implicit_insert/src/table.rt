ghost use Rattle.std.specs.Prelude.{◌<◌, length, IfOk};
ghost use Rattle.core_rules.specs.InScope.{IsAcyclic};
ghost use Rattle.core_rules.specs.Elimination.{elims};
ghost use Rattle.core_rules.specs.Heads.{Form};
ghost use Rattle.term_pool.specs.Pool.{Pool, Extends, tree};
ghost use Rattle.core_terms.specs.Signature.{Stands, signature_in};
ghost use Rattle.core_terms.specs.Solutions.{AreIn, solved_in};
ghost use Rattle.weak_head.specs.Elims.{AllBelow, spine_in};
ghost use Rattle.weak_head.specs.States.{AppliedBelow};
ghost use Rattle.need_rules.specs.Needs.{need_of, own_field};
ghost use Rattle.implicit_insert.specs.Answers.{IsAt, IsNeed, IsOwn, IsTaken, next_in};
ghost use Rattle.implicit_insert.specs.Places.{by_family, by_function, other, takes};

use crate::need::{Need, Next};
use core_rules::Flag;
use core_terms::{
    FamId, FieldId, NameId, NoMemory, Node, Row, Signature, Solutions, TermId, TermPool,
};
use declared_types::params_for;
use std::alloc::Global;
use weak_head::{Applied, Elim, Reduced, applied, reduce};

/// What a spine of the type `ty` needs before or for what stands next. It is exactly what the table of needs says of the type's bounded
/// head form; out of memory is the one other answer.
pub fn next_argument<S: Solutions>(
    alloc: Global,
    pool: &mut TermPool,
    sig: &Signature,
    sol: &S,
    ty: TermId,
    next: Next,
    fuel: u32,
) -> Need
    requires ty { ty < length pool.old.trees }
    requires stands { Stands pool.old sig.now }
    requires solutions { AreIn pool.old (S.solution sol.now) }
    requires acyclic { IsAcyclic (solved_in pool.old (S.solution sol.now)) }
    ensures extends { Extends pool.old pool.new }
    ensures answer { IsNeed (signature_in pool.old sig.now) (solved_in pool.old (S.solution sol.now))
        (tree pool.old ty) next fuel pool.new result }
{
    match need_of_type(alloc, pool, sig, sol, ty, next, fuel) {
        Ok(need) => need,
        Err(NoMemory) => Need::NoMemory,
    }
}

fn need_of_type<S: Solutions>(
    alloc: Global,
    pool: &mut TermPool,
    sig: &Signature,
    sol: &S,
    ty: TermId,
    next: Next,
    fuel: u32,
) -> Result<Need, NoMemory>
    requires ty { ty < length pool.old.trees }
    requires stands { Stands pool.old sig.now }
    requires solutions { AreIn pool.old (S.solution sol.now) }
    requires acyclic { IsAcyclic (solved_in pool.old (S.solution sol.now)) }
    ensures extends { Extends pool.old pool.new }
    ensures answer { IfOk result (λ r. IsNeed (signature_in pool.old sig.now) (solved_in pool.old (S.solution sol.now))
        (tree pool.old ty) next fuel pool.new r) }
{
    match reduce(alloc, pool, sig, sol, ty, fuel)? {
        Reduced::OutOfFuel => Ok(Need::OutOfFuel),
        Reduced::Found {
            meta: Some(meta),
            ..
        } => Ok(Need::Blocked { meta }),
        Reduced::Found {
            meta: None,
            term,
            ..
        } => need_at(alloc, pool, sig, &term, &next),
    }
}

/// The need at a head form.
fn need_at(
    alloc: Global,
    pool: &mut TermPool,
    sig: &Signature,
    form: &Applied,
    next: &Next,
) -> Result<Need, NoMemory>
    requires stands { Stands pool.old sig.now }
    requires form { AppliedBelow (length pool.old.trees) form.now }
    ensures extends { Extends pool.old pool.new }
    ensures is { IfOk result (IsAt (need_of (signature_in pool.old sig.now)
        (Form (tree pool.old form.now.head) (spine_in (tree pool.old) form.now.spine.items)) (next_in next.now)) pool.new) }
{
    if let Some(need) = taken(alloc, pool, sig, form, next)? {
        return Ok(need);
    }
    other_need(pool, form, next)
}

/// The need at a head form that has a place for what stands next.
fn taken(
    alloc: Global,
    pool: &TermPool,
    sig: &Signature,
    form: &Applied,
    next: &Next,
) -> Result<Option<Need>, NoMemory>
    requires form { AppliedBelow (length pool.now.trees) form.now }
    ensures { IfOk result (IsTaken (takes (signature_in pool.now sig.now) (next_in next.now)
        (tree pool.now form.now.head) (spine_in (tree pool.now) form.now.spine.items)) pool.now) }
{
    match pool.node(form.head) {
        Node::Pi {
            flag,
            name,
            dom,
            cod,
        } if form.spine.is_empty() => Ok(by_function(flag, name, dom, cod, next)),
        Node::Fam(fam) => by_family(alloc, pool, sig, fam, form, next),
        _ => Ok(None),
    }
}

fn by_function(flag: Flag, name: NameId, dom: TermId, cod: TermId, next: &Next) -> Option<Need>
    ensures { (p : Pool) → dom < length p.trees → cod < length p.trees →
        IsTaken (by_function flag name (tree p dom) (tree p cod) (next_in next.now)) p result }
{
    match flag {
        Flag::Explicit => match next {
            Next::Plain => Some(Need::Explicit { dom, cod }),
            _ => None,
        },
        Flag::Implicit => Some(match next {
            Next::Braces => Need::Given { dom, cod },
            Next::Named(wanted) if wanted.number() == name.number() => Need::Given { dom, cod },
            _ => Need::Insert { dom, cod },
        }),
    }
}

fn by_family(
    alloc: Global,
    pool: &TermPool,
    sig: &Signature,
    fam: FamId,
    form: &Applied,
    next: &Next,
) -> Result<Option<Need>, NoMemory>
    requires { AppliedBelow (length pool.now.trees) form.now }
    ensures { IfOk result (IsTaken (by_family (signature_in pool.now sig.now) fam
        (spine_in (tree pool.now) form.now.spine.items) (next_in next.now)) pool.now) }
{
    let Next::Field(field) = next else {
        return Ok(None);
    };
    let Some(params) = own_params(alloc, pool, sig, fam, form.spine.as_slice(), *field)? else {
        return Ok(None);
    };
    Ok(Some(Need::Project {
        fam,
        params: Row::from_vec(params),
    }))
}

/// The parameters of the family, where it is a record at all of them and the field is one of its own.
fn own_params(
    alloc: Global,
    pool: &TermPool,
    sig: &Signature,
    fam: FamId,
    spine: &[Elim],
    field: FieldId,
) -> Result<Option<Vec<TermId>>, NoMemory>
    requires { AllBelow (length pool.now.trees) spine.now }
    ensures { IfOk result (IsOwn pool.now fam (own_field (signature_in pool.now sig.now) fam (spine_in (tree pool.now) spine.now) field)) }
{
    if field.number() >= sig.fields() {
        return Ok(None);
    }
    let (of, _) = sig.field(field);
    if of.number() != fam.number() {
        return Ok(None);
    }
    params_for(alloc, &sig.fam(of).decl, spine)
}

/// The need at a head form that has no place for what stands next.
fn other_need(pool: &mut TermPool, form: &Applied, next: &Next) -> Result<Need, NoMemory>
    requires { AppliedBelow (length pool.old.trees) form.now }
    ensures extends { Extends pool.old pool.new }
    ensures is { IfOk result (IsAt (other
        (elims (tree pool.old form.now.head) (spine_in (tree pool.old) form.now.spine.items)) (next_in next.now)) pool.new) }
{
    Ok(match next {
        Next::Nothing => Need::End,
        Next::Plain => Need::NotAFunction {
            ty: applied(pool, form)?,
        },
        Next::Braces | Next::Named(_) => Need::NoSuchName,
        Next::Field(_) => Need::NotARecord {
            ty: applied(pool, form)?,
        },
    })
}
