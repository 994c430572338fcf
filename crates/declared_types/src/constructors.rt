//! The types of constructors: how they end, under the parameters of their family, and at parameters.

ghost use Rattle.std.specs.Prelude.{◌≡◌, ◌<◌, ◌+◌, length, map, IfOk};
ghost use Rattle.std.specs.List.{AllByRecursion};
ghost use Rattle.core_rules.specs.Signature.{Family};
ghost use Rattle.core_rules.specs.Mapped.{AllCon, con_map, fam_map, telescope_map};
ghost use Rattle.core_rules.specs.Term.{Var};
ghost use Rattle.core_rules.specs.Substitution.{under};
ghost use Rattle.core_rules.specs.Elimination.{elims, args, vars_from};
ghost use Rattle.core_rules.specs.Elimination.{con_end as end_of, con_type as con_type_of};
ghost use Rattle.core_rules.specs.Typing.{IsCon};
ghost use Rattle.term_pool.specs.Pool.{Extends, StandsFor, tree};
ghost use Rattle.core_terms.specs.Signature.{Stands, signature_in, decl_of, fam_of};

use crate::families::pi_over;
use core_terms::{
    ConDecl, ConId, CoreDecl, Entry, FamId, NoMemory, Node, Signature, TermId, TermPool, under,
};
use std::alloc::Global;

/// The head at the variables of the entries, inside which there are `inner` others. Each variable is given as its entry is.
fn at_variables(
    pool: &mut TermPool,
    head: TermId,
    entries: &[Entry],
    inner: usize,
) -> Result<TermId, NoMemory>
    requires head { head < length pool.old.trees }
    ensures extends { Extends pool.old pool.new }
    ensures is { IfOk result (λ t. StandsFor pool.new t (elims (tree pool.old head)
        (args (telescope_map (tree pool.old) entries.now) (vars_from inner (length entries.now))))) }
{
    let mut made = head;
    let mut left = entries;
    while let [entry, more @ ..] = left {
        let arg = variable(pool, inner, more.len())?;
        let next = pool.add(Node::App {
            flag: entry.flag,
            fun: made,
            arg,
        })?;
        made = next;
        left = more;
    }
    Ok(made)
}

/// The variable inside which there are so many entries.
fn variable(pool: &mut TermPool, inner: usize, more: usize) -> Result<TermId, NoMemory>
    ensures extends { Extends pool.old pool.new }
    ensures is { IfOk result (λ t. StandsFor pool.new t (Var (inner + more))) }
{
    let Some(place) = inner.checked_add(more) else {
        return Err(NoMemory);
    };
    let Ok(index) = u32::try_from(place) else {
        return Err(NoMemory);
    };
    pool.add(Node::Var(index))
}

/// The head at the terms, each given as its entry is, as far as both go.
fn at_terms(
    pool: &mut TermPool,
    head: TermId,
    entries: &[Entry],
    terms: &[TermId],
) -> Result<TermId, NoMemory>
    requires head { head < length pool.old.trees }
    requires terms { AllByRecursion (λ t. t < length pool.old.trees) terms.now }
    ensures extends { Extends pool.old pool.new }
    ensures is { IfOk result (λ t. StandsFor pool.new t (elims (tree pool.old head)
        (args (telescope_map (tree pool.old) entries.now) (map (tree pool.old) terms.now)))) }
{
    let mut made = head;
    let mut left = entries;
    let mut given = terms;
    while let [entry, more @ ..] = left {
        let [arg, others @ ..] = given else {
            return Ok(made);
        };
        let next = pool.add(Node::App {
            flag: entry.flag,
            fun: made,
            arg: *arg,
        })?;
        made = next;
        left = more;
        given = others;
    }
    Ok(made)
}

/// The type in which a constructor of family `fam` ends, under the family's parameters and the constructor's arguments: the family at
/// its own parameters, and then at the constructor's indices.
pub fn con_end(
    pool: &mut TermPool,
    fam: FamId,
    decl: &CoreDecl,
    con: &ConDecl,
) -> Result<TermId, NoMemory>
    requires family { decl_of decl.now ≡ Family (fam_of decl.now) }
    requires con { AllCon (λ t. t < length pool.old.trees) con.now }
    ensures extends { Extends pool.old pool.new }
    ensures is { IfOk result (λ t. StandsFor pool.new t
        (end_of fam (fam_map (tree pool.old) (fam_of decl.now)) (con_map (tree pool.old) con.now))) }
{
    let CoreDecl::Family {
        params,
        indices,
        ..
    } = decl
    else {
        unreachable!()
    };
    let head = pool.add(Node::Fam(fam))?;
    let args = con.args.entries.as_slice();
    let inner = args.len();
    let at_params = at_variables(pool, head, params.entries.as_slice(), inner)?;
    at_terms(
        pool,
        at_params,
        indices.entries.as_slice(),
        con.indices.as_slice(),
    )
}

/// The type of a constructor of family `fam`, under the family's parameters: the function type over its arguments that ends in `con_end`.
pub fn con_type(
    pool: &mut TermPool,
    fam: FamId,
    decl: &CoreDecl,
    con: &ConDecl,
) -> Result<TermId, NoMemory>
    requires family { decl_of decl.now ≡ Family (fam_of decl.now) }
    requires con { AllCon (λ t. t < length pool.old.trees) con.now }
    ensures extends { Extends pool.old pool.new }
    ensures is { IfOk result (λ t. StandsFor pool.new t
        (con_type_of fam (fam_map (tree pool.old) (fam_of decl.now)) (con_map (tree pool.old) con.now))) }
{
    let end = con_end(pool, fam, decl, con)?;
    pi_over(pool, con.args.entries.as_slice(), end)
}

/// The type of a constructor of the signature at parameters of its family, the last one first.
pub fn type_of_con(
    alloc: Global,
    pool: &mut TermPool,
    sig: &Signature,
    con: ConId,
    params: &[TermId],
) -> Result<TermId, NoMemory>
    requires stands { Stands pool.old sig.now }
    requires con { IsCon (signature_in pool.old sig.now) con }
    requires params { AllByRecursion (λ t. t < length pool.old.trees) params.now }
    ensures extends { Extends pool.old pool.new }
    ensures is { IfOk result (λ t. (is : IsCon (signature_in pool.old sig.now) con) → StandsFor pool.new t
        (under (map (tree pool.old) params.now) (con_type_of is.fam is.decl is.con))) }
{
    let (fam, at) = sig.con(con);
    let decl = &sig.fam(fam).decl;
    let CoreDecl::Family { cons, .. } = decl else {
        unreachable!()
    };
    let con = &cons.as_slice()[at as usize];
    let ty = con_type(pool, fam, decl, con)?;
    under(alloc, pool, ty, params)
}
