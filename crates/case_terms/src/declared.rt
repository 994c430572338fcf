ghost use Rattle.std.specs.Prelude.{◌≡◌, ◌<◌, length, IfOk, OnOk};
ghost use Rattle.core_terms.specs.Signature.{Stands};
ghost use Rattle.case_terms.specs.Standing.{ConIn, DeclIn, EntriesIn, TreeIn};

use crate::fault::Fault;
use crate::scope::is_declared_in;
use crate::terms::is_in;
use crate::trees::{absurd, cosplit, goes, intro, leaf, record_split, refuted, split};
use crate::words::term;
use core_rules::Flag;
use core_terms::{
    ConDecl, CoreDecl, Entry, NameId, Row, Signature, Telescope, TermId, TermPool, Tree,
};
use std::alloc::Global;

/// The terms of the declarations, and of numbers.
#[derive(Clone, Copy)]
pub struct Bodies {
    ty: TermId,
    v0: TermId,
    pub zero: TermId,
    pub suc: TermId,
    suc_of_plus: TermId,
    down_of_v0: TermId,
    turn_of_v0: TermId,
}

impl Bodies {
    pub fn new(alloc: Global, pool: &mut TermPool) -> Result<Bodies, Fault> {
        Ok(Bodies {
            ty: term(alloc, pool, "*")?,
            v0: term(alloc, pool, "0")?,
            zero: term(alloc, pool, "zero")?,
            suc: term(alloc, pool, "suc")?,
            suc_of_plus: term(alloc, pool, "suc plus 1 @ 0 @ @")?,
            down_of_v0: term(alloc, pool, "down 0 @")?,
            turn_of_v0: term(alloc, pool, "turn 0 @")?,
        })
    }
}

fn telescope(alloc: Global, entries: &[Entry]) -> Result<Telescope, Fault>
    ensures { IfOk result (λ t. t ≡ entries.now) }
{
    Ok(Telescope {
        entries: Row::from_vec(Vec::from_slice(alloc, entries)?),
    })
}

fn constructor(alloc: Global, pool: &TermPool, args: &[Entry]) -> Result<ConDecl, Fault>
    requires { EntriesIn pool.now args.now }
    ensures { IfOk result (ConIn pool.now) }
{
    let args = telescope(alloc, args)?;
    Ok(ConDecl {
        name: None,
        args,
        indices: Row::from_vec(Vec::new(alloc)),
    })
}

/// A data type with a constructor that has no argument and one that has one.
fn numbers(alloc: Global, pool: &TermPool, ty: TermId) -> Result<CoreDecl, Fault>
    requires { ty < length pool.now.trees }
    ensures { IfOk result (DeclIn pool.now) }
{
    let (name, flag) = (NameId::new(0), Flag::Explicit);
    let entry = Entry { name, flag, ty };
    let zero = constructor(alloc, pool, &[])?;
    let suc = constructor(alloc, pool, &[entry])?;
    Ok(CoreDecl::Family {
        name,
        params: telescope(alloc, &[])?,
        indices: telescope(alloc, &[])?,
        level: 0,
        is_record: false,
        cons: Row::from_vec(vec![in alloc; zero, suc]?),
        fields: telescope(alloc, &[])?,
        eta: false,
        coinductive: false,
    })
}

/// A record with these fields, with or without eta.
fn record(alloc: Global, pool: &TermPool, fields: &[Entry], eta: bool) -> Result<CoreDecl, Fault>
    requires { EntriesIn pool.now fields.now }
    ensures { IfOk result (DeclIn pool.now) }
{
    let con = constructor(alloc, pool, fields)?;
    Ok(CoreDecl::Family {
        name: NameId::new(0),
        params: telescope(alloc, &[])?,
        indices: telescope(alloc, &[])?,
        level: 0,
        is_record: true,
        cons: Row::from_vec(vec![in alloc; con]?),
        fields: telescope(alloc, fields)?,
        eta,
        coinductive: false,
    })
}

/// The data type, with constructors 0 and 1; a record that has eta, with constructor 2 and fields 0 and 1;
/// two without fields, the one with constructor 3 without eta and the one with 4 with it; then the
/// functions and the postulate, in the order of their words.
pub fn signature(alloc: Global, pool: &TermPool, bodies: &Bodies) -> Result<Signature, Fault>
    ensures { IfOk result (Stands pool.now) }
{
    let mut sig = families(alloc, pool, bodies.ty)?;
    plus(alloc, pool, &mut sig, bodies)?;
    down(alloc, pool, &mut sig, bodies)?;
    both(alloc, pool, &mut sig, bodies)?;
    pred(alloc, pool, &mut sig, bodies)?;
    copies(alloc, pool, &mut sig, bodies)?;
    second(alloc, pool, &mut sig, bodies)?;
    empty(alloc, pool, &mut sig, bodies)?;
    turn(alloc, pool, &mut sig, bodies)?;
    postulate(pool, &mut sig, bodies.ty)?;
    Ok(sig)
}

fn families(alloc: Global, pool: &TermPool, ty: TermId) -> Result<Signature, Fault>
    ensures { IfOk result (Stands pool.now) }
{
    if !is_in(pool, ty) {
        return Err(Fault::Stray);
    }
    let (name, flag) = (NameId::new(0), Flag::Explicit);
    let entry = Entry { name, flag, ty };
    let mut sig = Signature::new(alloc)?;
    declare(pool, &mut sig, numbers(alloc, pool, ty)?)?;
    declare(pool, &mut sig, record(alloc, pool, &[entry, entry], true)?)?;
    declare(pool, &mut sig, record(alloc, pool, &[], false)?)?;
    declare(pool, &mut sig, record(alloc, pool, &[], true)?)?;
    Ok(sig)
}

/// The signature of these declarations, whose terms stand in the pool.
pub fn signature_of(
    alloc: Global,
    pool: &TermPool,
    decls: Vec<CoreDecl>,
) -> Result<Signature, Fault>
    ensures { IfOk result (Stands pool.now) }
{
    let mut sig = Signature::new(alloc)?;
    for decl in decls {
        if !is_declared_in(pool, &decl) {
            return Err(Fault::Stray);
        }
        declare(pool, &mut sig, decl)?;
    }
    Ok(sig)
}

fn declare(pool: &TermPool, sig: &mut Signature, decl: CoreDecl) -> Result<(), Fault>
    requires stands { Stands pool.now sig.old }
    requires decl { DeclIn pool.now decl }
    ensures { OnOk result (Stands pool.now sig.new) }
{
    sig.add(decl)?;
    Ok(())
}

/// The next function, by its tree.
fn function(
    alloc: Global,
    pool: &TermPool,
    sig: &mut Signature,
    ty: TermId,
    tree: Tree,
) -> Result<(), Fault>
    requires stands { Stands pool.now sig.old }
    requires tree { TreeIn pool.now tree }
    ensures { OnOk result (Stands pool.now sig.new) }
{
    if !is_in(pool, ty) {
        return Err(Fault::Stray);
    }
    let clauses = Row::from_vec(Vec::new(alloc));
    let name = NameId::new(0);
    declare(
        pool,
        sig,
        CoreDecl::Function {
            name,
            ty,
            clauses,
            tree,
        },
    )
}

fn postulate(pool: &TermPool, sig: &mut Signature, ty: TermId) -> Result<(), Fault>
    requires { Stands pool.now sig.old }
    ensures { OnOk result (Stands pool.now sig.new) }
{
    if !is_in(pool, ty) {
        return Err(Fault::Stray);
    }
    let name = NameId::new(0);
    declare(pool, sig, CoreDecl::Postulate { name, ty })
}

/// A split of variable `at` on zero and suc.
fn on_number(
    alloc: Global,
    pool: &TermPool,
    at: u32,
    zero_keep: &[u32],
    zero: Tree,
    suc_keep: &[u32],
    suc: Tree,
) -> Result<Tree, Fault>
    requires zero { TreeIn pool.now zero }
    requires suc { TreeIn pool.now suc }
    ensures { IfOk result (TreeIn pool.now) }
{
    let first = goes(alloc, pool, 0, zero_keep, zero)?;
    let second = goes(alloc, pool, 1, suc_keep, suc)?;
    split(alloc, pool, at, first, second)
}

/// plus zero m = m, plus (suc n) m = suc (plus n m).
fn plus(alloc: Global, pool: &TermPool, sig: &mut Signature, bodies: &Bodies) -> Result<(), Fault>
    requires { Stands pool.now sig.old }
    ensures { OnOk result (Stands pool.now sig.new) }
{
    let zero = leaf(pool, bodies.v0)?;
    let suc = leaf(pool, bodies.suc_of_plus)?;
    let both = on_number(alloc, pool, 1, &[0], zero, &[0, 1], suc)?;
    let inner = intro(alloc, pool, both)?;
    let tree = intro(alloc, pool, inner)?;
    function(alloc, pool, sig, bodies.ty, tree)
}

/// down zero = zero, down (suc n) = down n.
fn down(alloc: Global, pool: &TermPool, sig: &mut Signature, bodies: &Bodies) -> Result<(), Fault>
    requires { Stands pool.now sig.old }
    ensures { OnOk result (Stands pool.now sig.new) }
{
    let zero = leaf(pool, bodies.zero)?;
    let suc = leaf(pool, bodies.down_of_v0)?;
    let both = on_number(alloc, pool, 0, &[], zero, &[0], suc)?;
    let tree = intro(alloc, pool, both)?;
    function(alloc, pool, sig, bodies.ty, tree)
}

/// both m n = zero, by a split of m and, where it is zero, of n.
fn both(alloc: Global, pool: &TermPool, sig: &mut Signature, bodies: &Bodies) -> Result<(), Fault>
    requires { Stands pool.now sig.old }
    ensures { OnOk result (Stands pool.now sig.new) }
{
    let last = inner_of_both(alloc, pool, bodies)?;
    let other = leaf(pool, bodies.zero)?;
    let first = on_number(alloc, pool, 1, &[0], last, &[0, 1], other)?;
    let inner = intro(alloc, pool, first)?;
    let tree = intro(alloc, pool, inner)?;
    function(alloc, pool, sig, bodies.ty, tree)
}

fn inner_of_both(alloc: Global, pool: &TermPool, bodies: &Bodies) -> Result<Tree, Fault>
    ensures { IfOk result (TreeIn pool.now) }
{
    let zero = leaf(pool, bodies.zero)?;
    let suc = leaf(pool, bodies.zero)?;
    on_number(alloc, pool, 0, &[], zero, &[0], suc)
}

/// pred (suc n) = n. The branch of zero is refuted.
fn pred(alloc: Global, pool: &TermPool, sig: &mut Signature, bodies: &Bodies) -> Result<(), Fault>
    requires { Stands pool.now sig.old }
    ensures { OnOk result (Stands pool.now sig.new) }
{
    let suc = leaf(pool, bodies.v0)?;
    let suc = goes(alloc, pool, 1, &[0], suc)?;
    let split = split(alloc, pool, 0, refuted(pool, 0), suc)?;
    let tree = intro(alloc, pool, split)?;
    function(alloc, pool, sig, bodies.ty, tree)
}

/// The first projection of copies n is n. It has no clause for the second.
fn copies(alloc: Global, pool: &TermPool, sig: &mut Signature, bodies: &Bodies) -> Result<(), Fault>
    requires { Stands pool.now sig.old }
    ensures { OnOk result (Stands pool.now sig.new) }
{
    let body = leaf(pool, bodies.v0)?;
    let cosplit = cosplit(alloc, pool, 0, body)?;
    let tree = intro(alloc, pool, cosplit)?;
    function(alloc, pool, sig, bodies.ty, tree)
}

/// second (pair m n) = n.
fn second(alloc: Global, pool: &TermPool, sig: &mut Signature, bodies: &Bodies) -> Result<(), Fault>
    requires { Stands pool.now sig.old }
    ensures { OnOk result (Stands pool.now sig.new) }
{
    let body = leaf(pool, bodies.v0)?;
    let split = record_split(alloc, pool, 0, 1, body)?;
    let tree = intro(alloc, pool, split)?;
    function(alloc, pool, sig, bodies.ty, tree)
}

/// A function of which no constructor is left.
fn empty(alloc: Global, pool: &TermPool, sig: &mut Signature, bodies: &Bodies) -> Result<(), Fault>
    requires { Stands pool.now sig.old }
    ensures { OnOk result (Stands pool.now sig.new) }
{
    let tree = intro(alloc, pool, absurd(pool, 0))?;
    function(alloc, pool, sig, bodies.ty, tree)
}

/// turn n = turn n.
fn turn(alloc: Global, pool: &TermPool, sig: &mut Signature, bodies: &Bodies) -> Result<(), Fault>
    requires { Stands pool.now sig.old }
    ensures { OnOk result (Stands pool.now sig.new) }
{
    let body = leaf(pool, bodies.turn_of_v0)?;
    let tree = intro(alloc, pool, body)?;
    function(alloc, pool, sig, bodies.ty, tree)
}
