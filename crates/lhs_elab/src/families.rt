//! The family that a head form shows, and a constructor that can be put for it.

ghost use Rattle.std.specs.Prelude.{◌≡◌, ◌<◌, true, Option, Some, is_some, length, option_and_then, IfOk, IfSome};
ghost use Rattle.term_pool.specs.Pool.{Pool, tree};
ghost use Rattle.core_rules.specs.Term.{Fam};
ghost use Rattle.core_rules.specs.Signature.{con_decl as decl_of_con, fam_decl, fams};
ghost use Rattle.el_outside.specs.declared.place.Pos.{Pos};
ghost use Rattle.core_rules.specs.Heads.{Form};
ghost use Rattle.core_terms.specs.Signature.{signature_in};
ghost use Rattle.weak_head.specs.Elims.{spine_in};
ghost use Rattle.weak_head.specs.States.{AppliedBelow, answer_in};
ghost use Rattle.lhs_rules.specs.Families.{AtFamily as AtFamilyOf, at_family, with_own};
ghost use Rattle.lhs_rules.specs.Refusals.{NotAbsurd, at};
ghost use Rattle.lhs_rules.specs.Rules.{data_or};
ghost use Rattle.lhs_elab.specs.Families.{IsDataOr, IsFamily, IsForCon};

use crate::elaborator::Shown;
use core_terms::{
    ConDecl, ConId, CoreDecl, Entry, FamId, NoMemory, Node, Signature, TermId, TermPool,
};
use declared_types::arguments_for;
use std::alloc::Global;
use weak_head::Applied;

/// A family at its arguments, of which so many are its parameters, and the others its indices.
#[derive(Drop)]
pub(crate) struct AtFamily {
    pub fam: FamId,
    pub args: Vec<TermId>,
    pub params: usize,
}

/// The family that a head form is, at all its parameters and indices.
pub(crate) fn at_family(
    alloc: Global,
    pool: &TermPool,
    sig: &Signature,
    shown: &Shown,
) -> Result<Option<AtFamily>, NoMemory>
    requires form { AppliedBelow (length pool.now.trees) shown.now.form }
    ensures { IfOk result (IsFamily pool.now (signature_in pool.now sig.now)
        (at_family (signature_in pool.now sig.now) (answer_in (tree pool.now) shown.now.meta shown.now.form))) }
{
    if shown.meta.is_some() {
        return Ok(None);
    }
    let Node::Fam(fam) = pool.node(shown.form.head) else {
        return Ok(None);
    };
    if fam.number() >= sig.fams() {
        return Ok(None);
    }
    family_at(alloc, sig, fam, &shown.form)
}

/// The family at these eliminations, where they are arguments for all its parameters and indices.
fn family_at(
    alloc: Global,
    sig: &Signature,
    fam: FamId,
    form: &Applied,
) -> Result<Option<AtFamily>, NoMemory>
    requires fam { fam < length (fams sig.now) }
    ensures { IfOk result (λ o. (p : Pool) → AppliedBelow (length p.trees) form.now → IsFamily p (signature_in p sig.now)
        (at_family (signature_in p sig.now) (Form (Fam fam) (spine_in (tree p) form.now.spine.items))) o) }
{
    let CoreDecl::Family {
        params,
        indices,
        ..
    } = &sig.fam(fam).decl
    else {
        unreachable!()
    };
    let count = params.entries.len();
    let mut entries = Vec::from_slice(alloc, params.entries.as_slice())?;
    entries.extend_from_slice(indices.entries.as_slice())?;
    let Some(args) = arguments_for(alloc, entries.as_slice(), form.spine.as_slice())? else {
        return Ok(None);
    };
    Ok(Some(AtFamily {
        fam,
        args,
        params: count,
    }))
}

/// Whether the signature has the constructor.
fn has_con(sig: &Signature, con: ConId) -> bool
    ensures { result ≡ is_some (decl_of_con sig.now con) }
{
    if con.number() >= sig.cons() {
        return false;
    }
    let (fam, at) = sig.con(con);
    if fam.number() >= sig.fams() {
        return false;
    }
    let CoreDecl::Family { cons, .. } = &sig.fam(fam).decl else {
        unreachable!()
    };
    if at as usize >= cons.len() {
        return false;
    }
    true
}

/// What the signature says of a constructor that it has.
pub(crate) fn con_decl(sig: &Signature, con: ConId) -> &ConDecl
    requires con { is_some (decl_of_con sig.now con) ≡ true }
    ensures { decl_of_con sig.now con ≡ Some result.now }
{
    let (fam, at) = sig.con(con);
    let CoreDecl::Family { cons, .. } = &sig.fam(fam).decl else {
        unreachable!()
    };
    let cons = cons.as_slice();
    &cons[at as usize]
}

/// The arguments of a constructor.
pub(crate) fn arguments_of(con: &ConDecl) -> &[Entry]
    ensures { result.now ≡ con.now.args }
{
    con.args.entries.as_slice()
}

/// The indices at which a constructor ends.
pub(crate) fn ends_of(con: &ConDecl) -> &[TermId]
    ensures { result.now ≡ con.now.indices }
{
    con.indices.as_slice()
}

/// Whether the family, which is in the signature, is coinductive.
fn is_coinductive(sig: &Signature, fam: FamId) -> bool
    requires fam { fam < length (fams sig.now) }
    ensures { IfSome (fam_decl sig.now fam) (λ d. result ≡ d.coinductive) }
{
    let CoreDecl::Family { coinductive, .. } = &sig.fam(fam).decl else {
        unreachable!()
    };
    *coinductive
}

/// Whether the family, which is in the signature, is a record.
fn is_record(sig: &Signature, fam: FamId) -> bool
    requires fam { fam < length (fams sig.now) }
    ensures { IfSome (fam_decl sig.now fam) (λ d. result ≡ d.is_record) }
{
    let CoreDecl::Family { is_record, .. } = &sig.fam(fam).decl else {
        unreachable!()
    };
    *is_record
}

/// The family, where the constructor can be put for it.
pub(crate) fn for_con(sig: &Signature, con: ConId, found: Option<AtFamily>) -> Option<AtFamily>
    requires found { IfSome found (λ a. a.fam < length (fams sig.now)) }
    ensures con { IfSome result (λ a. is_some (decl_of_con sig.now con) ≡ true) }
    ensures is { (p : Pool) (o : Option AtFamilyOf) → IsFamily p (signature_in p sig.now) o found
        → IsForCon p (signature_in p sig.now) con (option_and_then (with_own (signature_in p sig.now) con) o) result }
{
    let at = found?;
    if !has_con(sig, con) {
        return None;
    }
    let (fam, _) = sig.con(con);
    if fam.number() != at.fam.number() {
        return None;
    }
    if is_coinductive(sig, at.fam) {
        return None;
    }
    Some(at)
}

/// The family, where it is a data type.
pub(crate) fn data_of(sig: &Signature, found: Option<AtFamily>) -> Option<AtFamily>
    requires found { IfSome found (λ a. a.fam < length (fams sig.now)) }
    ensures fam { IfSome result (λ a. a.fam < length (fams sig.now)) }
    ensures is { (p : Pool) (o : Option AtFamilyOf) (q : Pos) → IsFamily p (signature_in p sig.now) o found
        → IsDataOr p (signature_in p sig.now) (data_or q o) (at q NotAbsurd) result }
{
    let at = found?;
    if is_record(sig, at.fam) {
        return None;
    }
    Some(at)
}
