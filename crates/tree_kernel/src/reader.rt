//! What case trees are read over, and what types show to them.

ghost use Rattle.std.specs.Prelude.{◌≡◌, ◌<◌, cond, false, true, length, IfOk};
ghost use Rattle.core_rules.specs.Mapped.{AllEntries};
ghost use Rattle.core_rules.specs.Signature.{Family};
ghost use Rattle.core_kernel.specs.Answers.{AnswersTerm};
ghost use Rattle.kernel_rules.specs.TermReading.{ShowsForm, ShowsSpine};
ghost use Rattle.kernel_rules.specs.TreeReading.{ShowsFamily, ShowsSplit, family_shown, record_shown};
ghost use Rattle.term_pool.specs.Pool.{tree};
ghost use Rattle.core_terms.specs.Signature.{Stands, decl_of, fam_of, signature_in};
ghost use Rattle.weak_head.specs.Elims.{spine_in};
ghost use Rattle.weak_head.specs.States.{AppliedBelow};
ghost use Rattle.tree_kernel.specs.Jobs.{context_by};
ghost use Rattle.tree_kernel.specs.Reader.{AnswersFamilyAt, AnswersSpine, FamilyStands, Grows, IsReady, ShowsRecordAt, family_or, fuel_of, depth_of};
ghost use Rattle.tree_kernel.specs.Reader.{signature_of, term_of};

use crate::error::DeclError;
use core_kernel::KernelError;
use core_terms::{
    CoreDecl, FamEntry, FamId, Limits, NoMemory, NoSolutions, Node, Signature, Telescope, TermId,
    TermPool,
};
use declared_types::{arguments_for, params_for};
use std::alloc::Global;
use weak_head::{Applied, Head, Reduced, head, reduce};

/// What case trees are read over: the pool of their ids, and the signature.
#[derive(Drop)]
pub(crate) struct Reader<'a> {
    pub pool: &'a mut TermPool,
    pub signature: &'a Signature,
    pub limits: Limits,
    pub alloc: Global,
}

/// A family at parameters and indices.
#[derive(Drop)]
pub(crate) struct FamilyAt<'a> {
    pub fam: FamId,
    pub entry: &'a FamEntry,
    pub params: Vec<TermId>,
    pub indices: Vec<TermId>,
}

/// The family that a head form is, where it is one at all its parameters and indices.
fn family_of<'a>(
    alloc: Global,
    pool: &TermPool,
    signature: &'a Signature,
    form: &Applied,
) -> Result<Option<FamilyAt<'a>>, NoMemory>
    requires stands { Stands pool.now signature.now }
    requires form { AppliedBelow (length pool.now.trees) form.now }
    ensures stands { IfOk result (λ o. FamilyStands pool.now signature.now o) }
    ensures is { IfOk result (λ o. family_or (tree pool.now) o
        ≡ family_shown (signature_in pool.now signature.now) (tree pool.now form.now.head) (spine_in (tree pool.now) form.now.spine.items)) }
{
    let Node::Fam(fam) = pool.node(form.head) else {
        return Ok(None);
    };
    if fam.number() >= signature.fams() {
        return Ok(None);
    }
    let entry = signature.fam(fam);
    let CoreDecl::Family {
        params,
        indices,
        ..
    } = &entry.decl
    else {
        unreachable!()
    };
    let mut entries = Vec::from_slice(alloc, params.entries.as_slice())?;
    entries.extend_from_slice(indices.entries.as_slice())?;
    let Some(mut params_first) = arguments_for(alloc, entries.as_slice(), form.spine.as_slice())?
    else {
        return Ok(None);
    };
    let count = params.entries.len();
    let all = params_first.as_slice();
    let indices = Vec::from_slice(alloc, &all[count..])?;
    params_first.truncate(count);
    Ok(Some(FamilyAt {
        fam,
        entry,
        params: params_first,
        indices,
    }))
}

/// The record that a head form is, where it is one at all its parameters.
fn record_of<'a>(
    alloc: Global,
    pool: &TermPool,
    signature: &'a Signature,
    form: &Applied,
) -> Result<Option<FamilyAt<'a>>, NoMemory>
    requires stands { Stands pool.now signature.now }
    requires form { AppliedBelow (length pool.now.trees) form.now }
    ensures stands { IfOk result (λ o. FamilyStands pool.now signature.now o) }
    ensures is { IfOk result (λ o. family_or (tree pool.now) o
        ≡ record_shown (signature_in pool.now signature.now) (tree pool.now form.now.head) (spine_in (tree pool.now) form.now.spine.items)) }
{
    let Node::Fam(fam) = pool.node(form.head) else {
        return Ok(None);
    };
    if fam.number() >= signature.fams() {
        return Ok(None);
    }
    let entry = signature.fam(fam);
    let Some(params) = params_for(alloc, &entry.decl, form.spine.as_slice())? else {
        return Ok(None);
    };
    let indices = Vec::new(alloc);
    Ok(Some(FamilyAt {
        fam,
        entry,
        params,
        indices,
    }))
}

/// Whether a node may split the family: a data type, or a record without eta that is not coinductive.
fn may_split(decl: &CoreDecl) -> bool
    requires { decl_of decl.now ≡ Family (fam_of decl.now) }
    ensures { result ≡ cond (fam_of decl.now).eta false (cond (fam_of decl.now).coinductive false true) }
{
    let CoreDecl::Family {
        eta,
        coinductive,
        ..
    } = decl
    else {
        unreachable!()
    };
    !*eta && !*coinductive
}

impl<'a> Reader<'a> {
    /// The head form of a type.
    pub(crate) fn form(&mut self, ty: TermId) -> Result<TermId, KernelError>
        requires ready { IsReady self.old }
        requires ty { ty < length self.old.pool.now.trees }
        ensures grows { Grows self.old self.new }
        ensures is { AnswersTerm self.new.pool.now
            (ShowsForm (signature_of self.old) (fuel_of self.old) (depth_of self.old) (term_of self.old ty)) result }
    {
        let fuel = self.limits.fuel;
        match head(
            self.alloc,
            self.pool,
            self.signature,
            &NoSolutions,
            ty,
            fuel,
        ) {
            Head::Form { term, .. } => Ok(term),
            Head::Blocked { meta, .. } => Err(KernelError::MetaLeft { meta }),
            Head::OutOfFuel => Err(KernelError::OutOfFuel),
            Head::NoMemory => Err(KernelError::NoMemory),
        }
    }

    /// The same with its head and eliminations apart.
    fn spine(&mut self, ty: TermId) -> Result<Applied, KernelError>
        requires ready { IsReady self.old }
        requires ty { ty < length self.old.pool.now.trees }
        ensures grows { Grows self.old self.new }
        ensures is { AnswersSpine self.new.pool.now
            (ShowsSpine (signature_of self.old) (fuel_of self.old) (depth_of self.old) (term_of self.old ty)) result }
    {
        let fuel = self.limits.fuel;
        let shown = reduce(
            self.alloc,
            self.pool,
            self.signature,
            &NoSolutions,
            ty,
            fuel,
        )?;
        let Reduced::Found { meta, term, .. } = shown else {
            return Err(KernelError::OutOfFuel);
        };
        if let Some(meta) = meta {
            return Err(KernelError::MetaLeft { meta });
        }
        Ok(term)
    }

    /// The family of which a variable of the context is.
    pub(crate) fn family_at(
        &mut self,
        context: &Telescope,
        var: u32,
    ) -> Result<FamilyAt<'a>, DeclError>
        requires ready { IsReady self.old }
        requires context { AllEntries (λ i. i < length self.old.pool.now.trees) context.now }
        requires var { var < length context.now }
        ensures grows { Grows self.old self.new }
        ensures is { AnswersFamilyAt self.new.pool.now self.old.signature.now (ShowsFamily (signature_of self.old) (fuel_of self.old)
            (depth_of self.old) (context_by (term_of self.old) context.now) var) result }
    {
        let entries = context.entries.as_slice();
        let entry = entries[entries.len() - 1 - var as usize];
        let form = self.spine(entry.ty)?;
        let signature = self.signature;
        match family_of(self.alloc, self.pool, signature, &form)? {
            Some(family) => Ok(family),
            None => Err(DeclError::BadTree),
        }
    }

    /// The same where the family can be split: a data type, or a record without eta that is not coinductive.
    pub(crate) fn splittable(
        &mut self,
        context: &Telescope,
        var: u32,
    ) -> Result<FamilyAt<'a>, DeclError>
        requires ready { IsReady self.old }
        requires context { AllEntries (λ i. i < length self.old.pool.now.trees) context.now }
        requires var { var < length context.now }
        ensures grows { Grows self.old self.new }
        ensures is { AnswersFamilyAt self.new.pool.now self.old.signature.now (ShowsSplit (signature_of self.old) (fuel_of self.old)
            (depth_of self.old) (context_by (term_of self.old) context.now) var) result }
    {
        let family = self.family_at(context, var)?;
        if !may_split(&family.entry.decl) {
            return Err(DeclError::BadTree);
        }
        Ok(family)
    }

    /// The record that a type is.
    pub(crate) fn record_at(&mut self, ty: TermId) -> Result<FamilyAt<'a>, DeclError>
        requires ready { IsReady self.old }
        requires ty { ty < length self.old.pool.now.trees }
        ensures grows { Grows self.old self.new }
        ensures is { AnswersFamilyAt self.new.pool.now self.old.signature.now (ShowsRecordAt (signature_of self.old) (fuel_of self.old)
            (depth_of self.old) (term_of self.old ty)) result }
    {
        let form = self.spine(ty)?;
        let signature = self.signature;
        match record_of(self.alloc, self.pool, signature, &form)? {
            Some(family) => Ok(family),
            None => Err(DeclError::BadTree),
        }
    }
}
