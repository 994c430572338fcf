//! Projections: the record that a type shows, and the type of its field.

ghost use Rattle.std.specs.Prelude.{◌≡◌, ◌<◌, length, map, Some, IfOk, IfSome};
ghost use Rattle.std.specs.List.{AllByRecursion};
ghost use Rattle.core_rules.specs.Term.{Term};
ghost use Rattle.core_rules.specs.Substitution.{under};
ghost use Rattle.core_rules.specs.Signature.{Family, FamDecl, fam_decl, fams};
ghost use Rattle.core_rules.specs.Mapped.{fam_map};
ghost use Rattle.core_rules.specs.Typing.{IsField, field_env};
ghost use Rattle.term_pool.specs.Pool.{StandsFor, tree};
ghost use Rattle.core_terms.specs.Signature.{decl_of, fam_of, field_total};
ghost use Rattle.weak_head.specs.Elims.{spine_in};
ghost use Rattle.weak_head.specs.States.{AppliedBelow};
ghost use Rattle.kernel_rules.specs.TermReading.{record_params};
ghost use Rattle.core_kernel.specs.Checker.{IsReady, Grows, Keeps, ShowsParams, over, term_of, signature_of};
ghost use Rattle.core_kernel.specs.Record.{AnswersParams, params_or};

use crate::checker::Checker;
use crate::error::KernelError;
use core_terms::{CoreDecl, FamId, FieldId, NoMemory, NoSolutions, Node, TermId, TermPool, under};
use declared_types::{params_for, type_of_field};
use std::alloc::Global;
use weak_head::{Applied, Reduced, applied, reduce};

/// The parameters of the record `fam` that a head form is, where it is this record at all its parameters.
fn params_of(
    alloc: Global,
    pool: &TermPool,
    fam: FamId,
    decl: &CoreDecl,
    form: &Applied,
) -> Result<Option<Vec<TermId>>, NoMemory>
    requires family { decl_of decl.now ≡ Family (fam_of decl.now) }
    requires form { AppliedBelow (length pool.now.trees) form.now }
    ensures is { IfOk result (λ o. params_or (tree pool.now) form.now o
        ≡ record_params fam (fam_map (tree pool.now) (fam_of decl.now)) (tree pool.now form.now.head)
        (spine_in (tree pool.now) form.now.spine.items)) }
    ensures below { IfOk result (λ o. IfSome o (λ v. AllByRecursion (λ t. t < length pool.now.trees) v.items)) }
{
    let Node::Fam(found) = pool.node(form.head) else {
        return Ok(None);
    };
    if found.number() != fam.number() {
        return Ok(None);
    }
    params_for(alloc, decl, form.spine.as_slice())
}

impl<'a> Checker<'a> {
    /// The parameters of the record `fam` that a type shows.
    pub(crate) fn params_by(&mut self, fam: FamId, ty: TermId) -> Result<Vec<TermId>, KernelError>
        requires ready { IsReady self.old }
        requires fam { fam < length (fams self.old.signature.now) }
        requires ty { ty < length self.old.pool.now.trees }
        ensures grows { Grows self.old self.new }
        ensures keeps { Keeps self.old self.new }
        ensures is { (d : FamDecl Term) → fam_decl (signature_of self.old) fam ≡ Some d
            → AnswersParams self.new.pool.now (ShowsParams (over self.old) fam d (term_of self.old ty)) result }
    {
        let limit = self.limits.fuel;
        let shown = reduce(
            self.alloc,
            self.pool,
            self.signature,
            &NoSolutions,
            ty,
            limit,
        )?;
        let Reduced::Found { meta, term, .. } = shown else {
            return Err(KernelError::OutOfFuel);
        };
        if let Some(meta) = meta {
            return Err(KernelError::MetaLeft { meta });
        }
        let decl = &self.signature.fam(fam).decl;
        let Some(params) = params_of(self.alloc, self.pool, fam, decl, &term)? else {
            let ty = applied(self.pool, &term)?;
            return Err(KernelError::NotARecord { ty });
        };
        Ok(params)
    }

    /// The type of a field of `of`, whose type is the field's record at these parameters.
    pub(crate) fn type_of_field(
        &mut self,
        field: FieldId,
        params: Vec<TermId>,
        of: TermId,
    ) -> Result<TermId, NoMemory>
        requires ready { IsReady self.old }
        requires field { field < field_total self.old.signature.now }
        requires params { AllByRecursion (λ t. t < length self.old.pool.now.trees) params.items }
        requires of { of < length self.old.pool.now.trees }
        ensures grows { Grows self.old self.new }
        ensures keeps { Keeps self.old self.new }
        ensures is { IfOk result (λ r. (is : IsField (signature_of self.old) field) → StandsFor self.new.pool.now r
            (under (field_env (signature_of self.old) field is (map (term_of self.old) params.items) (term_of self.old of)) is.entry.ty)) }
    {
        type_of_field(self.alloc, self.pool, self.signature, field, params, of)
    }

    /// A type that stands under terms alone, the innermost one first, with these put in.
    pub(crate) fn put_under(&mut self, t: TermId, terms: &[TermId]) -> Result<TermId, NoMemory>
        requires t { t < length self.old.pool.now.trees }
        requires terms { AllByRecursion (λ t. t < length self.old.pool.now.trees) terms.now }
        ensures grows { Grows self.old self.new }
        ensures keeps { Keeps self.old self.new }
        ensures is { IfOk result (λ r. StandsFor self.new.pool.now r (under (map (term_of self.old) terms.now) (term_of self.old t))) }
    {
        under(self.alloc, self.pool, t, terms)
    }
}
