//! The types of telescopes and of constructors.

ghost use Rattle.std.specs.Prelude.{◌≡◌, ◌<◌, [], length, map, OnOk};
ghost use Rattle.std.specs.List.{AllByRecursion};
ghost use Rattle.core_rules.specs.Mapped.{AllCon, AllEntries, AllFamily, con_map, fam_map, telescope_map};
ghost use Rattle.core_rules.specs.Signature.{Family, fams};
ghost use Rattle.core_rules.specs.InScope.{ConInScope, FamilyInScope, TelescopeInScope, any_meta};
ghost use Rattle.core_terms.specs.Signature.{decl_of, fam_of};
ghost use Rattle.kernel_rules.specs.FamilyReading.{none_above as all_within};
ghost use Rattle.core_kernel.specs.Answers.{Answers, AnswersFamily};
ghost use Rattle.core_kernel.specs.Checker.{IsReady, Grows, Keeps, over, term_of, signature_of};
ghost use Rattle.core_kernel.specs.Family.{Enters, Levels, ReadsCon, ReadsCons, TelescopesOf};

use crate::checker::Checker;
use crate::error::{FamilyError, KernelError};
use core_terms::{ConDecl, CoreDecl, Entry, FamId, Row};
use declared_types::con_end;

/// Whether no level is above `level`.
fn none_above(level: u32, levels: &[u32]) -> bool
    ensures { result ≡ all_within level levels.now }
{
    let mut left = levels;
    while let [first, more @ ..] = left {
        if level < *first {
            return false;
        }
        left = more;
    }
    true
}

impl<'a> Checker<'a> {
    /// The levels of the entries' types, each under the entries before it. The entries are then the innermost ones of the context.
    pub(crate) fn levels(&mut self, entries: &[Entry]) -> Result<Row<u32>, KernelError>
        requires ready { IsReady self.old }
        requires entries { AllEntries (λ t. t < length self.old.pool.now.trees) entries.now }
        requires scope { TelescopeInScope (signature_of self.old) any_meta (length self.old.context.now.items)
            (telescope_map (term_of self.old) entries.now) }
        ensures grows { Grows self.old self.new }
        ensures enters { OnOk result (Enters self.old self.new entries.now) }
        ensures is { Answers self.new.pool.now (Levels (over self.old) (telescope_map (term_of self.old) entries.now)) result }
    {
        let mut levels = Vec::new(self.alloc);
        let mut left = entries;
        while let [entry, more @ ..] = left {
            let level = self.level(entry.ty)?;
            levels.push(level)?;
            self.context.push(*entry)?;
            left = more;
        }
        Ok(Row::from_vec(levels))
    }

    /// The parameters and the indices of a family, before which there is no entry.
    pub(crate) fn check_telescopes(&mut self, decl: &CoreDecl) -> Result<(), KernelError>
        requires ready { IsReady self.old }
        requires empty { self.old.context.now.items ≡ [] }
        requires family { decl_of decl.now ≡ Family (fam_of decl.now) }
        requires decl { AllFamily (λ t. t < length self.old.pool.now.trees) (fam_of decl.now) }
        requires scope { FamilyInScope (signature_of self.old) any_meta (fam_map (term_of self.old) (fam_of decl.now)) }
        ensures grows { Grows self.old self.new }
        ensures is { Answers self.new.pool.now (TelescopesOf (signature_of self.old) self.old.limits.fuel self.old.limits.depth
            (fam_map (term_of self.old) (fam_of decl.now))) result }
    {
        let CoreDecl::Family {
            params,
            indices,
            ..
        } = decl
        else {
            unreachable!()
        };
        self.levels(params.entries.as_slice())?;
        self.levels(indices.entries.as_slice())?;
        Ok(())
    }

    /// That a constructor is one of its family, whose parameters are the context.
    pub(crate) fn check_con(
        &mut self,
        fam: FamId,
        decl: &CoreDecl,
        con: &ConDecl,
    ) -> Result<(), FamilyError>
        requires ready { IsReady self.old }
        requires family { decl_of decl.now ≡ Family (fam_of decl.now) }
        requires decl { AllFamily (λ t. t < length self.old.pool.now.trees) (fam_of decl.now) }
        requires params { self.old.context.now.items ≡ (fam_of decl.now).params }
        requires fam { fam < length (fams self.old.signature.now) }
        requires con { AllCon (λ t. t < length self.old.pool.now.trees) con.now }
        requires scope { ConInScope (signature_of self.old) any_meta (length self.old.context.now.items)
            (con_map (term_of self.old) con.now) }
        ensures grows { Grows self.old self.new }
        ensures keeps { OnOk result (Keeps self.old self.new) }
        ensures is { AnswersFamily self.new.pool.now (ReadsCon (over self.old) fam
            (fam_map (term_of self.old) (fam_of decl.now)) (con_map (term_of self.old) con.now)) result }
    {
        let CoreDecl::Family { indices, level, .. } = decl else {
            unreachable!()
        };
        let outside = self.context.len();
        let levels = self.levels(con.args.entries.as_slice())?;
        if con.indices.len() != indices.entries.len() {
            return Err(FamilyError::ConShape);
        }
        let end = con_end(self.pool, fam, decl, con)?;
        self.level(end)?;
        if !none_above(*level, levels.as_slice()) {
            return Err(FamilyError::TooBig);
        }
        self.context.truncate(outside);
        Ok(())
    }

    /// That constructors are those of the family, whose parameters are the context.
    pub(crate) fn check_cons(
        &mut self,
        fam: FamId,
        decl: &CoreDecl,
        cons: &[ConDecl],
    ) -> Result<(), FamilyError>
        requires ready { IsReady self.old }
        requires family { decl_of decl.now ≡ Family (fam_of decl.now) }
        requires decl { AllFamily (λ t. t < length self.old.pool.now.trees) (fam_of decl.now) }
        requires params { self.old.context.now.items ≡ (fam_of decl.now).params }
        requires fam { fam < length (fams self.old.signature.now) }
        requires within { AllByRecursion (AllCon (λ t. t < length self.old.pool.now.trees)) cons.now }
        requires scope { AllByRecursion (λ k. ConInScope (signature_of self.old) any_meta (length self.old.context.now.items)
            (con_map (term_of self.old) k)) cons.now }
        ensures grows { Grows self.old self.new }
        ensures is { AnswersFamily self.new.pool.now (ReadsCons (over self.old) fam
            (fam_map (term_of self.old) (fam_of decl.now)) (map (con_map (term_of self.old)) cons.now)) result }
    {
        let mut left = cons;
        while let [con, more @ ..] = left {
            match self.check_con(fam, decl, con) {
                Ok(()) => left = more,
                Err(e) => return Err(e),
            }
        }
        Ok(())
    }
}
