//! A branch of a split: what unification says of it, and that its context and its values are well typed.

ghost use Rattle.std.specs.Prelude.{◌≡◌, ◌<◌, ◌++◌, ◌∷◌, [], length, map, IfOk};
ghost use Rattle.std.specs.List.{AllByRecursion};
ghost use Rattle.core_rules.specs.InScope.{InScope, TelescopeInScope, any_meta};
ghost use Rattle.core_rules.specs.Mapped.{AllBranch, AllEntries, branch_map, telescope_map};
ghost use Rattle.kernel_rules.specs.FamilyReading.{LevelsOf};
ghost use Rattle.kernel_rules.specs.TreeReading.{Unifies, ValuesOf, branch_by, refuted_by};
ghost use Rattle.index_unify.specs.Unified.{EquationStands, equations_in};
ghost use Rattle.tree_kernel.specs.Reading.{UnifiesAs};
ghost use Rattle.tree_kernel.specs.Answers.{AnswersDecl};
ghost use Rattle.tree_kernel.specs.Jobs.{context_by};
ghost use Rattle.tree_kernel.specs.Branches.{AnswersBranch, AnswersLevels, Fits, ItsBranch, SaysUnified};
ghost use Rattle.tree_kernel.specs.Nodes.{BranchStands};
ghost use Rattle.tree_kernel.specs.Reader.{Grows, IsReady, depth_of, fuel_of, signature_of, term_of};

use crate::error::DeclError;
use crate::reader::Reader;
use crate::same::same_branch;
use core_kernel::{KernelError, check, is_type};
use core_terms::{Branch, Entry, NoMemory, NoSolutions, Row, Telescope, TermId, under};
use index_unify::{Equation, Unified, unify};

/// The context with one entry more.
pub(crate) fn with_entry(context: Telescope, entry: Entry) -> Result<Telescope, NoMemory>
    ensures { IfOk result (λ t. t ≡ context ++ entry ∷ []) }
{
    let mut entries = context.entries.into_vec();
    entries.push(entry)?;
    Ok(Telescope {
        entries: Row::from_vec(entries),
    })
}

impl<'a> Reader<'a> {
    /// What unification says of equations in a context.
    fn unified(&mut self, context: &Telescope, equations: &[Equation]) -> Unified
        requires ready { IsReady self.old }
        requires context { AllEntries (λ i. i < length self.old.pool.now.trees) context.now }
        requires equations { AllByRecursion (EquationStands (length self.old.pool.now.trees)) equations.now }
        ensures grows { Grows self.old self.new }
        ensures is { SaysUnified self.new.pool.now (UnifiesAs (signature_of self.old) (fuel_of self.old) (depth_of self.old)
            (context_by (term_of self.old) context.now) (equations_in self.old.pool.now equations.now)) result }
    {
        let limits = self.limits;
        unify(
            self.alloc,
            self.pool,
            self.signature,
            &NoSolutions,
            context,
            equations,
            limits,
        )
    }

    /// That the equations are refuted.
    pub(crate) fn refuted(
        &mut self,
        context: &Telescope,
        equations: &[Equation],
    ) -> Result<(), DeclError>
        requires ready { IsReady self.old }
        requires context { AllEntries (λ i. i < length self.old.pool.now.trees) context.now }
        requires equations { AllByRecursion (EquationStands (length self.old.pool.now.trees)) equations.now }
        ensures grows { Grows self.old self.new }
        ensures is { AnswersDecl self.new.pool.now (Unifies (signature_of self.old) (fuel_of self.old) (depth_of self.old)
            (UnifiesAs (signature_of self.old) (fuel_of self.old) (depth_of self.old)) refuted_by
            (context_by (term_of self.old) context.now) (equations_in self.old.pool.now equations.now)) result }
    {
        match self.unified(context, equations) {
            Unified::Refuted(_) => {}
            Unified::Solved(_) => return Err(DeclError::BadTree),
            Unified::Stuck { .. } => return Err(DeclError::BadTree),
            Unified::OutOfFuel => return Err(DeclError::Kernel(KernelError::OutOfFuel)),
            Unified::OutOfDepth => return Err(DeclError::Kernel(KernelError::OutOfDepth)),
            Unified::NoMemory => return Err(DeclError::NoMemory),
        }
        Ok(())
    }

    /// The branch that the solutions of the equations give.
    pub(crate) fn solved(
        &mut self,
        context: &Telescope,
        equations: &[Equation],
    ) -> Result<Branch, DeclError>
        requires ready { IsReady self.old }
        requires context { AllEntries (λ i. i < length self.old.pool.now.trees) context.now }
        requires equations { AllByRecursion (EquationStands (length self.old.pool.now.trees)) equations.now }
        ensures grows { Grows self.old self.new }
        ensures is { AnswersBranch self.new.pool.now (Unifies (signature_of self.old) (fuel_of self.old) (depth_of self.old)
            (UnifiesAs (signature_of self.old) (fuel_of self.old) (depth_of self.old)) branch_by
            (context_by (term_of self.old) context.now) (equations_in self.old.pool.now equations.now)) result }
    {
        match self.unified(context, equations) {
            Unified::Solved(branch) => Ok(branch),
            Unified::Refuted(_) => Err(DeclError::BadTree),
            Unified::Stuck { .. } => Err(DeclError::BadTree),
            Unified::OutOfFuel => Err(DeclError::Kernel(KernelError::OutOfFuel)),
            Unified::OutOfDepth => Err(DeclError::Kernel(KernelError::OutOfDepth)),
            Unified::NoMemory => Err(DeclError::NoMemory),
        }
    }

    /// That a branch is the one that the solutions of the equations give.
    pub(crate) fn its_branch(
        &mut self,
        context: &Telescope,
        equations: &[Equation],
        branch: &Branch,
    ) -> Result<(), DeclError>
        requires ready { IsReady self.old }
        requires context { AllEntries (λ i. i < length self.old.pool.now.trees) context.now }
        requires equations { AllByRecursion (EquationStands (length self.old.pool.now.trees)) equations.now }
        requires branch { AllBranch (λ i. i < length self.old.pool.now.trees) branch.now }
        ensures grows { Grows self.old self.new }
        ensures is { AnswersDecl self.new.pool.now (ItsBranch (signature_of self.old) (fuel_of self.old) (depth_of self.old)
            (context_by (term_of self.old) context.now) (equations_in self.old.pool.now equations.now)
            (branch_map (term_of self.old) branch.now)) result }
    {
        let found = self.solved(context, equations)?;
        if same_branch(self.pool, branch, &found) {
            Ok(())
        } else {
            Err(DeclError::BadTree)
        }
    }

    /// That the context of a branch is one of types, and that its values fit the entries.
    pub(crate) fn fits(&mut self, branch: &Branch, entries: &[Entry]) -> Result<(), DeclError>
        requires ready { IsReady self.old }
        requires branch { BranchStands self.old branch.now }
        requires entries { AllEntries (λ i. i < length self.old.pool.now.trees) entries.now }
        ensures grows { Grows self.old self.new }
        ensures is { AnswersDecl self.new.pool.now (Fits (signature_of self.old) (fuel_of self.old) (depth_of self.old)
            (context_by (term_of self.old) entries.now) (branch_map (term_of self.old) branch.now)) result }
    {
        self.are_types(branch.context.entries.as_slice())?;
        self.fit(&branch.context, branch.subst.as_slice(), entries)
    }

    /// That each entry is a type under those before it.
    pub(crate) fn are_types(&mut self, entries: &[Entry]) -> Result<(), KernelError>
        requires ready { IsReady self.old }
        requires entries { AllEntries (λ i. i < length self.old.pool.now.trees) entries.now }
        requires scope { TelescopeInScope (signature_of self.old) any_meta 0 (telescope_map (term_of self.old) entries.now) }
        ensures grows { Grows self.old self.new }
        ensures is { AnswersLevels self.new.pool.now (LevelsOf (signature_of self.old) (fuel_of self.old) (depth_of self.old) []
            (telescope_map (term_of self.old) entries.now)) result }
    {
        let limits = self.limits;
        let mut context = Telescope {
            entries: Row::from_vec(Vec::new(self.alloc)),
        };
        let mut left = entries;
        while let [entry, more @ ..] = left {
            is_type(
                self.alloc,
                self.pool,
                self.signature,
                &context,
                entry.ty,
                limits,
            )?;
            context = with_entry(context, *entry)?;
            left = more;
        }
        Ok(())
    }

    /// That each term, the innermost one first, has in the context the type of its entry under the terms outside it.
    pub(crate) fn fit(
        &mut self,
        context: &Telescope,
        terms: &[TermId],
        entries: &[Entry],
    ) -> Result<(), DeclError>
        requires ready { IsReady self.old }
        requires context { AllEntries (λ i. i < length self.old.pool.now.trees) context.now }
        requires terms { AllByRecursion (λ i. i < length self.old.pool.now.trees) terms.now }
        requires entries { AllEntries (λ i. i < length self.old.pool.now.trees) entries.now }
        requires scope { AllByRecursion (InScope (signature_of self.old) any_meta (length context.now)) (map (term_of self.old) terms.now) }
        ensures grows { Grows self.old self.new }
        ensures is { AnswersDecl self.new.pool.now (ValuesOf (signature_of self.old) (fuel_of self.old) (depth_of self.old)
            (context_by (term_of self.old) context.now) (map (term_of self.old) terms.now)
            (context_by (term_of self.old) entries.now)) result }
    {
        if terms.len() != entries.len() {
            return Err(DeclError::BadTree);
        }
        let limits = self.limits;
        let mut left = terms.len();
        while left > 0 {
            let entry = entries[terms.len() - left];
            let outside = &terms[left..];
            left -= 1;
            let ty = under(self.alloc, self.pool, entry.ty, outside)?;
            check(
                self.alloc,
                self.pool,
                self.signature,
                context,
                terms[left],
                ty,
                limits,
            )?;
        }
        Ok(())
    }
}
