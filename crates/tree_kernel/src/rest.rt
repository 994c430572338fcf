//! The fields of a cosplit and the constructors of a split, one after the other.

ghost use Rattle.std.specs.Prelude.{◌≡◌, ◌<◌, length, map, reverse, IfOk};
ghost use Rattle.std.specs.List.{AllByRecursion};
ghost use Rattle.core_rules.specs.Term.{Proj};
ghost use Rattle.core_rules.specs.Substitution.{under as put};
ghost use Rattle.core_rules.specs.Mapped.{AllCon, telescope_map};
ghost use Rattle.core_rules.specs.TypedTree.{into, new_con};
ghost use Rattle.core_terms.specs.TreeView.{co_of, con_of};
ghost use Rattle.term_pool.specs.Pool.{StandsFor};
ghost use Rattle.tree_kernel.specs.Answers.{AnswersDecl};
ghost use Rattle.tree_kernel.specs.Branches.{AnswersEnv};
ghost use Rattle.tree_kernel.specs.Jobs.{co_parts, con_parts, rest_parts};
ghost use Rattle.tree_kernel.specs.Nodes.{BranchIs, BranchStands, BranchesAre, Continues, ContinuesBranch, FieldsAre, ReadsAbsurd, ReadsBranch, ReadsBranches};
ghost use Rattle.tree_kernel.specs.Nodes.{ReadsFields, ReadsRefuted, SplitIs};
ghost use Rattle.tree_kernel.specs.Reader.{Grows, IsReady, term_of};

use crate::error::DeclError;
use crate::job::{Branches, Fields, Job, Node, Rest, Split};
use crate::opening::{ConSplit, entries_of, index_equations, last_first, open_con};
use crate::reader::Reader;
use core_terms::{
    Branch, ConDecl, ConId, FieldId, NoMemory, Node as Term, Telescope, TermId, Tree, Way, under,
};

/// A second context with the same entries.
fn copied(context: &Telescope) -> Result<Telescope, NoMemory>
    ensures { IfOk result (λ t. t ≡ context.now) }
{
    let entries = context.entries.copy()?;
    Ok(Telescope { entries })
}

impl<'a> Reader<'a> {
    /// The next field, or that none is left.
    pub(crate) fn at_fields(&mut self, job: Fields<'a>) -> Result<Rest<'a>, DeclError>
        requires ready { IsReady self.old }
        requires job { FieldsAre self.old job }
        ensures grows { Grows self.old self.new }
        ensures is { Continues self.old self.new (ReadsFields self.old job.entry) result }
        ensures fewer { IfOk result (λ r. rest_parts r < co_parts (co_of job.entry.branches.now)) }
    {
        let Fields {
            context,
            left,
            env,
            fields,
            entries,
            branches,
        } = job;
        let [branch, branches @ ..] = branches else {
            if !fields.is_empty() {
                return Err(DeclError::BadTree);
            }
            if !entries.is_empty() {
                return Err(DeclError::BadTree);
            }
            return Ok(Rest::Nothing);
        };
        let [field, fields @ ..] = fields else {
            return Err(DeclError::BadTree);
        };
        let [entry, entries @ ..] = entries else {
            return Err(DeclError::BadTree);
        };
        if branch.field.number() != field.number() {
            return Err(DeclError::BadTree);
        }
        let mut env = env;
        let (ty, projection) = self.field_at(left, env.as_slice(), *field, entry.ty)?;
        env.push(projection)?;
        let node = Node {
            context: copied(&context)?,
            tree: &branch.rest,
            ty,
            left: projection,
        };
        let rest = Fields {
            context,
            left,
            env,
            fields,
            entries,
            branches,
        };
        Ok(Rest::Two(node, Job::Fields(rest)))
    }

    /// The type of a field, which stands under the terms, the last one innermost; and the projection of the left side to the field.
    fn field_at(
        &mut self,
        left: TermId,
        env: &[TermId],
        field: FieldId,
        ty: TermId,
    ) -> Result<(TermId, TermId), NoMemory>
        requires left { left < length self.old.pool.now.trees }
        requires env { AllByRecursion (λ i. i < length self.old.pool.now.trees) env.now }
        requires ty { ty < length self.old.pool.now.trees }
        ensures grows { Grows self.old self.new }
        ensures ty { IfOk result (λ w. StandsFor self.new.pool.now w.0 (put (map (term_of self.old) (reverse env.now)) (term_of self.old ty))) }
        ensures projection { IfOk result (λ w. StandsFor self.new.pool.now w.1 (Proj field (term_of self.old left))) }
    {
        let inner = last_first(self.alloc, env)?;
        let ty = under(self.alloc, self.pool, ty, inner.as_slice())?;
        let projection = self.pool.add(Term::Proj { field, of: left })?;
        Ok((ty, projection))
    }

    /// The next constructor, or that none is left.
    pub(crate) fn at_branches(&mut self, job: Branches<'a>) -> Result<Rest<'a>, DeclError>
        requires ready { IsReady self.old }
        requires job { BranchesAre self.old job }
        ensures grows { Grows self.old self.new }
        ensures is { Continues self.old self.new (ReadsBranches self.old job.entry) result }
        ensures fewer { IfOk result (λ r. rest_parts r < con_parts (con_of job.entry.branches.now)) }
    {
        let Branches {
            split,
            cons,
            decls,
            branches,
        } = job;
        let [branch, branches @ ..] = branches else {
            if !cons.is_empty() {
                return Err(DeclError::BadTree);
            }
            if !decls.is_empty() {
                return Err(DeclError::BadTree);
            }
            return Ok(Rest::Nothing);
        };
        let [con, cons @ ..] = cons else {
            return Err(DeclError::BadTree);
        };
        let [decl, decls @ ..] = decls else {
            return Err(DeclError::BadTree);
        };
        if branch.con.number() != con.number() {
            return Err(DeclError::BadTree);
        }
        match &branch.way {
            Way::Refuted => {
                self.is_refuted(&split, *con, decl)?;
                Ok(Rest::One(Job::Branches(Branches {
                    split,
                    cons,
                    decls,
                    branches,
                })))
            }
            Way::Goes { branch, rest } => {
                let node = self.goes(&split, *con, decl, branch, rest)?;
                let rest = Branches {
                    split,
                    cons,
                    decls,
                    branches,
                };
                Ok(Rest::Two(node, Job::Branches(rest)))
            }
        }
    }

    /// That the constructors are refuted.
    pub(crate) fn all_refuted(
        &mut self,
        split: &Split,
        cons: &[ConId],
        decls: &[ConDecl],
    ) -> Result<(), DeclError>
        requires ready { IsReady self.old }
        requires split { SplitIs self.old split.now }
        requires decls { AllByRecursion (AllCon (λ i. i < length self.old.pool.now.trees)) decls.now }
        ensures grows { Grows self.old self.new }
        ensures is { AnswersDecl self.new.pool.now (ReadsAbsurd self.old split.now cons.now decls.now) result }
    {
        let mut ids = cons;
        let mut left = decls;
        while let [decl, more @ ..] = left {
            let [con, others @ ..] = ids else {
                return Err(DeclError::BadTree);
            };
            self.is_refuted(split, *con, decl)?;
            ids = others;
            left = more;
        }
        if ids.is_empty() {
            Ok(())
        } else {
            Err(DeclError::BadTree)
        }
    }

    /// That the index equations of a constructor are refuted.
    fn is_refuted(&mut self, split: &Split, con: ConId, decl: &ConDecl) -> Result<(), DeclError>
        requires ready { IsReady self.old }
        requires split { SplitIs self.old split.now }
        requires decl { AllCon (λ i. i < length self.old.pool.now.trees) decl.now }
        ensures grows { Grows self.old self.new }
        ensures is { AnswersDecl self.new.pool.now (ReadsRefuted self.old split.now con decl.now) result }
    {
        let made = open_con(
            self.alloc,
            self.pool,
            split,
            con,
            decl.args.entries.as_slice(),
        )?;
        let equations = index_equations(self.alloc, self.pool, split, decl)?;
        self.refuted(&made.context, equations.as_slice())
    }

    /// A branch that goes on: it is accepted, and its tree is read in its context.
    fn goes(
        &mut self,
        split: &Split,
        con: ConId,
        decl: &ConDecl,
        branch: &'a Branch,
        rest: &'a Tree,
    ) -> Result<Node<'a>, DeclError>
        requires ready { IsReady self.old }
        requires split { SplitIs self.old split.now }
        requires decl { AllCon (λ i. i < length self.old.pool.now.trees) decl.now }
        requires branch { BranchIs self.old branch.now rest.now }
        ensures grows { Grows self.old self.new }
        ensures is { ContinuesBranch self.old self.new split.now con decl.now branch.now rest.now result }
    {
        let env = self.accepts(split, con, decl, branch)?;
        let (ty, left) = self.both_under(split.ty, split.left, env.as_slice())?;
        let (ty, left) = self.both_under(ty, left, branch.subst.as_slice())?;
        Ok(Node {
            context: copied(&branch.context)?,
            tree: rest,
            ty,
            left,
        })
    }

    /// That a branch is accepted; and an environment that brings terms of the split to the constructor.
    fn accepts(
        &mut self,
        split: &Split,
        con: ConId,
        decl: &ConDecl,
        branch: &Branch,
    ) -> Result<Vec<TermId>, DeclError>
        requires ready { IsReady self.old }
        requires split { SplitIs self.old split.now }
        requires decl { AllCon (λ i. i < length self.old.pool.now.trees) decl.now }
        requires branch { BranchStands self.old branch.now }
        ensures grows { Grows self.old self.new }
        ensures is { AnswersEnv self.new.pool.now (ReadsBranch self.old split.now con decl.now branch.now) (into split.now.var (length split.now.context)
            (length decl.now.args) (new_con con (map (term_of self.old) split.now.params.items) (telescope_map (term_of self.old) decl.now.args))) result }
    {
        let ConSplit { context, env } = open_con(
            self.alloc,
            self.pool,
            split,
            con,
            decl.args.entries.as_slice(),
        )?;
        let equations = index_equations(self.alloc, self.pool, split, decl)?;
        self.its_branch(&context, equations.as_slice(), branch)?;
        self.fits(branch, entries_of(&context))?;
        Ok(env)
    }
}
