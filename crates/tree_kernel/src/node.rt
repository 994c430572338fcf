//! The nodes of a case tree: what each is read against, and what is then still to be read.

ghost use Rattle.std.specs.Prelude.{◌≡◌, ◌<◌, length, map, IfOk};
ghost use Rattle.std.specs.List.{AllByRecursion};
ghost use Rattle.core_rules.specs.Term.{App, Var};
ghost use Rattle.core_rules.specs.Mapped.{AllEntries};
ghost use Rattle.core_rules.specs.Substitution.{shift as shifted, under as put};
ghost use Rattle.core_rules.specs.Signature.{Absurd, Cosplit, Intro, Leaf, RecordSplit, Split as SplitNode};
ghost use Rattle.core_terms.specs.TreeView.{co_of, con_of};
ghost use Rattle.term_pool.specs.Pool.{StandsFor};
ghost use Rattle.tree_kernel.specs.Answers.{AnswersDecl};
ghost use Rattle.tree_kernel.specs.Jobs.{rest_parts, tree_parts};
ghost use Rattle.tree_kernel.specs.Nodes.{Continues, ContinuesBranches, ContinuesFields, ContinuesNode, IsBrought, NodeIs, ReadsNode, SplitIs, split_of};
ghost use Rattle.tree_kernel.specs.Reader.{Grows, IsReady, term_of};

use crate::branch::with_entry;
use crate::error::DeclError;
use crate::job::{Branches, Fields, Job, Node, Rest, Split};
use crate::opening::{ConSplit, open_con};
use crate::reader::Reader;
use core_kernel::check;
use core_rules::Flag;
use core_terms::{
    CoBranch, ConBranch, ConId, CoreDecl, Entry, FamId, NoMemory, Node as Term, Step, Telescope,
    TermId, Tree, shift, under,
};

/// The split of a node on a variable.
fn split_on(node: Node, var: u32, params: Vec<TermId>, indices: Vec<TermId>) -> Split
    ensures { result ≡ split_of node.entry var params indices }
{
    let Node {
        context,
        ty,
        left,
        ..
    } = node;
    Split {
        context,
        var,
        params,
        indices,
        ty,
        left,
    }
}

/// The context of a constructor at a split, with the type and the left side of the split there.
#[derive(Drop)]
pub(crate) struct AtCon {
    pub context: Telescope,
    pub ty: TermId,
    pub left: TermId,
}

impl<'a> Reader<'a> {
    /// One node of a tree.
    pub(crate) fn at_node(&mut self, node: Node<'a>) -> Result<Rest<'a>, DeclError>
        requires ready { IsReady self.old }
        requires node { NodeIs self.old node node.tree.now }
        ensures grows { Grows self.old self.new }
        ensures is { Continues self.old self.new (ReadsNode self.old node.entry node.entry.tree.now) result }
        ensures fewer { IfOk result (λ r. rest_parts r < tree_parts node.entry.tree.now) }
    {
        let tree = node.tree;
        match &tree.step {
            Step::Leaf { body, .. } => {
                self.at_leaf(node, *body)?;
                Ok(Rest::Nothing)
            }
            Step::Intro { rest } => Ok(Rest::One(Job::Node(self.at_intro(node, rest)?))),
            Step::Cosplit { branches } => {
                let fields = self.at_cosplit(node, branches.as_slice())?;
                Ok(Rest::One(Job::Fields(fields)))
            }
            Step::Split { at, branches } => {
                let left = self.at_split(node, *at, branches.as_slice())?;
                Ok(Rest::One(Job::Branches(left)))
            }
            Step::RecordSplit { at, fam, rest } => {
                let rest = self.at_record_split(node, *at, *fam, rest)?;
                Ok(Rest::One(Job::Node(rest)))
            }
            Step::Absurd { at } => {
                self.at_absurd(node, *at)?;
                Ok(Rest::Nothing)
            }
        }
    }

    /// A leaf: its body has the type.
    fn at_leaf(&mut self, node: Node<'a>, body: TermId) -> Result<(), DeclError>
        requires ready { IsReady self.old }
        requires node { NodeIs self.old node (Leaf body 0) }
        ensures grows { Grows self.old self.new }
        ensures is { AnswersDecl self.new.pool.now (ReadsNode self.old node.entry (Leaf body 0)) result }
    {
        let limits = self.limits;
        check(
            self.alloc,
            self.pool,
            self.signature,
            &node.context,
            body,
            node.ty,
            limits,
        )?;
        Ok(())
    }

    /// An intro: the type is a function type, and the rest has its codomain.
    fn at_intro(&mut self, node: Node<'a>, rest: &'a Tree) -> Result<Node<'a>, DeclError>
        requires ready { IsReady self.old }
        requires node { NodeIs self.old node (Intro rest.now) }
        ensures grows { Grows self.old self.new }
        ensures is { ContinuesNode self.old self.new rest.now (ReadsNode self.old node.entry (Intro rest.now)) result }
    {
        let form = self.form(node.ty)?;
        let Term::Pi {
            flag,
            name,
            dom,
            cod,
        } = self.pool.node(form)
        else {
            return Err(DeclError::BadTree);
        };
        let Node { context, left, .. } = node;
        let context = with_entry(
            context,
            Entry {
                name,
                flag,
                ty: dom,
            },
        )?;
        let left = self.applied(left, flag)?;
        Ok(Node {
            context,
            tree: rest,
            ty: cod,
            left,
        })
    }

    /// A left side at a new variable.
    fn applied(&mut self, left: TermId, flag: Flag) -> Result<TermId, NoMemory>
        requires left { left < length self.old.pool.now.trees }
        ensures grows { Grows self.old self.new }
        ensures is { IfOk result (λ t. StandsFor self.new.pool.now t (App flag (shifted (term_of self.old left) 0 1) (Var 0))) }
    {
        let fun = shift(self.alloc, self.pool, left, 0, 1)?;
        let arg = self.pool.add(Term::Var(0))?;
        let made = self.pool.add(Term::App { flag, fun, arg })?;
        Ok(made)
    }

    /// A type and a left side under an environment.
    pub(crate) fn both_under(
        &mut self,
        ty: TermId,
        left: TermId,
        env: &[TermId],
    ) -> Result<(TermId, TermId), NoMemory>
        requires ty { ty < length self.old.pool.now.trees }
        requires left { left < length self.old.pool.now.trees }
        requires env { AllByRecursion (λ i. i < length self.old.pool.now.trees) env.now }
        ensures grows { Grows self.old self.new }
        ensures ty { IfOk result (λ w. StandsFor self.new.pool.now w.0 (put (map (term_of self.old) env.now) (term_of self.old ty))) }
        ensures left { IfOk result (λ w. StandsFor self.new.pool.now w.1 (put (map (term_of self.old) env.now) (term_of self.old left))) }
    {
        let ty = under(self.alloc, self.pool, ty, env)?;
        let left = under(self.alloc, self.pool, left, env)?;
        Ok((ty, left))
    }

    /// A cosplit: the type is a record, and each field in order has a branch.
    fn at_cosplit(
        &mut self,
        node: Node<'a>,
        branches: &'a [CoBranch],
    ) -> Result<Fields<'a>, DeclError>
        requires ready { IsReady self.old }
        requires node { NodeIs self.old node (Cosplit (co_of branches.now)) }
        ensures grows { Grows self.old self.new }
        ensures is { ContinuesFields self.old self.new (ReadsNode self.old node.entry (Cosplit (co_of branches.now))) result }
        ensures branches { IfOk result (λ w. w.branches.now ≡ branches.now) }
    {
        let family = self.record_at(node.ty)?;
        let CoreDecl::Family {
            is_record,
            fields,
            ..
        } = &family.entry.decl
        else {
            unreachable!()
        };
        if !*is_record {
            return Err(DeclError::BadTree);
        }
        let Node { context, left, .. } = node;
        Ok(Fields {
            context,
            left,
            env: family.params,
            fields: family.entry.fields.as_slice(),
            entries: fields.entries.as_slice(),
            branches,
        })
    }

    /// A split: the variable is of a family that can be split, and each constructor in order has a branch.
    fn at_split(
        &mut self,
        node: Node<'a>,
        at: u32,
        branches: &'a [ConBranch],
    ) -> Result<Branches<'a>, DeclError>
        requires ready { IsReady self.old }
        requires node { NodeIs self.old node (SplitNode at (con_of branches.now)) }
        ensures grows { Grows self.old self.new }
        ensures is { ContinuesBranches self.old self.new (ReadsNode self.old node.entry (SplitNode at (con_of branches.now))) result }
        ensures branches { IfOk result (λ w. w.branches.now ≡ branches.now) }
    {
        let family = self.splittable(&node.context, at)?;
        let CoreDecl::Family { cons, .. } = &family.entry.decl else {
            unreachable!()
        };
        let ids = family.entry.cons.as_slice();
        let split = split_on(node, at, family.params, family.indices);
        Ok(Branches {
            split,
            cons: ids,
            decls: cons.as_slice(),
            branches,
        })
    }

    /// An absurd node: the variable is of a family that can be split, and each constructor is refuted.
    fn at_absurd(&mut self, node: Node<'a>, at: u32) -> Result<(), DeclError>
        requires ready { IsReady self.old }
        requires node { NodeIs self.old node (Absurd at) }
        ensures grows { Grows self.old self.new }
        ensures is { AnswersDecl self.new.pool.now (ReadsNode self.old node.entry (Absurd at)) result }
    {
        let family = self.splittable(&node.context, at)?;
        let CoreDecl::Family { cons, .. } = &family.entry.decl else {
            unreachable!()
        };
        let ids = family.entry.cons.as_slice();
        let split = split_on(node, at, family.params, family.indices);
        self.all_refuted(&split, ids, cons.as_slice())
    }

    /// A record split: the variable is of the record named, which has eta; the fields take its place.
    fn at_record_split(
        &mut self,
        node: Node<'a>,
        at: u32,
        fam: FamId,
        rest: &'a Tree,
    ) -> Result<Node<'a>, DeclError>
        requires ready { IsReady self.old }
        requires node { NodeIs self.old node (RecordSplit at fam rest.now) }
        ensures grows { Grows self.old self.new }
        ensures is { ContinuesNode self.old self.new rest.now (ReadsNode self.old node.entry (RecordSplit at fam rest.now)) result }
    {
        let family = self.family_at(&node.context, at)?;
        if family.fam.number() != fam.number() {
            return Err(DeclError::BadTree);
        }
        let CoreDecl::Family { fields, eta, .. } = &family.entry.decl else {
            unreachable!()
        };
        if !*eta {
            return Err(DeclError::BadTree);
        }
        let [con, ..] = family.entry.cons.as_slice() else {
            return Err(DeclError::BadTree);
        };
        let split = split_on(node, at, family.params, family.indices);
        let AtCon { context, ty, left } = self.brought(&split, *con, fields.entries.as_slice())?;
        Ok(Node {
            context,
            tree: rest,
            ty,
            left,
        })
    }

    /// A split with a constructor for its variable. `entries` are the arguments of the constructor under the parameters.
    fn brought(&mut self, split: &Split, con: ConId, entries: &[Entry]) -> Result<AtCon, NoMemory>
        requires split { SplitIs self.old split.now }
        requires entries { AllEntries (λ i. i < length self.old.pool.now.trees) entries.now }
        ensures grows { Grows self.old self.new }
        ensures is { IfOk result (λ o. IsBrought self.old self.new split.now con entries.now o) }
    {
        let ConSplit { context, env } = open_con(self.alloc, self.pool, split, con, entries)?;
        let (ty, left) = self.both_under(split.ty, split.left, env.as_slice())?;
        Ok(AtCon { context, ty, left })
    }
}
