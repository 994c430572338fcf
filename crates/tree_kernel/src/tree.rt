//! The call of the kernel on a case tree.

ghost use Rattle.std.specs.Prelude.{◌≡◌, ◌<◌, ◌++◌, [], length, reverse, IfOk, OnOk};
ghost use Rattle.core_rules.specs.Term.{Def};
ghost use Rattle.core_rules.specs.Mapped.{AllTree, tree_map};
ghost use Rattle.core_rules.specs.InScope.{TreeInScope, any_meta};
ghost use Rattle.core_rules.specs.TreeLaws.{IsSound};
ghost use Rattle.core_rules.specs.TypedTree.{TypedTree};
ghost use Rattle.term_pool.specs.Pool.{Extends, tree as term_at};
ghost use Rattle.core_terms.specs.Signature.{Stands, signature_in};
ghost use Rattle.tree_kernel.specs.Answers.{AnswersDecl, IsOpenAt};
ghost use Rattle.tree_kernel.specs.Jobs.{jobs_of, parts_of, rest_parts};
ghost use Rattle.tree_kernel.specs.Nodes.{Continues, JobIs, NodeIs, ReadsNode, ReadsWaiting};
ghost use Rattle.tree_kernel.specs.Reader.{Grows, IsReady};
ghost use Rattle.tree_kernel.specs.Reading.{ReadsTree};

use crate::error::DeclError;
use crate::job::{Job, Node, Rest};
use crate::laws::accepted_tree_is_typed;
use crate::reader::Reader;
use core_terms::{
    DefId, Limits, NoMemory, Node as Term, Row, Signature, Telescope, TermId, TermPool, Tree,
};
use std::alloc::Global;

/// Whether a case tree gives terms of the type `ty` of a function, which the signature knows without clauses and tree, or why it is
/// refused, exactly as the kernel's reading says. The tree is in scope. Over a sound signature an accepted tree is typed.
///
/// What waits to be read is kept in a list, so that a deep tree takes no more of the stack than a flat one.
pub fn check_tree(
    alloc: Global,
    pool: &mut TermPool,
    sig: &Signature,
    function: DefId,
    ty: TermId,
    tree: &Tree,
    limits: Limits,
) -> Result<(), DeclError>
    requires stands { Stands pool.old sig.now }
    requires function { IsOpenAt sig.now function ty }
    requires tree { AllTree (λ i. i < length pool.old.trees) tree.now }
    requires scope { TreeInScope (signature_in pool.old sig.now) any_meta 0 (tree_map (term_at pool.old) tree.now) }
    ensures extends { Extends pool.old pool.new }
    ensures answer { AnswersDecl pool.new (ReadsTree (signature_in pool.old sig.now) limits.fuel limits.depth []
        (tree_map (term_at pool.old) tree.now) (term_at pool.old ty) (Def function)) result }
    ensures typed { IfOk result (λ o. IsSound (signature_in pool.old sig.now)
        → TypedTree (signature_in pool.old sig.now) [] (tree_map (term_at pool.old) tree.now) (term_at pool.old ty) (Def function)) }
{
    accepted_tree_is_typed();
    let left = pool.add(Term::Def(function))?;
    let context = Telescope {
        entries: Row::from_vec(Vec::new(alloc)),
    };
    let mut reader = Reader {
        pool,
        signature: sig,
        limits,
        alloc,
    };
    reader.read(Node {
        context,
        tree,
        ty,
        left,
    })
}

/// What is left of a job, on top of what waits.
fn put_back<'a>(waiting: &mut Vec<Job<'a>>, rest: Rest<'a>) -> Result<(), NoMemory>
    ensures { OnOk result (waiting.new.items ≡ waiting.old.items ++ reverse (jobs_of rest.entry)) }
{
    match rest {
        Rest::Nothing => {}
        Rest::One(job) => waiting.push(job)?,
        Rest::Two(node, job) => {
            waiting.push(job)?;
            waiting.push(Job::Node(node))?;
        }
    }
    Ok(())
}

impl<'a> Reader<'a> {
    /// A tree in its context.
    fn read(&mut self, node: Node<'a>) -> Result<(), DeclError>
        requires ready { IsReady self.old }
        requires node { NodeIs self.old node node.tree.now }
        ensures grows { Grows self.old self.new }
        ensures is { AnswersDecl self.new.pool.now (ReadsNode self.old node.entry node.entry.tree.now) result }
    {
        let mut waiting = Vec::new(self.alloc);
        waiting.push(Job::Node(node))?;
        while let Some(job) = waiting.pop() {
            let rest = self.step(job)?;
            put_back(&mut waiting, rest)?;
        }
        Ok(())
    }

    /// The first part of what waits: what is then still to be read of it.
    fn step(&mut self, job: Job<'a>) -> Result<Rest<'a>, DeclError>
        requires ready { IsReady self.old }
        requires job { JobIs self.old job }
        ensures grows { Grows self.old self.new }
        ensures is { Continues self.old self.new (ReadsWaiting self.old job.entry) result }
        ensures fewer { IfOk result (λ r. rest_parts r < parts_of job.entry) }
    {
        match job {
            Job::Node(node) => self.at_node(node),
            Job::Fields(fields) => self.at_fields(fields),
            Job::Branches(branches) => self.at_branches(branches),
        }
    }
}
