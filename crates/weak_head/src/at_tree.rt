ghost use Rattle.std.specs.Prelude.{◌≡◌, ◌<◌, ℕ, List, length, map, IfOk};
ghost use Rattle.core_rules.specs.Term.{Term};
ghost use Rattle.core_rules.specs.Signature.{Cosplit, Intro, Signature as Rules};
ghost use Rattle.core_rules.specs.Elimination.{projections};
ghost use Rattle.core_rules.specs.Heads.{Solutions};
ghost use Rattle.core_rules.specs.Mapped.{AllCoBranches, AllTree};
ghost use Rattle.term_pool.specs.Pool.{Extends, tree};
ghost use Rattle.core_terms.specs.Signature.{signature_in};
ghost use Rattle.core_terms.specs.TreeView.{co_of};
ghost use Rattle.weak_head.specs.Pending.{Frame as Waiting, move};
ghost use Rattle.weak_head.specs.States.{CallBelow, Ids, TurnedBelow, call_in, turned_in};

use crate::branches::branch_of_field;
use crate::elim::Elim;
use crate::env::{spread, value};
use crate::lookup::fields_of;
use crate::spine::{elim_at, without};
use crate::state::{Call, Due, Frame, State, Turned};
use core_terms::{CoBranch, FamId, NoMemory, Node, Signature, Step, TermId, TermPool, Tree};
use std::alloc::Global;

/// One move from a call at a node of its tree.
pub(crate) fn at_tree<'a>(
    alloc: Global,
    pool: &mut TermPool,
    sig: &Signature,
    call: Call,
    node: &'a Tree,
) -> Result<Turned<'a>, NoMemory>
    requires call { CallBelow (length pool.old.trees) call }
    requires node { AllTree (λ i. i < length pool.old.trees) node.now }
    ensures extends { Extends pool.old pool.new }
    ensures below { IfOk result (TurnedBelow (length pool.new.trees)) }
    ensures is { IfOk result (λ x. (s : Solutions) (fs : List Waiting) →
        turned_in (tree pool.new) fs x ≡ move (signature_in pool.old sig.now) s (call_in (tree pool.old) call node.now) fs) }
{
    match &node.step {
        Step::Leaf { body, .. } => {
            let Call { term, taken, env } = call;
            let spine = without(term.spine, taken);
            Ok(Turned::On(State::Step(Due::Unfold { body: *body, env }, spine)))
        }
        Step::Intro { rest } => {
            let next = at_intro(call, rest)?;
            Ok(next)
        }
        Step::Cosplit { branches } => Ok(at_cosplit(call, branches.as_slice())),
        Step::Split { at, branches } => {
            let v = value(pool, call.env.as_slice(), *at)?;
            Ok(Turned::Asks(
                Frame {
                    call,
                    at: *at,
                    branches: branches.as_slice(),
                },
                v,
            ))
        }
        Step::RecordSplit { at, fam, rest } => {
            let Call { term, taken, env } = call;
            let v = value(pool, env.as_slice(), *at)?;
            let parts = projections(alloc, pool, sig, *fam, v)?;
            let env = spread(alloc, env.as_slice(), *at, parts.as_slice())?;
            Ok(Turned::On(State::Node(Call { term, taken, env }, rest)))
        }
        Step::Absurd { .. } => Ok(Turned::On(State::Answer(None, call.term))),
    }
}

/// The next elimination is put in front of the environment, where it is an argument.
fn at_intro<'a>(call: Call, rest: &'a Tree) -> Result<Turned<'a>, NoMemory>
    ensures below { IfOk result (λ x. (n : ℕ) → CallBelow n call → AllTree (λ i. i < n) rest.now → TurnedBelow n x) }
    ensures is { IfOk result (λ x. (f : ℕ → Term) (g : Rules Term) (s : Solutions) (fs : List Waiting) →
        turned_in f fs x ≡ move g s (call_in f call (Intro rest.now)) fs) }
{
    let Call { term, taken, env } = call;
    let Some(elim) = elim_at(&term.spine, taken) else {
        return Ok(Turned::On(State::Answer(None, term)));
    };
    let Elim::Arg { arg, .. } = elim else {
        return Ok(Turned::On(State::Answer(None, term)));
    };
    let mut env = env;
    env.push(arg)?;
    let taken = taken + 1;
    Ok(Turned::On(State::Node(Call { term, taken, env }, rest)))
}

/// The branch of the next elimination, where it is a projection that has one.
fn at_cosplit<'a>(call: Call, branches: &'a [CoBranch]) -> Turned<'a>
    ensures below { (n : ℕ) → CallBelow n call → AllCoBranches (λ i. i < n) (co_of branches.now) → TurnedBelow n result }
    ensures is { (f : ℕ → Term) (g : Rules Term) (s : Solutions) (fs : List Waiting) →
        turned_in f fs result ≡ move g s (call_in f call (Cosplit (co_of branches.now))) fs }
{
    let Call { term, taken, env } = call;
    let Some(elim) = elim_at(&term.spine, taken) else {
        return Turned::On(State::Answer(None, term));
    };
    let Elim::Field(field) = elim else {
        return Turned::On(State::Answer(None, term));
    };
    let Some(rest) = branch_of_field(branches, field) else {
        return Turned::On(State::Answer(None, term));
    };
    let taken = taken + 1;
    Turned::On(State::Node(Call { term, taken, env }, rest))
}

/// The projections of a value to the fields of a record, in order.
fn projections(
    alloc: Global,
    pool: &mut TermPool,
    sig: &Signature,
    fam: FamId,
    v: TermId,
) -> Result<Vec<TermId>, NoMemory>
    requires { v < length pool.old.trees }
    ensures extends { Extends pool.old pool.new }
    ensures below { IfOk result (λ us. Ids (length pool.new.trees) us.items) }
    ensures is { IfOk result (λ us. map (tree pool.new) us.items ≡
        projections (signature_in pool.old sig.now) fam (tree pool.old v)) }
{
    let mut all = Vec::new(alloc);
    for field in fields_of(sig, fam) {
        let part = pool.add(Node::Proj {
            field: *field,
            of: v,
        })?;
        all.push(part)?;
    }
    Ok(all)
}
