ghost use Rattle.std.specs.Prelude.{◌≡◌, ◌<◌, ℕ, List, length, IfOk};
ghost use Rattle.core_rules.specs.Term.{Con as ConTerm, Lam, Term, Terms};
ghost use Rattle.core_rules.specs.Signature.{Signature as Rules};
ghost use Rattle.core_rules.specs.Heads.{Solutions};
ghost use Rattle.core_rules.specs.Bounded.{same_flag};
ghost use Rattle.term_pool.specs.Pool.{Pool, tree};
ghost use Rattle.core_terms.specs.Signature.{Stands, signature_in};
ghost use Rattle.weak_head.specs.Elims.{AllBelow, spine_in};
ghost use Rattle.weak_head.specs.Pending.{AtTerm, Frame, On, Rests, move};
ghost use Rattle.weak_head.specs.States.{AppliedBelow, StateBelow, state_in};

use crate::elim::{Elim, Spine};
use crate::lookup::{place_of, tree_of};
use crate::spine::{argument_at, elim_at, first_field, without};
use crate::state::{Applied, Call, Due, State};
use core_rules::Flag;
use core_terms::{ConId, NoMemory, Node, Signature, TermId, TermPool};
use std::alloc::Global;

/// One move from a term whose head is no solved metavariable.
pub(crate) fn at_term<'a>(
    alloc: Global,
    pool: &TermPool,
    sig: &'a Signature,
    term: Applied,
) -> Result<State<'a>, NoMemory>
    requires stands { Stands pool.now sig.now }
    requires term { AppliedBelow (length pool.now.trees) term }
    ensures below { IfOk result (StateBelow (length pool.now.trees)) }
    ensures is { IfOk result (λ x. (s : Solutions) (fs : List Frame) → Rests s (tree pool.now term.head) →
        On (state_in (tree pool.now) x) fs ≡ move (signature_in pool.now sig.now) s
        (AtTerm (tree pool.now term.head) (spine_in (tree pool.now) term.spine.items)) fs) }
{
    let Applied { head, spine } = term;
    match pool.node(head) {
        Node::App { flag, fun, arg } => {
            let mut more = spine;
            more.push(Elim::Arg { flag, arg })?;
            Ok(State::Term(Applied {
                head: fun,
                spine: more,
            }))
        }
        Node::Proj { field, of } => {
            let mut more = spine;
            more.push(Elim::Field(field))?;
            Ok(State::Term(Applied {
                head: of,
                spine: more,
            }))
        }
        Node::Lam { flag, body, .. } => Ok(at_lambda(head, flag, body, spine)),
        Node::Con { con, .. } => Ok(at_constructor(sig, head, con, spine)),
        Node::Def(f) => match tree_of(sig, f) {
            Some(tree) => {
                let term = Applied { head, spine };
                let env = Vec::new(alloc);
                Ok(State::Node(
                    Call {
                        term,
                        taken: 0,
                        env,
                    },
                    tree,
                ))
            }
            None => Ok(State::Answer(None, Applied { head, spine })),
        },
        Node::Meta { meta, .. } => Ok(State::Answer(Some(meta), Applied { head, spine })),
        Node::Var(_) => Ok(State::Answer(None, Applied { head, spine })),
        Node::Sort(_) => Ok(State::Answer(None, Applied { head, spine })),
        Node::Pi { .. } => Ok(State::Answer(None, Applied { head, spine })),
        Node::Fam(_) => Ok(State::Answer(None, Applied { head, spine })),
    }
}

/// A lambda takes its first argument, where the flags are the same.
fn at_lambda<'a>(head: TermId, flag: Flag, body: TermId, spine: Spine) -> State<'a>
    ensures below { (n : ℕ) → head < n → body < n → AllBelow n spine.items → StateBelow n result }
    ensures is { (f : ℕ → Term) (g : Rules Term) (s : Solutions) (fs : List Frame) (x : ℕ) (a : Term) →
        f head ≡ Lam flag x a (f body) →
        On (state_in f result) fs ≡ move g s (AtTerm (f head) (spine_in f spine.items)) fs }
{
    let Some(elim) = elim_at(&spine, 0) else {
        return State::Answer(None, Applied { head, spine });
    };
    let Elim::Arg { flag: of, arg } = elim else {
        return State::Answer(None, Applied { head, spine });
    };
    if !same_flag(flag, of) {
        return State::Answer(None, Applied { head, spine });
    }
    State::Step(Due::Beta { body, arg }, without(spine, 1))
}

/// A projection takes its argument, where the constructor has all of them.
fn at_constructor<'a>(sig: &Signature, head: TermId, con: ConId, spine: Spine) -> State<'a>
    ensures below { (n : ℕ) → head < n → AllBelow n spine.items → StateBelow n result }
    ensures is { (p : Pool) (s : Solutions) (fs : List Frame) (ps : Terms) → tree p head ≡ ConTerm con ps →
        On (state_in (tree p) result) fs ≡
        move (signature_in p sig.now) s (AtTerm (tree p head) (spine_in (tree p) spine.items)) fs }
{
    let Some(found) = first_field(&spine) else {
        return State::Answer(None, Applied { head, spine });
    };
    let Some(at) = place_of(sig, con, found.0, found.1) else {
        return State::Answer(None, Applied { head, spine });
    };
    match argument_at(&spine, at) {
        Some(arg) => State::Step(Due::Take { arg }, without(spine, found.0 + 1)),
        None => State::Answer(None, Applied { head, spine }),
    }
}

fn same_flag(flag: Flag, of: Flag) -> bool
    ensures { result ≡ same_flag flag of }
{
    match flag {
        Flag::Explicit => match of {
            Flag::Explicit => true,
            Flag::Implicit => false,
        },
        Flag::Implicit => match of {
            Flag::Explicit => false,
            Flag::Implicit => true,
        },
    }
}
