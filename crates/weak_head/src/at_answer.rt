ghost use Rattle.std.specs.Prelude.{◌≡◌, ◌∷◌, List, length, IfOk};
ghost use Rattle.core_rules.specs.Heads.{Solutions};
ghost use Rattle.term_pool.specs.Pool.{Extends, tree};
ghost use Rattle.core_terms.specs.Signature.{signature_in};
ghost use Rattle.weak_head.specs.Pending.{AtAnswer, Frame as Waiting, IsBare, On, move};
ghost use Rattle.weak_head.specs.States.{AppliedBelow, FrameBelow, StateBelow, answer_in, frame_in, state_in};

use crate::branches::branch_of_con;
use crate::env::{kept, spread};
use crate::lookup::takes;
use crate::spine::{arguments, first_field};
use crate::state::{Applied, Call, Frame, State};
use core_terms::{Branch, MetaId, NoMemory, Node, Signature, TermPool};
use std::alloc::Global;

/// One move from an answer, back at the split that waits for it.
pub(crate) fn at_answer<'a>(
    alloc: Global,
    pool: &mut TermPool,
    sig: &Signature,
    frame: Frame<'a>,
    meta: Option<MetaId>,
    term: Applied,
) -> Result<State<'a>, NoMemory>
    requires frame { FrameBelow (length pool.old.trees) frame }
    requires term { AppliedBelow (length pool.old.trees) term }
    requires bare { IsBare (tree pool.old term.head) }
    ensures extends { Extends pool.old pool.new }
    ensures below { IfOk result (StateBelow (length pool.new.trees)) }
    ensures is { IfOk result (λ x. (s : Solutions) (fs : List Waiting) →
        On (state_in (tree pool.new) x) fs ≡ move (signature_in pool.old sig.now) s
        (AtAnswer (answer_in (tree pool.old) meta term)) (frame_in (tree pool.old) frame.entry ∷ fs)) }
{
    let Frame { call, at, branches } = frame;
    if meta.is_some() {
        return Ok(State::Answer(meta, call.term));
    }
    let Node::Con { con, .. } = pool.node(term.head) else {
        return Ok(State::Answer(None, call.term));
    };
    if first_field(&term.spine).is_some() {
        return Ok(State::Answer(None, call.term));
    }
    if !takes(sig, con, term.spine.len()) {
        return Ok(State::Answer(None, call.term));
    }
    let Some(found) = branch_of_con(branches, con) else {
        return Ok(State::Answer(None, call.term));
    };
    let Call {
        term: of,
        taken,
        env,
    } = call;
    let parts = arguments(alloc, &term.spine)?;
    let wide = spread(alloc, env.as_slice(), at, parts.as_slice())?;
    let env = kept(alloc, pool, wide.as_slice(), keep_of(found.0))?;
    Ok(State::Node(
        Call {
            term: of,
            taken,
            env,
        },
        found.1,
    ))
}

fn keep_of(branch: &Branch) -> &[u32]
    ensures { result.now ≡ branch.now.keep }
{
    branch.keep.as_slice()
}
