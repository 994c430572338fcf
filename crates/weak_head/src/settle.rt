ghost use Rattle.std.specs.Prelude.{length, IfOk};
ghost use Rattle.core_rules.specs.InScope.{IsAcyclic};
ghost use Rattle.term_pool.specs.Pool.{Extends, tree};
ghost use Rattle.core_terms.specs.Signature.{Stands, signature_in};
ghost use Rattle.core_terms.specs.Solutions.{AreIn, solved_in};
ghost use Rattle.weak_head.specs.Meanings.{Settles};
ghost use Rattle.weak_head.specs.Pending.{FramesBare, IsTurn, NowBare, RunBare};
ghost use Rattle.weak_head.specs.States.{FramesBelow, IsSettled, RunBelow, StateBelow, frames_in, run_in, state_in};

use crate::at_answer::at_answer;
use crate::at_term::at_term;
use crate::at_tree::at_tree;
use crate::resolve::resolve;
use crate::state::{Applied, Frame, Run, State, Turned};
use core_terms::{NoMemory, Signature, Solutions, TermPool};
use smallvec::SmallVec;
use std::alloc::Global;

/// One move.
fn turn<'a, S: Solutions>(
    alloc: Global,
    pool: &mut TermPool,
    sig: &'a Signature,
    sol: &S,
    state: State<'a>,
    frames: Vec<Frame<'a>>,
) -> Result<Run<'a>, NoMemory>
    requires stands { Stands pool.old sig.now }
    requires solutions { AreIn pool.old (S.solution sol.now) }
    requires acyclic { IsAcyclic (solved_in pool.old (S.solution sol.now)) }
    requires state { StateBelow (length pool.old.trees) state }
    requires frames { FramesBelow (length pool.old.trees) frames.items }
    requires bare { NowBare (state_in (tree pool.old) state) }
    ensures extends { Extends pool.old pool.new }
    ensures below { IfOk result (RunBelow (length pool.new.trees)) }
    ensures is { IfOk result (λ r. IsTurn (signature_in pool.old sig.now) (solved_in pool.old (S.solution sol.now))
        (state_in (tree pool.old) state.entry) (frames_in (tree pool.old) frames.entry.items) (run_in (tree pool.new) r)) }
{
    match state {
        State::Term(term) => {
            let Applied { head, spine } = term;
            let head = resolve(alloc, pool, sol, head)?;
            let next = at_term(alloc, pool, sig, Applied { head, spine })?;
            Ok(Run::On(next, frames))
        }
        State::Node(call, tree) => match at_tree(alloc, pool, sig, call, tree)? {
            Turned::On(next) => Ok(Run::On(next, frames)),
            Turned::Asks(frame, head) => {
                let mut more = frames;
                more.push(frame)?;
                let spine = SmallVec::new(alloc);
                Ok(Run::On(State::Term(Applied { head, spine }), more))
            }
        },
        State::Answer(meta, term) => {
            let mut left = frames;
            match left.pop() {
                None => Ok(Run::Answer(meta, term)),
                Some(frame) => {
                    let next = at_answer(alloc, pool, sig, frame, meta, term)?;
                    Ok(Run::On(next, left))
                }
            }
        }
        State::Step(due, spine) => Ok(Run::Due(due, spine, frames)),
    }
}

/// Moves until a step is due or there is an answer.
pub(crate) fn settle<'a, S: Solutions>(
    alloc: Global,
    pool: &mut TermPool,
    sig: &'a Signature,
    sol: &S,
    state: State<'a>,
    frames: Vec<Frame<'a>>,
) -> Result<Run<'a>, NoMemory>
    requires stands { Stands pool.old sig.now }
    requires solutions { AreIn pool.old (S.solution sol.now) }
    requires acyclic { IsAcyclic (solved_in pool.old (S.solution sol.now)) }
    requires state { StateBelow (length pool.old.trees) state }
    requires frames { FramesBelow (length pool.old.trees) frames.items }
    requires bare { NowBare (state_in (tree pool.old) state) }
    requires frames_bare { FramesBare (frames_in (tree pool.old) frames.items) }
    ensures extends { Extends pool.old pool.new }
    ensures settled { IfOk result IsSettled }
    ensures below { IfOk result (RunBelow (length pool.new.trees)) }
    ensures bare { IfOk result (λ r. RunBare (run_in (tree pool.new) r)) }
    ensures leads { IfOk result (λ r. Settles (signature_in pool.old sig.now) (solved_in pool.old (S.solution sol.now))
        (state_in (tree pool.old) state.entry) (frames_in (tree pool.old) frames.entry.items) (run_in (tree pool.new) r)) }
{
    let mut run = Run::On(state, frames);
    loop {
        match run {
            Run::On(next, waiting) => {
                run = turn(alloc, pool, sig, sol, next, waiting)?;
            }
            other => return Ok(other),
        }
    }
}
