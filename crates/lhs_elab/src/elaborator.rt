//! What a left side is read over, and what the types that it reaches show.

ghost use Rattle.std.specs.Prelude.{◌≡◌, ℕ, ◌<◌, Option, length};
ghost use Rattle.lhs_elab.specs.Elaborator.{IsReady, Grows, Keeps, Comes, over, term_of};
ghost use Rattle.lhs_elab.specs.Answers.{Answers, IsShown};
ghost use Rattle.core_rules.specs.Term.{Term};
ghost use Rattle.lhs_rules.specs.Rules.{shows};

use crate::error::{LhsError, LhsKind};
use crate::left::Left;
use core_terms::{DefId, Limits, MetaId, Signature, Solutions, TermId, TermPool};
use el_outside::Pos;
use std::alloc::Global;
use weak_head::{Applied, Reduced, reduce};

/// What a left side of the function is read over, and the left side so far. It is thrown away with the first refusal.
#[derive(Drop)]
pub(crate) struct Elaborator<'a, S> {
    pub pool: &'a mut TermPool,
    pub signature: &'a Signature,
    pub solutions: &'a S,
    pub function: DefId,
    pub left: &'a mut Left,
    pub limits: Limits,
    pub alloc: Global,
}

/// A head form, or a term that waits for a metavariable.
#[derive(Drop)]
pub(crate) struct Shown {
    pub meta: Option<MetaId>,
    pub form: Applied,
}

impl<'a, S: Solutions> Elaborator<'a, S> {
    /// What the type shows to the pattern at this place.
    pub(crate) fn shows(&mut self, pos: Pos, ty: TermId) -> Result<Shown, LhsError>
        requires ready { IsReady S.solution self.old }
        requires ty { ty < length self.old.pool.now.trees }
        ensures grows { Grows self.old self.new }
        ensures keeps { Keeps self.old self.new }
        ensures left { self.new.left.now ≡ self.old.left.now }
        ensures is { (f : ℕ → Option Term) → Answers (IsShown self.new.pool.now) self.new.pool.now
            (Comes (over S.solution f self.old) (shows pos (term_of self.old ty))) result }
    {
        let shown = reduce(
            self.alloc,
            self.pool,
            self.signature,
            self.solutions,
            ty,
            self.limits.fuel,
        )?;
        match shown {
            Reduced::Found { meta, term, .. } => Ok(Shown { meta, form: term }),
            Reduced::OutOfFuel => Err(LhsError::Bad {
                pos,
                kind: LhsKind::OutOfFuel,
            }),
        }
    }
}
