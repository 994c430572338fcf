//! What stands before the constructors or fields: parameters, and the type after the colon.

ghost use Rattle.std.specs.Prelude.{◌≡◌, []};
ghost use Rattle.core_rules.specs.Signature.{Signature as Declared};
ghost use Rattle.core_rules.specs.Term.{Term};
ghost use Rattle.written_rules.specs.Expressions.{expr_meaning};
ghost use Rattle.data_rules.specs.Rules.{heading, indexed};
ghost use Rattle.data_elab.specs.Heading.{AnswersHeading};
ghost use Rattle.data_elab.specs.Params.{binders_in};
ghost use Rattle.data_elab.specs.Reader.{IsReady, Grows, Keeps, Read, context_of, over, signature_of};

use crate::error::{DataError, DataKind, refused};
use crate::reader::Reader;
use crate::shapes::{Tested, level_in};
use core_terms::{Entry, NameId};
use el_outside::Pos;
use resolved_tree::{ResolvedBinder, ResolvedExpr};

/// A family as it is known before its constructors or fields.
#[derive(Drop)]
pub(crate) struct Heading {
    pub name: NameId,
    pub params: Vec<Entry>,
    pub indices: Vec<Entry>,
    pub level: u32,
}

/// Where an expression stands.
fn pos_of(expr: &ResolvedExpr) -> Pos
    ensures { (g : Declared Term) → (expr_meaning g expr.now).pos ≡ result }
{
    match expr {
        ResolvedExpr::Pi(place, _, _) => place.pos,
        ResolvedExpr::Forall(place, _, _) => place.pos,
        ResolvedExpr::Lambda(place, _, _) => place.pos,
        ResolvedExpr::Arrow(place, _, _) => place.pos,
        ResolvedExpr::App(place, _, _) => place.pos,
        ResolvedExpr::Variable(place, _) => place.pos,
        ResolvedExpr::Def(place, _) => place.pos,
        ResolvedExpr::Family(place, _) => place.pos,
        ResolvedExpr::Con(place, _) => place.pos,
        ResolvedExpr::SetLevel(place, _) => place.pos,
        ResolvedExpr::Hole(place) => place.pos,
        ResolvedExpr::Underscore(place) => place.pos,
        ResolvedExpr::Record(place, _) => place.pos,
    }
}

impl<'a> Reader<'a> {
    /// The type after the colon, under the parameters. It shows `room` function types at most.
    fn read_indices(
        &mut self,
        name: NameId,
        room: u32,
        ty: &ResolvedExpr,
    ) -> Result<Heading, DataError>
        requires ready { IsReady self.old }
        ensures grows { Grows self.old self.new }
        ensures keeps { Keeps self.old self.new }
        ensures is { AnswersHeading self.new.pool.now (Read (over self.old)
            (indexed name room (expr_meaning (signature_of self.old) ty.now) (context_of self.old))) result }
    {
        let pos = pos_of(ty);
        let params = Vec::from_slice(self.alloc, self.context.as_slice())?;
        let found = self.read_type(ty)?;
        let shown = self.telescope(pos, Tested::Sort, room, found.term)?;
        let Some(level) = level_in(self.pool, &shown.end) else {
            return Err(refused(pos, DataKind::BadSort));
        };
        Ok(Heading {
            name,
            params,
            indices: shown.entries,
            level,
        })
    }

    /// The parameters, before which there is no entry, and the type after the colon. The parameters are then the context.
    pub(crate) fn read_heading(
        &mut self,
        name: NameId,
        room: u32,
        binders: &[ResolvedBinder],
        ty: &ResolvedExpr,
    ) -> Result<Heading, DataError>
        requires ready { IsReady self.old }
        requires empty { self.old.context.now.items ≡ [] }
        ensures grows { Grows self.old self.new }
        ensures is { AnswersHeading self.new.pool.now (Read (over self.old)
            (heading name room (binders_in self.old binders.now) (expr_meaning (signature_of self.old) ty.now))) result }
    {
        self.enter_params(binders)?;
        self.read_indices(name, room, ty)
    }
}
