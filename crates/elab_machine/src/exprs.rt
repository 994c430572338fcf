//! Expressions: at a wanted type, and as types.

ghost use Rattle.std.specs.Prelude.{◌<◌, ◌∷◌, [], length, OnOk};
ghost use Rattle.core_rules.specs.declared.Flag.TheVariants as flag;
ghost use Rattle.written_rules.specs.Rules.{lambda, grouped, function_type, type_checked, other_checked};
ghost use Rattle.written_rules.specs.Expressions.{expr_meaning, no_name};
ghost use Rattle.elab_machine.specs.Answers.{AnswersTerm};
ghost use Rattle.elab_machine.specs.Binders.{AnswersTyped, ChecksExpr, TypesExpr, binders_in};
ghost use Rattle.elab_machine.specs.Writer.{IsReady, Grows, Keeps, Read, over, term_of, values_of, signature_of};

use crate::binders::{Binding, Typed, higher, put_around};
use crate::error::{ElabKind, WrittenError, refused};
use crate::names::{Name, Seen, look_at};
use crate::writer::Writer;
use core_rules::Flag;
use core_terms::{NameId, Node, TermId};
use el_outside::Pos;
use resolved_tree::{ResolvedBinder, ResolvedExpr, ResolvedName};
use source_tree::Place;

impl<'a> Writer<'a> {
    /// What is a type by its form, at a wanted type.
    #[cycle(written)]
    fn check_type(
        &mut self,
        pos: Pos,
        e: &ResolvedExpr,
        wanted: TermId,
    ) -> Result<TermId, WrittenError>
        requires ready { IsReady self.old }
        requires wanted { wanted < length self.old.pool.now.trees }
        ensures grows { Grows self.old self.new }
        ensures keeps { OnOk result (Keeps self.old self.new) }
        ensures is { AnswersTerm self.new.pool.now (Read (over self.old)
            (type_checked pos (expr_meaning (signature_of self.old) e.now).types (values_of self.old) (term_of self.old wanted))) result }
    {
        self.wanted(pos, wanted)?;
        let found = self.type_expr(e)?;
        let sort = self.pool.add(Node::Sort(found.level))?;
        self.agree(pos, sort, wanted)?;
        Ok(found.term)
    }

    /// What is no name at arguments, at a wanted type: its head is refused.
    fn check_other(&mut self, pos: Pos, at: Pos, wanted: TermId) -> Result<TermId, WrittenError>
        requires ready { IsReady self.old }
        requires wanted { wanted < length self.old.pool.now.trees }
        ensures grows { Grows self.old self.new }
        ensures keeps { Keeps self.old self.new }
        ensures is { AnswersTerm self.new.pool.now (Read (over self.old) (other_checked pos at (values_of self.old) (term_of self.old wanted))) result }
    {
        self.wanted(pos, wanted)?;
        Err(refused(at, ElabKind::CannotInfer))
    }

    /// A lambda at a wanted type.
    #[cycle(written)]
    fn check_lambda(
        &mut self,
        pos: Pos,
        binders: &[ResolvedBinder],
        body: &ResolvedExpr,
        wanted: TermId,
    ) -> Result<TermId, WrittenError>
        requires ready { IsReady self.old }
        requires wanted { wanted < length self.old.pool.now.trees }
        ensures grows { Grows self.old self.new }
        ensures keeps { OnOk result (Keeps self.old self.new) }
        ensures is { AnswersTerm self.new.pool.now (Read (over self.old) (lambda pos (binders_in self.old binders.now)
            (expr_meaning (signature_of self.old) body.now).checks (values_of self.old) (term_of self.old wanted))) result }
    {
        let values = self.values.len();
        let inside = self.inside;
        let lambdas = self.enter_lambdas(pos, binders, wanted)?;
        let body = self.check_expr(body, lambdas.wanted)?;
        self.leave(values, inside);
        Ok(put_around(self.pool, Binding::Lambda, lambdas.entries.as_slice(), body)?)
    }

    /// A function type.
    #[cycle(written)]
    fn type_function(
        &mut self,
        binders: &[ResolvedBinder],
        body: &ResolvedExpr,
    ) -> Result<Typed, WrittenError>
        requires ready { IsReady self.old }
        ensures grows { Grows self.old self.new }
        ensures keeps { OnOk result (Keeps self.old self.new) }
        ensures is { AnswersTyped self.new.pool.now (Read (over self.old) (function_type (binders_in self.old binders.now)
            (expr_meaning (signature_of self.old) body.now).types (values_of self.old))) result }
    {
        let values = self.values.len();
        let inside = self.inside;
        let domains = self.enter_domains(binders)?;
        let found = self.type_expr(body)?;
        self.leave(values, inside);
        let term = put_around(
            self.pool,
            Binding::Function,
            domains.entries.as_slice(),
            found.term,
        )?;
        Ok(Typed {
            term,
            level: higher(domains.level, found.level),
        })
    }

    /// An arrow.
    #[cycle(written)]
    fn type_arrow(
        &mut self,
        place: Place,
        dom: &ResolvedExpr,
        body: &ResolvedExpr,
    ) -> Result<Typed, WrittenError>
        requires ready { IsReady self.old }
        ensures grows { Grows self.old self.new }
        ensures keeps { OnOk result (Keeps self.old self.new) }
        ensures is { AnswersTyped self.new.pool.now (Read (over self.old) (grouped flag.Explicit (no_name ∷ [])
            (expr_meaning (signature_of self.old) dom.now).types (expr_meaning (signature_of self.old) body.now).types (values_of self.old))) result }
    {
        let values = self.values.len();
        let inside = self.inside;
        let name = ResolvedName {
            id: NameId::new(0),
            place,
        };
        let domains = self.enter_group(Flag::Explicit, &[name], dom)?;
        let found = self.type_expr(body)?;
        self.leave(values, inside);
        let term = put_around(
            self.pool,
            Binding::Function,
            domains.entries.as_slice(),
            found.term,
        )?;
        Ok(Typed {
            term,
            level: higher(domains.level, found.level),
        })
    }

    /// An expression at a wanted type.
    #[cycle(written)]
    pub(crate) fn check_expr(
        &mut self,
        e: &ResolvedExpr,
        wanted: TermId,
    ) -> Result<TermId, WrittenError>
        requires ready { IsReady self.old }
        requires wanted { wanted < length self.old.pool.now.trees }
        ensures grows { Grows self.old self.new }
        ensures keeps { OnOk result (Keeps self.old self.new) }
        ensures is { AnswersTerm self.new.pool.now (ChecksExpr self.old e.now (term_of self.old wanted)) result }
    {
        match e {
            ResolvedExpr::Pi(place, _, _) => self.check_type(place.pos, e, wanted),
            ResolvedExpr::Forall(place, _, _) => self.check_type(place.pos, e, wanted),
            ResolvedExpr::Arrow(place, _, _) => self.check_type(place.pos, e, wanted),
            ResolvedExpr::SetLevel(place, _) => self.check_type(place.pos, e, wanted),
            ResolvedExpr::Lambda(place, binders, body) => {
                self.check_lambda(place.pos, binders.as_slice(), body.get(), wanted)
            }
            ResolvedExpr::Hole(place) => Err(refused(place.pos, ElabKind::CannotInfer)),
            ResolvedExpr::Underscore(place) => Err(refused(place.pos, ElabKind::CannotInfer)),
            ResolvedExpr::Variable(place, index) => {
                self.check_name(place.pos, place.pos, Name::Variable(*index), &[], wanted)
            }
            ResolvedExpr::Def(place, def) => {
                self.check_name(place.pos, place.pos, Name::Def(*def), &[], wanted)
            }
            ResolvedExpr::Family(place, fam) => {
                self.check_name(place.pos, place.pos, Name::Family(*fam), &[], wanted)
            }
            ResolvedExpr::Con(place, con) => {
                self.check_name(place.pos, place.pos, Name::Con(*con), &[], wanted)
            }
            ResolvedExpr::App(place, head, args) => {
                let Seen { pos: at, name } = look_at(head.get());
                match name {
                    Some(name) => self.check_name(place.pos, at, name, args.as_slice(), wanted),
                    None => self.check_other(place.pos, at, wanted),
                }
            }
            ResolvedExpr::Record(place, values) => {
                self.check_record(place.pos, values.as_slice(), wanted)
            }
        }
    }

    /// An expression as a type.
    #[cycle(written)]
    pub(crate) fn type_expr(&mut self, e: &ResolvedExpr) -> Result<Typed, WrittenError>
        requires ready { IsReady self.old }
        ensures grows { Grows self.old self.new }
        ensures keeps { OnOk result (Keeps self.old self.new) }
        ensures is { AnswersTyped self.new.pool.now (TypesExpr self.old e.now) result }
    {
        match e {
            ResolvedExpr::Pi(_, binders, body) => self.type_function(
                binders.as_slice(),
                body.get(),
            ),
            ResolvedExpr::Forall(_, binders, body) => self.type_function(
                binders.as_slice(),
                body.get(),
            ),
            ResolvedExpr::Arrow(place, dom, body) => self.type_arrow(*place, dom.get(), body.get()),
            ResolvedExpr::SetLevel(_, level) => {
                let number = level.number();
                let term = self.pool.add(Node::Sort(number))?;
                Ok(Typed {
                    term,
                    level: number + 1,
                })
            }
            ResolvedExpr::Lambda(place, _, _) => Err(refused(place.pos, ElabKind::CannotInfer)),
            ResolvedExpr::Hole(place) => Err(refused(place.pos, ElabKind::CannotInfer)),
            ResolvedExpr::Underscore(place) => Err(refused(place.pos, ElabKind::CannotInfer)),
            ResolvedExpr::Record(place, _) => Err(refused(place.pos, ElabKind::CannotInfer)),
            ResolvedExpr::Variable(place, index) => {
                self.type_name(place.pos, place.pos, Name::Variable(*index), &[])
            }
            ResolvedExpr::Def(place, def) => {
                self.type_name(place.pos, place.pos, Name::Def(*def), &[])
            }
            ResolvedExpr::Family(place, fam) => {
                self.type_name(place.pos, place.pos, Name::Family(*fam), &[])
            }
            ResolvedExpr::Con(place, con) => {
                self.type_name(place.pos, place.pos, Name::Con(*con), &[])
            }
            ResolvedExpr::App(place, head, args) => {
                let Seen { pos: at, name } = look_at(head.get());
                match name {
                    Some(name) => self.type_name(place.pos, at, name, args.as_slice()),
                    None => Err(refused(place.pos, ElabKind::CannotInfer)),
                }
            }
        }
    }
}
