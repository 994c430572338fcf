//! Names, and what they stand for.

ghost use Rattle.std.specs.Prelude.{None, ◌≡◌, ◌<◌, ◌-◌, length, map, option_map, drop, reverse, slice_get, IfOk, IfSome};
ghost use Rattle.std.specs.List.{AllByRecursion};
ghost use Rattle.core_rules.specs.Term.{Term, Con, from_list};
ghost use Rattle.core_rules.specs.Signature.{Family, Signature};
ghost use Rattle.core_rules.specs.Mapped.{fam_map, telescope_map};
ghost use Rattle.core_rules.specs.Typing.{IsCon};
ghost use Rattle.core_terms.specs.Signature.{decl_of, fam_of};
ghost use Rattle.term_pool.specs.Pool.{StandsFor, tree};
ghost use Rattle.weak_head.specs.States.{AppliedBelow};
ghost use Rattle.written_rules.specs.Rules.{VariableName, DefName, FamilyName, started, start, con_start, con_found, params_of, against, as_type};
ghost use Rattle.written_rules.specs.Expressions.{expr_meaning};
ghost use Rattle.elab_machine.specs.Answers.{AnswersTerm};
ghost use Rattle.elab_machine.specs.Binders.{AnswersTyped};
ghost use Rattle.elab_machine.specs.Spine.{AnswersFound, IsFound, IsStart, IsSeen, found_in, found_of, name_in, name_at, no_name_at, shown_in};
ghost use Rattle.elab_machine.specs.Writer.{IsReady, IsValue, Grows, Keeps, Read, over, term_of, value_in, values_of, signature_of};

use crate::binders::Typed;
use crate::error::{ElabKind, WrittenError, refused};
use crate::values::Value;
use crate::writer::{Shown, Writer, is_inserting};
use core_terms::{ConId, CoreDecl, DefId, FamId, NoMemory, Node, TermId, TermPool, shift};
use declared_types::{arguments_for, fam_type, type_of_con};
use el_outside::Pos;
use resolved_tree::ResolvedExpr;
use std::alloc::Global;
use weak_head::Elim;

/// A name that is resolved.
#[derive(Clone, Copy)]
pub(crate) enum Name {
    Variable(u32),
    Def(DefId),
    Family(FamId),
    Con(ConId),
}

/// The place of an expression, and the name that it is, if it is one.
#[derive(Clone, Copy)]
pub(crate) struct Seen {
    pub pos: Pos,
    pub name: Option<Name>,
}

/// A term and its type.
#[derive(Clone, Copy)]
pub(crate) struct Found {
    pub term: TermId,
    pub ty: TermId,
}

/// The place of an expression, and its name.
pub(crate) fn look_at(e: &ResolvedExpr) -> Seen
    ensures { (g : Signature Term) → IsSeen (expr_meaning g e.now) result }
{
    match e {
        ResolvedExpr::Pi(place, _, _) => nameless(place.pos),
        ResolvedExpr::Forall(place, _, _) => nameless(place.pos),
        ResolvedExpr::Lambda(place, _, _) => nameless(place.pos),
        ResolvedExpr::Arrow(place, _, _) => nameless(place.pos),
        ResolvedExpr::App(place, _, _) => nameless(place.pos),
        ResolvedExpr::SetLevel(place, _) => nameless(place.pos),
        ResolvedExpr::Hole(place) => nameless(place.pos),
        ResolvedExpr::Underscore(place) => nameless(place.pos),
        ResolvedExpr::Record(place, _) => nameless(place.pos),
        ResolvedExpr::Variable(place, index) => named(place.pos, Name::Variable(*index)),
        ResolvedExpr::Def(place, def) => named(place.pos, Name::Def(*def)),
        ResolvedExpr::Family(place, fam) => named(place.pos, Name::Family(*fam)),
        ResolvedExpr::Con(place, con) => named(place.pos, Name::Con(*con)),
    }
}

fn nameless(pos: Pos) -> Seen
    ensures { result ≡ no_name_at pos }
{
    Seen { pos, name: None }
}

fn named(pos: Pos, name: Name) -> Seen
    ensures { result ≡ name_at pos name }
{
    Seen {
        pos,
        name: Some(name),
    }
}

/// The value of the source variable inside which so many others are.
fn value_at(values: &[Value], index: u32) -> Option<Value>
    ensures { result ≡ slice_get (reverse values.now) index }
{
    let index = index as usize;
    if index >= values.len() {
        return None;
    }
    Some(values[values.len() - 1 - index])
}

/// The first eliminations, so many where there are as many. The first one is last.
fn first_of(spine: &[Elim], count: usize) -> &[Elim]
    ensures { result.now ≡ drop (length spine.now - count) spine.now }
{
    if spine.len() < count {
        return spine;
    }
    &spine[spine.len() - count..]
}

/// The parameters of a constructor of this family: none where the family has none, else those that the head form of the wanted type
/// shows, if it is this family.
fn params_shown(
    alloc: Global,
    pool: &TermPool,
    fam: FamId,
    decl: &CoreDecl,
    shown: &Option<Shown>,
) -> Result<Option<Vec<TermId>>, NoMemory>
    requires family { decl_of decl.now ≡ Family (fam_of decl.now) }
    requires shown { IfSome shown.now (λ s. AppliedBelow (length pool.now.trees) s.form) }
    ensures is { IfOk result (λ o. option_map (λ v. map (tree pool.now) v.items) o ≡ params_of fam (fam_map (tree pool.now) (fam_of decl.now))
        (telescope_map (tree pool.now) (fam_of decl.now).params) (shown_in pool.now shown.now)) }
    ensures below { IfOk result (λ o. IfSome o (λ v. AllByRecursion (λ t. t < length pool.now.trees) v.items)) }
{
    let CoreDecl::Family { params, .. } = decl else {
        unreachable!()
    };
    let entries = params.entries.as_slice();
    if entries.is_empty() {
        return Ok(Some(Vec::new(alloc)));
    }
    let Some(shown) = shown else {
        return Ok(None);
    };
    if shown.meta.is_some() {
        return Ok(None);
    }
    let Node::Fam(found) = pool.node(shown.form.head) else {
        return Ok(None);
    };
    if found.number() != fam.number() {
        return Ok(None);
    }
    arguments_for(
        alloc,
        entries,
        first_of(shown.form.spine.as_slice(), entries.len()),
    )
}

impl<'a> Writer<'a> {
    /// What a source variable stands for.
    fn variable(&mut self, index: u32) -> Result<Option<Found>, NoMemory>
        requires ready { IsReady self.old }
        ensures grows { Grows self.old self.new }
        ensures keeps { Keeps self.old self.new }
        ensures is { IfOk result (IsStart self.new.pool.now (start (signature_of self.old) (values_of self.old) None (VariableName index))) }
    {
        let Some(value) = value_at(self.values.as_slice(), index) else {
            return Ok(None);
        };
        Ok(Some(self.raised(value)?))
    }

    /// A value and its type, inside the binders that are entered.
    fn raised(&mut self, value: Value) -> Result<Found, NoMemory>
        requires value { IsValue self.old.pool.now self.old.inside value }
        ensures grows { Grows self.old self.new }
        ensures keeps { Keeps self.old self.new }
        ensures is { IfOk result (λ s. IsFound self.new.pool.now s (found_of (value_in self.old.pool.now self.old.inside value))) }
    {
        let Value {
            solved,
            inside,
            ty_inside,
        } = value;
        let more = self.inside - inside;
        let ty_more = self.inside - ty_inside;
        let term = shift(self.alloc, self.pool, solved.value, 0, more)?;
        let ty = shift(self.alloc, self.pool, solved.ty, 0, ty_more)?;
        Ok(Found { term, ty })
    }

    /// A postulate or a function.
    fn definition(&mut self, def: DefId) -> Result<Option<Found>, NoMemory>
        requires ready { IsReady self.old }
        ensures grows { Grows self.old self.new }
        ensures keeps { Keeps self.old self.new }
        ensures is { IfOk result (IsStart self.new.pool.now (start (signature_of self.old) (values_of self.old) None (DefName def))) }
    {
        if def.number() >= self.signature.defs() {
            return Ok(None);
        }
        let ty = self.signature.def(def).ty;
        let term = self.pool.add(Node::Def(def))?;
        Ok(Some(Found { term, ty }))
    }

    /// A data or record type.
    fn family(&mut self, fam: FamId) -> Result<Option<Found>, NoMemory>
        requires ready { IsReady self.old }
        ensures grows { Grows self.old self.new }
        ensures keeps { Keeps self.old self.new }
        ensures is { IfOk result (IsStart self.new.pool.now (start (signature_of self.old) (values_of self.old) None (FamilyName fam))) }
    {
        if fam.number() >= self.signature.fams() {
            return Ok(None);
        }
        let ty = fam_type(self.pool, &self.signature.fam(fam).decl)?;
        let term = self.pool.add(Node::Fam(fam))?;
        Ok(Some(Found { term, ty }))
    }

    /// A constructor, at the parameters that the head form of the wanted type shows.
    fn constructor(&mut self, con: ConId, shown: &Option<Shown>) -> Result<Option<Found>, NoMemory>
        requires ready { IsReady self.old }
        requires shown { IfSome shown.now (λ s. AppliedBelow (length self.old.pool.now.trees) s.form) }
        ensures grows { Grows self.old self.new }
        ensures keeps { Keeps self.old self.new }
        ensures is { IfOk result (IsStart self.new.pool.now (con_start (signature_of self.old) con (shown_in self.old.pool.now shown.now))) }
    {
        if con.number() >= self.signature.cons() {
            return Ok(None);
        }
        let (fam, _) = self.signature.con(con);
        let decl = &self.signature.fam(fam).decl;
        let Some(params) = params_shown(self.alloc, self.pool, fam, decl, shown)? else {
            return Ok(None);
        };
        Ok(Some(self.constructed(con, params)?))
    }

    /// A constructor at parameters, in the order of its family.
    pub(crate) fn con_at(&mut self, con: ConId, params: &[TermId]) -> Result<TermId, NoMemory>
        requires ready { IsReady self.old }
        requires params { AllByRecursion (λ t. t < length self.old.pool.now.trees) params.now }
        ensures grows { Grows self.old self.new }
        ensures keeps { Keeps self.old self.new }
        ensures is { IfOk result (λ t. StandsFor self.new.pool.now t (Con con (from_list (map (term_of self.old) params.now)))) }
    {
        let params = self.pool.add_args(params)?;
        self.pool.add(Node::Con { con, params })
    }

    /// The same with its type.
    fn constructed(&mut self, con: ConId, params: Vec<TermId>) -> Result<Found, NoMemory>
        requires ready { IsReady self.old }
        requires con { IsCon (signature_of self.old) con }
        requires params { AllByRecursion (λ t. t < length self.old.pool.now.trees) params.items }
        ensures grows { Grows self.old self.new }
        ensures keeps { Keeps self.old self.new }
        ensures is { IfOk result (λ s. (is : IsCon (signature_of self.old) con) → IsFound self.new.pool.now s
            (con_found con is.fam is.decl is.con (map (term_of self.old) params.items))) }
    {
        let term = self.con_at(con, params.as_slice())?;
        let mut env = params;
        env.reverse();
        let ty = type_of_con(self.alloc, self.pool, self.signature, con, env.as_slice())?;
        Ok(Found { term, ty })
    }

    /// What a name stands for, where `shown` is the head form of the wanted type, if there is one.
    pub(crate) fn start(
        &mut self,
        at: Pos,
        name: Name,
        shown: Option<Shown>,
    ) -> Result<Found, WrittenError>
        requires ready { IsReady self.old }
        requires shown { IfSome shown (λ s. AppliedBelow (length self.old.pool.now.trees) s.form) }
        ensures grows { Grows self.old self.new }
        ensures keeps { Keeps self.old self.new }
        ensures is { AnswersFound self.new.pool.now (Read (over self.old) (started at (start (signature_of self.old) (values_of self.old)
            (shown_in self.old.pool.now shown) (name_in name)))) result }
    {
        let found = match name {
            Name::Variable(index) => self.variable(index)?,
            Name::Def(def) => self.definition(def)?,
            Name::Family(fam) => self.family(fam)?,
            Name::Con(con) => self.constructor(con, &shown)?,
        };
        let Some(found) = found else {
            return Err(refused(at, ElabKind::CannotInfer));
        };
        Ok(found)
    }

    /// The end of a spine, against the wanted type.
    pub(crate) fn against(
        &mut self,
        pos: Pos,
        at: Pos,
        found: Found,
        wanted: TermId,
    ) -> Result<TermId, WrittenError>
        requires ready { IsReady self.old }
        requires term { found.term < length self.old.pool.now.trees }
        requires ty { found.ty < length self.old.pool.now.trees }
        requires wanted { wanted < length self.old.pool.now.trees }
        ensures grows { Grows self.old self.new }
        ensures keeps { Keeps self.old self.new }
        ensures is { AnswersTerm self.new.pool.now (Read (over self.old)
            (against pos at (term_of self.old wanted) (found_in self.old.pool.now found))) result }
    {
        let shown = self.shows(pos, found.ty)?;
        if is_inserting(self.pool, &shown) {
            return Err(refused(at, ElabKind::CannotInfer));
        }
        self.agree(pos, found.ty, wanted)?;
        Ok(found.term)
    }

    /// The end of a spine, as a type.
    pub(crate) fn as_type(&mut self, pos: Pos, at: Pos, found: Found) -> Result<Typed, WrittenError>
        requires ready { IsReady self.old }
        requires term { found.term < length self.old.pool.now.trees }
        requires ty { found.ty < length self.old.pool.now.trees }
        ensures grows { Grows self.old self.new }
        ensures keeps { Keeps self.old self.new }
        ensures is { AnswersTyped self.new.pool.now (Read (over self.old) (as_type pos at (found_in self.old.pool.now found))) result }
    {
        let shown = self.shows(pos, found.ty)?;
        if is_inserting(self.pool, &shown) {
            return Err(refused(at, ElabKind::CannotInfer));
        }
        let level = self.sort_shown(pos, &shown)?;
        Ok(Typed {
            term: found.term,
            level,
        })
    }
}
