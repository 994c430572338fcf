//! Names at their arguments. The type of a spine is kept under the arguments that were taken, and put together once.

ghost use Rattle.implicit_insert.specs.Answers.{IsNeed, next_in};
ghost use Rattle.core_rules.specs.BoundedLaws.{no_solutions};
ghost use Rattle.std.specs.Prelude.{Some, ◌≡◌, ◌<◌, ◌≤◌, ◌-◌, length, map, take, drop, OnOk, IfOk, IfSome};
ghost use Rattle.std.specs.List.{AllByRecursion};
ghost use Rattle.term_pool.specs.Pool.{StandsFor, tree};
ghost use Rattle.term_pool.specs.Placed.{filled};
ghost use Rattle.written_rules.specs.Rules.{spine, name_checked, name_typed};
ghost use Rattle.written_rules.specs.Expressions.{arg_meaning, expr_meaning};
ghost use Rattle.elab_machine.specs.Answers.{AnswersTerm};
ghost use Rattle.elab_machine.specs.Binders.{AnswersTyped};
ghost use Rattle.elab_machine.specs.Spine.{IsHere, IsProjected, AnswersProjection, at_field, found_at, params_by, AnswersFound, AnswersStep, AnswersFunction, AnswersFunctionAt, fits, function_by, way_next, args_in, found_in, given, name_in, one_step, under_args};
ghost use Rattle.elab_machine.specs.Writer.{IsReady, Grows, Keeps, Read, over, term_of, values_of, signature_of};

use crate::binders::Typed;
use crate::error::{ElabKind, WrittenError, refused};
use crate::names::{Found, Name, look_at};
use crate::writer::Writer;
use core_rules::Flag;
use core_terms::{FieldId, NameId, NoMemory, NoSolutions, Node, Row, TermId, TermPool, fill};
use declared_types::{same_flag, type_of_field};
use el_outside::Pos;
use implicit_insert::{Need, Next, next_argument};
use resolved_tree::{ResolvedArg, ResolvedExpr};
use std::alloc::Global;

/// How an argument with a term is given.
#[derive(Clone, Copy)]
pub(crate) enum Way {
    Plain,
    Braces,
    Named(NameId),
}

/// A function type that stands under arguments: its domain put together, and its codomain, which stands under `under` of these
/// arguments.
#[derive(Clone, Copy)]
pub(crate) struct Function {
    pub flag: Flag,
    pub dom: TermId,
    pub cod: TermId,
    pub under: usize,
}

/// A term with one argument more, whose type stands under the first `used` of this argument and those before it.
#[derive(Clone, Copy)]
pub(crate) struct Step {
    pub term: TermId,
    pub arg: TermId,
    pub ty: TermId,
    pub used: usize,
}

/// Whether a function type of this flag, whose binder has this name, takes an argument that is given in this way.
fn is_for(way: &Way, flag: Flag, name: NameId) -> bool
    ensures { result ≡ fits way.now flag name }
{
    match *way {
        Way::Plain => same_flag(flag, Flag::Explicit),
        Way::Braces => same_flag(flag, Flag::Implicit),
        Way::Named(wanted) => same_flag(flag, Flag::Implicit) && wanted.number() == name.number(),
    }
}

/// The function type that a term is as it stands, if it takes an argument that is given in this way.
fn function_here(pool: &TermPool, way: &Way, ty: TermId) -> Option<Function>
    requires { ty < length pool.now.trees }
    ensures { IfSome result (IsHere (length pool.now.trees) (tree pool.now) way.now (tree pool.now ty)) }
{
    let Node::Pi {
        flag,
        name,
        dom,
        cod,
    } = pool.node(ty)
    else {
        return None;
    };
    if !is_for(way, flag, name) {
        return None;
    }
    Some(Function {
        flag,
        dom,
        cod,
        under: 0,
    })
}

/// What stands next, as the table of needs sees it.
fn next_of(way: &Way) -> Next
    ensures { next_in result ≡ Some (way_next way.now tt) }
{
    match *way {
        Way::Plain => Next::Plain,
        Way::Braces => Next::Braces,
        Way::Named(name) => Next::Named(name),
    }
}

/// The function type that a need is, or the refusal at its place.
fn function_of(pos: Pos, at: Pos, place: Pos, need: Need) -> Result<Function, WrittenError>
    ensures { result ≡ function_by pos at place need }
{
    let (flag, dom, cod) = match need {
        Need::Explicit { dom, cod } => (Flag::Explicit, dom, cod),
        Need::Given { dom, cod } => (Flag::Implicit, dom, cod),
        Need::Insert { .. } => return Err(refused(at, ElabKind::CannotInfer)),
        Need::NotAFunction { ty } => return Err(refused(place, ElabKind::NotAFunction { ty })),
        Need::NotARecord { ty } => return Err(refused(place, ElabKind::NotARecord { ty })),
        Need::NoSuchName => return Err(refused(place, ElabKind::NoSuchName)),
        Need::Blocked { .. } => return Err(refused(pos, ElabKind::CannotInfer)),
        Need::OutOfFuel => return Err(refused(pos, ElabKind::OutOfFuel)),
        // no argument with a term needs these
        Need::End | Need::Project { .. } | Need::NoMemory => return Err(WrittenError::NoMemory),
    };
    Ok(Function {
        flag,
        dom,
        cod,
        under: 0,
    })
}

/// The parameters of the record that a need is of, or the refusal at its place.
fn params_of(pos: Pos, at: Pos, place: Pos, need: Need) -> Result<Row<TermId>, WrittenError>
    ensures { result ≡ params_by pos at place need }
{
    match need {
        Need::Project { params, .. } => Ok(params),
        Need::Insert { .. } => Err(refused(at, ElabKind::CannotInfer)),
        Need::NotAFunction { ty } => Err(refused(place, ElabKind::NotAFunction { ty })),
        Need::NotARecord { ty } => Err(refused(place, ElabKind::NotARecord { ty })),
        Need::NoSuchName => Err(refused(place, ElabKind::NoSuchName)),
        Need::Blocked { .. } => Err(refused(pos, ElabKind::CannotInfer)),
        Need::OutOfFuel => Err(refused(pos, ElabKind::OutOfFuel)),
        // no projection needs these
        Need::End | Need::Explicit { .. } | Need::Given { .. } | Need::NoMemory => {
            Err(WrittenError::NoMemory)
        }
    }
}

/// A list of so many times the term.
pub(crate) fn repeated(alloc: Global, term: TermId, count: usize) -> Result<Vec<TermId>, NoMemory>
    ensures { IfOk result (λ v. (length v.items ≡ count) × AllByRecursion (λ t. t ≡ term) v.items) }
{
    let mut terms = Vec::new(alloc);
    let mut left = count;
    while left > 0 {
        terms.push(term)?;
        left -= 1;
    }
    Ok(terms)
}

/// The items from `start` on, before `end`.
fn between(terms: &[TermId], start: usize, end: usize) -> &[TermId]
    requires start { start ≤ end }
    requires end { end ≤ length terms.now }
    ensures { result.now ≡ take (end - start) (drop start terms.now) }
{
    &terms[start..end]
}

impl<'a> Writer<'a> {
    /// A term that stands under arguments, the last one first, with these put in.
    fn put_together(&mut self, t: TermId, taken: &[TermId]) -> Result<TermId, NoMemory>
        requires t { t < length self.old.pool.now.trees }
        requires taken { AllByRecursion (λ t. t < length self.old.pool.now.trees) taken.now }
        ensures grows { Grows self.old self.new }
        ensures keeps { Keeps self.old self.new }
        ensures is { IfOk result (λ r. StandsFor self.new.pool.now r (filled (map (term_of self.old) taken.now) (term_of self.old t))) }
    {
        fill(self.alloc, self.pool, t, taken)
    }

    /// The function type that a type under arguments is for an argument given in this way.
    fn function_for(
        &mut self,
        pos: Pos,
        at: Pos,
        place: Pos,
        way: &Way,
        ty: TermId,
        taken: &[TermId],
    ) -> Result<Function, WrittenError>
        requires ready { IsReady self.old }
        requires ty { ty < length self.old.pool.now.trees }
        requires taken { AllByRecursion (λ t. t < length self.old.pool.now.trees) taken.now }
        ensures grows { Grows self.old self.new }
        ensures keeps { Keeps self.old self.new }
        ensures is { AnswersFunction (over self.old) pos at place way.now self.old.pool.now self.new.pool.now taken.now ty result }
    {
        if let Some(direct) = function_here(self.pool, way, ty) {
            let dom = self.put_together(direct.dom, taken)?;
            let under = taken.len();
            return Ok(Function {
                flag: direct.flag,
                dom,
                cod: direct.cod,
                under,
            });
        }
        let whole = self.put_together(ty, taken)?;
        self.function_at(pos, at, place, way, whole)
    }

    /// The function type that a type is for an argument given in this way.
    fn function_at(
        &mut self,
        pos: Pos,
        at: Pos,
        place: Pos,
        way: &Way,
        ty: TermId,
    ) -> Result<Function, WrittenError>
        requires ready { IsReady self.old }
        requires ty { ty < length self.old.pool.now.trees }
        ensures grows { Grows self.old self.new }
        ensures keeps { Keeps self.old self.new }
        ensures is { AnswersFunctionAt (over self.old) pos at place way.now self.new.pool.now (term_of self.old ty) result }
    {
        let need = next_argument(
            self.alloc,
            self.pool,
            self.signature,
            &NoSolutions,
            ty,
            next_of(way),
            self.limits.fuel,
        );
        function_of(pos, at, place, need)
    }

    /// A projection.
    fn take_field(
        &mut self,
        pos: Pos,
        at: Pos,
        place: Pos,
        field: FieldId,
        term: TermId,
        ty: TermId,
        taken: &[TermId],
    ) -> Result<Step, WrittenError>
        requires ready { IsReady self.old }
        requires term { term < length self.old.pool.now.trees }
        requires ty { ty < length self.old.pool.now.trees }
        requires taken { AllByRecursion (λ t. t < length self.old.pool.now.trees) taken.now }
        ensures grows { Grows self.old self.new }
        ensures keeps { Keeps self.old self.new }
        ensures is { AnswersStep self.new.pool.now taken.now (Read (over self.old) (one_step (signature_of self.old) pos at (values_of self.old)
            (under_args self.old.pool.now (term_of self.old term) taken.now ty) (at_field place field))) result }
    {
        let whole = self.put_together(ty, taken)?;
        self.take_field_of(pos, at, place, field, term, whole)
    }

    /// What a type needs for what stands next.
    fn need_for(&mut self, ty: TermId, next: Next) -> Need
        requires ready { IsReady self.old }
        requires ty { ty < length self.old.pool.now.trees }
        ensures grows { Grows self.old self.new }
        ensures keeps { Keeps self.old self.new }
        ensures is { IsNeed (signature_of self.old) no_solutions (term_of self.old ty) next self.old.limits.fuel self.new.pool.now result }
    {
        next_argument(
            self.alloc,
            self.pool,
            self.signature,
            &NoSolutions,
            ty,
            next,
            self.limits.fuel,
        )
    }

    /// A projection of a term of this type.
    fn take_field_of(
        &mut self,
        pos: Pos,
        at: Pos,
        place: Pos,
        field: FieldId,
        term: TermId,
        ty: TermId,
    ) -> Result<Step, WrittenError>
        requires ready { IsReady self.old }
        requires term { term < length self.old.pool.now.trees }
        requires ty { ty < length self.old.pool.now.trees }
        ensures grows { Grows self.old self.new }
        ensures keeps { Keeps self.old self.new }
        ensures is { AnswersProjection self.new.pool.now (Read (over self.old) (one_step (signature_of self.old) pos at (values_of self.old)
            (found_at (term_of self.old term) (term_of self.old ty)) (at_field place field))) result }
    {
        let need = self.need_for(ty, Next::Field(field));
        let params = params_of(pos, at, place, need)?;
        Ok(self.project(field, params, term)?)
    }

    /// The projection of a term, whose type is the field's record at these parameters.
    fn project(
        &mut self,
        field: FieldId,
        params: Row<TermId>,
        term: TermId,
    ) -> Result<Step, NoMemory>
        requires ready { IsReady self.old }
        requires term { term < length self.old.pool.now.trees }
        requires params { AllByRecursion (λ t. t < length self.old.pool.now.trees) params }
        ensures grows { Grows self.old self.new }
        ensures keeps { Keeps self.old self.new }
        ensures is { IfOk result (IsProjected self.old self.new field params term) }
    {
        // a need that is a projection is of a field that there is
        if field.number() >= self.signature.fields() {
            return Err(NoMemory);
        }
        let ty = type_of_field(
            self.alloc,
            self.pool,
            self.signature,
            field,
            params.into_vec(),
            term,
        )?;
        let made = self.pool.add(Node::Proj { field, of: term })?;
        Ok(Step {
            term: made,
            arg: made,
            ty,
            used: 0,
        })
    }

    /// An argument with a term.
    #[cycle(written)]
    fn take_term(
        &mut self,
        pos: Pos,
        at: Pos,
        place: Pos,
        way: Way,
        e: &ResolvedExpr,
        term: TermId,
        ty: TermId,
        taken: &[TermId],
    ) -> Result<Step, WrittenError>
        requires ready { IsReady self.old }
        requires term { term < length self.old.pool.now.trees }
        requires ty { ty < length self.old.pool.now.trees }
        requires taken { AllByRecursion (λ t. t < length self.old.pool.now.trees) taken.now }
        ensures grows { Grows self.old self.new }
        ensures keeps { OnOk result (Keeps self.old self.new) }
        ensures is { AnswersStep self.new.pool.now taken.now (Read (over self.old) (one_step (signature_of self.old) pos at (values_of self.old)
            (under_args self.old.pool.now (term_of self.old term) taken.now ty)
            (given place way (expr_meaning (signature_of self.old) e.now).checks))) result }
    {
        let function = self.function_for(pos, at, place, &way, ty, taken)?;
        let Some(used) = function.under.checked_add(1) else {
            return Err(WrittenError::NoMemory);
        };
        let arg = self.check_expr(e, function.dom)?;
        let term = self.pool.add(Node::App {
            flag: function.flag,
            fun: term,
            arg,
        })?;
        Ok(Step {
            term,
            arg,
            ty: function.cod,
            used,
        })
    }

    /// One argument.
    #[cycle(written)]
    fn take_argument(
        &mut self,
        pos: Pos,
        at: Pos,
        arg: &ResolvedArg,
        term: TermId,
        ty: TermId,
        taken: &[TermId],
    ) -> Result<Step, WrittenError>
        requires ready { IsReady self.old }
        requires term { term < length self.old.pool.now.trees }
        requires ty { ty < length self.old.pool.now.trees }
        requires taken { AllByRecursion (λ t. t < length self.old.pool.now.trees) taken.now }
        ensures grows { Grows self.old self.new }
        ensures keeps { OnOk result (Keeps self.old self.new) }
        ensures is { AnswersStep self.new.pool.now taken.now (Read (over self.old) (one_step (signature_of self.old) pos at (values_of self.old)
            (under_args self.old.pool.now (term_of self.old term) taken.now ty) (arg_meaning (signature_of self.old) arg.now))) result }
    {
        match arg {
            ResolvedArg::Plain(e) => {
                let place = look_at(e).pos;
                self.take_term(pos, at, place, Way::Plain, e, term, ty, taken)
            }
            ResolvedArg::Implicit(place, e) => {
                self.take_term(pos, at, place.pos, Way::Braces, e, term, ty, taken)
            }
            ResolvedArg::Named(place, name, e) => {
                self.take_term(pos, at, place.pos, Way::Named(name.id), e, term, ty, taken)
            }
            ResolvedArg::Project(place, field) => {
                self.take_field(pos, at, place.pos, *field, term, ty, taken)
            }
        }
    }

    /// The arguments in order.
    #[cycle(written)]
    fn take_arguments(
        &mut self,
        pos: Pos,
        at: Pos,
        args: &[ResolvedArg],
        found: Found,
    ) -> Result<Found, WrittenError>
        requires ready { IsReady self.old }
        requires term { found.term < length self.old.pool.now.trees }
        requires ty { found.ty < length self.old.pool.now.trees }
        ensures grows { Grows self.old self.new }
        ensures keeps { OnOk result (Keeps self.old self.new) }
        ensures is { AnswersFound self.new.pool.now (Read (over self.old) (spine (signature_of self.old) pos at (values_of self.old)
            (args_in self.old args.now) (found_in self.old.pool.now found))) result }
    {
        let mut terms = repeated(self.alloc, found.term, args.len())?;
        let mut term = found.term;
        let mut ty = found.ty;
        let mut start = terms.len();
        let mut end = start;
        for arg in args {
            let step = self.take_argument(
                pos,
                at,
                arg,
                term,
                ty,
                between(terms.as_slice(), start, end),
            )?;
            start -= 1;
            terms[start] = step.arg;
            end = start + step.used;
            term = step.term;
            ty = step.ty;
        }
        let ty = self.put_together(ty, between(terms.as_slice(), start, end))?;
        Ok(Found { term, ty })
    }

    /// A name at its arguments, at a wanted type.
    #[cycle(written)]
    pub(crate) fn check_name(
        &mut self,
        pos: Pos,
        at: Pos,
        name: Name,
        args: &[ResolvedArg],
        wanted: TermId,
    ) -> Result<TermId, WrittenError>
        requires ready { IsReady self.old }
        requires wanted { wanted < length self.old.pool.now.trees }
        ensures grows { Grows self.old self.new }
        ensures keeps { OnOk result (Keeps self.old self.new) }
        ensures is { AnswersTerm self.new.pool.now (Read (over self.old) (name_checked (signature_of self.old) pos at (name_in name)
            (args_in self.old args.now) (values_of self.old) (term_of self.old wanted))) result }
    {
        let shown = self.wanted(pos, wanted)?;
        let found = self.start(at, name, Some(shown))?;
        let whole = self.take_arguments(pos, at, args, found)?;
        self.against(pos, at, whole, wanted)
    }

    /// A name at its arguments, as a type.
    #[cycle(written)]
    pub(crate) fn type_name(
        &mut self,
        pos: Pos,
        at: Pos,
        name: Name,
        args: &[ResolvedArg],
    ) -> Result<Typed, WrittenError>
        requires ready { IsReady self.old }
        ensures grows { Grows self.old self.new }
        ensures keeps { OnOk result (Keeps self.old self.new) }
        ensures is { AnswersTyped self.new.pool.now (Read (over self.old) (name_typed (signature_of self.old) pos at (name_in name)
            (args_in self.old args.now) (values_of self.old))) result }
    {
        let found = self.start(at, name, None)?;
        let whole = self.take_arguments(pos, at, args, found)?;
        self.as_type(pos, at, whole)
    }
}
