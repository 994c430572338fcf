//! The binders of lambdas and of function types, in order: each may have many names of one type, which is read once.

ghost use Rattle.std.specs.Prelude.{◌<◌, ◌∷◌, [], length};
ghost use Rattle.written_rules.specs.Rules.{typed_lambda, grouped, lambda, function_type};
ghost use Rattle.written_rules.specs.Expressions.{ids, expr_meaning, binder_meaning};
ghost use Rattle.elab_machine.specs.Binders.{AnswersLambdas, AnswersDomains, binders_in};
ghost use Rattle.elab_machine.specs.Writer.{IsReady, Grows, term_of, signature_of};

use crate::binders::{Domains, Lambdas, Typed, higher};
use crate::error::{ElabKind, WrittenError, refused};
use crate::writer::Writer;
use core_rules::Flag;
use core_terms::{Entry, NameId, TermId};
use el_outside::Pos;
use resolved_tree::{ResolvedBinder, ResolvedExpr, ResolvedName};

impl<'a> Writer<'a> {
    /// Enters the domains of the names of a group.
    #[cycle(written)]
    pub(crate) fn enter_group(
        &mut self,
        flag: Flag,
        names: &[ResolvedName],
        ty: &ResolvedExpr,
    ) -> Result<Domains, WrittenError>
        requires ready { IsReady self.old }
        ensures grows { Grows self.old self.new }
        ensures is { AnswersDomains self.old self.new
            (grouped flag (ids names.now) (expr_meaning (signature_of self.old) ty.now).types) result }
    {
        if names.is_empty() {
            return Ok(Domains {
                entries: Vec::new(self.alloc),
                level: 0,
            });
        }
        let found = self.type_expr(ty)?;
        Ok(self.enter_names(flag, names, found)?)
    }

    /// Enters the domains of a binder.
    #[cycle(written)]
    fn enter_domain(&mut self, binder: &ResolvedBinder) -> Result<Domains, WrittenError>
        requires ready { IsReady self.old }
        ensures grows { Grows self.old self.new }
        ensures is { AnswersDomains self.old self.new (function_type (binder_meaning (signature_of self.old) binder.now ∷ [])) result }
    {
        match binder {
            ResolvedBinder::Explicit(_, names, ty) => self.enter_group(
                Flag::Explicit,
                names.as_slice(),
                ty.get(),
            ),
            ResolvedBinder::Implicit(_, names, ty) => self.enter_group(
                Flag::Implicit,
                names.as_slice(),
                ty.get(),
            ),
            ResolvedBinder::Name(name) => Err(refused(name.place.pos, ElabKind::CannotInfer)),
            ResolvedBinder::Braced(place, _) => Err(refused(place.pos, ElabKind::CannotInfer)),
            ResolvedBinder::Underscore(place) => Err(refused(place.pos, ElabKind::CannotInfer)),
        }
    }

    /// Enters the domains of binders.
    #[cycle(written)]
    pub(crate) fn enter_domains(
        &mut self,
        binders: &[ResolvedBinder],
    ) -> Result<Domains, WrittenError>
        requires ready { IsReady self.old }
        ensures grows { Grows self.old self.new }
        ensures is { AnswersDomains self.old self.new (function_type (binders_in self.old binders.now)) result }
    {
        let mut entries = Vec::new(self.alloc);
        let mut level = 0;
        for binder in binders {
            let domains = self.enter_domain(binder)?;
            level = higher(level, domains.level);
            entries.extend_from_slice(domains.entries.as_slice())?;
        }
        Ok(Domains { entries, level })
    }

    /// Enters the lambdas over the names of a group.
    #[cycle(written)]
    fn enter_typed(
        &mut self,
        pos: Pos,
        flag: Flag,
        names: &[ResolvedName],
        ty: &ResolvedExpr,
        wanted: TermId,
    ) -> Result<Lambdas, WrittenError>
        requires ready { IsReady self.old }
        requires wanted { wanted < length self.old.pool.now.trees }
        ensures grows { Grows self.old self.new }
        ensures is { AnswersLambdas self.old self.new
            (typed_lambda pos flag (ids names.now) (expr_meaning (signature_of self.old) ty.now).types) (term_of self.old wanted) result }
    {
        let [name, more @ ..] = names else {
            return Ok(Lambdas {
                entries: Vec::new(self.alloc),
                wanted,
            });
        };
        let parts = self.function_wanted(pos, flag, wanted)?;
        let found = self.type_expr(ty)?;
        let first = name.id;
        let inner = self.enter_compared(pos, first, found.term, parts.dom, more)?;
        let again = Typed {
            term: inner,
            level: found.level,
        };
        let later = self.enter_typed_names(pos, flag, more, again, parts.cod)?;
        let mut entries = Vec::new(self.alloc);
        entries.push(Entry {
            name: first,
            flag,
            ty: found.term,
        })?;
        entries.extend_from_slice(later.entries.as_slice())?;
        Ok(Lambdas {
            entries,
            wanted: later.wanted,
        })
    }

    /// Enters the lambdas of a binder.
    #[cycle(written)]
    fn enter_lambda(
        &mut self,
        pos: Pos,
        binder: &ResolvedBinder,
        wanted: TermId,
    ) -> Result<Lambdas, WrittenError>
        requires ready { IsReady self.old }
        requires wanted { wanted < length self.old.pool.now.trees }
        ensures grows { Grows self.old self.new }
        ensures is { AnswersLambdas self.old self.new
            (lambda pos (binder_meaning (signature_of self.old) binder.now ∷ [])) (term_of self.old wanted) result }
    {
        match binder {
            ResolvedBinder::Explicit(_, names, ty) => {
                self.enter_typed(pos, Flag::Explicit, names.as_slice(), ty.get(), wanted)
            }
            ResolvedBinder::Implicit(_, names, ty) => {
                self.enter_typed(pos, Flag::Implicit, names.as_slice(), ty.get(), wanted)
            }
            ResolvedBinder::Name(name) => self.enter_untyped(pos, Flag::Explicit, name.id, wanted),
            ResolvedBinder::Braced(_, name) => self.enter_untyped(
                pos,
                Flag::Implicit,
                name.id,
                wanted,
            ),
            ResolvedBinder::Underscore(_) => self.enter_untyped(
                pos,
                Flag::Explicit,
                NameId::new(0),
                wanted,
            ),
        }
    }

    /// Enters the lambdas of binders.
    #[cycle(written)]
    pub(crate) fn enter_lambdas(
        &mut self,
        pos: Pos,
        binders: &[ResolvedBinder],
        wanted: TermId,
    ) -> Result<Lambdas, WrittenError>
        requires ready { IsReady self.old }
        requires wanted { wanted < length self.old.pool.now.trees }
        ensures grows { Grows self.old self.new }
        ensures is { AnswersLambdas self.old self.new (lambda pos (binders_in self.old binders.now)) (term_of self.old wanted) result }
    {
        let mut entries = Vec::new(self.alloc);
        let mut wanted = wanted;
        for binder in binders {
            let lambdas = self.enter_lambda(pos, binder, wanted)?;
            entries.extend_from_slice(lambdas.entries.as_slice())?;
            wanted = lambdas.wanted;
        }
        Ok(Lambdas { entries, wanted })
    }
}
