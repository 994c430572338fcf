//! Parameters and groups of names of one type, which become entries one after the other.

ghost use Rattle.std.specs.Prelude.{◌≡◌, ◌<◌, [], ◌∷◌, length, IfOk, OnOk};
ghost use Rattle.written_rules.specs.Rules.{Typed};
ghost use Rattle.written_rules.specs.Expressions.{ids, expr_meaning, binder_meaning};
ghost use Rattle.elab_machine.specs.declared.error.ElabKind.TheVariants as E;
ghost use Rattle.data_rules.specs.Rules.{group, params};
ghost use Rattle.data_elab.specs.declared.error.DataKind.TheVariants as K;
ghost use Rattle.data_elab.specs.Answers.{refused_at};
ghost use Rattle.data_elab.specs.Reader.{IsReady, Grows, Enters, term_of, values_of, signature_of};
ghost use Rattle.data_elab.specs.Params.{AnswersEntered, IsEntered, binders_in};

use crate::error::{DataError, DataKind, refused};
use crate::reader::Reader;
use core_rules::Flag;
use core_terms::{Entry, NameId, NoMemory, TermId, shift};
use el_outside::Pos;
use elab_machine::ElabKind;
use resolved_tree::{ResolvedBinder, ResolvedExpr, ResolvedName};

/// That something is left out at this place.
fn left_out(pos: Pos) -> DataError
    ensures { result ≡ refused_at pos (K.Elab E.CannotInfer) }
{
    refused(pos, DataKind::Elab(ElabKind::CannotInfer))
}

impl<'a> Reader<'a> {
    /// Enters a name of this type, and gives the type inside it.
    fn enter(&mut self, flag: Flag, name: NameId, ty: TermId) -> Result<TermId, NoMemory>
        requires ready { IsReady self.old }
        requires ty { ty < length self.old.pool.now.trees }
        ensures grows { Grows self.old self.new }
        ensures enters { IfOk result (IsEntered self.old self.new flag name ty) }
    {
        self.context.push(Entry { name, flag, ty })?;
        let inner = shift(self.alloc, self.pool, ty, 0, 1)?;
        Ok(inner)
    }

    /// Enters names of one type.
    pub(crate) fn enter_group(
        &mut self,
        flag: Flag,
        names: &[ResolvedName],
        ty: TermId,
    ) -> Result<(), NoMemory>
        requires ready { IsReady self.old }
        requires ty { ty < length self.old.pool.now.trees }
        ensures grows { Grows self.old self.new }
        ensures enters { OnOk result (Enters self.old self.new (group flag (ids names.now) (term_of self.old ty))) }
    {
        let mut ty = ty;
        let mut left = names;
        while let [name, more @ ..] = left {
            ty = self.enter(flag, name.id, ty)?;
            left = more;
        }
        Ok(())
    }

    /// Enters the parameters of a binder with a type.
    fn enter_typed(
        &mut self,
        flag: Flag,
        names: &[ResolvedName],
        ty: &ResolvedExpr,
    ) -> Result<(), DataError>
        requires ready { IsReady self.old }
        ensures grows { Grows self.old self.new }
        ensures is { AnswersEntered self.old self.new
            (params (Typed flag (ids names.now) (expr_meaning (signature_of self.old) ty.now).types ∷ []) (values_of self.old)) result }
    {
        let found = self.read_type(ty)?;
        Ok(self.enter_group(flag, names, found.term)?)
    }

    /// Enters the parameters of a binder.
    fn enter_param(&mut self, binder: &ResolvedBinder) -> Result<(), DataError>
        requires ready { IsReady self.old }
        ensures grows { Grows self.old self.new }
        ensures is { AnswersEntered self.old self.new
            (params (binder_meaning (signature_of self.old) binder.now ∷ []) (values_of self.old)) result }
    {
        match binder {
            ResolvedBinder::Explicit(_, names, ty) => {
                self.enter_typed(Flag::Explicit, names.as_slice(), ty.get())
            }
            ResolvedBinder::Implicit(_, names, ty) => {
                self.enter_typed(Flag::Implicit, names.as_slice(), ty.get())
            }
            ResolvedBinder::Name(name) => Err(left_out(name.place.pos)),
            ResolvedBinder::Braced(place, _) => Err(left_out(place.pos)),
            ResolvedBinder::Underscore(place) => Err(left_out(place.pos)),
        }
    }

    /// Enters the parameters, each under those before it.
    pub(crate) fn enter_params(&mut self, binders: &[ResolvedBinder]) -> Result<(), DataError>
        requires ready { IsReady self.old }
        ensures grows { Grows self.old self.new }
        ensures is { AnswersEntered self.old self.new (params (binders_in self.old binders.now) (values_of self.old)) result }
    {
        let mut left = binders;
        while let [binder, more @ ..] = left {
            self.enter_param(binder)?;
            left = more;
        }
        Ok(())
    }
}
