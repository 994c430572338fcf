//! What a declaration is read over: the types of its expressions, and the head forms that are tested.

ghost use Rattle.std.specs.Prelude.{◌<◌, length};
ghost use Rattle.written_rules.specs.Rules.{shows};
ghost use Rattle.written_rules.specs.Expressions.{expr_meaning};
ghost use Rattle.data_elab.specs.Reader.{IsReady, Grows, Keeps, Read, over, term_of, values_of, signature_of, AnswersTyped, AnswersShown, read_only};

use crate::error::{DataError, DataKind, refused};
use crate::sources::sources;
use core_terms::{Entry, Limits, MetaId, NoSolutions, Signature, TermId, TermPool};
use el_outside::Pos;
use elab_machine::{ElabKind, type_written};
use resolved_tree::ResolvedExpr;
use std::alloc::Global;
use weak_head::{Applied, Reduced, reduce};

/// What a declaration is read over: the pool of its terms, the signature, and the parameters and fields before, the innermost last.
/// It is thrown away with the first refusal, since there may then be entries more.
#[derive(Drop)]
pub(crate) struct Reader<'a> {
    pub pool: &'a mut TermPool,
    pub signature: &'a Signature,
    pub context: &'a mut Vec<Entry>,
    pub limits: Limits,
    pub alloc: Global,
}

/// A type with the level of its sort.
#[derive(Clone, Copy)]
pub(crate) struct Typed {
    pub term: TermId,
    pub level: u32,
}

/// A head form, which may wait for a metavariable.
#[derive(Drop)]
pub(crate) struct Shown {
    pub meta: Option<MetaId>,
    pub form: Applied,
}

impl<'a> Reader<'a> {
    /// The type that an expression is.
    pub(crate) fn read_type(&mut self, expr: &ResolvedExpr) -> Result<Typed, DataError>
        requires ready { IsReady self.old }
        ensures grows { Grows self.old self.new }
        ensures keeps { Keeps self.old self.new }
        ensures is { AnswersTyped self.new.pool.now (Read (over self.old)
            (read_only ((expr_meaning (signature_of self.old) expr.now).types (values_of self.old)))) result }
    {
        let values = sources(self.alloc, self.pool, self.context.as_slice())?;
        let found = type_written(
            self.alloc,
            self.pool,
            self.signature,
            values.as_slice(),
            expr,
            self.limits,
        )?;
        let (term, level) = found;
        Ok(Typed { term, level })
    }

    /// The head form of a type, for the test at this place.
    pub(crate) fn shows(&mut self, pos: Pos, ty: TermId) -> Result<Shown, DataError>
        requires ready { IsReady self.old }
        requires ty { ty < length self.old.pool.now.trees }
        ensures grows { Grows self.old self.new }
        ensures keeps { Keeps self.old self.new }
        ensures is { AnswersShown self.new.pool.now (Read (over self.old) (read_only (shows pos (term_of self.old ty)))) result }
    {
        let fuel = self.limits.fuel;
        let shown = reduce(
            self.alloc,
            self.pool,
            self.signature,
            &NoSolutions,
            ty,
            fuel,
        )?;
        match shown {
            Reduced::Found { meta, term, .. } => Ok(Shown { meta, form: term }),
            Reduced::OutOfFuel => Err(refused(pos, DataKind::Elab(ElabKind::OutOfFuel))),
        }
    }
}
