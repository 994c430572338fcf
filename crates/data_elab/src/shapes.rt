//! Types by their head forms: the function types that a type shows, and what it ends in.

ghost use Rattle.std.specs.Prelude.{◌≡◌, ◌<◌, ◌++◌, ◌+◌, length, map, cond, option_map, IfOk, IfSome};
ghost use Rattle.std.specs.List.{AllByRecursion};
ghost use Rattle.core_rules.specs.Mapped.{telescope_map};
ghost use Rattle.core_rules.specs.Signature.{FamDecl};
ghost use Rattle.core_rules.specs.Term.{Term};
ghost use Rattle.term_pool.specs.Pool.{tree};
ghost use Rattle.weak_head.specs.States.{AppliedBelow, answer_in};
ghost use Rattle.kernel_rules.specs.Outcome.{Gives, Refuses};
ghost use Rattle.elab_machine.specs.Writer.{level_of};
ghost use Rattle.el_outside.specs.declared.place.Pos.{Pos as Place};
ghost use Rattle.data_rules.specs.Refusals.{ConShape, at};
ghost use Rattle.data_rules.specs.Shapes.{is_variable as shows_variable, own_arguments as arguments_shown};
ghost use Rattle.data_rules.specs.Shapes.{own_params as params_shown, telescope as telescope_shown};
ghost use Rattle.data_elab.specs.Reader.{IsReady, Grows, Keeps, Read, over, term_of};
ghost use Rattle.data_elab.specs.Shapes.{AnswersEnded, AnswersTerms, IsFunction, kind_of, refusal_of};

use crate::error::{DataError, DataKind, refused};
use crate::reader::{Reader, Shown};
use core_rules::Flag;
use core_terms::{Entry, FamId, NameId, NoMemory, Node, TermId, TermPool};
use declared_types::arguments_for;
use el_outside::Pos;
use std::alloc::Global;

/// What a type has to end in, which is tested.
#[derive(Clone, Copy)]
pub(crate) enum Tested {
    Sort,
    Family,
}

/// The refusal of a type that does not.
fn refusal(tested: Tested) -> DataKind
    ensures { result ≡ refusal_of tested }
{
    match tested {
        Tested::Sort => DataKind::BadSort,
        Tested::Family => DataKind::ConShape,
    }
}

/// A function type.
#[derive(Clone, Copy)]
struct Function {
    flag: Flag,
    name: NameId,
    dom: TermId,
    cod: TermId,
}

/// The domains of the function types that a type shows, and the head form of what is below them.
#[derive(Drop)]
pub(crate) struct Ended {
    pub entries: Vec<Entry>,
    pub end: Shown,
}

/// The function type that a head form is.
fn function_in(pool: &TermPool, shown: &Shown) -> Option<Function>
    requires { AppliedBelow (length pool.now.trees) shown.now.form }
    ensures { IsFunction (length pool.now.trees) (tree pool.now) (answer_in (tree pool.now) shown.now.meta shown.now.form) result }
{
    if shown.meta.is_some() || !shown.form.spine.is_empty() {
        return None;
    }
    match pool.node(shown.form.head) {
        Node::Pi {
            flag,
            name,
            dom,
            cod,
        } => Some(Function {
            flag,
            name,
            dom,
            cod,
        }),
        _ => None,
    }
}

/// The level of the sort that a head form is.
pub(crate) fn level_in(pool: &TermPool, shown: &Shown) -> Option<u32>
    requires { AppliedBelow (length pool.now.trees) shown.now.form }
    ensures { result ≡ level_of (answer_in (tree pool.now) shown.now.meta shown.now.form) }
{
    if shown.meta.is_some() || !shown.form.spine.is_empty() {
        return None;
    }
    match pool.node(shown.form.head) {
        Node::Sort(level) => Some(level),
        _ => None,
    }
}

/// Whether a head form is the variable inside which there are `inner` entries and `more` others.
fn is_variable(pool: &TermPool, inner: usize, more: usize, shown: &Shown) -> bool
    requires { AppliedBelow (length pool.now.trees) shown.now.form }
    ensures { (p : Place) → shows_variable p (inner + more) (answer_in (tree pool.now) shown.now.meta shown.now.form)
        ≡ cond result (Gives tt) (Refuses (at p ConShape)) }
{
    if shown.meta.is_some() || !shown.form.spine.is_empty() {
        return false;
    }
    let Node::Var(index) = pool.node(shown.form.head) else {
        return false;
    };
    match inner.checked_add(more) {
        Some(wanted) => index as usize == wanted,
        None => false,
    }
}

/// The arguments of family `fam`, where a head form is this family at arguments for all the entries.
pub(crate) fn own_arguments(
    alloc: Global,
    pool: &TermPool,
    fam: FamId,
    entries: &[Entry],
    shown: &Shown,
) -> Result<Option<Vec<TermId>>, NoMemory>
    requires { AppliedBelow (length pool.now.trees) shown.now.form }
    ensures is { IfOk result (λ o. (d : FamDecl Term) → d.params ++ d.indices ≡ telescope_map (tree pool.now) entries.now
        → option_map (λ v. map (tree pool.now) v.items) o ≡ arguments_shown fam d (answer_in (tree pool.now) shown.now.meta shown.now.form)) }
    ensures below { IfOk result (λ o. IfSome o (λ v. AllByRecursion (λ t. t < length pool.now.trees) v.items)) }
{
    if shown.meta.is_some() {
        return Ok(None);
    }
    let Node::Fam(found) = pool.node(shown.form.head) else {
        return Ok(None);
    };
    if found.number() != fam.number() {
        return Ok(None);
    }
    arguments_for(alloc, entries, shown.form.spine.as_slice())
}

impl<'a> Reader<'a> {
    /// The function types that a type shows, `room` at most, by head forms.
    pub(crate) fn telescope(
        &mut self,
        pos: Pos,
        tested: Tested,
        room: u32,
        ty: TermId,
    ) -> Result<Ended, DataError>
        requires ready { IsReady self.old }
        requires ty { ty < length self.old.pool.now.trees }
        ensures grows { Grows self.old self.new }
        ensures keeps { Keeps self.old self.new }
        ensures is { AnswersEnded self.new.pool.now (Read (over self.old) (telescope_shown pos (kind_of tested) room (term_of self.old ty))) result }
    {
        let mut entries = Vec::new(self.alloc);
        let mut ty = ty;
        let mut left = room;
        loop {
            let shown = self.shows(pos, ty)?;
            let Some(function) = function_in(self.pool, &shown) else {
                return Ok(Ended {
                    entries,
                    end: shown,
                });
            };
            if left == 0 {
                return Err(refused(pos, refusal(tested)));
            }
            left -= 1;
            entries.push(Entry {
                name: function.name,
                flag: function.flag,
                ty: function.dom,
            })?;
            ty = function.cod;
        }
    }

    /// The terms after the first `count`, which have to be so many variables in order, inside which there are `inner` entries more.
    pub(crate) fn own_params(
        &mut self,
        pos: Pos,
        inner: usize,
        count: usize,
        terms: &[TermId],
    ) -> Result<Vec<TermId>, DataError>
        requires ready { IsReady self.old }
        requires terms { AllByRecursion (λ t. t < length self.old.pool.now.trees) terms.now }
        ensures grows { Grows self.old self.new }
        ensures keeps { Keeps self.old self.new }
        ensures is { AnswersTerms self.new.pool.now (Read (over self.old) (params_shown pos inner count (map (term_of self.old) terms.now))) result }
    {
        let mut more = count;
        let mut left = terms;
        while more > 0 {
            let [term, others @ ..] = left else {
                return Err(refused(pos, DataKind::ConShape));
            };
            more -= 1;
            let shown = self.shows(pos, *term)?;
            if !is_variable(self.pool, inner, more, &shown) {
                return Err(refused(pos, DataKind::ConShape));
            }
            left = others;
        }
        Ok(Vec::from_slice(self.alloc, left)?)
    }
}
