//! What expressions are read over, and what the head form of a type shows.

ghost use Rattle.std.specs.Prelude.{◌≡◌, ◌<◌, ℕ, [], length};
ghost use Rattle.core_rules.specs.Term.{Term, Pi};
ghost use Rattle.core_rules.specs.Heads.{Form};
ghost use Rattle.written_rules.specs.Rules.{shows, wanted, function_wanted, sort_shown, agrees};
ghost use Rattle.weak_head.specs.States.{answer_in};
ghost use Rattle.term_pool.specs.Pool.{tree};
ghost use Rattle.weak_head.specs.States.{AppliedBelow};
ghost use Rattle.elab_machine.specs.Answers.{Answers};
ghost use Rattle.elab_machine.specs.Writer.{IsReady, Grows, Keeps, Read, over, term_of, AnswersShown, AnswersParts, agreement_by, inserts, level_of, IsFit};

use crate::error::{ElabKind, WrittenError, refused};
use crate::values::Value;
use conversion::{Conv, convert};
use core_rules::Flag;
use core_terms::{Limits, MetaId, NoSolutions, Node, Signature, TermId, TermPool};
use declared_types::same_flag;
use el_outside::Pos;
use std::alloc::Global;
use weak_head::{Applied, Reduced, applied, reduce};

/// What expressions are read over: the pool of their terms, the signature, and the values of source variables, the innermost
/// last, inside so many binders. It is thrown away with the first refusal, since there may then be values more.
#[derive(Drop)]
pub(crate) struct Writer<'a> {
    pub pool: &'a mut TermPool,
    pub signature: &'a Signature,
    pub values: &'a mut Vec<Value>,
    pub inside: u32,
    pub limits: Limits,
    pub alloc: Global,
}

/// A head form, which may wait for a metavariable.
#[derive(Drop)]
pub(crate) struct Shown {
    pub meta: Option<MetaId>,
    pub form: Applied,
}

/// The domain and the codomain of a function type.
#[derive(Clone, Copy)]
pub(crate) struct Parts {
    pub dom: TermId,
    pub cod: TermId,
}

/// What the verdict on the type that is found and the wanted one says at this place.
fn agreement(pos: Pos, verdict: Conv) -> Result<(), WrittenError>
    ensures { result ≡ agreement_by pos verdict }
{
    match verdict {
        Conv::Yes => Ok(()),
        Conv::No { left, right, under } => Err(refused(
            pos,
            ElabKind::Mismatch { left, right, under },
        )),
        Conv::OutOfFuel => Err(refused(pos, ElabKind::OutOfFuel)),
        Conv::OutOfDepth => Err(refused(pos, ElabKind::OutOfDepth)),
        Conv::Blocked { .. } => Err(refused(pos, ElabKind::CannotInfer)),
        Conv::NoMemory => Err(WrittenError::NoMemory),
    }
}

/// What a lambda or an argument of this flag finds at a head form.
#[derive(Clone, Copy)]
enum Fit {
    /// A function type for it.
    Function { dom: TermId, cod: TermId },
    /// Something is left out before it.
    LeftOut,
    Other,
}

/// Whether a lambda of this flag can be at the head form.
fn fit_at(pool: &TermPool, flag: Flag, shown: &Shown) -> Fit
    requires { AppliedBelow (length pool.now.trees) shown.now.form }
    ensures { IsFit (length pool.now.trees) (tree pool.now) flag (answer_in (tree pool.now) shown.now.meta shown.now.form) result }
{
    if shown.meta.is_some() {
        return Fit::LeftOut;
    }
    if !shown.form.spine.is_empty() {
        return Fit::Other;
    }
    match pool.node(shown.form.head) {
        Node::Pi {
            flag: found,
            dom,
            cod,
            ..
        } => fit_of(flag, found, dom, cod),
        _ => Fit::Other,
    }
}

fn fit_of(flag: Flag, found: Flag, dom: TermId, cod: TermId) -> Fit
    ensures { (n x : ℕ) (f : ℕ → Term) → dom < n → cod < n → IsFit n f flag (Form (Pi found x (f dom) (f cod)) []) result }
{
    match flag {
        Flag::Explicit => match found {
            Flag::Explicit => Fit::Function { dom, cod },
            Flag::Implicit => Fit::LeftOut,
        },
        Flag::Implicit => match found {
            Flag::Explicit => Fit::Other,
            Flag::Implicit => Fit::Function { dom, cod },
        },
    }
}

/// The level of the sort that a head form is.
fn level_in(pool: &TermPool, shown: &Shown) -> Option<u32>
    requires { AppliedBelow (length pool.now.trees) shown.now.form }
    ensures { result ≡ level_of (answer_in (tree pool.now) shown.now.meta shown.now.form) }
{
    if shown.meta.is_some() || !shown.form.spine.is_empty() {
        return None;
    }
    match pool.node(shown.form.head) {
        Node::Sort(level) => Some(level),
        _ => None,
    }
}

/// Whether an implicit argument would be inserted at this head form.
pub(crate) fn is_inserting(pool: &TermPool, shown: &Shown) -> bool
    requires { AppliedBelow (length pool.now.trees) shown.now.form }
    ensures { result ≡ inserts (answer_in (tree pool.now) shown.now.meta shown.now.form) }
{
    if shown.meta.is_some() || !shown.form.spine.is_empty() {
        return false;
    }
    match pool.node(shown.form.head) {
        Node::Pi { flag, .. } => same_flag(flag, Flag::Implicit),
        _ => false,
    }
}

impl<'a> Writer<'a> {
    /// The head form of a type, for what stands at this place.
    pub(crate) fn shows(&mut self, pos: Pos, ty: TermId) -> Result<Shown, WrittenError>
        requires ready { IsReady self.old }
        requires ty { ty < length self.old.pool.now.trees }
        ensures grows { Grows self.old self.new }
        ensures keeps { Keeps self.old self.new }
        ensures is { AnswersShown self.new.pool.now (Read (over self.old) (shows pos (term_of self.old ty))) result }
    {
        let fuel = self.limits.fuel;
        let shown = reduce(
            self.alloc,
            self.pool,
            self.signature,
            &NoSolutions,
            ty,
            fuel,
        )?;
        match shown {
            Reduced::Found { meta, term, .. } => Ok(Shown { meta, form: term }),
            Reduced::OutOfFuel => Err(refused(pos, ElabKind::OutOfFuel)),
        }
    }

    /// The same for an expression that takes no implicit argument by itself.
    pub(crate) fn wanted(&mut self, pos: Pos, ty: TermId) -> Result<Shown, WrittenError>
        requires ready { IsReady self.old }
        requires ty { ty < length self.old.pool.now.trees }
        ensures grows { Grows self.old self.new }
        ensures keeps { Keeps self.old self.new }
        ensures is { AnswersShown self.new.pool.now (Read (over self.old) (wanted pos (term_of self.old ty))) result }
    {
        let shown = self.shows(pos, ty)?;
        if is_inserting(self.pool, &shown) {
            return Err(refused(pos, ElabKind::CannotInfer));
        }
        Ok(shown)
    }

    /// That the type that is found is the wanted one.
    pub(crate) fn agree(
        &mut self,
        pos: Pos,
        found: TermId,
        wanted: TermId,
    ) -> Result<(), WrittenError>
        requires ready { IsReady self.old }
        requires found { found < length self.old.pool.now.trees }
        requires wanted { wanted < length self.old.pool.now.trees }
        ensures grows { Grows self.old self.new }
        ensures keeps { Keeps self.old self.new }
        ensures is { Answers self.new.pool.now (Read (over self.old) (agrees pos (term_of self.old found) (term_of self.old wanted))) result }
    {
        let verdict = convert(
            self.alloc,
            self.pool,
            self.signature,
            &NoSolutions,
            found,
            wanted,
            self.limits,
        );
        agreement(pos, verdict)
    }

    /// The parts of the type at which a lambda of this flag is checked.
    pub(crate) fn function_wanted(
        &mut self,
        pos: Pos,
        flag: Flag,
        ty: TermId,
    ) -> Result<Parts, WrittenError>
        requires ready { IsReady self.old }
        requires ty { ty < length self.old.pool.now.trees }
        ensures grows { Grows self.old self.new }
        ensures keeps { Keeps self.old self.new }
        ensures is { AnswersParts self.new.pool.now (Read (over self.old) (function_wanted pos flag (term_of self.old ty))) result }
    {
        let shown = self.shows(pos, ty)?;
        match fit_at(self.pool, flag, &shown) {
            Fit::Function { dom, cod } => Ok(Parts { dom, cod }),
            Fit::LeftOut => Err(refused(pos, ElabKind::CannotInfer)),
            Fit::Other => {
                let ty = applied(self.pool, &shown.form)?;
                Err(refused(pos, ElabKind::NotAFunction { ty }))
            }
        }
    }

    /// The level of a type, by the head form of its type.
    pub(crate) fn sort_shown(&mut self, pos: Pos, shown: &Shown) -> Result<u32, WrittenError>
        requires form { AppliedBelow (length self.old.pool.now.trees) shown.now.form }
        ensures grows { Grows self.old self.new }
        ensures keeps { Keeps self.old self.new }
        ensures is { Answers self.new.pool.now (λ r. r ≡ sort_shown pos
            (answer_in (tree self.old.pool.now) shown.now.meta shown.now.form)) result }
    {
        if shown.meta.is_some() {
            return Err(refused(pos, ElabKind::CannotInfer));
        }
        if let Some(level) = level_in(self.pool, shown) {
            return Ok(level);
        }
        let ty = applied(self.pool, &shown.form)?;
        Err(refused(pos, ElabKind::NotAType { ty }))
    }
}
