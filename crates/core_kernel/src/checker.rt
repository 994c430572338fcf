//! What terms are read over, and what the head form of a type shows.

ghost use Rattle.std.specs.Prelude.{◌≡◌, ◌<◌, length};
ghost use Rattle.core_rules.specs.Term.{Var, Sort, Def, Fam};
ghost use Rattle.core_rules.specs.Signature.{defs, fams};
ghost use Rattle.kernel_rules.specs.Outcome.{Gives};
ghost use Rattle.core_kernel.specs.Answers.{Answers, AnswersTerm};
ghost use Rattle.core_kernel.specs.Checker.{IsReady, Grows, Keeps, over, term_of, signature_of};
ghost use Rattle.core_kernel.specs.Checker.{Infers, Shows, ShowsLevel, ShowsParts, Agree, AnswersParts, agreement_by};

use crate::error::KernelError;
use conversion::{Conv, convert};
use core_rules::Flag;
use core_terms::{
    DefId, Entry, FamId, Limits, NoSolutions, Node, Signature, TermId, TermPool, shift,
};
use declared_types::{fam_type, same_flag};
use std::alloc::Global;
use weak_head::{Head, head};

/// What terms are read over: the pool of their ids, the signature, and the context, whose innermost entry comes last. It is
/// thrown away with the first refusal, since the context may then have entries more.
#[derive(Drop)]
pub(crate) struct Checker<'a> {
    pub pool: &'a mut TermPool,
    pub signature: &'a Signature,
    pub context: &'a mut Vec<Entry>,
    pub limits: Limits,
    pub alloc: Global,
}

/// The domain and the codomain of a function type.
#[derive(Clone, Copy)]
pub(crate) struct Parts {
    pub dom: TermId,
    pub cod: TermId,
}

/// What the verdict on the inferred type and the wanted one says of the term.
fn agreement(verdict: &Conv, found: TermId, wanted: TermId) -> Result<(), KernelError>
    ensures { result ≡ agreement_by verdict.now found wanted }
{
    match verdict {
        Conv::Yes => Ok(()),
        Conv::No { .. } => Err(KernelError::Mismatch {
            left: found,
            right: wanted,
        }),
        Conv::OutOfFuel => Err(KernelError::OutOfFuel),
        Conv::OutOfDepth => Err(KernelError::OutOfDepth),
        Conv::Blocked { meta } => Err(KernelError::MetaLeft { meta: *meta }),
        Conv::NoMemory => Err(KernelError::NoMemory),
    }
}

impl<'a> Checker<'a> {
    /// The head form of a type.
    pub(crate) fn form(&mut self, ty: TermId) -> Result<TermId, KernelError>
        requires ready { IsReady self.old }
        requires ty { ty < length self.old.pool.now.trees }
        ensures grows { Grows self.old self.new }
        ensures keeps { Keeps self.old self.new }
        ensures is { AnswersTerm self.new.pool.now (Shows (over self.old) (term_of self.old ty)) result }
    {
        match head(
            self.alloc,
            self.pool,
            self.signature,
            &NoSolutions,
            ty,
            self.limits.fuel,
        ) {
            Head::Form { term, .. } => Ok(term),
            Head::Blocked { meta, .. } => Err(KernelError::MetaLeft { meta }),
            Head::OutOfFuel => Err(KernelError::OutOfFuel),
            Head::NoMemory => Err(KernelError::NoMemory),
        }
    }

    /// The level of a type, whose own type is `ty`.
    pub(crate) fn level_by(&mut self, ty: TermId) -> Result<u32, KernelError>
        requires ready { IsReady self.old }
        requires ty { ty < length self.old.pool.now.trees }
        ensures grows { Grows self.old self.new }
        ensures keeps { Keeps self.old self.new }
        ensures is { Answers self.new.pool.now (ShowsLevel (over self.old) (term_of self.old ty)) result }
    {
        let form = self.form(ty)?;
        match self.pool.node(form) {
            Node::Sort(level) => Ok(level),
            _ => Err(KernelError::NotAType { ty: form }),
        }
    }

    /// The parts of the type of a function for an argument that is given in this way.
    pub(crate) fn parts_by(&mut self, flag: Flag, ty: TermId) -> Result<Parts, KernelError>
        requires ready { IsReady self.old }
        requires ty { ty < length self.old.pool.now.trees }
        ensures grows { Grows self.old self.new }
        ensures keeps { Keeps self.old self.new }
        ensures is { AnswersParts self.new.pool.now (ShowsParts (over self.old) flag (term_of self.old ty)) result }
    {
        let form = self.form(ty)?;
        match self.pool.node(form) {
            Node::Pi {
                flag: other,
                dom,
                cod,
                ..
            } => {
                if same_flag(flag, other) {
                    Ok(Parts { dom, cod })
                } else {
                    Err(KernelError::NotAFunction { ty: form })
                }
            }
            _ => Err(KernelError::NotAFunction { ty: form }),
        }
    }

    /// That the inferred type is the wanted one.
    pub(crate) fn agree(&mut self, found: TermId, wanted: TermId) -> Result<(), KernelError>
        requires ready { IsReady self.old }
        requires found { found < length self.old.pool.now.trees }
        requires wanted { wanted < length self.old.pool.now.trees }
        ensures grows { Grows self.old self.new }
        ensures keeps { Keeps self.old self.new }
        ensures is { Answers self.new.pool.now (Agree (over self.old) (term_of self.old found) (term_of self.old wanted)) result }
    {
        let verdict = convert(
            self.alloc,
            self.pool,
            self.signature,
            &NoSolutions,
            found,
            wanted,
            self.limits,
        );
        agreement(&verdict, found, wanted)
    }

    /// The type of a variable.
    pub(crate) fn type_of_variable(&mut self, index: u32) -> Result<TermId, KernelError>
        requires ready { IsReady self.old }
        requires scope { index < length self.old.context.now.items }
        ensures grows { Grows self.old self.new }
        ensures keeps { Keeps self.old self.new }
        ensures is { AnswersTerm self.new.pool.now (Infers (over self.old) (Var index)) result }
    {
        let Some(by) = index.checked_add(1) else {
            return Err(KernelError::NoMemory);
        };
        let entry = self.context[self.context.len() - 1 - index as usize];
        Ok(shift(self.alloc, self.pool, entry.ty, 0, by)?)
    }

    /// The type of a sort.
    pub(crate) fn type_of_sort(&mut self, level: u32) -> Result<TermId, KernelError>
        ensures grows { Grows self.old self.new }
        ensures keeps { Keeps self.old self.new }
        ensures is { AnswersTerm self.new.pool.now (Infers (over self.old) (Sort level)) result }
    {
        if level > 1_000_000 {
            return Err(KernelError::LevelTooLarge);
        }
        Ok(self.pool.add(Node::Sort(level + 1))?)
    }

    /// The type of a postulate or function.
    pub(crate) fn type_of_def(&mut self, def: DefId) -> TermId
        requires ready { IsReady self.old }
        requires scope { def < length (defs (signature_of self.old)) }
        ensures grows { Grows self.old self.new }
        ensures keeps { Keeps self.old self.new }
        ensures within { result < length self.new.pool.now.trees }
        ensures is { Infers (over self.old) (Def def) (Gives (term_of self.new result)) }
    {
        self.signature.def(def).ty
    }

    /// The type of a family.
    pub(crate) fn type_of_family(&mut self, fam: FamId) -> Result<TermId, KernelError>
        requires ready { IsReady self.old }
        requires scope { fam < length (fams (signature_of self.old)) }
        ensures grows { Grows self.old self.new }
        ensures keeps { Keeps self.old self.new }
        ensures is { AnswersTerm self.new.pool.now (Infers (over self.old) (Fam fam)) result }
    {
        let entry = self.signature.fam(fam);
        Ok(fam_type(self.pool, &entry.decl)?)
    }
}
