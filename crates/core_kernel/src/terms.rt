//! The type of a term, part by part from left to right.

ghost use Rattle.std.specs.Prelude.{◌≡◌, ◌<◌, length, OnOk};
ghost use Rattle.core_rules.specs.Term.{Pi, Lam, App, Proj};
ghost use Rattle.core_terms.specs.Signature.{field_total};
ghost use Rattle.core_kernel.specs.Answers.{Answers, AnswersTerm};
ghost use Rattle.core_kernel.specs.Checker.{IsReady, IsTerm, IsBody, Grows, Keeps};
ghost use Rattle.core_kernel.specs.Checker.{Infers, HasLevel, Checks, over, term_of, entry_of, with_entry};

use crate::checker::Checker;
use crate::error::KernelError;
use crate::spine::{Spine, take_apart};
use core_rules::Flag;
use core_terms::{Entry, FieldId, NameId, Node, TermId};

impl<'a> Checker<'a> {
    /// The level of a type.
    #[cycle(kernel)]
    pub(crate) fn level(&mut self, t: TermId) -> Result<u32, KernelError>
        requires ready { IsReady self.old }
        requires term { IsTerm self.old t }
        ensures same_reference { self.new.pool.ghost_name ≡ self.old.pool.ghost_name }
        ensures grows { Grows self.old self.new }
        ensures keeps { OnOk result (Keeps self.old self.new) }
        ensures is { Answers self.new.pool.now (HasLevel (over self.old) (term_of self.old t)) result }
    {
        let ty = self.infer(t)?;
        self.level_by(ty)
    }

    /// That a term has a type.
    #[cycle(kernel)]
    pub(crate) fn check(&mut self, t: TermId, wanted: TermId) -> Result<(), KernelError>
        requires ready { IsReady self.old }
        requires term { IsTerm self.old t }
        requires wanted { wanted < length self.old.pool.now.trees }
        ensures same_reference { self.new.pool.ghost_name ≡ self.old.pool.ghost_name }
        ensures grows { Grows self.old self.new }
        ensures keeps { OnOk result (Keeps self.old self.new) }
        ensures is { Answers self.new.pool.now (Checks (over self.old) (term_of self.old t) (term_of self.old wanted)) result }
    {
        let found = self.infer(t)?;
        self.agree(found, wanted)
    }

    /// The level of a type under one entry more.
    #[cycle(kernel)]
    fn level_under(&mut self, entry: Entry, t: TermId) -> Result<u32, KernelError>
        requires ready { IsReady self.old }
        requires entry { entry.ty < length self.old.pool.now.trees }
        requires body { IsBody self.old t }
        ensures grows { Grows self.old self.new }
        ensures keeps { OnOk result (Keeps self.old self.new) }
        ensures is { Answers self.new.pool.now (HasLevel (with_entry (over self.old) (entry_of self.old entry))
            (term_of self.old t)) result }
    {
        self.context.push(entry)?;
        let level = self.level(t)?;
        self.context.pop();
        Ok(level)
    }

    /// The type of a term under one entry more.
    #[cycle(kernel)]
    fn infer_under(&mut self, entry: Entry, t: TermId) -> Result<TermId, KernelError>
        requires ready { IsReady self.old }
        requires entry { entry.ty < length self.old.pool.now.trees }
        requires body { IsBody self.old t }
        ensures grows { Grows self.old self.new }
        ensures keeps { OnOk result (Keeps self.old self.new) }
        ensures is { AnswersTerm self.new.pool.now (Infers (with_entry (over self.old) (entry_of self.old entry))
            (term_of self.old t)) result }
    {
        self.context.push(entry)?;
        let ty = self.infer(t)?;
        self.context.pop();
        Ok(ty)
    }

    /// The sort of a function type.
    #[cycle(kernel)]
    fn type_of_pi(
        &mut self,
        flag: Flag,
        name: NameId,
        dom: TermId,
        cod: TermId,
    ) -> Result<TermId, KernelError>
        requires ready { IsReady self.old }
        requires dom { IsTerm self.old dom }
        requires cod { IsBody self.old cod }
        ensures grows { Grows self.old self.new }
        ensures keeps { OnOk result (Keeps self.old self.new) }
        ensures is { AnswersTerm self.new.pool.now (Infers (over self.old)
            (Pi flag name (term_of self.old dom) (term_of self.old cod))) result }
    {
        let level = self.level(dom)?;
        let entry = Entry {
            name,
            flag,
            ty: dom,
        };
        let top = self.level_under(entry, cod)?;
        Ok(self.pool.add(Node::Sort(level.max(top)))?)
    }

    /// The function type of a lambda.
    #[cycle(kernel)]
    fn type_of_lambda(
        &mut self,
        flag: Flag,
        name: NameId,
        dom: TermId,
        body: TermId,
    ) -> Result<TermId, KernelError>
        requires ready { IsReady self.old }
        requires dom { IsTerm self.old dom }
        requires body { IsBody self.old body }
        ensures grows { Grows self.old self.new }
        ensures keeps { OnOk result (Keeps self.old self.new) }
        ensures is { AnswersTerm self.new.pool.now (Infers (over self.old)
            (Lam flag name (term_of self.old dom) (term_of self.old body))) result }
    {
        self.level(dom)?;
        let entry = Entry {
            name,
            flag,
            ty: dom,
        };
        let cod = self.infer_under(entry, body)?;
        Ok(
            self.pool.add(Node::Pi {
                flag,
                name,
                dom,
                cod,
            })?,
        )
    }

    /// The type of a function at an argument.
    #[cycle(kernel)]
    fn type_of_application(
        &mut self,
        flag: Flag,
        fun: TermId,
        arg: TermId,
    ) -> Result<TermId, KernelError>
        requires ready { IsReady self.old }
        requires fun { IsTerm self.old fun }
        requires arg { IsTerm self.old arg }
        ensures grows { Grows self.old self.new }
        ensures keeps { OnOk result (Keeps self.old self.new) }
        ensures is { AnswersTerm self.new.pool.now (Infers (over self.old)
            (App flag (term_of self.old fun) (term_of self.old arg))) result }
    {
        let Spine {
            head,
            arguments,
            terms,
        } = take_apart(self.alloc, self.pool, flag, fun, arg)?;
        let ty = self.infer(head)?;
        self.at_arguments(ty, arguments, terms.as_slice())
    }

    /// The type of a projection.
    #[cycle(kernel)]
    fn type_of_projection(&mut self, field: FieldId, of: TermId) -> Result<TermId, KernelError>
        requires ready { IsReady self.old }
        requires of { IsTerm self.old of }
        requires field { field < field_total self.old.signature.now }
        ensures grows { Grows self.old self.new }
        ensures keeps { OnOk result (Keeps self.old self.new) }
        ensures is { AnswersTerm self.new.pool.now (Infers (over self.old) (Proj field (term_of self.old of))) result }
    {
        let ty = self.infer(of)?;
        let (fam, _) = self.signature.field(field);
        let params = self.params_by(fam, ty)?;
        Ok(self.type_of_field(field, params, of)?)
    }

    /// The type of a term.
    #[cycle(kernel)]
    pub(crate) fn infer(&mut self, t: TermId) -> Result<TermId, KernelError>
        requires ready { IsReady self.old }
        requires term { IsTerm self.old t }
        ensures same_reference { self.new.pool.ghost_name ≡ self.old.pool.ghost_name }
        ensures grows { Grows self.old self.new }
        ensures keeps { OnOk result (Keeps self.old self.new) }
        ensures is { AnswersTerm self.new.pool.now (Infers (over self.old) (term_of self.old t)) result }
    {
        match self.pool.node(t) {
            Node::Var(index) => self.type_of_variable(index),
            Node::Sort(level) => self.type_of_sort(level),
            Node::Pi {
                flag,
                name,
                dom,
                cod,
            } => self.type_of_pi(flag, name, dom, cod),
            Node::Lam {
                flag,
                name,
                dom,
                body,
            } => self.type_of_lambda(flag, name, dom, body),
            Node::App { flag, fun, arg } => self.type_of_application(flag, fun, arg),
            Node::Def(def) => Ok(self.type_of_def(def)),
            Node::Fam(fam) => self.type_of_family(fam),
            Node::Con { con, params } => self.type_of_con(con, params),
            Node::Proj { field, of } => self.type_of_projection(field, of),
            Node::Meta { meta, .. } => Err(KernelError::MetaLeft { meta }),
        }
    }
}
