//! Record values: their labels are the fields of the record that the wanted type shows, and each value is checked at its field's type.

ghost use Rattle.std.specs.Prelude.{◌≡◌, ◌<◌, ◌≤◌, ◌&&◌, drop, eqb, length, map, option_and_then, option_map, slice_get, IfOk, IfSome, OnOk};
ghost use Rattle.core_rules.specs.Term.{Term};
ghost use Rattle.std.specs.List.{AllByRecursion, list_all};
ghost use Rattle.core_rules.specs.Signature.{Signature as Declared, fams};
ghost use Rattle.core_rules.specs.Mapped.{AllEntries, telescope_map};
ghost use Rattle.core_rules.specs.Substitution.{under as under_terms};
ghost use Rattle.term_pool.specs.Pool.{Pool, StandsFor, tree};
ghost use Rattle.core_terms.specs.Signature.{Stands, signature_in};
ghost use Rattle.weak_head.specs.Elims.{spine_in};
ghost use Rattle.weak_head.specs.States.{AppliedBelow, answer_in};
ghost use Rattle.written_rules.specs.Rules.{field_checked, record_checked, record_shown, value_of as value_meant};
ghost use Rattle.written_rules.specs.Expressions.{expr_meaning};
ghost use Rattle.elab_machine.specs.Answers.{AnswersTerm};
ghost use Rattle.elab_machine.specs.Labels.{is_once, labelled};
ghost use Rattle.elab_machine.specs.Records.{AnswersAt, AnswersRecord, AnswersPut, AreLabels, IsEnv, IsRecordAt, IsWithin, at_record, fields_of, record_put, record_wanted, values_meant};
ghost use Rattle.elab_machine.specs.Writer.{IsReady, Grows, Keeps, Read, over, term_of, values_of, signature_of};

use crate::error::{ElabKind, WrittenError, refused};
use crate::labels::Labels;
use crate::spine::repeated;
use crate::writer::{Shown, Writer};
use core_terms::{
    ConId, CoreDecl, Entry, FamId, NameId, NoMemory, Node, Signature, TermId, TermPool, under,
};
use declared_types::params_for;
use el_outside::Pos;
use resolved_tree::{ResolvedExpr, ResolvedValue};
use std::alloc::Global;
use weak_head::{Applied, applied};

/// A record at its parameters, in the order of the record, with its constructor.
#[derive(Drop)]
pub(crate) struct AtRecord {
    pub fam: FamId,
    pub con: ConId,
    pub params: Vec<TermId>,
}

/// The value of a field, and the term at it.
#[derive(Clone, Copy)]
struct Put {
    arg: TermId,
    term: TermId,
}

/// The record that a head form is, where it is one at all its parameters, and has a constructor.
fn record_of(
    alloc: Global,
    pool: &TermPool,
    sig: &Signature,
    form: &Applied,
) -> Result<Option<AtRecord>, NoMemory>
    requires stands { Stands pool.now sig.now }
    requires form { AppliedBelow (length pool.now.trees) form.now }
    ensures { IfOk result (IsRecordAt sig.now pool.now (tree pool.now form.now.head) (spine_in (tree pool.now) form.now.spine.items)) }
{
    let Node::Fam(fam) = pool.node(form.head) else {
        return Ok(None);
    };
    if fam.number() >= sig.fams() {
        return Ok(None);
    }
    let entry = sig.fam(fam);
    let CoreDecl::Family { is_record, .. } = &entry.decl else {
        unreachable!()
    };
    if !*is_record {
        return Ok(None);
    }
    let [con, ..] = entry.cons.as_slice() else {
        return Ok(None);
    };
    let con = *con;
    let Some(params) = params_for(alloc, &entry.decl, form.spine.as_slice())? else {
        return Ok(None);
    };
    Ok(Some(AtRecord { fam, con, params }))
}

/// Whether so many values with these labels are exactly the fields, each once.
fn are_fields(labels: &Labels, count: usize, fields: &[Entry]) -> bool
    ensures { result ≡ (eqb count (length fields.now) && list_all (λ e. is_once (labelled labels.now e.name)) fields.now) }
{
    if count != fields.len() {
        return false;
    }
    for field in fields {
        let Some(label) = labels.get(field.name) else {
            return false;
        };
        if !label.once {
            return false;
        }
    }
    true
}

/// The place of the value of a field.
fn place_of(labels: &Labels, values: &[ResolvedValue], name: NameId) -> Option<usize>
    requires { AreLabels labels.now values.now }
    ensures within { IfSome result (λ i. i < length values.now) }
    ensures is { (g : Declared Term) → option_and_then (λ i. option_map (λ v. (expr_meaning g v.value).checks) (slice_get values.now i)) result ≡ value_meant name (values_meant g values.now) }
{
    let Some(label) = labels.get(name) else {
        return None;
    };
    if label.first >= values.len() {
        return None;
    }
    Some(label.first)
}

/// The terms, the last one first, behind room for so many others.
fn env_of(
    alloc: Global,
    terms: &[TermId],
    room: usize,
    filler: TermId,
) -> Result<Vec<TermId>, NoMemory>
    ensures { IfOk result (IsEnv terms.now room filler) }
{
    let mut env = repeated(alloc, filler, room)?;
    let mut left = terms.len();
    while left > 0 {
        left -= 1;
        env.push(terms[left])?;
    }
    Ok(env)
}

/// The fields of a family.
fn fields_in(sig: &Signature, fam: FamId) -> &[Entry]
    requires { fam < length (fams sig.now) }
    ensures below { (p : Pool) → Stands p sig.now → AllEntries (λ t. t < length p.trees) result.now }
    ensures is { (p : Pool) → telescope_map (tree p) result.now ≡ fields_of (signature_in p sig.now) fam }
{
    let CoreDecl::Family { fields, .. } = &sig.fam(fam).decl else {
        unreachable!()
    };
    fields.entries.as_slice()
}

/// The items from `start` on.
fn onward(terms: &[TermId], start: usize) -> &[TermId]
    requires { start ≤ length terms.now }
    ensures { result.now ≡ drop start terms.now }
{
    &terms[start..]
}

impl<'a> Writer<'a> {
    /// The record that the head form of a wanted type is.
    fn record_shown(&mut self, pos: Pos, shown: &Shown) -> Result<AtRecord, WrittenError>
        requires ready { IsReady self.old }
        requires shown { AppliedBelow (length self.old.pool.now.trees) shown.now.form }
        ensures grows { Grows self.old self.new }
        ensures keeps { Keeps self.old self.new }
        ensures is { AnswersRecord self.new.pool.now (length (fams self.old.signature.now)) (signature_of self.old)
            (record_shown (signature_of self.old) pos (answer_in (tree self.old.pool.now) shown.now.meta shown.now.form)) result }
    {
        if shown.meta.is_some() {
            return Err(refused(pos, ElabKind::CannotInfer));
        }
        let Some(at) = record_of(self.alloc, self.pool, self.signature, &shown.form)? else {
            let ty = applied(self.pool, &shown.form)?;
            return Err(refused(pos, ElabKind::NotARecord { ty }));
        };
        Ok(at)
    }

    /// The record that a wanted type shows.
    fn record_wanted(&mut self, pos: Pos, wanted: TermId) -> Result<AtRecord, WrittenError>
        requires ready { IsReady self.old }
        requires wanted { wanted < length self.old.pool.now.trees }
        ensures grows { Grows self.old self.new }
        ensures keeps { Keeps self.old self.new }
        ensures is { AnswersAt self.new.pool.now (length (fams self.old.signature.now)) (signature_of self.old)
            (Read (over self.old) (record_wanted (signature_of self.old) pos (term_of self.old wanted))) result }
    {
        let shown = self.wanted(pos, wanted)?;
        self.record_shown(pos, &shown)
    }

    /// The type of a field under the terms before it, the last one first.
    fn field_type(&mut self, ty: TermId, env: &[TermId]) -> Result<TermId, NoMemory>
        requires ready { IsReady self.old }
        requires ty { ty < length self.old.pool.now.trees }
        requires env { AllByRecursion (λ t. t < length self.old.pool.now.trees) env.now }
        ensures grows { Grows self.old self.new }
        ensures keeps { Keeps self.old self.new }
        ensures is { IfOk result (λ r. StandsFor self.new.pool.now r (under_terms (map (term_of self.old) env.now) (term_of self.old ty))) }
    {
        under(self.alloc, self.pool, ty, env)
    }

    /// The value of a field, and the term at it.
    #[cycle(written)]
    fn put_field(
        &mut self,
        pos: Pos,
        values: &[ResolvedValue],
        labels: &Labels,
        field: &Entry,
        term: TermId,
        env: &[TermId],
    ) -> Result<Put, WrittenError>
        requires ready { IsReady self.old }
        requires labels { AreLabels labels.now values.now }
        requires field { field.now.ty < length self.old.pool.now.trees }
        requires term { term < length self.old.pool.now.trees }
        requires env { AllByRecursion (λ t. t < length self.old.pool.now.trees) env.now }
        ensures grows { Grows self.old self.new }
        ensures keeps { OnOk result (Keeps self.old self.new) }
        ensures is { AnswersPut self.new.pool.now field.now.flag (term_of self.old term) (Read (over self.old) (field_checked pos
            (value_meant field.now.name (values_meant (signature_of self.old) values.now)) (values_of self.old)
            (under_terms (map (term_of self.old) env.now) (term_of self.old field.now.ty)))) result }
    {
        let Some(place) = place_of(labels, values, field.name) else {
            return Err(refused(pos, ElabKind::BadField));
        };
        let ty = self.field_type(field.ty, env)?;
        let arg = self.check_expr(&values[place].value, ty)?;
        let term = self.pool.add(Node::App {
            flag: field.flag,
            fun: term,
            arg,
        })?;
        Ok(Put { arg, term })
    }

    /// The values of the fields, at the constructor at its parameters.
    #[cycle(written)]
    fn check_fields(
        &mut self,
        pos: Pos,
        values: &[ResolvedValue],
        labels: &Labels,
        at: &AtRecord,
    ) -> Result<TermId, WrittenError>
        requires ready { IsReady self.old }
        requires at { IsWithin self.old.pool.now (length (fams self.old.signature.now)) at.now }
        requires labels { AreLabels labels.now values.now }
        ensures grows { Grows self.old self.new }
        ensures keeps { OnOk result (Keeps self.old self.new) }
        ensures is { AnswersTerm self.new.pool.now (Read (over self.old) (record_put pos (values_of self.old)
            (values_meant (signature_of self.old) values.now) (at_record (signature_of self.old) self.old.pool.now at.now))) result }
    {
        let fields = fields_in(self.signature, at.fam);
        let params = at.params.as_slice();
        let mut term = self.con_at(at.con, params)?;
        let mut start = fields.len();
        let mut env = env_of(self.alloc, params, start, term)?;
        for field in fields {
            let before = onward(env.as_slice(), start);
            let put = self.put_field(pos, values, labels, field, term, before)?;
            start -= 1;
            env[start] = put.arg;
            term = put.term;
        }
        Ok(term)
    }

    /// A record value at a wanted type.
    #[cycle(written)]
    pub(crate) fn check_record(
        &mut self,
        pos: Pos,
        values: &[ResolvedValue],
        wanted: TermId,
    ) -> Result<TermId, WrittenError>
        requires ready { IsReady self.old }
        requires wanted { wanted < length self.old.pool.now.trees }
        ensures grows { Grows self.old self.new }
        ensures keeps { OnOk result (Keeps self.old self.new) }
        ensures is { AnswersTerm self.new.pool.now (Read (over self.old) (record_checked (signature_of self.old) pos
            (values_meant (signature_of self.old) values.now) (values_of self.old) (term_of self.old wanted))) result }
    {
        let at = self.record_wanted(pos, wanted)?;
        let labels = Labels::of(self.alloc, values)?;
        if !self.has_fields(&labels, values.len(), at.fam) {
            return Err(refused(pos, ElabKind::BadField));
        }
        self.check_fields(pos, values, &labels, &at)
    }

    /// Whether so many values with these labels are exactly the fields of the record, each once.
    fn has_fields(&self, labels: &Labels, count: usize, fam: FamId) -> bool
        requires fam { fam < length (fams self.now.signature.now) }
        ensures { result ≡ (eqb count (length (fields_of (signature_of self.now) fam))
            && list_all (λ e. is_once (labelled labels.now e.name)) (fields_of (signature_of self.now) fam)) }
    {
        are_fields(labels, count, fields_in(self.signature, fam))
    }
}
