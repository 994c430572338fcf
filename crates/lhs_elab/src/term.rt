//! The left side so far as a term, and projections of it.

ghost use Rattle.std.specs.Prelude.{◌≡◌, ◌<◌, length, map, IfOk, OnOk};
ghost use Rattle.std.specs.List.{AllByRecursion};
ghost use Rattle.core_rules.specs.Elimination.{elim_by, elims};
ghost use Rattle.core_rules.specs.Substitution.{under};
ghost use Rattle.core_rules.specs.Typing.{IsField, field_env};
ghost use Rattle.term_pool.specs.Pool.{Extends, StandsFor, tree};
ghost use Rattle.core_terms.specs.Signature.{field_total};
ghost use Rattle.weak_head.specs.Elims.{Below, elim_in};
ghost use Rattle.lhs_rules.specs.Spots.{left_term, projected};
ghost use Rattle.lhs_elab.specs.Elaborator.{IsReady, Grows, Keeps, left_of, signature_of};
ghost use Rattle.lhs_elab.specs.Lefts.{taken_in};
ghost use Rattle.lhs_elab.specs.Moving.{raised_to};

use crate::elaborator::Elaborator;
use crate::left::Taken;
use core_terms::{
    Braces, FieldId, NoMemory, Node, Origin, PatShape, Solutions, TermId, TermPool, shift,
};
use declared_types::type_of_field;
use std::alloc::Global;
use weak_head::Elim;

/// The head at an elimination of the outermost entries, which are so many, inside `count` entries.
fn eliminated(
    alloc: Global,
    pool: &mut TermPool,
    head: TermId,
    by: Elim,
    outer: u32,
    count: u32,
) -> Result<TermId, NoMemory>
    requires head { head < length pool.old.trees }
    requires by { Below (length pool.old.trees) by }
    ensures extends { Extends pool.old pool.new }
    ensures is { IfOk result (λ t. StandsFor pool.new t
        (elim_by (tree pool.old head) (raised_to count (record { it = elim_in (tree pool.old) by; outer = outer })))) }
{
    match by {
        Elim::Arg { flag, arg } => {
            let inner = count.saturating_sub(outer);
            let raised = shift(alloc, pool, arg, 0, inner)?;
            pool.add(Node::App {
                flag,
                fun: head,
                arg: raised,
            })
        }
        Elim::Field(field) => pool.add(Node::Proj { field, of: head }),
    }
}

/// The head at the eliminations, inside `count` entries.
fn at_spine(
    alloc: Global,
    pool: &mut TermPool,
    head: TermId,
    spine: &[Taken],
    count: u32,
) -> Result<TermId, NoMemory>
    requires head { head < length pool.old.trees }
    requires spine { AllByRecursion (λ e. Below (length pool.old.trees) e.elim) spine.now }
    ensures extends { Extends pool.old pool.new }
    ensures is { IfOk result (λ t. StandsFor pool.new t (elims (tree pool.old head)
        (map (raised_to count) (map (taken_in (tree pool.old)) spine.now)))) }
{
    let mut made = head;
    let mut left = spine;
    while let [taken, more @ ..] = left {
        let next = eliminated(alloc, pool, made, taken.elim, taken.outer, count)?;
        made = next;
        left = more;
    }
    Ok(made)
}

impl<'a, S: Solutions> Elaborator<'a, S> {
    /// The left side so far as a term.
    pub(crate) fn left_term(&mut self) -> Result<TermId, NoMemory>
        requires ready { IsReady S.solution self.old }
        ensures grows { Grows self.old self.new }
        ensures keeps { Keeps self.old self.new }
        ensures left { self.new.left.now ≡ self.old.left.now }
        ensures is { IfOk result (λ t. StandsFor self.new.pool.now t (left_term self.old.function (left_of self.old))) }
    {
        let Ok(count) = u32::try_from(self.left.context.len()) else {
            return Err(NoMemory);
        };
        let head = self.pool.add(Node::Def(self.function))?;
        let left = &*self.left;
        at_spine(self.alloc, self.pool, head, left.spine.as_slice(), count)
    }

    /// A projection joins the left side, whose type is the field's record at these parameters, in the order of the record.
    pub(crate) fn project(&mut self, field: FieldId, params: Vec<TermId>) -> Result<(), NoMemory>
        requires ready { IsReady S.solution self.old }
        requires field { field < field_total self.old.signature.now }
        requires params { AllByRecursion (λ t. t < length self.old.pool.now.trees) params.items }
        ensures grows { Grows self.old self.new }
        ensures keeps { Keeps self.old self.new }
        ensures ready { OnOk result (IsReady S.solution self.new) }
        ensures left { OnOk result ((is : IsField (signature_of self.old) field) → left_of self.new ≡ projected (left_of self.old) field
            (under (field_env (signature_of self.old) field is (map (tree self.old.pool.now) params.items)
            (left_term self.old.function (left_of self.old))) is.entry.ty)) }
    {
        let Ok(outer) = u32::try_from(self.left.context.len()) else {
            return Err(NoMemory);
        };
        let term = self.left_term()?;
        let ty = type_of_field(self.alloc, self.pool, self.signature, field, params, term)?;
        self.left.spine.push(Taken {
            elim: Elim::Field(field),
            outer,
        })?;
        self.left.ty = ty;
        self.with_pat(
            PatShape::Projection(field),
            Origin::Written,
            Braces::Without,
        )
    }
}
