//! The types of fields.

ghost use Rattle.std.specs.Prelude.{◌≡◌, ◌<◌, ◌++◌, length, map, IfOk};
ghost use Rattle.std.specs.List.{AllByRecursion};
ghost use Rattle.core_rules.specs.Term.{Proj};
ghost use Rattle.core_rules.specs.Substitution.{under};
ghost use Rattle.core_rules.specs.Typing.{IsField, field_env};
ghost use Rattle.term_pool.specs.Pool.{Extends, StandsFor, tree};
ghost use Rattle.core_terms.specs.Signature.{Stands, signature_in, field_total};

use core_terms::{CoreDecl, FieldId, NoMemory, Node, Signature, TermId, TermPool, under};
use std::alloc::Global;

/// The terms, and after them the projections of `of` to these fields.
pub fn with_fields(
    pool: &mut TermPool,
    terms: Vec<TermId>,
    fields: &[FieldId],
    of: TermId,
) -> Result<Vec<TermId>, NoMemory>
    requires terms { AllByRecursion (λ t. t < length pool.old.trees) terms.items }
    requires of { of < length pool.old.trees }
    ensures extends { Extends pool.old pool.new }
    ensures below { IfOk result (λ v. AllByRecursion (λ t. t < length pool.new.trees) v.items) }
    ensures is { IfOk result (λ v. map (tree pool.new) v.items
        ≡ map (tree pool.old) terms.items ++ map (λ f. Proj f (tree pool.old of)) fields.now) }
{
    let mut env = terms;
    let mut left = fields;
    while let [field, more @ ..] = left {
        let value = pool.add(Node::Proj { field: *field, of })?;
        env.push(value)?;
        left = more;
    }
    Ok(env)
}

/// The type of field `field` of the term `of`, whose own type is the field's record at these parameters, in the order of the record.
/// It is the declared type with the parameters, and the projections of `of` to the fields before, put in.
pub fn type_of_field(
    alloc: Global,
    pool: &mut TermPool,
    sig: &Signature,
    field: FieldId,
    params: Vec<TermId>,
    of: TermId,
) -> Result<TermId, NoMemory>
    requires stands { Stands pool.old sig.now }
    requires field { field < field_total sig.now }
    requires params { AllByRecursion (λ t. t < length pool.old.trees) params.items }
    requires of { of < length pool.old.trees }
    ensures extends { Extends pool.old pool.new }
    ensures is { IfOk result (λ t. (is : IsField (signature_in pool.old sig.now) field) → StandsFor pool.new t
        (under (field_env (signature_in pool.old sig.now) field is (map (tree pool.old) params.items) (tree pool.old of)) is.entry.ty)) }
{
    let (fam, at) = sig.field(field);
    let entry = sig.fam(fam);
    let CoreDecl::Family { fields, .. } = &entry.decl else {
        unreachable!()
    };
    let at = at as usize;
    let declared = fields.entries.as_slice()[at];
    let mut env = with_fields(pool, params, &entry.fields.as_slice()[..at], of)?;
    env.reverse();
    under(alloc, pool, declared.ty, env.as_slice())
}
