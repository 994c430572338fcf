ghost use Rattle.std.specs.Prelude.{◌≡◌, ◌∷◌, [], ℕ, ◌<◌, length, cond, Some, IfOk, IfSome};
ghost use Rattle.core_rules.specs.Term.{Term};
ghost use Rattle.core_rules.specs.Signature.{fields_of};
ghost use Rattle.core_rules.specs.Elimination.{elims, projections};
ghost use Rattle.core_rules.specs.Bounded.{Decision, Pair, Parts, applied, parts_or, same_flag, term_parts, with_part};
ghost use Rattle.term_pool.specs.Pool.{Extends, Pool, StandsFor, tree};
ghost use Rattle.core_terms.specs.Signature.{signature_in};
ghost use Rattle.weak_head.specs.Elims.{AllBelow, AreArgs, args_of, spine_in};
ghost use Rattle.weak_head.specs.States.{AppliedBelow};
ghost use Rattle.conversion.specs.Arguments.{AreLike};
ghost use Rattle.conversion.specs.Forms.{by_cuts, by_field_of, by_kind_of, by_lambda_of};
ghost use Rattle.conversion.specs.Part.{PartsBelow, parts_in};
ghost use Rattle.conversion.specs.Spine.{CutBelow, cut_in};

use crate::arguments::{Part, argument_parts, projected, same_flag};
use crate::form::{Eta, Lambda, as_lambda, eta_of, kind_of};
use crate::heads::head_parts;
use crate::spine::{Cut, applied_to, last_field};
use core_rules::Flag;
use core_terms::Signature;
use std::alloc::Global;
use term_pool::{FamId, FieldId, NameId, NoMemory, Node, TermId, TermPool, shift};
use weak_head::{Applied, Elim, applied};

/// The parts of two forms, the first part last; none where they differ.
pub(crate) fn parts_of(
    alloc: Global,
    pool: &mut TermPool,
    sig: &Signature,
    left: &Applied,
    right: &Applied,
) -> Result<Option<Vec<Part>>, NoMemory>
    requires left { AppliedBelow (length pool.old.trees) left.now }
    requires right { AppliedBelow (length pool.old.trees) right.now }
    ensures extends { Extends pool.old pool.new }
    ensures is { IfOk result (λ o. (q : Decision) → parts_or q (parts_in (tree pool.new) o)
        ≡ by_lambda_of (tree pool.old) q (signature_in pool.old sig.now) left.now right.now) }
    ensures below { IfOk result (PartsBelow (length pool.new.trees)) }
{
    match as_lambda(pool, left) {
        Some(l) => match as_lambda(pool, right) {
            Some(k) => {
                let made = bodies(alloc, l, k)?;
                Ok(made)
            }
            None => {
                let other = applied_to_new(alloc, pool, l.flag, right)?;
                let made = one(alloc, l.name, l.body, other)?;
                Ok(made)
            }
        },
        None => match as_lambda(pool, right) {
            Some(k) => {
                let other = applied_to_new(alloc, pool, k.flag, left)?;
                let made = one(alloc, k.name, other, k.body)?;
                Ok(made)
            }
            None => {
                let made = kind_parts(alloc, pool, sig, left, right)?;
                Ok(made)
            }
        },
    }
}

/// The bodies of two lambdas of one flag.
fn bodies(alloc: Global, left: Lambda, right: Lambda) -> Result<Option<Vec<Part>>, NoMemory>
    ensures is { IfOk result (λ o. (f : ℕ → Term) (q : Decision) → parts_or q (parts_in f o)
        ≡ cond (same_flag left.flag right.flag) (Parts (Pair (left.name ∷ []) (f left.body) (f right.body) ∷ [])) q) }
    ensures below { IfOk result (λ o. (n : ℕ) → left.body < n → right.body < n → PartsBelow n o) }
{
    if same_flag(left.flag, right.flag) {
        one(alloc, left.name, left.body, right.body)
    } else {
        Ok(None)
    }
}

/// Two terms under a binder as the only part.
fn one(
    alloc: Global,
    name: NameId,
    left: TermId,
    right: TermId,
) -> Result<Option<Vec<Part>>, NoMemory>
    ensures is { IfOk result (λ o. (f : ℕ → Term) → parts_in f o ≡ Some (Pair (name ∷ []) (f left) (f right) ∷ [])) }
    ensures below { IfOk result (λ o. (n : ℕ) → left < n → right < n → PartsBelow n o) }
{
    let mut parts = Vec::new(alloc);
    parts.push(Part {
        binds: Some(name),
        left,
        right,
    })?;
    Ok(Some(parts))
}

/// A form applied to a new variable.
fn applied_to_new(
    alloc: Global,
    pool: &mut TermPool,
    flag: Flag,
    term: &Applied,
) -> Result<TermId, NoMemory>
    requires { AppliedBelow (length pool.old.trees) term.now }
    ensures extends { Extends pool.old pool.new }
    ensures is { IfOk result (λ t. StandsFor pool.new t
        (applied flag (tree pool.old term.now.head) (spine_in (tree pool.old) term.now.spine.items))) }
{
    let t = applied(pool, term)?;
    let fun = shift(alloc, pool, t, 0, 1)?;
    let arg = pool.add(Node::Var(0))?;
    pool.add(Node::App { flag, fun, arg })
}

/// The parts of two forms that are no lambdas.
fn kind_parts(
    alloc: Global,
    pool: &mut TermPool,
    sig: &Signature,
    left: &Applied,
    right: &Applied,
) -> Result<Option<Vec<Part>>, NoMemory>
    requires left { AppliedBelow (length pool.old.trees) left.now }
    requires right { AppliedBelow (length pool.old.trees) right.now }
    ensures extends { Extends pool.old pool.new }
    ensures is { IfOk result (λ o. (q : Decision) → parts_or q (parts_in (tree pool.new) o)
        ≡ by_kind_of (tree pool.old) q (signature_in pool.old sig.now) left.now right.now) }
    ensures below { IfOk result (PartsBelow (length pool.new.trees)) }
{
    let first = kind_of(pool, sig, left);
    let second = kind_of(pool, sig, right);
    match eta_of(first, second) {
        Eta::Left(fam) => {
            let made = left_parts(alloc, pool, sig, fam, left, right)?;
            Ok(made)
        }
        Eta::Right(fam) => {
            let made = right_parts(alloc, pool, sig, fam, left, right)?;
            Ok(made)
        }
        Eta::None => {
            let made = field_parts(alloc, pool, left, right)?;
            Ok(made)
        }
    }
}

/// The fields of the left side with the projections of the right one.
fn left_parts(
    alloc: Global,
    pool: &mut TermPool,
    sig: &Signature,
    fam: FamId,
    left: &Applied,
    right: &Applied,
) -> Result<Option<Vec<Part>>, NoMemory>
    requires left { AppliedBelow (length pool.old.trees) left.now }
    requires right { AppliedBelow (length pool.old.trees) right.now }
    requires args { AreArgs (spine_in (tree pool.old) left.now.spine.items) }
    ensures extends { Extends pool.old pool.new }
    ensures is { IfOk result (λ o. parts_in (tree pool.new) o ≡ term_parts (args_of (spine_in (tree pool.old) left.now.spine.items))
        (projections (signature_in pool.old sig.now) fam (elims (tree pool.old right.now.head) (spine_in (tree pool.old) right.now.spine.items)))) }
    ensures below { IfOk result (PartsBelow (length pool.new.trees)) }
{
    let found = fields_like(alloc, pool, sig, fam, right, left)?;
    let Some(fields) = found else {
        return Ok(None);
    };
    let made = argument_parts(alloc, left.spine.as_slice(), fields.as_slice())?;
    Ok(made)
}

/// The projections of the left side with the fields of the right one.
fn right_parts(
    alloc: Global,
    pool: &mut TermPool,
    sig: &Signature,
    fam: FamId,
    left: &Applied,
    right: &Applied,
) -> Result<Option<Vec<Part>>, NoMemory>
    requires left { AppliedBelow (length pool.old.trees) left.now }
    requires right { AppliedBelow (length pool.old.trees) right.now }
    requires args { AreArgs (spine_in (tree pool.old) right.now.spine.items) }
    ensures extends { Extends pool.old pool.new }
    ensures is { IfOk result (λ o. parts_in (tree pool.new) o ≡ term_parts
        (projections (signature_in pool.old sig.now) fam (elims (tree pool.old left.now.head) (spine_in (tree pool.old) left.now.spine.items)))
        (args_of (spine_in (tree pool.old) right.now.spine.items))) }
    ensures below { IfOk result (PartsBelow (length pool.new.trees)) }
{
    let found = fields_like(alloc, pool, sig, fam, left, right)?;
    let Some(fields) = found else {
        return Ok(None);
    };
    let made = argument_parts(alloc, fields.as_slice(), right.spine.as_slice())?;
    Ok(made)
}

/// The projections of `form` to the fields of a record, with the flags of `value`, where it has as many
/// eliminations.
fn fields_like(
    alloc: Global,
    pool: &mut TermPool,
    sig: &Signature,
    fam: FamId,
    form: &Applied,
    value: &Applied,
) -> Result<Option<Vec<Elim>>, NoMemory>
    requires { AppliedBelow (length pool.old.trees) form.now }
    ensures extends { Extends pool.old pool.new }
    ensures is { IfOk result (λ o. AreLike (tree pool.new) (fields_of (signature_in pool.old sig.now) fam)
        (elims (tree pool.old form.now.head) (spine_in (tree pool.old) form.now.spine.items)) value.now.spine.items o) }
    ensures below { IfOk result (λ o. IfSome o (λ xs. AllBelow (length pool.new.trees) xs.items)) }
{
    let of = applied(pool, form)?;
    let found = projected(alloc, pool, fields_of(sig, fam), of, value.spine.as_slice())?;
    Ok(found)
}

/// The fields of a record, in order.
fn fields_of(sig: &Signature, fam: FamId) -> &[FieldId]
    ensures { (p : Pool) → result.now ≡ fields_of (signature_in p sig.now) fam }
{
    if fam.number() >= sig.fams() {
        return &[];
    }
    sig.fam(fam).fields.as_slice()
}

/// The parts of two forms by their last projections.
fn field_parts(
    alloc: Global,
    pool: &mut TermPool,
    left: &Applied,
    right: &Applied,
) -> Result<Option<Vec<Part>>, NoMemory>
    requires left { AppliedBelow (length pool.old.trees) left.now }
    requires right { AppliedBelow (length pool.old.trees) right.now }
    ensures extends { Extends pool.old pool.new }
    ensures is { IfOk result (λ o. (q : Decision) → parts_or q (parts_in (tree pool.new) o)
        ≡ by_field_of (tree pool.old) q left.now right.now) }
    ensures below { IfOk result (PartsBelow (length pool.new.trees)) }
{
    match last_field(left.spine.as_slice()) {
        Some(c) => match last_field(right.spine.as_slice()) {
            Some(d) => {
                let made = projection_parts(alloc, pool, left.head, &c, right.head, &d)?;
                Ok(made)
            }
            None => Ok(None),
        },
        None => match last_field(right.spine.as_slice()) {
            Some(_) => Ok(None),
            None => {
                let made = head_parts(alloc, pool, left, right)?;
                Ok(made)
            }
        },
    }
}

/// The parts of two projections: what they are taken of, and the arguments after them.
fn projection_parts(
    alloc: Global,
    pool: &mut TermPool,
    left: TermId,
    cut: &Cut<'_>,
    right: TermId,
    other: &Cut<'_>,
) -> Result<Option<Vec<Part>>, NoMemory>
    requires left { left < length pool.old.trees }
    requires right { right < length pool.old.trees }
    requires cut { CutBelow (length pool.old.trees) cut.now }
    requires other { CutBelow (length pool.old.trees) other.now }
    ensures extends { Extends pool.old pool.new }
    ensures is { IfOk result (λ o. (q : Decision) → parts_or q (parts_in (tree pool.new) o)
        ≡ by_cuts q (tree pool.old left) (cut_in (tree pool.old) cut.now) (tree pool.old right) (cut_in (tree pool.old) other.now)) }
    ensures below { IfOk result (PartsBelow (length pool.new.trees)) }
{
    if cut.field.number() != other.field.number() {
        return Ok(None);
    }
    let first = applied_to(alloc, pool, left, cut.before)?;
    let second = applied_to(alloc, pool, right, other.before)?;
    let rest = argument_parts(alloc, cut.after, other.after)?;
    let made = with_first(rest, first, second)?;
    Ok(made)
}

/// Two terms before other parts.
fn with_first(
    rest: Option<Vec<Part>>,
    left: TermId,
    right: TermId,
) -> Result<Option<Vec<Part>>, NoMemory>
    ensures is { IfOk result (λ o. (f : ℕ → Term) → parts_in f o ≡ with_part (Pair [] (f left) (f right)) (parts_in f rest)) }
    ensures below { IfOk result (λ o. (n : ℕ) → left < n → right < n → PartsBelow n rest → PartsBelow n o) }
{
    let Some(parts) = rest else {
        return Ok(None);
    };
    let mut parts = parts;
    parts.push(Part {
        binds: None,
        left,
        right,
    })?;
    Ok(Some(parts))
}
