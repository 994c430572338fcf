ghost use Rattle.std.specs.Prelude.{◌≡◌, ℕ, ◌<◌, length, option_map, IfOk, IfSome};
ghost use Rattle.core_rules.specs.Term.{Term};
ghost use Rattle.core_rules.specs.Bounded.{argument_parts, same_flag};
ghost use Rattle.term_pool.specs.Pool.{Extends, tree};
ghost use Rattle.weak_head.specs.Elims.{AllBelow, Below, elim_in, spine_in};
ghost use Rattle.conversion.specs.Part.{PartsBelow, pair_in, parts_in};
ghost use Rattle.conversion.specs.Arguments.{AreLike, argument_part, flag_of};

use core_rules::Flag;
use std::alloc::Global;
use term_pool::{FieldId, NameId, NoMemory, Node, TermId, TermPool};
use weak_head::Elim;

/// Two terms to be compared, under one further binder or none.
#[derive(Clone, Copy)]
pub(crate) struct Part {
    pub binds: Option<NameId>,
    pub left: TermId,
    pub right: TermId,
}

pub(crate) fn same_flag(flag: Flag, of: Flag) -> bool
    ensures { result ≡ same_flag flag of }
{
    match flag {
        Flag::Explicit => match of {
            Flag::Explicit => true,
            Flag::Implicit => false,
        },
        Flag::Implicit => match of {
            Flag::Explicit => false,
            Flag::Implicit => true,
        },
    }
}

/// The arguments of two spines as parts, the first part last; none where their numbers or flags differ or
/// a projection is among them.
pub(crate) fn argument_parts(
    alloc: Global,
    left: &[Elim],
    right: &[Elim],
) -> Result<Option<Vec<Part>>, NoMemory>
    ensures is { IfOk result (λ o. (f : ℕ → Term) →
        parts_in f o ≡ argument_parts (spine_in f left.now) (spine_in f right.now)) }
    ensures below { IfOk result (λ o. (n : ℕ) → AllBelow n left.now → AllBelow n right.now → PartsBelow n o) }
{
    let mut parts = Vec::new(alloc);
    let mut xs = left;
    let mut ys = right;
    while let [x, more @ ..] = xs {
        let [y, others @ ..] = ys else {
            return Ok(None);
        };
        let Some(terms) = terms_of(*x, *y) else {
            return Ok(None);
        };
        parts.push(Part {
            binds: None,
            left: terms.0,
            right: terms.1,
        })?;
        xs = more;
        ys = others;
    }
    if ys.is_empty() {
        Ok(Some(parts))
    } else {
        Ok(None)
    }
}

/// The terms of two arguments of one flag.
fn terms_of(left: Elim, right: Elim) -> Option<(TermId, TermId)>
    ensures is { (f : ℕ → Term) → option_map (pair_in f) result ≡ argument_part (elim_in f left) (elim_in f right) }
    ensures below { IfSome result (λ r. (n : ℕ) → Below n left → Below n right → (r.0 < n) × (r.1 < n)) }
{
    let Elim::Arg { flag, arg } = left else {
        return None;
    };
    let Elim::Arg {
        flag: of,
        arg: other,
    } = right
    else {
        return None;
    };
    if !same_flag(flag, of) {
        return None;
    }
    Some((arg, other))
}

/// The projections of `of` to these fields as arguments with the flags of `like`, where there are as many.
/// The first argument is last, as in `like`.
pub(crate) fn projected(
    alloc: Global,
    pool: &mut TermPool,
    fields: &[FieldId],
    of: TermId,
    like: &[Elim],
) -> Result<Option<Vec<Elim>>, NoMemory>
    requires { of < length pool.old.trees }
    ensures extends { Extends pool.old pool.new }
    ensures is { IfOk result (λ o. AreLike (tree pool.new) fields.now (tree pool.old of) like.now o) }
    ensures below { IfOk result (λ o. IfSome o (λ xs. AllBelow (length pool.new.trees) xs.items)) }
{
    let mut made = Vec::new(alloc);
    let mut xs = like;
    let mut left = fields;
    while let [x, more @ ..] = xs {
        let [others @ .., field] = left else {
            return Ok(None);
        };
        let arg = pool.add(Node::Proj { field: *field, of })?;
        made.push(Elim::Arg {
            flag: flag_of(*x),
            arg,
        })?;
        xs = more;
        left = others;
    }
    if left.is_empty() {
        Ok(Some(made))
    } else {
        Ok(None)
    }
}

/// The flag of an argument; a projection counts as an explicit one.
fn flag_of(argument: Elim) -> Flag
    ensures { result ≡ flag_of argument }
{
    match argument {
        Elim::Arg { flag, .. } => flag,
        Elim::Field(_) => Flag::Explicit,
    }
}
