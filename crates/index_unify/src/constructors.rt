ghost use Rattle.std.specs.Prelude.{◌≡◌, ℕ, ◌<◌, [], length, option_map, IfOk};
ghost use Rattle.core_rules.specs.Term.{Term};
ghost use Rattle.core_rules.specs.Heads.{Solutions};
ghost use Rattle.core_rules.specs.Unification.{con_spine};
ghost use Rattle.term_pool.specs.Pool.{tree};
ghost use Rattle.index_unify.specs.State.{IsSettled};
ghost use Rattle.index_unify.specs.Constructors.{AllArguments, ArePairs, FormBelow, PairsHave, arguments_in, con_form_in};

use crate::equation::Equation;
use core_rules::Flag;
use core_terms::{ConId, NoMemory, Node, TermId, TermPool};
use std::alloc::Global;

/// An argument with its flag.
#[derive(Clone, Copy)]
pub(crate) struct Argument {
    pub flag: Flag,
    pub arg: TermId,
}

/// A constructor with its arguments, of which the first one is last.
#[derive(Drop)]
pub(crate) struct ConForm {
    pub con: ConId,
    pub args: Vec<Argument>,
}

/// The constructor that a term is, with its arguments, where it is one.
pub(crate) fn con_form(
    alloc: Global,
    pool: &TermPool,
    t: TermId,
) -> Result<Option<ConForm>, NoMemory>
    requires t { t < length pool.now.trees }
    ensures is { IfOk result (λ o. con_form_in (tree pool.now) o ≡ con_spine (tree pool.now t) []) }
    ensures below { IfOk result (FormBelow (length pool.now.trees)) }
{
    let mut args = Vec::new(alloc);
    let mut head = t;
    while let Node::App { flag, fun, arg } = pool.node(head) {
        args.push(Argument { flag, arg })?;
        head = fun;
    }
    match pool.node(head) {
        Node::Con { con, .. } => Ok(Some(ConForm { con, args })),
        _ => Ok(None),
    }
}

/// The equations of the arguments, where these are equally many with equal flags. The first one is last.
pub(crate) fn argument_equations(
    alloc: Global,
    left: &[Argument],
    right: &[Argument],
) -> Result<Option<Vec<Equation>>, NoMemory>
    ensures is { IfOk result (λ o. (f : ℕ → Term) → ArePairs f (arguments_in f left.now) (arguments_in f right.now)
        (option_map (λ v. v.items) o)) }
    ensures below { IfOk result (λ o. (n : ℕ) → AllArguments (λ i. i < n) left.now → AllArguments (λ i. i < n) right.now
        → PairsHave (λ i. i < n) (option_map (λ v. v.items) o)) }
    ensures settled { IfOk result (λ o. (s : Solutions) (f : ℕ → Term) → AllArguments (λ i. IsSettled s (f i)) left.now
        → AllArguments (λ i. IsSettled s (f i)) right.now → PairsHave (λ i. IsSettled s (f i)) (option_map (λ v. v.items) o)) }
{
    let mut made = Vec::new(alloc);
    let mut xs = left;
    let mut ys = right;
    while let [x, more @ ..] = xs {
        let [y, others @ ..] = ys else {
            return Ok(None);
        };
        if x.flag != y.flag {
            return Ok(None);
        }
        made.push(Equation {
            left: x.arg,
            right: y.arg,
        })?;
        xs = more;
        ys = others;
    }
    if ys.is_empty() {
        Ok(Some(made))
    } else {
        Ok(None)
    }
}
