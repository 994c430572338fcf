ghost use Rattle.std.specs.Prelude.{◌≡◌, ℕ, ◌<◌, List, length, option_map, IfSome};
ghost use Rattle.core_rules.specs.Term.{Term};
ghost use Rattle.core_rules.specs.Elimination.{Elim as Elimination};
ghost use Rattle.core_rules.specs.Bounded.{kind, lambda, record_value};
ghost use Rattle.term_pool.specs.Pool.{Pool, tree};
ghost use Rattle.core_terms.specs.Signature.{fam_of, signature_in};
ghost use Rattle.weak_head.specs.Elims.{AreArgs, spine_in};
ghost use Rattle.weak_head.specs.States.{AppliedBelow};
ghost use Rattle.conversion.specs.Form.{ValueIsArgs, eta, first_takes, has_eta_with, kind_in, lambda_in, value_of};

use crate::spine::last_field;
use core_rules::Flag;
use core_terms::{ConDecl, CoreDecl, Signature};
use term_pool::{ConId, FamId, NameId, Node, TermId, TermPool};
use weak_head::Applied;

/// The lambda that a form is.
#[derive(Clone, Copy)]
pub(crate) struct Lambda {
    pub flag: Flag,
    pub name: NameId,
    pub body: TermId,
}

/// A form as eta for records sees it.
#[derive(Clone, Copy)]
pub(crate) enum Kind {
    /// The constructor of this record, which has eta, with all its fields.
    Value(FamId),
    /// Another constructor, or one with other eliminations.
    Constructor,
    /// No constructor.
    Neither,
}

/// Which of two forms is a value whose fields are compared with the projections of the other.
#[derive(Clone, Copy)]
pub(crate) enum Eta {
    Left(FamId),
    Right(FamId),
    None,
}

pub(crate) fn as_lambda(pool: &TermPool, term: &Applied) -> Option<Lambda>
    requires { AppliedBelow (length pool.now.trees) term.now }
    ensures is { option_map (lambda_in (tree pool.now)) result
        ≡ lambda (tree pool.now term.now.head) (spine_in (tree pool.now) term.now.spine.items) }
    ensures below { IfSome result (λ l. l.body < length pool.now.trees) }
{
    if !term.spine.is_empty() {
        return None;
    }
    match pool.node(term.head) {
        Node::Lam {
            flag,
            name,
            body,
            ..
        } => Some(Lambda { flag, name, body }),
        _ => None,
    }
}

pub(crate) fn kind_of(pool: &TermPool, sig: &Signature, term: &Applied) -> Kind
    requires { AppliedBelow (length pool.now.trees) term.now }
    ensures is { kind_in (spine_in (tree pool.now) term.now.spine.items) result
        ≡ kind (signature_in pool.now sig.now) (tree pool.now term.now.head) (spine_in (tree pool.now) term.now.spine.items) }
    ensures args { (f : ℕ → Term) → ValueIsArgs (spine_in f term.now.spine.items) result }
{
    let Node::Con { con, .. } = pool.node(term.head) else {
        return Kind::Neither;
    };
    if last_field(term.spine.as_slice()).is_some() {
        return Kind::Constructor;
    }
    match record_of(sig, con, term.spine.len()) {
        Some(fam) => Kind::Value(fam),
        None => Kind::Constructor,
    }
}

/// The record whose constructor takes so many arguments, where it has eta.
fn record_of(sig: &Signature, con: ConId, count: usize) -> Option<FamId>
    ensures { (p : Pool) (es : List Elimination) → AreArgs es → length es ≡ count →
        option_map (value_of es) result ≡ record_value (signature_in p sig.now) con es }
{
    if con.number() >= sig.cons() {
        return None;
    }
    let (fam, at) = sig.con(con);
    if at != 0 {
        return None;
    }
    if fam.number() >= sig.fams() {
        return None;
    }
    if has_eta_with(&sig.fam(fam).decl, count) {
        Some(fam)
    } else {
        None
    }
}

/// Whether a family has eta and its first constructor takes so many arguments.
fn has_eta_with(decl: &CoreDecl, count: usize) -> bool
    ensures { result ≡ has_eta_with (fam_of decl.now) count }
{
    match decl {
        CoreDecl::Family { cons, eta, .. } => *eta && first_takes(cons.as_slice(), count),
        _ => false,
    }
}

fn first_takes(cons: &[ConDecl], count: usize) -> bool
    ensures { result ≡ first_takes cons.now count }
{
    match cons {
        [con, ..] => con.args.entries.len() == count,
        [] => false,
    }
}

/// A value has eta against what is no constructor.
pub(crate) fn eta_of(left: Kind, right: Kind) -> Eta
    ensures { result ≡ eta left right }
{
    match left {
        Kind::Value(fam) => match right {
            Kind::Neither => Eta::Left(fam),
            Kind::Value(_) | Kind::Constructor => Eta::None,
        },
        Kind::Constructor => Eta::None,
        Kind::Neither => match right {
            Kind::Value(fam) => Eta::Right(fam),
            Kind::Constructor | Kind::Neither => Eta::None,
        },
    }
}
