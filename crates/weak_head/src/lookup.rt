ghost use Rattle.std.specs.Prelude.{◌≡◌, ◌<◌, List, length, slice_get, Some, None, option_and_then, IfSome, MatchOption};
ghost use Rattle.core_rules.specs.Term.{Term};
ghost use Rattle.core_rules.specs.Signature.{tree_of, fields_of};
ghost use Rattle.core_rules.specs.Run.{takes};
ghost use Rattle.core_rules.specs.Heads.{argument_of, is_first};
ghost use Rattle.term_pool.specs.Pool.{Pool};
ghost use Rattle.core_terms.specs.Signature.{signature_in};

use core_terms::{ConDecl, ConId, CoreDecl, DefId, DefState, FamId, FieldId, Signature, Tree};

/// The tree of a function, where it has one.
pub(crate) fn tree_of(sig: &Signature, f: DefId) -> Option<&Tree>
    ensures { MatchOption result
        (tree_of sig.now f ≡ None)
        (λ t. tree_of sig.now f ≡ Some t.now) }
{
    if f.number() >= sig.defs() {
        return None;
    }
    match &sig.def(f).state {
        DefState::Closed { tree, .. } => Some(tree),
        _ => None,
    }
}

/// Whether a constructor takes so many arguments.
pub(crate) fn takes(sig: &Signature, con: ConId, count: usize) -> bool
    ensures { (p : Pool) → result ≡ takes (signature_in p sig.now) con count }
{
    if con.number() >= sig.cons() {
        return false;
    }
    let (fam, at) = sig.con(con);
    if fam.number() >= sig.fams() {
        return false;
    }
    match &sig.fam(fam).decl {
        CoreDecl::Family { cons, .. } => {
            let cons = cons.as_slice();
            let at = at as usize;
            if at >= cons.len() {
                return false;
            }
            argument_count(&cons[at]) == count
        }
        _ => false,
    }
}

fn argument_count(con: &ConDecl) -> usize
    ensures { result ≡ length con.now.args }
{
    con.args.entries.len()
}

/// Whether a constructor is the first of a family.
fn is_first(sig: &Signature, con: ConId, fam: FamId) -> bool
    ensures { (p : Pool) → result ≡ is_first (signature_in p sig.now) con fam }
{
    if con.number() >= sig.cons() {
        return false;
    }
    let (of, at) = sig.con(con);
    if of.number() != fam.number() {
        return false;
    }
    at == 0
}

/// Which of the `count` arguments of a constructor a projection takes, where it takes one.
pub(crate) fn place_of(sig: &Signature, con: ConId, count: usize, field: FieldId) -> Option<usize>
    ensures is { (p : Pool) (us : List Term) → length us ≡ count →
        argument_of (signature_in p sig.now) con us field ≡ option_and_then (slice_get us) result }
    ensures within { IfSome result (λ i. i < count) }
{
    if field.number() >= sig.fields() {
        return None;
    }
    let (fam, at) = sig.field(field);
    let at = at as usize;
    if at >= count {
        return None;
    }
    if !takes(sig, con, count) {
        return None;
    }
    if !is_first(sig, con, fam) {
        return None;
    }
    Some(at)
}

/// The fields of a record, in order.
pub(crate) fn fields_of(sig: &Signature, fam: FamId) -> &[FieldId]
    ensures { (p : Pool) → result.now ≡ fields_of (signature_in p sig.now) fam }
{
    if fam.number() >= sig.fams() {
        return &[];
    }
    sig.fam(fam).fields.as_slice()
}
