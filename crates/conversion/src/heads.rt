ghost use Rattle.std.specs.Prelude.{◌≡◌, [], cond, length, Some, None, IfOk};
ghost use Rattle.core_rules.specs.Bounded.{Decision, parts_or};
ghost use Rattle.term_pool.specs.Pool.{tree};
ghost use Rattle.weak_head.specs.States.{AppliedBelow};
ghost use Rattle.conversion.specs.Part.{PartsBelow, parts_in};
ghost use Rattle.conversion.specs.Forms.{by_head_of};
ghost use Rattle.conversion.specs.Heads.{bare, bare_parts, function_parts, is_same_head, is_same_rigid, items_of, rigid};

use crate::arguments::{Part, argument_parts, same_flag};
use core_rules::Flag;
use std::alloc::Global;
use term_pool::{ConId, DefId, FamId, NameId, NoMemory, Node, TermId, TermPool};
use weak_head::Applied;

/// A variable, function, type former or constructor.
#[derive(Clone, Copy)]
pub(crate) enum Rigid {
    Var(u32),
    Def(DefId),
    Fam(FamId),
    Con(ConId),
}

/// A sort or function type.
#[derive(Clone, Copy)]
pub(crate) enum Bare {
    Sort(u32),
    Pi {
        flag: Flag,
        name: NameId,
        dom: TermId,
        cod: TermId,
    },
}

/// The parts of two forms without a projection, the first part last; none where they differ.
pub(crate) fn head_parts(
    alloc: Global,
    pool: &TermPool,
    left: &Applied,
    right: &Applied,
) -> Result<Option<Vec<Part>>, NoMemory>
    requires left { AppliedBelow (length pool.now.trees) left.now }
    requires right { AppliedBelow (length pool.now.trees) right.now }
    ensures is { IfOk result (λ o. (q : Decision) → parts_or q (parts_in (tree pool.now) o)
        ≡ by_head_of (tree pool.now) q left.now right.now) }
    ensures below { IfOk result (PartsBelow (length pool.now.trees)) }
{
    let head = pool.node(left.head);
    let other = pool.node(right.head);
    if is_same_head(rigid_of(&head), rigid_of(&other)) {
        let made = argument_parts(alloc, left.spine.as_slice(), right.spine.as_slice())?;
        return Ok(made);
    }
    if !left.spine.is_empty() {
        return Ok(None);
    }
    if !right.spine.is_empty() {
        return Ok(None);
    }
    let made = bare_parts(alloc, bare_of(&head), bare_of(&other))?;
    Ok(made)
}

/// The variable, function, type former or constructor that a head is.
fn rigid_of(head: &Node) -> Option<Rigid>
    ensures { result ≡ rigid head.now }
{
    match *head {
        Node::Var(index) => Some(Rigid::Var(index)),
        Node::Def(function) => Some(Rigid::Def(function)),
        Node::Fam(family) => Some(Rigid::Fam(family)),
        Node::Con { con, .. } => Some(Rigid::Con(con)),
        Node::Sort(_) | Node::Pi { .. } | Node::Lam { .. } => None,
        Node::App { .. } | Node::Proj { .. } | Node::Meta { .. } => None,
    }
}

/// Whether two heads are one variable, function, type former or constructor.
fn is_same_head(left: Option<Rigid>, right: Option<Rigid>) -> bool
    ensures { result ≡ is_same_head left right }
{
    match left {
        Some(head) => match right {
            Some(other) => is_same_rigid(head, other),
            None => false,
        },
        None => false,
    }
}

fn is_same_rigid(left: Rigid, right: Rigid) -> bool
    ensures { result ≡ is_same_rigid left right }
{
    match left {
        Rigid::Var(i) => match right {
            Rigid::Var(j) => i == j,
            Rigid::Def(_) | Rigid::Fam(_) | Rigid::Con(_) => false,
        },
        Rigid::Def(i) => match right {
            Rigid::Def(j) => i.number() == j.number(),
            Rigid::Var(_) | Rigid::Fam(_) | Rigid::Con(_) => false,
        },
        Rigid::Fam(i) => match right {
            Rigid::Fam(j) => i.number() == j.number(),
            Rigid::Var(_) | Rigid::Def(_) | Rigid::Con(_) => false,
        },
        Rigid::Con(i) => match right {
            Rigid::Con(j) => i.number() == j.number(),
            Rigid::Var(_) | Rigid::Def(_) | Rigid::Fam(_) => false,
        },
    }
}

/// The sort or function type that a head is.
fn bare_of(head: &Node) -> Option<Bare>
    ensures { result ≡ bare head.now }
{
    match *head {
        Node::Sort(level) => Some(Bare::Sort(level)),
        Node::Pi {
            flag,
            name,
            dom,
            cod,
        } => Some(Bare::Pi {
            flag,
            name,
            dom,
            cod,
        }),
        Node::Var(_) | Node::Lam { .. } | Node::App { .. } | Node::Def(_) => None,
        Node::Fam(_) | Node::Con { .. } | Node::Proj { .. } | Node::Meta { .. } => None,
    }
}

/// The parts of two sorts or function types, the first part last.
fn bare_parts(
    alloc: Global,
    left: Option<Bare>,
    right: Option<Bare>,
) -> Result<Option<Vec<Part>>, NoMemory>
    ensures { IfOk result (λ o. items_of o ≡ bare_parts left right) }
{
    let Some(head) = left else {
        return Ok(None);
    };
    let Some(other) = right else {
        return Ok(None);
    };
    match head {
        Bare::Sort(level) => match other {
            Bare::Sort(of) => no_parts(alloc, level == of),
            Bare::Pi { .. } => Ok(None),
        },
        Bare::Pi {
            flag,
            name,
            dom,
            cod,
        } => match other {
            Bare::Sort(_) => Ok(None),
            Bare::Pi {
                flag: of,
                dom: other_dom,
                cod: other_cod,
                ..
            } => {
                if !same_flag(flag, of) {
                    return Ok(None);
                }
                two_parts(alloc, name, (dom, other_dom), (cod, other_cod))
            }
        },
    }
}

/// No parts, where the levels of two sorts are the same.
fn no_parts(alloc: Global, are_same: bool) -> Result<Option<Vec<Part>>, NoMemory>
    ensures { IfOk result (λ o. items_of o ≡ cond are_same (Some []) None) }
{
    if are_same {
        Ok(Some(Vec::new(alloc)))
    } else {
        Ok(None)
    }
}

/// Domains, and codomains under the binder.
fn two_parts(
    alloc: Global,
    name: NameId,
    domains: (TermId, TermId),
    codomains: (TermId, TermId),
) -> Result<Option<Vec<Part>>, NoMemory>
    ensures { IfOk result (λ o. items_of o ≡ Some (function_parts name domains codomains)) }
{
    let mut parts = Vec::new(alloc);
    parts.push(Part {
        binds: Some(name),
        left: codomains.0,
        right: codomains.1,
    })?;
    parts.push(Part {
        binds: None,
        left: domains.0,
        right: domains.1,
    })?;
    Ok(Some(parts))
}
