//! How large the core of a declaration is. The terms are looked at one after another, each for what the pool counted as it was made.

ghost use Rattle.std.specs.Prelude.{◌≡◌, ◌≤◌, ◌<◌, [], ◌∷◌, length, map};
ghost use Rattle.std.specs.List.{AllByRecursion};
ghost use Rattle.core_rules.specs.Signature.{Family};
ghost use Rattle.core_rules.specs.Mapped.{AllCon, AllEntries, AllFamily, con_map, fam_map, telescope_map};
ghost use Rattle.term_pool.specs.Pool.{tree};
ghost use Rattle.core_terms.specs.Signature.{decl_of, fam_of};
ghost use Rattle.file_load.specs.Sizes.{con_terms, cons_terms, most_nodes, terms_of, types_of};
ghost use Rattle.file_load.specs.Room.{IsMeasured, room};
ghost use Rattle.file_load.specs.Judged.{Measures};

use crate::errors::error_at;
use crate::stop::Stop;
use core_terms::{ConDecl, CoreDecl, Count, Entry, TermId, TermPool, count_nodes};
use el_outside::Pos;
use session_text::LoadKind;
use std::alloc::Global;

/// The nodes that the core of one declaration may have.
const MOST_NODES: u32 = 1_048_576;

/// The room behind a term, where there is room for so many nodes; or it is too large.
fn behind_term(pool: &TermPool, left: u32, term: TermId) -> Option<u32>
    requires term { term < length pool.now.trees }
    requires left { left ≤ most_nodes }
    ensures { result ≡ room left (tree pool.now term ∷ []) }
{
    match count_nodes(pool, term) {
        Ok(Count::Within { nodes, .. }) => left.checked_sub(nodes),
        _ => None,
    }
}

/// The room behind terms.
fn behind_terms(pool: &TermPool, nodes: u32, terms: &[TermId]) -> Option<u32>
    requires terms { AllByRecursion (λ t. t < length pool.now.trees) terms.now }
    requires nodes { nodes ≤ most_nodes }
    ensures { result ≡ room nodes (map (tree pool.now) terms.now) }
{
    let mut left = nodes;
    for term in terms {
        left = behind_term(pool, left, *term)?;
    }
    Some(left)
}

/// The room behind the types of entries.
fn behind_entries(pool: &TermPool, nodes: u32, entries: &[Entry]) -> Option<u32>
    requires entries { AllEntries (λ t. t < length pool.now.trees) entries.now }
    requires nodes { nodes ≤ most_nodes }
    ensures { result ≡ room nodes (types_of (telescope_map (tree pool.now) entries.now)) }
{
    let mut left = nodes;
    for entry in entries {
        left = behind_term(pool, left, entry.ty)?;
    }
    Some(left)
}

/// The room behind the terms of a constructor.
#[tactic(auto, using(crate::proofs::Sizing::room_ends, crate::proofs::Sizing::room_goes_on, crate::proofs::Sizing::room_falls))]
fn behind_con(pool: &TermPool, nodes: u32, con: &ConDecl) -> Option<u32>
    requires con { AllCon (λ t. t < length pool.now.trees) con.now }
    requires nodes { nodes ≤ most_nodes }
    ensures { result ≡ room nodes (con_terms (con_map (tree pool.now) con.now)) }
{
    let left = behind_entries(pool, nodes, con.args.entries.as_slice())?;
    behind_terms(pool, left, con.indices.as_slice())
}

/// The room behind the terms of constructors.
fn behind_cons(pool: &TermPool, nodes: u32, cons: &[ConDecl]) -> Option<u32>
    requires cons { AllByRecursion (AllCon (λ t. t < length pool.now.trees)) cons.now }
    requires nodes { nodes ≤ most_nodes }
    ensures { result ≡ room nodes (cons_terms (map (con_map (tree pool.now)) cons.now)) }
{
    let mut left = nodes;
    for con in cons {
        left = behind_con(pool, left, con)?;
    }
    Some(left)
}

/// The room behind the terms of a family.
#[tactic(auto, using(crate::proofs::Sizing::room_ends, crate::proofs::Sizing::room_goes_on, crate::proofs::Sizing::room_falls))]
fn behind_family(pool: &TermPool, decl: &CoreDecl) -> Option<u32>
    requires family { decl_of decl.now ≡ Family (fam_of decl.now) }
    requires within { AllFamily (λ t. t < length pool.now.trees) (fam_of decl.now) }
    ensures { result ≡ room most_nodes (terms_of (fam_map (tree pool.now) (fam_of decl.now))) }
{
    let CoreDecl::Family {
        params,
        indices,
        cons,
        ..
    } = decl
    else {
        unreachable!()
    };
    let left = behind_entries(pool, MOST_NODES, params.entries.as_slice())?;
    let left = behind_entries(pool, left, indices.entries.as_slice())?;
    behind_cons(pool, left, cons.as_slice())
}

/// What stops the load at a declaration that is too large.
fn checked(alloc: Global, pos: Pos, room: Option<u32>) -> Result<(), Stop>
    ensures { IsMeasured pos room result }
{
    match room {
        Some(_) => Ok(()),
        None => Err(Stop::Error(error_at(alloc, pos, LoadKind::TooLarge))),
    }
}

/// The terms of a family may have as many nodes together, and each as many levels, as a declaration may have.
#[tactic(auto, using(crate::proofs::Sizing::measures))]
pub fn measure_family(alloc: Global, pool: &TermPool, pos: Pos, decl: &CoreDecl) -> Result<(), Stop>
    requires family { decl_of decl.now ≡ Family (fam_of decl.now) }
    requires within { AllFamily (λ t. t < length pool.now.trees) (fam_of decl.now) }
    ensures { Measures pos (terms_of (fam_map (tree pool.now) (fam_of decl.now))) result }
{
    checked(alloc, pos, behind_family(pool, decl))
}

/// So may a term that is the only one of its declaration.
pub fn measure_term(alloc: Global, pool: &TermPool, pos: Pos, term: TermId) -> Result<(), Stop>
    requires { term < length pool.now.trees }
    ensures { Measures pos (tree pool.now term ∷ []) result }
{
    checked(alloc, pos, behind_term(pool, MOST_NODES, term))
}
