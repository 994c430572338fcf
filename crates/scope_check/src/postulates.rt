ghost use Rattle.std.specs.Prelude.{◌≡◌, [], IfOk, OnOk};
ghost use Rattle.scope_check.specs.Answers.{Answers, Binds, Leaves};
ghost use Rattle.scope_check.specs.Decls as spec;
ghost use Rattle.scope_table.specs.Known.{Grows};
ghost use Rattle.scope_check.specs.Mentions.{texts};

use crate::error::{ScopeError, ScopeKind};
use crate::exprs::expr;
use crate::holes::Holes;
use crate::names::{labels, refused};
use el_outside::NoMemory;
use resolved_tree::{ResolvedExpr, ResolvedSignature};
use scope_table::{Locals, Scope, Texts};
use source_tree::{Name, Signature};
use sqlite_items::Items;
use std::alloc::Global;

/// Tests that no global has the name.
pub fn fresh(alloc: Global, scope: &Scope, name: &Name) -> Result<(), ScopeError>
    ensures { Answers (spec.fresh scope.now name.now) result }
{
    match scope.global(name.text.as_str()) {
        None => Ok(()),
        Some(_) => refused(alloc, ScopeKind::Duplicate, name),
    }
}

/// Tests that neither a global nor a name before it in the declaration has the name.
fn new_name(alloc: Global, scope: &Scope, seen: &mut Texts, name: &Name) -> Result<(), ScopeError>
    ensures { Leaves (spec.new_name scope.now seen.old name.now) result seen.new }
{
    if scope.global(name.text.as_str()).is_some() {
        return refused(alloc, ScopeKind::Duplicate, name);
    }
    if !seen.put(name.text.as_str())? {
        return refused(alloc, ScopeKind::Duplicate, name);
    }
    Ok(())
}

#[tactic(auto, unfolding(crate::specs::Decls::new_names))]
pub fn new_names(
    alloc: Global,
    scope: &Scope,
    seen: &mut Texts,
    all: &[Name],
) -> Result<(), ScopeError>
    ensures { Leaves (spec.new_names scope.now seen.old all.now) result seen.new }
{
    let mut left = all;
    while let [name, rest @ ..] = left {
        new_name(alloc, scope, seen, name)?;
        left = rest;
    }
    Ok(())
}

/// A signature with its type.
pub fn signed(
    alloc: Global,
    scope: &Scope,
    found: &Signature,
    ty: ResolvedExpr,
) -> Result<ResolvedSignature, NoMemory>
    ensures { IfOk result (λ s. s ≡ spec.signed scope.now found.now ty) }
{
    let names = labels(alloc, scope, found.names.as_slice())?;
    let place = found.place;
    Ok(ResolvedSignature { place, names, ty })
}

#[tactic(auto, using(scope_table::proofs::Grown::grows), unfolding(crate::specs::Decls::with_defs))]
fn declare_defs(scope: &mut Scope, all: &[Name]) -> Result<(), NoMemory>
    ensures ok { OnOk result (scope.new ≡ spec.with_defs scope.old (texts all.now)) }
    ensures grows { Grows scope.old scope.new }
{
    let mut left = all;
    while let [name, rest @ ..] = left {
        scope.declare_def(name.text.as_str())?;
        left = rest;
    }
    Ok(())
}

/// One line of a block: its names come into scope behind it.
#[tactic(auto, using(scope_table::proofs::Grown::grows))]
fn postulate_line(
    alloc: Global,
    scope: &mut Scope,
    found: &Signature,
) -> Result<ResolvedSignature, ScopeError>
    ensures binds { Binds (spec.postulate_line scope.old found.now) result scope.new }
    ensures grows { Grows scope.old scope.new }
{
    let mut seen = Texts::new(alloc);
    new_names(alloc, scope, &mut seen, found.names.as_slice())?;
    let mut locals = Locals::new(alloc);
    let ty = expr(alloc, scope, Holes::Allowed, &mut locals, &found.ty)?;
    let line = signed(alloc, scope, found, ty)?;
    declare_defs(scope, found.names.as_slice())?;
    Ok(line)
}

/// The lines of a block.
#[tactic(auto, using(scope_table::proofs::Grown::grows), unfolding(crate::specs::Decls::postulate_lines))]
pub fn postulate_lines(
    alloc: Global,
    scope: &mut Scope,
    all: &[Signature],
) -> Result<Items<ResolvedSignature>, ScopeError>
    ensures binds { Binds (spec.postulate_lines [] all.now scope.old) result scope.new }
    ensures grows { Grows scope.old scope.new }
{
    let mut found = Items::new(alloc);
    let mut left = all;
    while let [one, rest @ ..] = left {
        found.push(postulate_line(alloc, scope, one)?)?;
        left = rest;
    }
    Ok(found)
}
