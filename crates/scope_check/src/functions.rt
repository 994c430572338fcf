ghost use Rattle.std.specs.Prelude.{◌≡◌, [], map};
ghost use Rattle.scope_check.specs.Answers.{Answers, Binds, each_from};
ghost use Rattle.scope_check.specs.Decls as spec;
ghost use Rattle.scope_table.specs.Known.{Grows};

use crate::depth::Depth;
use crate::error::{ScopeError, ScopeKind};
use crate::exprs::expr;
use crate::holes::Holes;
use crate::names::refused;
use crate::patterns::{all_variables, any_absurd, patterns};
use crate::postulates::{fresh, signed};
use el_outside::Text;
use resolved_tree::{Resolved, ResolvedClause, ResolvedExpr};
use scope_table::{Locals, Scope, Texts};
use source_tree::{Clause, Expr, Name, Place, Signature};
use sqlite_items::Items;
use std::alloc::Global;
use term_pool::DefId;

/// A right side, if there is one, under the variables of the left side.
fn right_side(
    alloc: Global,
    scope: &Scope,
    locals: &mut Locals,
    right: &Option<Expr>,
) -> Result<Option<ResolvedExpr>, ScopeError>
    ensures { Answers (spec.right_side scope.now locals.old right.now) result }
{
    match right {
        Some(right) => Ok(Some(expr(alloc, scope, Holes::Allowed, locals, right)?)),
        None => Ok(None),
    }
}

/// Whether the clause has a right side or a `()`.
fn is_ended(found: &Clause) -> bool
    ensures { result ≡ spec.is_ended found.now }
{
    match found.right {
        Some(_) => true,
        None => any_absurd(found.patterns.as_slice()),
    }
}

/// Whether the clause is one of the function of this name, and has a right side or a `()`.
fn is_clause_of(name: &str, found: &Clause) -> bool
    ensures { result ≡ spec.is_clause_of name.now found.now }
{
    if found.name.text.as_str() == name {
        is_ended(found)
    } else {
        false
    }
}

/// Both sides of a clause.
fn clause_sides(
    alloc: Global,
    scope: &Scope,
    function: DefId,
    found: &Clause,
) -> Result<ResolvedClause, ScopeError>
    ensures { Answers (spec.clause_sides scope.now function found.now) result }
{
    let mut locals = Locals::new(alloc);
    all_variables(scope, &mut locals, found.patterns.as_slice())?;
    let mut seen = Texts::new(alloc);
    let patterns = patterns(
        alloc,
        scope,
        &mut locals,
        &mut seen,
        Depth::Outer,
        found.patterns.as_slice(),
    )?;
    let right = right_side(alloc, scope, &mut locals, &found.right)?;
    let place = found.place;
    Ok(ResolvedClause {
        place,
        function,
        patterns,
        right,
    })
}

/// A clause of the function of this name.
fn clause(
    alloc: Global,
    scope: &Scope,
    function: DefId,
    name: &str,
    found: &Clause,
) -> Result<ResolvedClause, ScopeError>
    ensures { Answers (spec.clause scope.now function name.now found.now) result }
{
    if !is_clause_of(name, found) {
        return refused(alloc, ScopeKind::Misplaced, &found.name);
    }
    clause_sides(alloc, scope, function, found)
}

#[tactic(auto, unfolding(crate::specs::Answers::each_from))]
fn clauses(
    alloc: Global,
    scope: &Scope,
    function: DefId,
    name: &str,
    all: &[Clause],
) -> Result<Items<ResolvedClause>, ScopeError>
    ensures { Answers (each_from [] (map (spec.clause scope.now function name.now) all.now)) result }
{
    let mut found = Items::new(alloc);
    let mut left = all;
    while let [one, rest @ ..] = left {
        found.push(clause(alloc, scope, function, name, one)?)?;
        left = rest;
    }
    Ok(found)
}

/// Whether a signature has no further names, and at least one clause follows it.
fn is_single(more: &[Name], all: &[Clause]) -> bool
    ensures { result ≡ spec.is_single more.now all.now }
{
    match more {
        [] => match all {
            [] => false,
            [_, ..] => true,
        },
        [_, ..] => false,
    }
}

#[tactic(auto, using(scope_table::proofs::Grown::grows))]
fn function_of(
    alloc: Global,
    scope: &mut Scope,
    place: Place,
    head: &Signature,
    name: &Name,
    all: &[Clause],
) -> Result<Resolved, ScopeError>
    ensures binds { Binds (spec.function_of scope.old place head.now name.now all.now) result scope.new }
    ensures grows { Grows scope.old scope.new }
{
    let mut locals = Locals::new(alloc);
    let ty = expr(alloc, scope, Holes::Allowed, &mut locals, &head.ty)?;
    let signature = signed(alloc, scope, head, ty)?;
    let function = scope.declare_def(name.text.as_str())?;
    let clauses = clauses(alloc, scope, function, name.text.as_str(), all)?;
    Ok(Resolved::Function(place, signature, clauses))
}

/// A signature, and the clauses that follow it.
#[tactic(auto, using(scope_table::proofs::Grown::grows))]
pub fn function(
    alloc: Global,
    scope: &mut Scope,
    place: Place,
    head: &Signature,
    all: &[Clause],
) -> Result<Resolved, ScopeError>
    ensures binds { Binds (spec.function scope.old place head.now head.now.names all.now) result scope.new }
    ensures grows { Grows scope.old scope.new }
{
    let [name, more @ ..] = head.names.as_slice() else {
        let text = Text::from_str(alloc, "")?;
        return Err(ScopeError::Bad {
            pos: place.pos,
            kind: ScopeKind::Misplaced,
            name: text,
        });
    };
    fresh(alloc, scope, name)?;
    if !is_single(more, all) {
        return refused(alloc, ScopeKind::Misplaced, name);
    }
    function_of(alloc, scope, place, head, name, all)
}
