ghost use Rattle.std.specs.Prelude.{◌≡◌, [], map, Ok, OnOk};
ghost use Rattle.std.specs.List.{list_any};
ghost use Rattle.source_tree.specs.declared.pattern.Pattern.{out-Pattern};
ghost use Rattle.scope_check.specs.Answers.{Answers, Binds};
ghost use Rattle.scope_check.specs.Exprs as exprs_spec;
ghost use Rattle.scope_check.specs.Mentions.{all_of};
ghost use Rattle.scope_check.specs.Patterns as spec;

use crate::depth::Depth;
use crate::error::{ScopeError, ScopeKind};
use crate::exprs::expr;
use crate::head::Head;
use crate::holes::Holes;
use crate::names::{field_named, label, named, qualified, refused, whole};
use el_outside::NoMemory;
use resolved_tree::ResolvedPattern;
use scope_table::{GlobalId, Locals, Scope, Texts};
use source_tree::{Name, Pattern, Place};
use sqlite_items::{Boxed, Items};
use std::alloc::Global;
use term_pool::{ConId, FieldId};

/// Whether `()` stands in the pattern, at any depth.
#[cycle(absurd)]
fn is_absurd(found: &Pattern) -> bool
    ensures { result ≡ spec.is_absurd found.now }
{
    absurd_in(found)
}

#[cycle(absurd)]
fn absurd_in(found: &Pattern) -> bool
    ensures { result ≡ spec.absurd_in (out-Pattern found.now) }
{
    match found {
        Pattern::Implicit(_, inner) => is_absurd(inner.get()),
        Pattern::Named(_, _, inner) => is_absurd(inner.get()),
        Pattern::Name(_, _, all) => any_absurd(all.as_slice()),
        Pattern::Absurd(_) => true,
        Pattern::Project(_, _)
        | Pattern::ProjectQualified(_, _)
        | Pattern::Underscore(_)
        | Pattern::Dotted(_, _) => false,
    }
}

/// Whether `()` stands in one of the patterns.
#[cycle(absurd)]
pub fn any_absurd(all: &[Pattern]) -> bool
    ensures { result ≡ list_any spec.is_absurd all.now }
{
    for one in all {
        if is_absurd(one) {
            return true;
        }
    }
    false
}

/// The constructor that a global is.
fn con_in(global: GlobalId) -> Option<ConId>
    ensures { result ≡ spec.con_in global }
{
    match global {
        GlobalId::Con(con) => Some(con),
        GlobalId::Def(_) | GlobalId::Family(_) | GlobalId::Field(_) => None,
    }
}

/// The constructor that a name is.
fn con_named(scope: &Scope, name: &Name) -> Option<ConId>
    ensures { result ≡ spec.con_named scope.now name.now }
{
    let global = scope.global(name.text.as_str())?;
    con_in(global)
}

/// Puts the variable of a name that is no constructor, if it has no arguments, inside the variables around.
fn name_variable(locals: &mut Locals, name: &Name, all: &[Pattern]) -> Result<(), NoMemory>
    ensures { OnOk result (locals.new ≡ spec.inside locals.old (spec.name_variable name.now all.now)) }
{
    match all {
        [] => locals.push(name.text.as_str()),
        [_, ..] => Ok(()),
    }
}

/// Puts the variables of a pattern inside the variables around.
#[cycle(variables)]
fn variables(scope: &Scope, locals: &mut Locals, found: &Pattern) -> Result<(), NoMemory>
    ensures { OnOk result (locals.new ≡ spec.inside locals.old (spec.variables scope.now found.now)) }
{
    variables_in(scope, locals, found)
}

#[cycle(variables)]
fn variables_in(scope: &Scope, locals: &mut Locals, found: &Pattern) -> Result<(), NoMemory>
    ensures { OnOk result (locals.new ≡ spec.inside locals.old (spec.variables_in scope.now (out-Pattern found.now))) }
{
    match found {
        Pattern::Implicit(_, inner) => variables(scope, locals, inner.get()),
        Pattern::Named(_, _, inner) => variables(scope, locals, inner.get()),
        Pattern::Name(_, name, all) => match con_named(scope, name) {
            Some(_) => all_variables(scope, locals, all.as_slice()),
            None => name_variable(locals, name, all.as_slice()),
        },
        Pattern::Absurd(_)
        | Pattern::Project(_, _)
        | Pattern::ProjectQualified(_, _)
        | Pattern::Underscore(_)
        | Pattern::Dotted(_, _) => Ok(()),
    }
}

/// Puts the variables of the patterns, from left to right, inside the variables around.
#[cycle(variables)]
pub fn all_variables(scope: &Scope, locals: &mut Locals, all: &[Pattern]) -> Result<(), NoMemory>
    ensures { OnOk result (locals.new ≡ spec.inside locals.old (all_of (map (spec.variables scope.now) all.now))) }
{
    for one in all {
        variables(scope, locals, one)?;
    }
    Ok(())
}

/// A projection, which may not stand in a constructor pattern.
fn projection(
    alloc: Global,
    depth: Depth,
    place: Place,
    name: &Name,
    field: FieldId,
) -> Result<ResolvedPattern, ScopeError>
    ensures { Answers (spec.projection depth place name.now field) result }
{
    match depth {
        Depth::Outer => Ok(ResolvedPattern::Project(place, field)),
        Depth::Inner => refused(alloc, ScopeKind::Misplaced, name),
    }
}

/// The dotted pattern of a name.
fn dotted(place: Place, found: Head) -> Result<ResolvedPattern, ScopeError>
    ensures { Answers (spec.dotted place (Ok found)) result }
{
    let value = whole(found)?;
    Ok(ResolvedPattern::Dotted(place, value))
}

/// A dot before a name.
fn dot(
    alloc: Global,
    scope: &Scope,
    locals: &Locals,
    depth: Depth,
    place: Place,
    name: &Name,
) -> Result<ResolvedPattern, ScopeError>
    ensures { Answers (spec.dot depth place name.now (exprs_spec.field_named scope.now name.now) (exprs_spec.named scope.now locals.now name.now)) result }
{
    match field_named(scope, name) {
        Some(field) => projection(alloc, depth, place, name, field),
        None => dotted(place, named(alloc, scope, locals, name)?),
    }
}

/// A dot before a qualified name.
fn dot_qualified(
    alloc: Global,
    scope: &Scope,
    depth: Depth,
    place: Place,
    name: &Name,
) -> Result<ResolvedPattern, ScopeError>
    ensures { Answers (spec.dot depth place name.now (exprs_spec.field_named scope.now name.now) (exprs_spec.qualified scope.now name.now)) result }
{
    match field_named(scope, name) {
        Some(field) => projection(alloc, depth, place, name, field),
        None => dotted(place, qualified(alloc, scope, name)?),
    }
}

/// A name that is no constructor: a variable, which may be bound once.
fn variable(
    alloc: Global,
    scope: &Scope,
    seen: &mut Texts,
    name: &Name,
    all: &[Pattern],
) -> Result<ResolvedPattern, ScopeError>
    ensures { Binds (spec.variable_named scope.now seen.old name.now all.now) result seen.new }
{
    if let [_, ..] = all {
        return refused(alloc, ScopeKind::NotAConstructor, name);
    }
    if !seen.put(name.text.as_str())? {
        return refused(alloc, ScopeKind::Nonlinear, name);
    }
    Ok(ResolvedPattern::Variable(label(scope, name)))
}

/// A pattern at a depth, under the variables of the left side, behind the variables bound so far.
#[cycle(pattern)]
fn pattern(
    alloc: Global,
    scope: &Scope,
    locals: &mut Locals,
    seen: &mut Texts,
    depth: Depth,
    found: &Pattern,
) -> Result<ResolvedPattern, ScopeError>
    ensures binds { Binds (spec.pattern scope.now locals.old found.now depth seen.old) result seen.new }
    ensures locals { OnOk result (locals.new ≡ locals.old) }
{
    pattern_in(alloc, scope, locals, seen, depth, found)
}

#[cycle(pattern)]
fn pattern_in(
    alloc: Global,
    scope: &Scope,
    locals: &mut Locals,
    seen: &mut Texts,
    depth: Depth,
    found: &Pattern,
) -> Result<ResolvedPattern, ScopeError>
    ensures binds { Binds (spec.pattern_in scope.now locals.old depth seen.old (out-Pattern found.now)) result seen.new }
    ensures locals { OnOk result (locals.new ≡ locals.old) }
{
    match found {
        Pattern::Implicit(place, inner) => {
            let inner = pattern(alloc, scope, locals, seen, depth, inner.get())?;
            Ok(ResolvedPattern::Implicit(*place, Boxed::new(alloc, inner)?))
        }
        Pattern::Named(place, name, inner) => {
            let inner = pattern(alloc, scope, locals, seen, depth, inner.get())?;
            let inner = Boxed::new(alloc, inner)?;
            Ok(ResolvedPattern::Named(*place, label(scope, name), inner))
        }
        Pattern::Project(place, name) => Ok(dot(alloc, scope, locals, depth, *place, name)?),
        Pattern::ProjectQualified(place, name) => {
            Ok(dot_qualified(alloc, scope, depth, *place, name)?)
        }
        Pattern::Name(place, name, all) => match con_named(scope, name) {
            Some(con) => {
                let all = patterns(alloc, scope, locals, seen, Depth::Inner, all.as_slice())?;
                Ok(ResolvedPattern::Con(*place, con, all))
            }
            None => variable(alloc, scope, seen, name, all.as_slice()),
        },
        Pattern::Underscore(place) => Ok(ResolvedPattern::Underscore(*place)),
        Pattern::Absurd(place) => Ok(ResolvedPattern::Absurd(*place)),
        Pattern::Dotted(place, value) => {
            let value = expr(alloc, scope, Holes::Misplaced, locals, value)?;
            Ok(ResolvedPattern::Dotted(*place, value))
        }
    }
}

/// The patterns from left to right.
#[cycle(pattern)]
pub fn patterns(
    alloc: Global,
    scope: &Scope,
    locals: &mut Locals,
    seen: &mut Texts,
    depth: Depth,
    all: &[Pattern],
) -> Result<Items<ResolvedPattern>, ScopeError>
    ensures binds { Binds (spec.patterns scope.now locals.old depth [] all.now seen.old) result seen.new }
    ensures locals { OnOk result (locals.new ≡ locals.old) }
{
    let mut found = Items::new(alloc);
    for one in all {
        found.push(pattern(alloc, scope, locals, seen, depth, one)?)?;
    }
    Ok(found)
}
