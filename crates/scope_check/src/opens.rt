ghost use Rattle.scope_check.specs.Answers.{Binds, Leaves};
ghost use Rattle.scope_check.specs.Decls as spec;
ghost use Rattle.scope_table.specs.Known.{Grows, fields_of};
ghost use Rattle.source_tree.specs.declared.decl.Decl.TheVariants as d;

use crate::error::{ScopeError, ScopeKind};
use crate::names::refused;
use el_outside::Text;
use resolved_tree::Resolved;
use scope_table::{GlobalId, Scope};
use source_tree::{Name, Place};
use std::alloc::Global;
use term_pool::{FamId, FieldId};

/// Brings a field into scope under its own name.
#[tactic(auto, using(scope_table::proofs::Grown::grows))]
fn open_field(
    alloc: Global,
    scope: &mut Scope,
    name: &Name,
    field: u32,
    text: &Text,
) -> Result<(), ScopeError>
    ensures leaves { Leaves (spec.open_field name.now field text.now scope.old) result scope.new }
    ensures grows { Grows scope.old scope.new }
{
    if scope.global(text.as_str()).is_some() {
        let copy = text.copy(alloc)?;
        return Err(ScopeError::Bad {
            pos: name.place.pos,
            kind: ScopeKind::Duplicate,
            name: copy,
        });
    }
    scope.declare(text.as_str(), GlobalId::Field(FieldId::new(field)))?;
    Ok(())
}

#[tactic(auto, using(scope_table::proofs::Grown::grows), unfolding(crate::specs::Decls::open_fields))]
fn open_fields(
    alloc: Global,
    scope: &mut Scope,
    name: &Name,
    first: u32,
    all: &[Text],
) -> Result<(), ScopeError>
    ensures leaves { Leaves (spec.open_fields name.now first all.now scope.old) result scope.new }
    ensures grows { Grows scope.old scope.new }
{
    let mut left = all;
    let mut field = first;
    while let [text, rest @ ..] = left {
        open_field(alloc, scope, name, field, text)?;
        let Some(next) = field.checked_add(1) else {
            return Err(ScopeError::NoMemory);
        };
        field = next;
        left = rest;
    }
    Ok(())
}

#[tactic(auto, using(scope_table::proofs::Grown::grows))]
fn open_family(
    alloc: Global,
    scope: &mut Scope,
    place: Place,
    name: &Name,
    public: bool,
    family: FamId,
) -> Result<Resolved, ScopeError>
    ensures binds { Binds (spec.open_record scope.old place name.now public family (fields_of scope.old family)) result scope.new }
    ensures grows { Grows scope.old scope.new }
{
    let Some(fields) = scope.fields_of(family)? else {
        return refused(alloc, ScopeKind::Misplaced, name);
    };
    open_fields(
        alloc,
        scope,
        name,
        fields.first.number(),
        fields.names.as_slice(),
    )?;
    Ok(Resolved::Open(place, family, public))
}

#[tactic(auto, using(scope_table::proofs::Grown::grows))]
fn open_global(
    alloc: Global,
    scope: &mut Scope,
    place: Place,
    name: &Name,
    public: bool,
    global: GlobalId,
) -> Result<Resolved, ScopeError>
    ensures binds { Binds (spec.open_global scope.old place name.now public global) result scope.new }
    ensures grows { Grows scope.old scope.new }
{
    match global {
        GlobalId::Family(family) => open_family(alloc, scope, place, name, public, family),
        GlobalId::Def(_) | GlobalId::Con(_) | GlobalId::Field(_) => {
            refused(alloc, ScopeKind::Misplaced, name)
        }
    }
}

/// `open R`.
#[tactic(auto, using(scope_table::proofs::Grown::grows))]
pub fn open_named(
    alloc: Global,
    scope: &mut Scope,
    place: Place,
    name: &Name,
    public: bool,
) -> Result<Resolved, ScopeError>
    ensures binds { Binds (spec.declared scope.old (d.Open place name.now public)) result scope.new }
    ensures grows { Grows scope.old scope.new }
{
    match scope.global(name.text.as_str()) {
        Some(global) => open_global(alloc, scope, place, name, public, global),
        None => refused(alloc, ScopeKind::NotInScope, name),
    }
}
