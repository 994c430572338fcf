ghost use Rattle.std.specs.Prelude.{◌≡◌, [], ◌∷◌, ◌++◌, ◌&&◌, cond, length, map, not, reverse, IfOk, OnOk};
ghost use Rattle.core_print.specs.Apart.{is_among as is_among_lem};
ghost use Rattle.core_print.specs.ContextText.{in_scope, is_sourced as is_sourced_lem};
ghost use Rattle.core_print.specs.Names.{name_text, source_names};
ghost use Rattle.core_print.specs.Variables.{binds as binds_lem, is_at as is_at_lem};
ghost use Rattle.core_print.specs.Views.{variable_of, world_of};

use crate::context::name_of;
use crate::label::{is_blank, text_of};
use crate::variables::Variable;
use crate::view::View;
use core_terms::{Entry, NameId, Names, NoMemory};
use std::alloc::Global;

/// The left side that a context begins with: how many entries are its own, and the variables that its
/// patterns write.
#[derive(Clone, Copy)]
pub(crate) struct Outside<'a> {
    pub(crate) count: usize,
    pub(crate) variables: &'a [Variable],
}

/// Of entries from the innermost on whether each is in scope, and the names of those that the source names.
#[derive(Drop)]
struct Seen {
    marks: Vec<bool>,
    names: Vec<NameId>,
}

/// Of each entry whether it is in scope: the source names it, and none inside it so.
pub(crate) fn scope_marks(
    alloc: Global,
    view: &View<'_>,
    outside: &Outside<'_>,
    entries: &[Entry],
) -> Result<Vec<bool>, NoMemory>
    ensures is { IfOk result (λ v. reverse v.items ≡ in_scope (map variable_of outside.now.variables.now)
        outside.now.count [] (source_names (world_of view.now) entries.now)) }
    ensures length { IfOk result (λ v. length v.items ≡ length entries.now) }
{
    let marks = Vec::new(alloc);
    let names = Vec::new(alloc);
    let mut seen = Seen { marks, names };
    let mut left = entries.len();
    while left > 0 {
        left -= 1;
        see(
            view.names,
            outside,
            &mut seen,
            left,
            name_of(&entries[left]),
        )?;
    }
    let Seen { mut marks, .. } = seen;
    marks.reverse();
    Ok(marks)
}

/// Takes the entry that has so many outside it, and this name.
fn see(
    names: &Names,
    outside: &Outside<'_>,
    seen: &mut Seen,
    place: usize,
    name: NameId,
) -> Result<(), NoMemory>
    ensures marks { OnOk result (seen.new.marks.items ≡ seen.old.marks.items
        ++ (is_sourced_lem (map variable_of outside.now.variables.now) outside.now.count place (name_text names.now name)
        && not (is_among_lem (name_text names.now name) (map (name_text names.now) (reverse seen.old.names.items)))) ∷ []) }
    ensures names { OnOk result (map (name_text names.now) (reverse seen.new.names.items)
        ≡ cond (is_sourced_lem (map variable_of outside.now.variables.now) outside.now.count place (name_text names.now name))
        (name_text names.now name ∷ map (name_text names.now) (reverse seen.old.names.items))
        (map (name_text names.now) (reverse seen.old.names.items))) }
{
    if !is_sourced(names, outside, place, name) {
        seen.marks.push(false)?;
        return Ok(());
    }
    let mark = !is_among(names, seen.names.as_slice(), name);
    seen.marks.push(mark)?;
    seen.names.push(name)?;
    Ok(())
}

/// Whether the source names an entry: one of the left side where a pattern writes it, one of a binder
/// inside this where it has a name.
fn is_sourced(names: &Names, outside: &Outside<'_>, place: usize, name: NameId) -> bool
    ensures { result ≡ is_sourced_lem (map variable_of outside.now.variables.now) outside.now.count place (name_text names.now name) }
{
    if place < outside.count {
        return binds(outside.variables, outside.count - 1 - place);
    }
    !is_blank(text_of(names, name))
}

/// Whether one of the variables is this one of the context.
fn binds(variables: &[Variable], index: usize) -> bool
    ensures { result ≡ binds_lem (map variable_of variables.now) index }
{
    let mut left = variables;
    while let [variable, rest @ ..] = left {
        if is_at(&variable.place, index) {
            return true;
        }
        left = rest;
    }
    false
}

fn is_at(place: &Option<u32>, index: usize) -> bool
    ensures { result ≡ is_at_lem place.now index }
{
    match place {
        None => false,
        Some(place) => *place as usize == index,
    }
}

/// Whether a name has the same text as one of these, which are looked at from the last on.
fn is_among(names: &Names, others: &[NameId], name: NameId) -> bool
    ensures { result ≡ is_among_lem (name_text names.now name) (map (name_text names.now) (reverse others.now)) }
{
    let mut left = others.len();
    while left > 0 {
        left -= 1;
        if text_of(names, others[left]) == text_of(names, name) {
            return true;
        }
    }
    false
}
