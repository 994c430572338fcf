ghost use Rattle.std.specs.Prelude.{◌≡◌, ℕ, ◌-◌, ◌<◌, List, [], ◌++◌, drop, length, map, reverse, IfOk, OnOk, string_bytes};
ghost use Rattle.std.specs.List.{AllByRecursion};
ghost use Rattle.core_rules.specs.InScope.{IsAcyclic};
ghost use Rattle.core_rules.specs.Bounded.{full};
ghost use Rattle.core_rules.specs.Mapped.{AllEntries, AllLeft, left_map, solved_map, telescope_map};
ghost use Rattle.core_rules.specs.Substitution.{replace};
ghost use Rattle.term_pool.specs.Pool.{tree};
ghost use Rattle.core_terms.specs.Solutions.{AreIn, solved_in};
ghost use Rattle.core_print.specs.ContextText.{PrintsContext, entry_line, entry_lines, in_scope, scope_mark as scope_mark_lem, solved_line, solved_lines};
ghost use Rattle.core_print.specs.Labels.{label_text};
ghost use Rattle.core_print.specs.Names.{source_names};
ghost use Rattle.core_print.specs.Pages.{IsGiven, SolvedIn, names_in};
ghost use Rattle.core_print.specs.Printed.{term_text};
ghost use Rattle.core_print.specs.Variables.{variables_all};
ghost use Rattle.core_print.specs.Views.{world, world_of};

use crate::context::context_labels;
use crate::globals::globals;
use crate::label::Label;
use crate::page::{Source, write_label};
use crate::parts::{count_in, entries_in, named_in, pats_in};
use crate::scope::{Outside, scope_marks};
use crate::term::instance_text;
use crate::variables::push_variables;
use crate::view::View;
use core_terms::{
    CheckedLeft, Entry, MetaId, Names, NoMemory, Signature, Solutions, Solved, Telescope, TermId,
    TermPool,
};
use std::alloc::Global;

/// The entries of a context, the outermost first, with their names and whether each is in scope.
#[derive(Clone, Copy)]
struct Lines<'a> {
    entries: &'a [Entry],
    labels: &'a [Label],
    marks: &'a [bool],
}

/// An entry of a context with the names of those outside it.
#[derive(Clone, Copy)]
struct Line<'a> {
    inside: &'a [Label],
    label: Label,
    ty: TermId,
    in_scope: bool,
}

/// The lines of a context inside a checked left side: `x : A` for each entry, outermost first, with
/// ` (not in scope)` after it where the source does not name the entry or names another one inside it so;
/// then `y = t : A` for each solved name of the left side. The entries that are not of the left side are
/// those of binders, which the source names unless their name is empty or `_`. Solved metavariables are
/// replaced first.
pub fn print_context<S: Solutions>(
    alloc: Global,
    pool: &TermPool,
    sig: &Signature,
    names: &Names,
    sol: &S,
    holes: &[Option<MetaId>],
    left: &CheckedLeft,
    context: &Telescope,
) -> Result<String, NoMemory>
    requires left { AllLeft (λ t. t < length pool.now.trees) left.now }
    requires context { AllEntries (λ t. t < length pool.now.trees) context.now }
    requires solutions { AreIn pool.now (S.solution sol.now) }
    requires acyclic { IsAcyclic (solved_in pool.now (S.solution sol.now)) }
    ensures { IfOk result (λ s. PrintsContext (world names.now sig.now holes.now) (solved_in pool.now (S.solution sol.now))
        (left_map (tree pool.now) left.now) (telescope_map (tree pool.now) context.now) (string_bytes s)) }
{
    let view = View { sig, names, holes };
    let globals = globals(alloc, &view)?;
    let labels = context_labels(alloc, &view, context)?;
    let source = Source {
        view,
        pool,
        globals: globals.as_slice(),
    };
    let mut out = String::new(alloc);
    write_context(
        alloc,
        &mut out,
        &source,
        sol,
        left,
        context,
        labels.as_slice(),
    )?;
    let outermost = first_labels(labels.as_slice(), count_in(left));
    write_solved(alloc, &mut out, &source, sol, outermost, named_in(left))?;
    Ok(out)
}

/// Writes the lines of the entries.
fn write_context<S: Solutions>(
    alloc: Global,
    out: &mut String,
    source: &Source<'_>,
    sol: &S,
    left: &CheckedLeft,
    context: &Telescope,
    labels: &[Label],
) -> Result<(), NoMemory>
    requires given { IsGiven source.now }
    requires labels { length labels.now ≡ length context.now }
    requires terms { AllEntries (λ t. t < length source.now.pool.now.trees) context.now }
    requires solutions { AreIn source.now.pool.now (S.solution sol.now) }
    requires acyclic { IsAcyclic (solved_in source.now.pool.now (S.solution sol.now)) }
    ensures { OnOk result ((a : IsAcyclic (solved_in source.now.pool.now (S.solution sol.now))) → string_bytes out.new
        ≡ string_bytes out.old ++ entry_lines (world_of source.now.view) (names_in source.now.view.names.now labels.now)
        (in_scope (variables_all left.now.pats) (length left.now.context) [] (source_names (world_of source.now.view) context.now))
        (map (λ e. replace (full (solved_in source.now.pool.now (S.solution sol.now)) a) (tree source.now.pool.now e.ty)) (reverse context.now))) }
{
    let mut variables = Vec::new(alloc);
    push_variables(&mut variables, pats_in(left))?;
    let outside = Outside {
        count: count_in(left),
        variables: variables.as_slice(),
    };
    let entries = entries_in(context);
    let marks = scope_marks(alloc, &source.view, &outside, entries)?;
    let lines = Lines {
        entries,
        labels,
        marks: marks.as_slice(),
    };
    write_entries(alloc, out, source, sol, &lines)
}

/// Writes the lines of entries, the outermost first.
fn write_entries<S: Solutions>(
    alloc: Global,
    out: &mut String,
    source: &Source<'_>,
    sol: &S,
    lines: &Lines<'_>,
) -> Result<(), NoMemory>
    requires given { IsGiven source.now }
    requires labels { length lines.now.labels.now ≡ length lines.now.entries.now }
    requires marks { length lines.now.marks.now ≡ length lines.now.entries.now }
    requires terms { AllEntries (λ t. t < length source.now.pool.now.trees) lines.now.entries.now }
    requires solutions { AreIn source.now.pool.now (S.solution sol.now) }
    requires acyclic { IsAcyclic (solved_in source.now.pool.now (S.solution sol.now)) }
    ensures { OnOk result ((a : IsAcyclic (solved_in source.now.pool.now (S.solution sol.now))) → string_bytes out.new
        ≡ string_bytes out.old ++ entry_lines (world_of source.now.view) (names_in source.now.view.names.now lines.now.labels.now)
        (reverse lines.now.marks.now)
        (map (λ e. replace (full (solved_in source.now.pool.now (S.solution sol.now)) a) (tree source.now.pool.now e.ty)) (reverse lines.now.entries.now))) }
{
    for n in 0..lines.entries.len() {
        let line = Line {
            inside: &lines.labels[..n],
            label: lines.labels[n],
            ty: type_of(&lines.entries[n]),
            in_scope: lines.marks[n],
        };
        write_entry(alloc, out, source, sol, &line)?;
    }
    Ok(())
}

fn type_of(entry: &Entry) -> TermId
    ensures { result ≡ entry.now.ty }
{
    entry.ty
}

/// Writes the line of an entry.
fn write_entry<S: Solutions>(
    alloc: Global,
    out: &mut String,
    source: &Source<'_>,
    sol: &S,
    line: &Line<'_>,
) -> Result<(), NoMemory>
    requires given { IsGiven source.now }
    requires ty { line.now.ty < length source.now.pool.now.trees }
    requires solutions { AreIn source.now.pool.now (S.solution sol.now) }
    requires acyclic { IsAcyclic (solved_in source.now.pool.now (S.solution sol.now)) }
    ensures { OnOk result ((a : IsAcyclic (solved_in source.now.pool.now (S.solution sol.now))) → string_bytes out.new
        ≡ string_bytes out.old ++ entry_line (label_text source.now.view.names.now line.now.label)
        (term_text (world_of source.now.view) (names_in source.now.view.names.now line.now.inside.now)
        (replace (full (solved_in source.now.pool.now (S.solution sol.now)) a) (tree source.now.pool.now line.now.ty)))
        line.now.in_scope) }
{
    let ty = instance_text(alloc, source, sol, line.inside, line.ty)?;
    write_label(out, source.view.names, &line.label)?;
    out.push_str(" : ")?;
    out.push_str(ty.as_str())?;
    out.push_str(scope_mark(line.in_scope))?;
    out.push_str("\n")?;
    Ok(())
}

fn scope_mark(in_scope: bool) -> &'static str
    ensures { result.now ≡ scope_mark_lem in_scope }
{
    if in_scope {
        return "";
    }
    " (not in scope)"
}

/// The labels of the outermost entries, so many, or all.
fn first_labels(labels: &[Label], count: usize) -> &[Label]
    ensures { (ns : List (List ℕ)) → names_in ns result.now ≡ drop (length labels.now - count) (names_in ns labels.now) }
{
    if count >= labels.len() {
        return labels;
    }
    &labels[..count]
}

/// Writes the lines of solved names.
fn write_solved<S: Solutions>(
    alloc: Global,
    out: &mut String,
    source: &Source<'_>,
    sol: &S,
    inside: &[Label],
    named: &[Solved],
) -> Result<(), NoMemory>
    requires given { IsGiven source.now }
    requires terms { AllByRecursion (SolvedIn source.now.pool.now) named.now }
    requires solutions { AreIn source.now.pool.now (S.solution sol.now) }
    requires acyclic { IsAcyclic (solved_in source.now.pool.now (S.solution sol.now)) }
    ensures { OnOk result ((a : IsAcyclic (solved_in source.now.pool.now (S.solution sol.now))) → string_bytes out.new
        ≡ string_bytes out.old ++ solved_lines (world_of source.now.view) (names_in source.now.view.names.now inside.now)
        (map (solved_map (λ t. replace (full (solved_in source.now.pool.now (S.solution sol.now)) a) (tree source.now.pool.now t))) named.now)) }
{
    for solved in named {
        write_solved_name(alloc, out, source, sol, inside, solved)?;
    }
    Ok(())
}

fn write_solved_name<S: Solutions>(
    alloc: Global,
    out: &mut String,
    source: &Source<'_>,
    sol: &S,
    inside: &[Label],
    solved: &Solved,
) -> Result<(), NoMemory>
    requires given { IsGiven source.now }
    requires terms { SolvedIn source.now.pool.now solved.now }
    requires solutions { AreIn source.now.pool.now (S.solution sol.now) }
    requires acyclic { IsAcyclic (solved_in source.now.pool.now (S.solution sol.now)) }
    ensures { OnOk result ((a : IsAcyclic (solved_in source.now.pool.now (S.solution sol.now))) → string_bytes out.new
        ≡ string_bytes out.old ++ solved_line (world_of source.now.view) (names_in source.now.view.names.now inside.now)
        (solved_map (λ t. replace (full (solved_in source.now.pool.now (S.solution sol.now)) a) (tree source.now.pool.now t)) solved.now)) }
{
    let Solved { name, value, ty } = *solved;
    let value = instance_text(alloc, source, sol, inside, value)?;
    let ty = instance_text(alloc, source, sol, inside, ty)?;
    out.push_str(source.view.name(name))?;
    out.push_str(" = ")?;
    out.push_str(value.as_str())?;
    out.push_str(" : ")?;
    out.push_str(ty.as_str())?;
    out.push_str("\n")?;
    Ok(())
}
