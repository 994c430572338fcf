ghost use Rattle.std.specs.Prelude.{◌≡◌, ◌<◌, ◌++◌, length, IfOk, string_bytes, codes};
ghost use Rattle.core_rules.specs.Mapped.{AllLeft, AllPat, AllPats, left_map, pat_map, pats_map, shape_map};
ghost use Rattle.term_pool.specs.Pool.{tree};
ghost use Rattle.core_terms.specs.Pattern.{braces_of, origin_of};
ghost use Rattle.core_terms.specs.Patterns.{pats_of};
ghost use Rattle.core_print.specs.LeftSide.{applied_con as applied_con_lem, dotted, in_braces, left_text, name_in, pat_text as pat_text_lem, pats_text as pats_text_lem, shape_text as shape_text_lem, solved_text, unless_inserted};
ghost use Rattle.core_print.specs.Pages.{IsGiven, bound_in, names_in};
ghost use Rattle.core_print.specs.Printed.{term_text};
ghost use Rattle.core_print.specs.Views.{pat_origin, pat_shape, world, world_of};

use crate::globals::globals;
use crate::label::Label;
use crate::page::{Source, write_label};
use crate::parts::{count_in, pats_in};
use crate::pattern_names::{Bound, choose_names, label_at, value_labels};
use crate::term::text_in;
use crate::variables::push_variables;
use crate::view::View;
use core_terms::{
    Braces, CheckedLeft, CorePat, MetaId, NameId, Names, NoMemory, Origin, PatShape, Signature,
    TermId, TermPool,
};
use std::alloc::Global;

/// What patterns are printed from: the names of the variables that the clause writes, and those of all
/// variables, as values have them, the last that of variable 0.
#[derive(Clone, Copy)]
struct Printer<'a> {
    source: Source<'a>,
    bound: &'a [Bound],
    inside: &'a [Label],
}

/// The left side of a clause: the function's name and its patterns, those that the machine inserted left
/// out. A variable whose name is new gets one that differs from those of the clause, from each other and
/// from the globals. Dotted patterns and written variables that are solved are `.(t)`, with `_` for each
/// variable that no pattern writes. The terms are printed as they are: solved metavariables are replaced
/// in `left` before.
pub fn print_left_side(
    alloc: Global,
    pool: &TermPool,
    sig: &Signature,
    names: &Names,
    holes: &[Option<MetaId>],
    function: NameId,
    left: &CheckedLeft,
) -> Result<String, NoMemory>
    requires { AllLeft (λ t. t < length pool.now.trees) left.now }
    ensures { IfOk result (λ s. string_bytes s ≡ left_text (world names.now sig.now holes.now) function
        (left_map (tree pool.now) left.now)) }
{
    let view = View { sig, names, holes };
    let globals = globals(alloc, &view)?;
    let source = Source {
        view,
        pool,
        globals: globals.as_slice(),
    };
    let mut variables = Vec::new(alloc);
    push_variables(&mut variables, pats_in(left))?;
    let bound = choose_names(alloc, &source, variables.as_slice())?;
    let inside = value_labels(alloc, bound.as_slice(), count_in(left))?;
    let printer = Printer {
        source,
        bound: bound.as_slice(),
        inside: inside.as_slice(),
    };
    let mut out = String::from_str(alloc, view.name(function))?;
    let pats = pats_text(alloc, &printer, pats_in(left))?;
    out.push_str(pats.as_str())?;
    Ok(out)
}

/// Patterns, with a space before each that is printed.
#[cycle(patterns)]
fn pats_text(alloc: Global, printer: &Printer<'_>, pats: &[CorePat]) -> Result<String, NoMemory>
    requires given { IsGiven printer.now.source }
    requires terms { AllPats (λ t. t < length printer.now.source.pool.now.trees) (pats_of pats.now) }
    ensures { IfOk result (λ s. string_bytes s ≡ pats_text_lem (world_of printer.now.source.view)
        (bound_in printer.now.source.view.names.now printer.now.bound.now)
        (names_in printer.now.source.view.names.now printer.now.inside.now)
        (pats_map (tree printer.now.source.pool.now) (pats_of pats.now))) }
{
    let mut out = String::new(alloc);
    for pat in pats {
        let text = pat_text(alloc, printer, pat)?;
        out.push_str(text.as_str())?;
    }
    Ok(out)
}

/// A pattern with a space before it, or nothing where it is inserted.
#[cycle(patterns)]
fn pat_text(alloc: Global, printer: &Printer<'_>, pat: &CorePat) -> Result<String, NoMemory>
    requires given { IsGiven printer.now.source }
    requires terms { AllPat (λ t. t < length printer.now.source.pool.now.trees) pat.now }
    ensures { IfOk result (λ s. string_bytes s ≡ pat_text_lem (world_of printer.now.source.view)
        (bound_in printer.now.source.view.names.now printer.now.bound.now)
        (names_in printer.now.source.view.names.now printer.now.inside.now)
        (pat_map (tree printer.now.source.pool.now) pat.now)) }
{
    let shape = shape_text(alloc, printer, pat)?;
    spaced(
        alloc,
        &printer.source.view,
        &pat.origin,
        &pat.braces,
        shape.as_str(),
    )
}

/// A pattern without braces.
#[cycle(patterns)]
fn shape_text(alloc: Global, printer: &Printer<'_>, pat: &CorePat) -> Result<String, NoMemory>
    requires given { IsGiven printer.now.source }
    requires terms { AllPat (λ t. t < length printer.now.source.pool.now.trees) pat.now }
    ensures { IfOk result (λ s. string_bytes s ≡ shape_text_lem (world_of printer.now.source.view)
        (bound_in printer.now.source.view.names.now printer.now.bound.now)
        (names_in printer.now.source.view.names.now printer.now.inside.now)
        (pat_origin pat.now) (shape_map (tree printer.now.source.pool.now) (pat_shape pat.now))) }
{
    match &pat.shape {
        PatShape::Var(place) => variable_text(alloc, printer, *place),
        PatShape::Solved { value } => solved_value(alloc, printer, &pat.origin, *value),
        PatShape::Dotted { value } => dotted_value(alloc, printer, *value),
        PatShape::Con { con, pats } => {
            let args = pats_text(alloc, printer, pats.as_slice())?;
            applied_con(alloc, printer.source.view.con_text(*con), args.as_str())
        }
        PatShape::Absurd => text(alloc, "()"),
        PatShape::Projection(field) => projection(alloc, printer.source.view.field_text(*field)),
    }
}

fn text(alloc: Global, text: &str) -> Result<String, NoMemory>
    ensures { IfOk result (λ s. string_bytes s ≡ text.now) }
{
    let text = String::from_str(alloc, text)?;
    Ok(text)
}

fn variable_text(alloc: Global, printer: &Printer<'_>, place: u32) -> Result<String, NoMemory>
    ensures { IfOk result (λ s. string_bytes s ≡ name_in (bound_in printer.now.source.view.names.now printer.now.bound.now) place) }
{
    let mut out = String::new(alloc);
    let label = label_at(printer.bound, place as usize);
    write_label(&mut out, printer.source.view.names, &label)?;
    Ok(out)
}

/// A written variable that was solved is its value, an underscore stays.
fn solved_value(
    alloc: Global,
    printer: &Printer<'_>,
    origin: &Origin,
    value: TermId,
) -> Result<String, NoMemory>
    requires given { IsGiven printer.now.source }
    requires value { value < length printer.now.source.pool.now.trees }
    ensures { IfOk result (λ s. string_bytes s ≡ solved_text (origin_of origin.now)
        (term_text (world_of printer.now.source.view) (names_in printer.now.source.view.names.now printer.now.inside.now)
        (tree printer.now.source.pool.now value))) }
{
    match origin {
        Origin::Written | Origin::Variable { .. } => dotted_value(alloc, printer, value),
        Origin::Underscore | Origin::Inserted => text(alloc, "_"),
    }
}

fn dotted_value(alloc: Global, printer: &Printer<'_>, value: TermId) -> Result<String, NoMemory>
    requires given { IsGiven printer.now.source }
    requires value { value < length printer.now.source.pool.now.trees }
    ensures { IfOk result (λ s. string_bytes s ≡ dotted
        (term_text (world_of printer.now.source.view) (names_in printer.now.source.view.names.now printer.now.inside.now)
        (tree printer.now.source.pool.now value))) }
{
    let source = &printer.source;
    let value = text_in(alloc, source, source.pool, printer.inside, value)?;
    joined(alloc, ".(", value.as_str(), ")")
}

/// Three texts, one after the other.
fn joined(alloc: Global, before: &str, text: &str, after: &str) -> Result<String, NoMemory>
    ensures { IfOk result (λ s. string_bytes s ≡ before.now ++ (text.now ++ after.now)) }
{
    let mut out = String::from_str(alloc, before)?;
    out.push_str(text)?;
    out.push_str(after)?;
    Ok(out)
}

fn projection(alloc: Global, field: &str) -> Result<String, NoMemory>
    ensures { IfOk result (λ s. string_bytes s ≡ codes "." ++ field.now) }
{
    joined(alloc, ".", field, "")
}

/// A constructor with its arguments, in parentheses where one is printed.
fn applied_con(alloc: Global, con: &str, args: &str) -> Result<String, NoMemory>
    ensures { IfOk result (λ s. string_bytes s ≡ applied_con_lem con.now args.now) }
{
    if args.is_empty() {
        return text(alloc, con);
    }
    let inner = joined(alloc, con, args, ")")?;
    joined(alloc, "(", inner.as_str(), "")
}

/// A pattern as it stands in a left side: in its braces, with a space before it, or nothing where it is
/// inserted.
fn spaced(
    alloc: Global,
    view: &View<'_>,
    origin: &Origin,
    braces: &Braces,
    pattern: &str,
) -> Result<String, NoMemory>
    ensures { IfOk result (λ s. string_bytes s ≡ unless_inserted (origin_of origin.now)
        (in_braces (world_of view.now) (braces_of braces.now) pattern.now)) }
{
    match origin {
        Origin::Inserted => text(alloc, ""),
        Origin::Written | Origin::Variable { .. } | Origin::Underscore => {
            let inner = braced(alloc, view, braces, pattern)?;
            joined(alloc, " ", inner.as_str(), "")
        }
    }
}

fn braced(
    alloc: Global,
    view: &View<'_>,
    braces: &Braces,
    pattern: &str,
) -> Result<String, NoMemory>
    ensures { IfOk result (λ s. string_bytes s ≡ in_braces (world_of view.now) (braces_of braces.now) pattern.now) }
{
    match braces {
        Braces::Without => text(alloc, pattern),
        Braces::Plain => joined(alloc, "{", pattern, "}"),
        Braces::Named(name) => {
            let inner = joined(alloc, " = ", pattern, "}")?;
            joined(alloc, "{", view.name(*name), inner.as_str())
        }
    }
}
