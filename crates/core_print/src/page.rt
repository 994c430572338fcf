ghost use Rattle.std.specs.Prelude.{◌≡◌, ℕ, ◌<◌, List, [], ◌∷◌, ◌++◌, length, get_or, reverse, IfOk, OnOk, string_bytes, codes};
ghost use Rattle.core_rules.specs.Term.{Pi, Lam, App, Proj};
ghost use Rattle.term_pool.specs.Pool.{Pool, Below, node_tree, tree};
ghost use Rattle.core_print.specs.Labels.{label_text};
ghost use Rattle.core_print.specs.Names.{World, unknown};
ghost use Rattle.core_print.specs.declared.page.Work.{Work};
ghost use Rattle.core_print.specs.Pages.{Adds, Comes, IsGiven, WorkIn, WorksIn, encloses as encloses_lem, implicit_head as implicit_head_lem, names_in, node_kind, piece_text as piece_text_lem, placed, rest, visible as visible_lem, whole};
ghost use Rattle.core_print.specs.Printed.{as_argument, in_front, meta_text, shown, sort_text, term_text as term_text_lem};
ghost use Rattle.core_print.specs.Views.{world_of};

use crate::label::{Label, base_text, called, choose};
use crate::view::View;
use crate::walk::{is_long, occurs};
use core_rules::Flag;
use core_terms::{FieldId, MetaId, NameId, Names, NoMemory, Node, TermId, TermPool};
use std::alloc::Global;

/// Where a term stands, which decides its parentheses.
#[derive(Clone, Copy)]
pub(crate) enum Place {
    Alone,
    /// As the domain of an arrow, the head of an application, or before a projection.
    InFront,
    Argument,
}

/// What stands between terms.
#[derive(Clone, Copy)]
pub(crate) enum Piece {
    Close,
    Space,
    /// Before the name of a projection.
    Dot,
    Arrow,
    CloseArrow,
    CloseBraceArrow,
}

fn piece_text(piece: Piece) -> &'static str
    ensures { result.now ≡ piece_text_lem piece }
{
    match piece {
        Piece::Close => ")",
        Piece::Space => " ",
        Piece::Dot => " .",
        Piece::Arrow => " → ",
        Piece::CloseArrow => ") → ",
        Piece::CloseBraceArrow => "} → ",
    }
}

/// What is still to be written.
#[derive(Clone, Copy)]
pub(crate) enum Work {
    Show { place: Place, term: TermId },
    Write(Piece),
    /// The name of a projection.
    Field(FieldId),
    /// From here on a further variable is in scope, which has this name with so many ' after it.
    Enter { name: NameId, primes: usize },
    /// The same, of a variable without a name.
    EnterBlank { primes: usize },
    /// The same, of one that no pattern writes.
    EnterUnwritten { primes: usize },
    /// The innermost variable is in scope no longer.
    Leave,
}

/// A text that is on its way. The last name is that of variable 0, and the last work comes next.
#[derive(Drop)]
pub(crate) struct Page {
    pub(crate) out: String,
    pub(crate) inside: Vec<Label>,
    pub(crate) left: Vec<Work>,
}

/// What is read to write a term.
#[derive(Clone, Copy)]
pub(crate) struct Source<'a> {
    pub(crate) view: View<'a>,
    pub(crate) pool: &'a TermPool,
    /// The names of globals.
    pub(crate) globals: &'a [Label],
}

fn push_show(left: &mut Vec<Work>, place: Place, term: TermId) -> Result<(), NoMemory>
    ensures { OnOk result ((w : World) (p : Pool) → term < length p.trees
        → Adds w p left.old.items left.new.items (λ ns. placed place w ns (tree p term))) }
{
    left.push(Work::Show { place, term })?;
    Ok(())
}

fn push_piece(left: &mut Vec<Work>, piece: Piece) -> Result<(), NoMemory>
    ensures { OnOk result ((w : World) (p : Pool) → Adds w p left.old.items left.new.items (λ ns. piece_text_lem piece)) }
{
    push(left, Work::Write(piece))?;
    Ok(())
}

fn push<T: Drop>(items: &mut Vec<T>, item: T) -> Result<(), NoMemory>
    ensures { OnOk result (items.new.items ≡ items.old.items ++ item ∷ []) }
{
    items.push(item)?;
    Ok(())
}

/// A term under one more variable.
fn push_under(left: &mut Vec<Work>, label: &Label, body: TermId) -> Result<(), NoMemory>
    ensures { OnOk result ((w : World) (p : Pool) → body < length p.trees
        → Adds w p left.old.items left.new.items (λ ns. shown w (label_text w.names label.now ∷ ns) (tree p body))) }
{
    left.push(Work::Leave)?;
    left.push(Work::Show {
        place: Place::Alone,
        term: body,
    })?;
    left.push(entering(label))?;
    Ok(())
}

/// The work that brings a further variable into scope.
fn entering(label: &Label) -> Work
    ensures is { (w : World) (p : Pool) (ns : List (List ℕ)) (ws : List Work) → rest w p ns (result ∷ ws) ≡ rest w p (label_text w.names label.now ∷ ns) ws }
    ensures stands { (p : Pool) → WorkIn p result }
{
    let primes = label.primes;
    match label.base {
        Some(Some(name)) => Work::Enter { name, primes },
        Some(None) => Work::EnterBlank { primes },
        None => Work::EnterUnwritten { primes },
    }
}

pub(crate) fn write_label(out: &mut String, names: &Names, label: &Label) -> Result<(), NoMemory>
    ensures { OnOk result (string_bytes out.new ≡ string_bytes out.old ++ label_text names.now label.now) }
{
    out.push_str(base_text(names, &label.base))?;
    for _prime in 0..label.primes {
        out.push_str("'")?;
    }
    Ok(())
}

/// Writes the name of a variable.
fn write_variable(
    out: &mut String,
    names: &Names,
    inside: &[Label],
    index: u32,
) -> Result<(), NoMemory>
    ensures { OnOk result (string_bytes out.new
        ≡ string_bytes out.old ++ get_or (names_in names.now inside.now) index unknown) }
{
    let index = index as usize;
    if index >= inside.len() {
        return write_text(out, "_");
    }
    write_label(out, names, &inside[inside.len() - 1 - index])
}

fn write_sort(alloc: Global, out: &mut String, level: u32) -> Result<(), NoMemory>
    ensures { OnOk result (string_bytes out.new ≡ string_bytes out.old ++ sort_text level) }
{
    if level == 0 {
        out.push_str("Set")?;
        return Ok(());
    }
    let text = format!(in alloc; "Set{level}")?;
    out.push_str(text.as_str())?;
    Ok(())
}

fn write_meta(
    alloc: Global,
    out: &mut String,
    view: &View<'_>,
    meta: MetaId,
) -> Result<(), NoMemory>
    ensures { OnOk result (string_bytes out.new ≡ string_bytes out.old ++ meta_text (world_of view.now) meta) }
{
    match view.goal_of(meta) {
        None => {
            out.push_str("_")?;
            Ok(())
        }
        Some(goal) => {
            let text = format!(in alloc; "?{goal}")?;
            out.push_str(text.as_str())?;
            Ok(())
        }
    }
}

/// A bracket, the name of a binder, and what stands before its type.
fn open_binder(
    out: &mut String,
    bracket: &str,
    names: &Names,
    label: &Label,
) -> Result<(), NoMemory>
    ensures { OnOk result (string_bytes out.new
        ≡ string_bytes out.old ++ (bracket.now ++ (label_text names.now label.now ++ codes " : "))) }
{
    out.push_str(bracket)?;
    write_label(out, names, label)?;
    out.push_str(" : ")?;
    Ok(())
}

fn show_pi(
    alloc: Global,
    source: &Source<'_>,
    page: &mut Page,
    flag: Flag,
    name: NameId,
    parts: (TermId, TermId),
) -> Result<(), NoMemory>
    requires given { IsGiven source.now }
    requires dom { parts.0 < length source.now.pool.now.trees }
    requires cod { parts.1 < length source.now.pool.now.trees }
    ensures { OnOk result (Comes (world_of source.now.view) source.now.pool.now page.old page.new
        (shown (world_of source.now.view) (names_in source.now.view.names.now page.old.inside.items)
        (Pi flag name (tree source.now.pool.now parts.0) (tree source.now.pool.now parts.1)))) }
{
    let (dom, cod) = parts;
    let names = source.view.names;
    let base = called(names, name);
    let label = choose(alloc, names, page.inside.as_slice(), source.globals, base)?;
    push_under(&mut page.left, &label, cod)?;
    match flag {
        Flag::Explicit => {
            if occurs(alloc, source.pool, cod)? {
                push_piece(&mut page.left, Piece::CloseArrow)?;
                push_show(&mut page.left, Place::Alone, dom)?;
                open_binder(&mut page.out, "(", names, &label)
            } else {
                push_piece(&mut page.left, Piece::Arrow)?;
                push_show(&mut page.left, Place::InFront, dom)
            }
        }
        Flag::Implicit => {
            push_piece(&mut page.left, Piece::CloseBraceArrow)?;
            push_show(&mut page.left, Place::Alone, dom)?;
            open_binder(&mut page.out, "{", names, &label)
        }
    }
}

fn show_lam(
    alloc: Global,
    source: &Source<'_>,
    page: &mut Page,
    flag: Flag,
    name: NameId,
    parts: (TermId, TermId),
) -> Result<(), NoMemory>
    requires given { IsGiven source.now }
    requires body { parts.1 < length source.now.pool.now.trees }
    ensures { OnOk result (Comes (world_of source.now.view) source.now.pool.now page.old page.new
        (shown (world_of source.now.view) (names_in source.now.view.names.now page.old.inside.items)
        (Lam flag name (tree source.now.pool.now parts.0) (tree source.now.pool.now parts.1)))) }
{
    let names = source.view.names;
    let base = called(names, name);
    let label = choose(alloc, names, page.inside.as_slice(), source.globals, base)?;
    push_under(&mut page.left, &label, parts.1)?;
    match flag {
        Flag::Explicit => {
            page.out.push_str("λ ")?;
            write_label(&mut page.out, names, &label)?;
            page.out.push_str(" → ")?;
            Ok(())
        }
        Flag::Implicit => {
            page.out.push_str("λ {")?;
            write_label(&mut page.out, names, &label)?;
            page.out.push_str("} → ")?;
            Ok(())
        }
    }
}

/// Leaves the parts of an application. An implicit argument is not printed.
fn show_app(left: &mut Vec<Work>, flag: Flag, fun: TermId, arg: TermId) -> Result<(), NoMemory>
    ensures { OnOk result ((w : World) (p : Pool) → fun < length p.trees → arg < length p.trees
        → Adds w p left.old.items left.new.items (λ ns. shown w ns (App flag (tree p fun) (tree p arg)))) }
{
    match flag {
        Flag::Explicit => {
            push_show(left, Place::Argument, arg)?;
            push_piece(left, Piece::Space)?;
            push_show(left, Place::InFront, fun)?;
            Ok(())
        }
        Flag::Implicit => {
            push_show(left, Place::Alone, fun)?;
            Ok(())
        }
    }
}

fn show_proj(
    left: &mut Vec<Work>,
    view: &View<'_>,
    field: FieldId,
    of: TermId,
) -> Result<(), NoMemory>
    ensures { OnOk result ((p : Pool) → of < length p.trees
        → Adds (world_of view.now) p left.old.items left.new.items (λ ns. shown (world_of view.now) ns (Proj field (tree p of)))) }
{
    push(left, Work::Field(field))?;
    push_piece(left, Piece::Dot)?;
    push_show(left, Place::InFront, of)?;
    Ok(())
}

/// Writes a node, as far as its first part that is a term.
fn show_node(
    alloc: Global,
    source: &Source<'_>,
    page: &mut Page,
    node: &Node,
) -> Result<(), NoMemory>
    requires given { IsGiven source.now }
    requires below { Below (tree source.now.pool.now) (length source.now.pool.now.trees) node.now }
    ensures { OnOk result (Comes (world_of source.now.view) source.now.pool.now page.old page.new
        (shown (world_of source.now.view) (names_in source.now.view.names.now page.old.inside.items)
        (node_tree (tree source.now.pool.now) node.now))) }
{
    let view = &source.view;
    match *node {
        Node::Var(index) => {
            write_variable(&mut page.out, view.names, page.inside.as_slice(), index)
        }
        Node::Sort(level) => write_sort(alloc, &mut page.out, level),
        Node::Pi {
            flag,
            name,
            dom,
            cod,
        } => show_pi(alloc, source, page, flag, name, (dom, cod)),
        Node::Lam {
            flag,
            name,
            dom,
            body,
        } => show_lam(alloc, source, page, flag, name, (dom, body)),
        Node::App { flag, fun, arg } => show_app(&mut page.left, flag, fun, arg),
        Node::Def(def) => write_text(&mut page.out, view.def_text(def)),
        Node::Fam(fam) => write_text(&mut page.out, view.fam_text(fam)),
        Node::Con { con, .. } => write_text(&mut page.out, view.con_text(con)),
        Node::Proj { field, of } => show_proj(&mut page.left, view, field, of),
        Node::Meta { meta, .. } => write_meta(alloc, &mut page.out, view, meta),
    }
}

pub(crate) fn write_text(out: &mut String, text: &str) -> Result<(), NoMemory>
    ensures { OnOk result (string_bytes out.new ≡ string_bytes out.old ++ text.now) }
{
    out.push_str(text)?;
    Ok(())
}

/// The term that is printed for this one: what it applies, as long as the arguments are implicit.
fn visible(pool: &TermPool, t: TermId) -> TermId
    requires { t < length pool.now.trees }
    ensures within { result < length pool.now.trees }
    ensures is { tree pool.now result ≡ visible_lem (tree pool.now t) }
{
    let mut t = t;
    while let Some(fun) = implicit_head(&pool.node(t)) {
        t = fun;
    }
    t
}

fn implicit_head(node: &Node) -> Option<TermId>
    ensures { result ≡ implicit_head_lem node.now }
{
    match *node {
        Node::App {
            flag: Flag::Implicit,
            fun,
            ..
        } => Some(fun),
        _ => None,
    }
}

fn encloses(place: Place, node: &Node) -> bool
    ensures { result ≡ encloses_lem place (node_kind node.now) }
{
    match place {
        Place::Alone => false,
        Place::InFront => matches_binder(node),
        Place::Argument => matches_compound(node),
    }
}

fn matches_binder(node: &Node) -> bool
    ensures { result ≡ in_front (node_kind node.now) }
{
    match *node {
        Node::Pi { .. } | Node::Lam { .. } => true,
        _ => false,
    }
}

fn matches_compound(node: &Node) -> bool
    ensures { result ≡ as_argument (node_kind node.now) }
{
    match *node {
        Node::Pi { .. } | Node::Lam { .. } | Node::App { .. } | Node::Proj { .. } => true,
        _ => false,
    }
}

/// Writes a term in its place, as far as its first part that is a term.
fn show(
    alloc: Global,
    source: &Source<'_>,
    page: &mut Page,
    place: Place,
    t: TermId,
) -> Result<(), NoMemory>
    requires given { IsGiven source.now }
    requires t { t < length source.now.pool.now.trees }
    ensures { OnOk result (Comes (world_of source.now.view) source.now.pool.now page.old page.new
        (placed place (world_of source.now.view) (names_in source.now.view.names.now page.old.inside.items) (tree source.now.pool.now t))) }
{
    let t = visible(source.pool, t);
    let node = source.pool.node(t);
    if encloses(place, &node) {
        page.out.push_str("(")?;
        push_piece(&mut page.left, Piece::Close)?;
    }
    show_node(alloc, source, page, &node)
}

/// Does the next work.
fn turn(alloc: Global, source: &Source<'_>, page: &mut Page, work: Work) -> Result<(), NoMemory>
    requires given { IsGiven source.now }
    requires work { WorkIn source.now.pool.now work }
    ensures is { OnOk result (whole (world_of source.now.view) source.now.pool.now page.new
        ≡ string_bytes page.old.out ++ rest (world_of source.now.view) source.now.pool.now
        (names_in source.now.view.names.now page.old.inside.items) (work ∷ reverse page.old.left.items)) }
    ensures works { OnOk result (WorksIn source.now.pool.now page.old → WorksIn source.now.pool.now page.new) }
{
    match work {
        Work::Show { place, term } => show(alloc, source, page, place, term),
        Work::Write(piece) => write_text(&mut page.out, piece_text(piece)),
        Work::Field(field) => write_text(&mut page.out, source.view.field_text(field)),
        Work::Enter { name, primes } => {
            let base = Some(Some(name));
            page.inside.push(Label { base, primes })?;
            Ok(())
        }
        Work::EnterBlank { primes } => {
            let base = Some(None);
            page.inside.push(Label { base, primes })?;
            Ok(())
        }
        Work::EnterUnwritten { primes } => {
            let base = None;
            page.inside.push(Label { base, primes })?;
            Ok(())
        }
        Work::Leave => {
            page.inside.pop();
            Ok(())
        }
    }
}

/// The text of a term with these names of its variables, of which the last is that of variable 0.
pub(crate) fn term_text(
    alloc: Global,
    source: &Source<'_>,
    inside: Vec<Label>,
    t: TermId,
) -> Result<String, NoMemory>
    requires given { IsGiven source.now }
    requires t { t < length source.now.pool.now.trees }
    ensures { IfOk result (λ s. string_bytes s
        ≡ term_text_lem (world_of source.now.view) (names_in source.now.view.names.now inside.items) (tree source.now.pool.now t)) }
{
    if is_long(alloc, source.pool, t)? {
        let text = String::from_str(alloc, "...")?;
        return Ok(text);
    }
    let out = String::new(alloc);
    let left = Vec::new(alloc);
    let mut page = Page { out, inside, left };
    push_show(&mut page.left, Place::Alone, t)?;
    // Each turn does a work, of which each node makes seven at most.
    for _turn in 0..u64::MAX {
        let Some(work) = page.left.pop() else {
            let Page { out, .. } = page;
            return Ok(out);
        };
        turn(alloc, source, &mut page, work)?;
    }
    Err(NoMemory)
}
