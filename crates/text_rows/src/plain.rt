//! Reports and errors with every kind of line, written by hand, and their copies.

use el_outside::{Many, NoMemory, Pos, Text};
use session_text::{
    Goal, KernelKind, LoadError, LoadKind, Report, Typed, error_bytes, report_bytes,
};
use std::alloc::Global;

fn at(line: u32, col: u32) -> Pos {
    Pos { line, col }
}

fn goal(alloc: Global, pos: Pos, ty: &str) -> Result<Goal, NoMemory> {
    let ty = Text::from_str(alloc, ty)?;
    Ok(Goal { pos, ty: Some(ty) })
}

fn typed(alloc: Global, pos: Pos, ty: &str) -> Result<Typed, NoMemory> {
    let ty = Text::from_str(alloc, ty)?;
    Ok(Typed { pos, ty })
}

fn goals(alloc: Global) -> Result<Many<Goal>, NoMemory> {
    let mut goals = Vec::new(alloc);
    goals.push(goal(alloc, at(7, 12), "(x : ℕ) → P x")?)?;
    let ty = None;
    let pos = at(9, 4_294_967_295);
    goals.push(Goal { pos, ty })?;
    Ok(Many::from_vec(goals))
}

fn unsolved(alloc: Global) -> Result<Many<Typed>, NoMemory> {
    let mut all = Vec::new(alloc);
    all.push(typed(alloc, at(3, 1), "Set")?)?;
    all.push(typed(alloc, at(3, 10), "_ → Set1")?)?;
    Ok(Many::from_vec(all))
}

fn places(alloc: Global, all: &[Pos]) -> Result<Many<Pos>, NoMemory> {
    Ok(Many::from_vec(Vec::from_slice(alloc, all)?))
}

fn no_report(alloc: Global) -> Report {
    Report {
        complete: false,
        declarations: 4_294_967_295,
        inserted: 10,
        goals: Many::from_vec(Vec::new(alloc)),
        unsolved: Many::from_vec(Vec::new(alloc)),
        suspended: Many::from_vec(Vec::new(alloc)),
        shadowed: Many::from_vec(Vec::new(alloc)),
    }
}

fn fill(alloc: Global, report: &mut Report) -> Result<(), NoMemory> {
    report.goals = goals(alloc)?;
    report.unsolved = unsolved(alloc)?;
    report.suspended = places(alloc, &[at(4, 2)])?;
    report.shadowed = places(alloc, &[at(5, 1), at(6, 1), at(10, 1)])?;
    Ok(())
}

/// Two goals, one of them not reached, two unsolved types, one suspended problem and three shadowed clauses.
fn open_report(alloc: Global) -> Result<Report, NoMemory> {
    let mut report = no_report(alloc);
    fill(alloc, &mut report)?;
    Ok(report)
}

fn push_report(alloc: Global, out: &mut Vec<u8>, report: &Report) -> Result<(), NoMemory> {
    let bytes = report_bytes(alloc, report)?;
    out.extend_from_slice(&bytes)?;
    Ok(())
}

fn texts(alloc: Global, lines: &[&str]) -> Result<Many<Text>, NoMemory> {
    let mut texts = Vec::new(alloc);
    for line in lines {
        texts.push(Text::from_str(alloc, line)?)?;
    }
    Ok(Many::from_vec(texts))
}

fn push_error(
    alloc: Global,
    out: &mut Vec<u8>,
    kind: LoadKind,
    lines: &[&str],
) -> Result<(), NoMemory> {
    let lines = texts(alloc, lines)?;
    let pos = at(12, 34);
    let error = LoadError { pos, kind, lines };
    let bytes = error_bytes(alloc, &error)?;
    out.extend_from_slice(&bytes)?;
    Ok(())
}

/// Kinds of errors that no text has so far.
const KINDS: [LoadKind; 11] = [
    LoadKind::NotAConstructor,
    LoadKind::CannotSplit,
    LoadKind::NotAbsurd,
    LoadKind::WrongArity,
    LoadKind::ForcedConstructor,
    LoadKind::Impossible,
    LoadKind::Mixed,
    LoadKind::NoSuchName,
    LoadKind::Steps,
    LoadKind::OutOfFuel,
    LoadKind::OutOfDepth,
];

const KERNEL_KINDS: [KernelKind; 6] = [
    KernelKind::LevelTooLarge,
    KernelKind::OutOfFuel,
    KernelKind::OutOfDepth,
    KernelKind::ConShape,
    KernelKind::TooBig,
    KernelKind::BadTree,
];

/// Kinds that show two sides.
const SIDE_KINDS: [LoadKind; 4] = [
    LoadKind::Mismatch,
    LoadKind::DotWrong,
    LoadKind::UnifyStuck,
    LoadKind::Kernel(KernelKind::Mismatch),
];

/// Kinds that show a type.
const TYPE_KINDS: [LoadKind; 6] = [
    LoadKind::NotAFunction,
    LoadKind::NotARecord,
    LoadKind::NotAType,
    LoadKind::Kernel(KernelKind::NotAFunction),
    LoadKind::Kernel(KernelKind::NotARecord),
    LoadKind::Kernel(KernelKind::NotAType),
];

/// Errors of these kinds, all with the same lines.
fn push_kinds(
    alloc: Global,
    out: &mut Vec<u8>,
    kinds: &[LoadKind],
    lines: &[&str],
) -> Result<(), NoMemory> {
    for kind in kinds {
        push_error(alloc, out, *kind, lines)?;
    }
    Ok(())
}

fn push_kernel_kinds(alloc: Global, out: &mut Vec<u8>) -> Result<(), NoMemory> {
    for kind in KERNEL_KINDS {
        push_error(alloc, out, LoadKind::Kernel(kind), &[])?;
    }
    Ok(())
}

fn push_errors(alloc: Global, out: &mut Vec<u8>) -> Result<(), NoMemory> {
    push_kinds(alloc, out, KINDS.as_slice(), &[])?;
    push_error(alloc, out, LoadKind::Nonlinear, &["x"])?;
    push_kinds(
        alloc,
        out,
        SIDE_KINDS.as_slice(),
        &["left: Set1", "right: Set"],
    )?;
    push_kinds(alloc, out, TYPE_KINDS.as_slice(), &["type: ℕ"])?;
    push_error(alloc, out, LoadKind::Missing, &["pred zero"])?;
    push_kernel_kinds(alloc, out)
}

fn push_copy(alloc: Global, out: &mut Vec<u8>, report: &Report) -> Result<(), NoMemory> {
    let copy = report.copy(alloc)?;
    push_report(alloc, out, &copy)
}

fn copied_goals(alloc: Global, all: &[Goal]) -> Result<Many<Goal>, NoMemory> {
    let mut goals = Vec::new(alloc);
    for goal in all {
        goals.push(goal.copy(alloc)?)?;
    }
    Ok(Many::from_vec(goals))
}

/// The report with copies of its goals.
fn push_goals(alloc: Global, out: &mut Vec<u8>, report: &Report) -> Result<(), NoMemory> {
    let mut copy = report.copy(alloc)?;
    copy.goals = copied_goals(alloc, report.goals.as_slice())?;
    push_report(alloc, out, &copy)
}

/// A report, its copy, a report of the copy of a goal, and errors.
pub fn all(alloc: Global) -> Result<Vec<u8>, NoMemory> {
    let mut out = Vec::new(alloc);
    let report = open_report(alloc)?;
    push_report(alloc, &mut out, &report)?;
    push_copy(alloc, &mut out, &report)?;
    push_goals(alloc, &mut out, &report)?;
    push_errors(alloc, &mut out)?;
    Ok(out)
}
