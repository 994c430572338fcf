//! The lines of a report and of an error. Each ends with a line feed.

ghost use Rattle.std.specs.Prelude.{◌≡◌, ◌++◌, IfOk, OnOk, string_bytes};
ghost use Rattle.session_text.specs.Lines as lines;

use crate::error::{LoadError, LoadKind};
use crate::report::{Goal, Report, Typed};
use el_outside::{NoMemory, Pos, Text};
use std::alloc::Global;

/// The first line of an error.
fn error_line(alloc: Global, pos: Pos, kind: LoadKind) -> Result<String, NoMemory>
    ensures { IfOk result (λ s. string_bytes s ≡ lines.error_line pos kind) }
{
    let line = pos.line;
    let col = pos.col;
    let word = kind.word();
    match kind {
        LoadKind::Kernel(_) => Ok(format!(in alloc; "error {line}:{col} Kernel {word}\n")?),
        _ => Ok(format!(in alloc; "error {line}:{col} {word}\n")?),
    }
}

/// Adds a line of an error.
fn push_line(text: &mut String, line: &str) -> Result<(), NoMemory>
    ensures { OnOk result (string_bytes text.new ≡ string_bytes text.old ++ lines.indented line.now) }
{
    text.push_str("  ")?;
    text.push_str(line)?;
    text.push_str("\n")?;
    Ok(())
}

fn push_lines(text: &mut String, all: &[Text]) -> Result<(), NoMemory>
    ensures { OnOk result (string_bytes text.new ≡ string_bytes text.old ++ lines.all_indented all.now) }
{
    let mut left = all;
    while let [line, rest @ ..] = left {
        push_line(text, line.as_str())?;
        left = rest;
    }
    Ok(())
}

/// The lines that say what the error of a text is.
pub fn error_bytes(alloc: Global, error: &LoadError) -> Result<Vec<u8>, NoMemory>
    ensures { IfOk result (λ v. v.items ≡ lines.error_bytes error.now) }
{
    let mut text = error_line(alloc, error.pos, error.kind)?;
    push_lines(&mut text, error.lines.as_slice())?;
    Ok(text.into_bytes())
}

/// The first word of a report.
fn state_word(complete: bool) -> &'static str
    ensures { result.now ≡ lines.state_word complete }
{
    if complete { "complete" } else { "open" }
}

/// The counts that begin the first line of a report.
fn count_words(alloc: Global, report: &Report) -> Result<String, NoMemory>
    ensures { IfOk result (λ s. string_bytes s ≡ lines.count_words report.now) }
{
    let word = state_word(report.complete);
    let declarations = report.declarations;
    let inserted = report.inserted;
    Ok(format!(in alloc; "{word} declarations={declarations} inserted={inserted}")?)
}

/// How many lines of each kind follow, as the first line of a report ends.
fn length_words(
    alloc: Global,
    goals: usize,
    unsolved: usize,
    suspended: usize,
    shadowed: usize,
) -> Result<String, NoMemory>
    ensures { IfOk result (λ s. string_bytes s ≡ lines.length_words goals unsolved suspended shadowed) }
{
    Ok(format!(in alloc;
        " goals={goals} unsolved={unsolved} suspended={suspended} shadowed={shadowed}\n"
    )?)
}

/// The first line of a report.
fn report_line(alloc: Global, report: &Report) -> Result<String, NoMemory>
    ensures { IfOk result (λ s. string_bytes s ≡ lines.report_line report.now) }
{
    let mut line = count_words(alloc, report)?;
    let lengths = length_words(
        alloc,
        report.goals.len(),
        report.unsolved.len(),
        report.suspended.len(),
        report.shadowed.len(),
    )?;
    line.push_str(lengths.as_str())?;
    Ok(line)
}

/// The type of a goal, as its line has it.
fn type_of_goal(goal: &Goal) -> &str
    ensures { result.now ≡ lines.type_of_goal goal.now.ty }
{
    match &goal.ty {
        None => "(not reached)",
        Some(ty) => ty.as_str(),
    }
}

/// The line of goal n.
fn goal_line(alloc: Global, n: usize, goal: &Goal) -> Result<String, NoMemory>
    ensures { IfOk result (λ s. string_bytes s ≡ lines.goal_line n goal.now) }
{
    let line = goal.pos.line;
    let col = goal.pos.col;
    let ty = type_of_goal(goal);
    Ok(format!(in alloc; "goal {n} {line}:{col} : {ty}\n")?)
}

fn push_goals(alloc: Global, text: &mut String, goals: &[Goal]) -> Result<(), NoMemory>
    ensures { OnOk result (string_bytes text.new ≡ string_bytes text.old ++ lines.goal_lines 0 goals.now) }
{
    let mut n = 0;
    while n < goals.len() {
        let line = goal_line(alloc, n, &goals[n])?;
        text.push_str(line.as_str())?;
        n += 1;
    }
    Ok(())
}

fn unsolved_line(alloc: Global, typed: &Typed) -> Result<String, NoMemory>
    ensures { IfOk result (λ s. string_bytes s ≡ lines.unsolved_line typed.now) }
{
    let line = typed.pos.line;
    let col = typed.pos.col;
    let ty = typed.ty.as_str();
    Ok(format!(in alloc; "unsolved {line}:{col} : {ty}\n")?)
}

fn push_unsolved(alloc: Global, text: &mut String, all: &[Typed]) -> Result<(), NoMemory>
    ensures { OnOk result (string_bytes text.new ≡ string_bytes text.old ++ lines.unsolved_lines all.now) }
{
    let mut left = all;
    while let [typed, rest @ ..] = left {
        let line = unsolved_line(alloc, typed)?;
        text.push_str(line.as_str())?;
        left = rest;
    }
    Ok(())
}

fn place_line(alloc: Global, word: &str, pos: Pos) -> Result<String, NoMemory>
    ensures { IfOk result (λ s. string_bytes s ≡ lines.place_line word.now pos) }
{
    let line = pos.line;
    let col = pos.col;
    Ok(format!(in alloc; "{word} {line}:{col}\n")?)
}

fn push_places(alloc: Global, text: &mut String, word: &str, all: &[Pos]) -> Result<(), NoMemory>
    ensures { OnOk result (string_bytes text.new ≡ string_bytes text.old ++ lines.place_lines word.now all.now) }
{
    let mut left = all;
    while let [pos, rest @ ..] = left {
        let line = place_line(alloc, word, *pos)?;
        text.push_str(line.as_str())?;
        left = rest;
    }
    Ok(())
}

/// The lines of a report.
pub fn report_bytes(alloc: Global, report: &Report) -> Result<Vec<u8>, NoMemory>
    ensures { IfOk result (λ v. v.items ≡ lines.report_bytes report.now) }
{
    let mut text = report_line(alloc, report)?;
    push_goals(alloc, &mut text, report.goals.as_slice())?;
    push_unsolved(alloc, &mut text, report.unsolved.as_slice())?;
    push_places(alloc, &mut text, "suspended", report.suspended.as_slice())?;
    push_places(alloc, &mut text, "shadowed", report.shadowed.as_slice())?;
    Ok(text.into_bytes())
}
