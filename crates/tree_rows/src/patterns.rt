use crate::exprs::put_last;
use crate::lines::Lines;
use source_tree::Pattern;
use sqlite_items::Items;
use std::alloc::AllocError;

/// The lines of a pattern.
#[cycle(put_pattern)]
fn put_pattern(lines: &mut Lines, pattern: &Pattern) -> Result<(), AllocError> {
    match pattern {
        Pattern::Implicit(place, inner) => {
            lines.node("Pattern::Implicit", *place)?;
            put_inner(lines, inner.get())
        }
        Pattern::Named(place, name, inner) => {
            lines.named("Pattern::Named", *place, name)?;
            put_inner(lines, inner.get())
        }
        Pattern::Project(place, name) => lines.named("Pattern::Project", *place, name),
        Pattern::ProjectQualified(place, name) => {
            lines.named("Pattern::ProjectQualified", *place, name)
        }
        Pattern::Name(place, name, patterns) => {
            lines.named("Pattern::Name", *place, name)?;
            put_parts(lines, patterns)
        }
        Pattern::Underscore(place) => lines.node("Pattern::Underscore", *place),
        Pattern::Absurd(place) => lines.node("Pattern::Absurd", *place),
        Pattern::Dotted(place, value) => {
            lines.placed("Pattern::Dotted", *place)?;
            put_last(lines, value)
        }
    }
}

#[cycle(put_pattern)]
fn put_inner(lines: &mut Lines, pattern: &Pattern) -> Result<(), AllocError> {
    lines.down();
    put_pattern(lines, pattern)?;
    lines.up();
    Ok(())
}

#[cycle(put_pattern)]
fn put_parts(lines: &mut Lines, patterns: &Items<Pattern>) -> Result<(), AllocError> {
    lines.down();
    put_patterns(lines, patterns)?;
    lines.up();
    Ok(())
}

/// The lines of patterns.
#[cycle(put_pattern)]
pub fn put_patterns(lines: &mut Lines, patterns: &Items<Pattern>) -> Result<(), AllocError> {
    for pattern in patterns.as_slice() {
        put_pattern(lines, pattern)?;
    }
    Ok(())
}
