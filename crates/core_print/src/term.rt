ghost use Rattle.std.specs.Prelude.{◌≡◌, ◌<◌, length, IfOk, string_bytes};
ghost use Rattle.core_rules.specs.InScope.{IsAcyclic};
ghost use Rattle.term_pool.specs.Pool.{tree};
ghost use Rattle.core_terms.specs.Solutions.{AreIn, solved_in};
ghost use Rattle.core_print.specs.Pages.{IsGiven, names_in};
ghost use Rattle.core_print.specs.Printed.{IsTextOf, PrintsTerm, term_text as term_text_lem};
ghost use Rattle.core_print.specs.Views.{world, world_of};

use crate::context::context_labels;
use crate::globals::globals;
use crate::label::Label;
use crate::page::{Source, term_text};
use crate::view::View;
use core_terms::{
    MetaId, Names, NoMemory, Signature, Solutions, Telescope, TermId, TermPool, instantiate,
};
use std::alloc::Global;

/// A term in print, in the context in which it stands. `holes` has the metavariable of each goal: it is
/// printed as `?` and the number of the goal, any other metavariable as `_`. Solved metavariables are
/// replaced first, and a term that then has more than 10,000 nodes is `...`.
pub fn print_term<S: Solutions>(
    alloc: Global,
    pool: &TermPool,
    sig: &Signature,
    names: &Names,
    sol: &S,
    holes: &[Option<MetaId>],
    context: &Telescope,
    t: TermId,
) -> Result<String, NoMemory>
    requires t { t < length pool.now.trees }
    requires solutions { AreIn pool.now (S.solution sol.now) }
    requires acyclic { IsAcyclic (solved_in pool.now (S.solution sol.now)) }
    ensures { IfOk result (λ s. PrintsTerm (world names.now sig.now holes.now)
        (solved_in pool.now (S.solution sol.now)) context.now (tree pool.now t) (string_bytes s)) }
{
    let view = View { sig, names, holes };
    let globals = globals(alloc, &view)?;
    let inside = context_labels(alloc, &view, context)?;
    let source = Source {
        view,
        pool,
        globals: globals.as_slice(),
    };
    instance_text(alloc, &source, sol, inside.as_slice(), t)
}

/// The text of a term with its solved metavariables replaced, where its variables have these names, the
/// last of which is that of variable 0.
pub(crate) fn instance_text<S: Solutions>(
    alloc: Global,
    source: &Source<'_>,
    sol: &S,
    inside: &[Label],
    t: TermId,
) -> Result<String, NoMemory>
    requires given { IsGiven source.now }
    requires t { t < length source.now.pool.now.trees }
    requires solutions { AreIn source.now.pool.now (S.solution sol.now) }
    requires acyclic { IsAcyclic (solved_in source.now.pool.now (S.solution sol.now)) }
    ensures { IfOk result (λ s. IsTextOf (world_of source.now.view) (solved_in source.now.pool.now (S.solution sol.now))
        (names_in source.now.view.names.now inside.now) (tree source.now.pool.now t) (string_bytes s)) }
{
    if !source.pool.has_meta(t) {
        return text_in(alloc, source, source.pool, inside, t);
    }
    let mut copy = source.pool.copy()?;
    let made = instantiate(alloc, &mut copy, sol, t)?;
    text_in(alloc, source, &copy, inside, made)
}

/// The text of a term of this pool in which no metavariable is solved.
pub(crate) fn text_in(
    alloc: Global,
    source: &Source<'_>,
    pool: &TermPool,
    inside: &[Label],
    t: TermId,
) -> Result<String, NoMemory>
    requires given { IsGiven source.now }
    requires t { t < length pool.now.trees }
    ensures { IfOk result (λ s. string_bytes s ≡ term_text_lem (world_of source.now.view)
        (names_in source.now.view.names.now inside.now) (tree pool.now t)) }
{
    let source = Source {
        view: source.view,
        pool,
        globals: source.globals,
    };
    let inside = Vec::from_slice(alloc, inside)?;
    term_text(alloc, &source, inside, t)
}
