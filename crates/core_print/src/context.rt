ghost use Rattle.std.specs.Prelude.{◌≡◌, [], length, reverse, IfOk};
ghost use Rattle.core_print.specs.Names.{context_names};
ghost use Rattle.core_print.specs.Pages.{names_in};
ghost use Rattle.core_print.specs.Views.{world_of};

use crate::label::{Label, called, choose};
use crate::view::View;
use core_terms::{Entry, NameId, NoMemory, Telescope};
use std::alloc::Global;

pub(crate) fn name_of(entry: &Entry) -> NameId
    ensures { result ≡ entry.now.name }
{
    entry.name
}

/// The names of a context, of which the last is that of variable 0.
pub(crate) fn context_labels(
    alloc: Global,
    view: &View<'_>,
    context: &Telescope,
) -> Result<Vec<Label>, NoMemory>
    ensures is { IfOk result (λ ls. names_in view.now.names.now ls.items ≡ context_names (world_of view.now) context.now) }
    ensures length { IfOk result (λ ls. length ls.items ≡ length context.now) }
{
    let entries = context.entries.as_slice();
    let mut labels = Vec::new(alloc);
    let mut left = entries.len();
    while left > 0 {
        left -= 1;
        let base = called(view.names, name_of(&entries[left]));
        let label = choose(alloc, view.names, labels.as_slice(), &[], base)?;
        labels.push(label)?;
    }
    labels.reverse();
    Ok(labels)
}
