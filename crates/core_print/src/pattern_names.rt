ghost use Rattle.std.specs.Prelude.{◌≡◌, ℕ, List, [], ◌∷◌, ◌++◌, map, reverse, IfOk, OnOk};
ghost use Rattle.std.specs.Option.{option_map_or};
ghost use Rattle.core_print.specs.Labels.{label_text};
ghost use Rattle.core_print.specs.LeftSide.{chosen, chosen_name, name_in, own_names, pattern_names, value_names};
ghost use Rattle.core_print.specs.Pages.{IsGiven, bound_in, names_in};
ghost use Rattle.core_print.specs.Views.{variable_of, world_of};

use crate::label::{Label, called, choose, plain, unwritten};
use crate::page::Source;
use crate::variables::Variable;
use crate::view::View;
use core_terms::NoMemory;
use std::alloc::Global;

/// A variable of the context with the name that its pattern has in print.
#[derive(Clone, Copy)]
pub(crate) struct Bound {
    place: u32,
    label: Label,
}

/// The names of the variables that a clause writes, chosen from left to right.
pub(crate) fn choose_names(
    alloc: Global,
    source: &Source<'_>,
    variables: &[Variable],
) -> Result<Vec<Bound>, NoMemory>
    requires { IsGiven source.now }
    ensures { IfOk result (λ bs. bound_in source.now.view.names.now bs.items
        ≡ pattern_names (world_of source.now.view) (map variable_of variables.now)) }
{
    let taken = taken_names(alloc, &source.view, source.globals, variables)?;
    let mut bound = Vec::new(alloc);
    let mut left = variables;
    while let [variable, rest @ ..] = left {
        bind(alloc, &source.view, taken.as_slice(), &mut bound, variable)?;
        left = rest;
    }
    Ok(bound)
}

/// The names that the clause has, and the globals.
#[tactic(auto, using(crate::proofs::Choosing::own_next, std::proofs::Common::append_assoc))]
fn taken_names(
    alloc: Global,
    view: &View<'_>,
    globals: &[Label],
    variables: &[Variable],
) -> Result<Vec<Label>, NoMemory>
    ensures { IfOk result (λ ls. map (label_text view.now.names.now) ls.items
        ≡ own_names (world_of view.now) (map variable_of variables.now) ++ map (label_text view.now.names.now) globals.now) }
{
    let mut taken = Vec::new(alloc);
    let mut left = variables;
    while let [variable, rest @ ..] = left {
        push_own(view, &mut taken, variable)?;
        left = rest;
    }
    taken.extend_from_slice(globals)?;
    Ok(taken)
}

/// The name of a variable that the clause has.
fn push_own(view: &View<'_>, taken: &mut Vec<Label>, variable: &Variable) -> Result<(), NoMemory>
    ensures { OnOk result (map (label_text view.now.names.now) taken.new.items
        ≡ map (label_text view.now.names.now) taken.old.items ++ own_names (world_of view.now) (variable_of variable.now ∷ [])) }
{
    let _names = view.names;
    if !variable.fresh {
        let base = Some(Some(variable.name));
        taken.push(Label { base, primes: 0 })?;
    }
    Ok(())
}

/// Chooses the name of a variable that is not solved.
fn bind(
    alloc: Global,
    view: &View<'_>,
    taken: &[Label],
    bound: &mut Vec<Bound>,
    variable: &Variable,
) -> Result<(), NoMemory>
    ensures { OnOk result (bound_in view.now.names.now bound.new.items
        ≡ option_map_or (λ i. (
          i,
          chosen_name (world_of view.now) (map (label_text view.now.names.now) taken.now)
              (map (λ n. n.1) (bound_in view.now.names.now bound.old.items)) (variable_of variable.now),
        ) ∷ bound_in view.now.names.now bound.old.items)
        variable.now.place (bound_in view.now.names.now bound.old.items)) }
{
    let Some(place) = variable.place else {
        return Ok(());
    };
    let label = chosen_label(alloc, view, taken, bound.as_slice(), variable)?;
    bound.push(Bound { place, label })?;
    Ok(())
}

/// The name of a variable, which is its own where the clause has it.
fn chosen_label(
    alloc: Global,
    view: &View<'_>,
    taken: &[Label],
    bound: &[Bound],
    variable: &Variable,
) -> Result<Label, NoMemory>
    ensures { IfOk result (λ l. label_text view.now.names.now l
        ≡ chosen_name (world_of view.now) (map (label_text view.now.names.now) taken.now)
        (map (λ n. n.1) (bound_in view.now.names.now bound.now)) (variable_of variable.now)) }
{
    if !variable.fresh {
        return Ok(plain(variable.name));
    }
    let before = labels_of(alloc, bound)?;
    let base = called(view.names, variable.name);
    choose(alloc, view.names, before.as_slice(), taken, base)
}

fn labels_of(alloc: Global, bound: &[Bound]) -> Result<Vec<Label>, NoMemory>
    ensures { IfOk result (λ ls. ls.items ≡ map (λ b. b.label) bound.now) }
{
    let mut labels = Vec::new(alloc);
    for one in bound {
        labels.push(one.label)?;
    }
    Ok(labels)
}

/// The name of a variable of the context, which is `_` where no pattern writes it.
pub(crate) fn label_at(bound: &[Bound], place: usize) -> Label
    ensures { (ns : List (List ℕ)) → label_text ns result ≡ name_in (bound_in ns bound.now) place }
{
    let mut left = bound.len();
    while left > 0 {
        left -= 1;
        if bound[left].place as usize == place {
            return bound[left].label;
        }
    }
    unwritten()
}

/// The names of so many variables, of which the last is that of variable 0.
pub(crate) fn value_labels(
    alloc: Global,
    bound: &[Bound],
    count: usize,
) -> Result<Vec<Label>, NoMemory>
    ensures { IfOk result (λ ls. (ns : List (List ℕ)) → names_in ns ls.items ≡ value_names (bound_in ns bound.now) count) }
{
    let mut labels = Vec::new(alloc);
    for place in 0..count {
        labels.push(label_at(bound, place))?;
    }
    labels.reverse();
    Ok(labels)
}
