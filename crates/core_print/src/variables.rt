ghost use Rattle.std.specs.Prelude.{◌≡◌, ◌++◌, map, OnOk};
ghost use Rattle.core_terms.specs.Pattern.{origin_of, shape_of};
ghost use Rattle.core_terms.specs.Patterns.{pats_of};
ghost use Rattle.core_print.specs.Variables.{by_origin, place_of as place_of_lem, variables, variables_all};
ghost use Rattle.core_print.specs.Views.{variable_of};

use core_terms::{CorePat, NameId, NoMemory, Origin, PatShape};

/// A variable that a clause writes.
#[derive(Clone, Copy)]
pub(crate) struct Variable {
    /// Which variable of the context it is, where it is not solved.
    pub(crate) place: Option<u32>,
    pub(crate) name: NameId,
    /// Whether its name is new, so that no clause has it.
    pub(crate) fresh: bool,
}

/// The variables that patterns write, from left to right.
#[cycle(variables)]
pub(crate) fn push_variables(found: &mut Vec<Variable>, pats: &[CorePat]) -> Result<(), NoMemory>
    ensures { OnOk result (map variable_of found.new.items
        ≡ map variable_of found.old.items ++ variables_all (pats_of pats.now)) }
{
    for pat in pats {
        push_pattern(found, pat)?;
    }
    Ok(())
}

#[cycle(variables)]
fn push_pattern(found: &mut Vec<Variable>, pat: &CorePat) -> Result<(), NoMemory>
    ensures { OnOk result (map variable_of found.new.items
        ≡ map variable_of found.old.items ++ variables pat.now) }
{
    push_own(found, place_of(&pat.shape), &pat.origin)?;
    match &pat.shape {
        PatShape::Con { pats, .. } => push_variables(found, pats.as_slice()),
        _ => Ok(()),
    }
}

fn place_of(shape: &PatShape) -> Option<u32>
    ensures { result ≡ place_of_lem (shape_of shape.now) }
{
    match shape {
        PatShape::Var(place) => Some(*place),
        _ => None,
    }
}

fn push_own(found: &mut Vec<Variable>, place: Option<u32>, origin: &Origin) -> Result<(), NoMemory>
    ensures { OnOk result (map variable_of found.new.items
        ≡ map variable_of found.old.items ++ by_origin place (origin_of origin.now)) }
{
    if let Origin::Variable { name, fresh } = *origin {
        found.push(Variable { place, name, fresh })?;
    }
    Ok(())
}
