ghost use Rattle.std.specs.Prelude.{◌≡◌, ℕ, List, ◌++◌, map, IfOk, OnOk};
ghost use Rattle.core_print.specs.Labels.{label_text};
ghost use Rattle.core_print.specs.Names.{con_names, families_names, family_names, globals, name_text};
ghost use Rattle.core_print.specs.Views.{world_of};
ghost use Rattle.core_rules.specs.Signature.{Family as FamilyDecl, defs, fams, decl_name};
ghost use Rattle.core_terms.specs.Signature.{decl_of, fam_of};

use crate::label::Label;
use crate::view::View;
use core_terms::{ConDecl, CoreDecl, DefId, Entry, FamId, NameId, NoMemory, Signature};
use std::alloc::Global;

/// The names of all declarations, constructors and fields.
pub(crate) fn globals(alloc: Global, view: &View<'_>) -> Result<Vec<Label>, NoMemory>
    ensures { IfOk result (λ ls. map (label_text view.now.names.now) ls.items ≡ globals (world_of view.now)) }
{
    let mut names = Vec::new(alloc);
    push_defs(&mut names, view.sig)?;
    push_families(&mut names, view.sig)?;
    labels(alloc, names.as_slice())
}

/// The names as they are.
fn labels(alloc: Global, names: &[NameId]) -> Result<Vec<Label>, NoMemory>
    ensures { IfOk result (λ ls. (ns : List (List ℕ)) → map (label_text ns) ls.items ≡ map (name_text ns) names.now) }
{
    let mut labels = Vec::new(alloc);
    for name in names {
        labels.push(Label {
            base: Some(Some(*name)),
            primes: 0,
        })?;
    }
    Ok(labels)
}

fn push_defs(names: &mut Vec<NameId>, sig: &Signature) -> Result<(), NoMemory>
    ensures { OnOk result (names.new.items ≡ names.old.items ++ map decl_name (defs sig.now)) }
{
    for def in 0..sig.defs() {
        names.push(sig.def(DefId::new(def)).name)?;
    }
    Ok(())
}

fn push_families(names: &mut Vec<NameId>, sig: &Signature) -> Result<(), NoMemory>
    ensures { OnOk result (names.new.items ≡ names.old.items ++ families_names (fams sig.now)) }
{
    for fam in 0..sig.fams() {
        push_family(names, &sig.fam(FamId::new(fam)).decl)?;
    }
    Ok(())
}

/// The names of a family, its constructors and its fields.
fn push_family(names: &mut Vec<NameId>, decl: &CoreDecl) -> Result<(), NoMemory>
    requires { decl_of decl.now ≡ FamilyDecl (fam_of decl.now) }
    ensures { OnOk result (names.new.items ≡ names.old.items ++ family_names (fam_of decl.now)) }
{
    let CoreDecl::Family {
        name,
        cons,
        fields,
        ..
    } = decl
    else {
        unreachable!();
    };
    names.push(*name)?;
    push_cons(names, cons.as_slice())?;
    push_fields(names, fields.entries.as_slice())?;
    Ok(())
}

fn push_cons(names: &mut Vec<NameId>, cons: &[ConDecl]) -> Result<(), NoMemory>
    ensures { OnOk result (names.new.items ≡ names.old.items ++ con_names cons.now) }
{
    let mut left = cons;
    while let [con, rest @ ..] = left {
        if let Some(name) = con.name {
            names.push(name)?;
        }
        left = rest;
    }
    Ok(())
}

fn push_fields(names: &mut Vec<NameId>, fields: &[Entry]) -> Result<(), NoMemory>
    ensures { OnOk result (names.new.items ≡ names.old.items ++ map (λ e. e.name) fields.now) }
{
    for field in fields {
        names.push(field.name)?;
    }
    Ok(())
}
