use case_terms::Fault;
use core_rules::Flag;
use core_terms::{ConDecl, CoreDecl, Entry, NameId, Names, Row, Signature, Telescope, TermId};
use std::alloc::Global;

/// So many entries of this name. Types play no part in the print of names, so each is the same.
fn entries(alloc: Global, name: NameId, count: usize) -> Result<Telescope, Fault> {
    let mut entries = Vec::new(alloc);
    let (flag, ty) = (Flag::Explicit, TermId::new(0));
    for _ in 0..count {
        entries.push(Entry { name, flag, ty })?;
    }
    Ok(Telescope {
        entries: Row::from_vec(entries),
    })
}

fn con(alloc: Global, name: Option<NameId>, arg: NameId, count: usize) -> Result<ConDecl, Fault> {
    Ok(ConDecl {
        name,
        args: entries(alloc, arg, count)?,
        indices: Row::from_vec(Vec::new(alloc)),
    })
}

/// The data type Nat with zero and suc.
fn nat(alloc: Global, names: &mut Names) -> Result<CoreDecl, Fault> {
    let name = names.add("Nat")?;
    let zero = con(alloc, Some(names.add("zero")?), name, 0)?;
    let suc = con(alloc, Some(names.add("suc")?), name, 1)?;
    Ok(CoreDecl::Family {
        name,
        params: entries(alloc, name, 0)?,
        indices: entries(alloc, name, 0)?,
        level: 0,
        is_record: false,
        cons: Row::from_vec(vec![in alloc; zero, suc]?),
        fields: entries(alloc, name, 0)?,
        eta: false,
        coinductive: false,
    })
}

/// The record Pair with a parameter, the field fst and a constructor without a name.
fn pair(alloc: Global, names: &mut Names) -> Result<CoreDecl, Fault> {
    let (name, fst) = (names.add("Pair")?, names.add("fst")?);
    let con = con(alloc, None, fst, 1)?;
    Ok(CoreDecl::Family {
        name,
        params: entries(alloc, name, 1)?,
        indices: entries(alloc, name, 0)?,
        level: 0,
        is_record: true,
        cons: Row::from_vec(vec![in alloc; con]?),
        fields: entries(alloc, fst, 1)?,
        eta: true,
        coinductive: false,
    })
}

/// Nat, Pair, and the postulate f.
pub fn declared(alloc: Global, names: &mut Names) -> Result<Signature, Fault> {
    let mut sig = Signature::new(alloc)?;
    sig.add(nat(alloc, names)?)?;
    sig.add(pair(alloc, names)?)?;
    sig.add(CoreDecl::Postulate {
        name: names.add("f")?,
        ty: TermId::new(0),
    })?;
    Ok(sig)
}
