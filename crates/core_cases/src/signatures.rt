use crate::fault::Fault;
use core_rules::Flag;
use core_terms::{
    ConDecl, CoreDecl, DefEntry, DefState, Entry, FamEntry, NameId, NoMemory, Row, Signature, Step,
    Telescope, TermId, Tree,
};
use std::alloc::{AllocError, Global};

fn no_entries(alloc: Global) -> Telescope {
    Telescope {
        entries: Row::from_vec(Vec::new(alloc)),
    }
}

fn telescope(alloc: Global, entries: &[Entry]) -> Result<Telescope, AllocError> {
    Ok(Telescope {
        entries: Row::from_vec(Vec::from_slice(alloc, entries)?),
    })
}

fn explicit(ty: TermId) -> Entry {
    Entry {
        name: NameId::new(9),
        flag: Flag::Explicit,
        ty,
    }
}

fn constructor(alloc: Global, name: u32, args: &[Entry]) -> Result<ConDecl, AllocError> {
    Ok(ConDecl {
        name: Some(NameId::new(name)),
        args: telescope(alloc, args)?,
        indices: Row::from_vec(Vec::new(alloc)),
    })
}

/// A constructor without arguments, and one with an argument.
fn two_constructors(alloc: Global, ty: TermId) -> Result<Row<ConDecl>, AllocError> {
    let mut cons = Vec::new(alloc);
    cons.push(constructor(alloc, 2, &[])?)?;
    cons.push(constructor(alloc, 3, &[explicit(ty)])?)?;
    Ok(Row::from_vec(cons))
}

/// A data type with two constructors, the second with an argument.
fn numbers(alloc: Global, ty: TermId) -> Result<CoreDecl, AllocError> {
    let cons = two_constructors(alloc, ty)?;
    Ok(CoreDecl::Family {
        name: NameId::new(1),
        params: no_entries(alloc),
        indices: no_entries(alloc),
        level: 0,
        is_record: false,
        cons,
        fields: no_entries(alloc),
        eta: false,
        coinductive: false,
    })
}

fn one_constructor(alloc: Global, fields: &[Entry]) -> Result<Row<ConDecl>, AllocError> {
    let mut cons = Vec::new(alloc);
    cons.push(constructor(alloc, 5, fields)?)?;
    Ok(Row::from_vec(cons))
}

/// A record with two fields.
fn pairs(alloc: Global, ty: TermId) -> Result<CoreDecl, AllocError> {
    let entries = [explicit(ty), explicit(ty)];
    let cons = one_constructor(alloc, &entries)?;
    let fields = telescope(alloc, &entries)?;
    Ok(CoreDecl::Family {
        name: NameId::new(4),
        params: no_entries(alloc),
        indices: no_entries(alloc),
        level: 0,
        is_record: true,
        cons,
        fields,
        eta: true,
        coinductive: false,
    })
}

/// A function of one clause.
fn function(alloc: Global, ty: TermId) -> CoreDecl {
    CoreDecl::Function {
        name: NameId::new(6),
        ty,
        clauses: Row::from_vec(Vec::new(alloc)),
        tree: Tree {
            step: Step::Leaf {
                body: ty,
                clause: 0,
            },
        },
    }
}

/// A word for what is known of a definition.
fn state(state: &DefState) -> &'static str {
    match state {
        DefState::Postulate => "a postulate",
        DefState::Open => "open",
        DefState::Closed { .. } => "closed",
    }
}

fn print_definition(rt: &HostRuntime, i: u32, entry: &DefEntry) -> Result<(), Fault> {
    let (name, state) = (entry.name.number(), state(&entry.state));
    println!(rt; "definition {i}: name {name}, {state}")?;
    Ok(())
}

fn print_family(rt: &HostRuntime, i: u32, entry: &FamEntry) -> Result<(), Fault> {
    print!(rt; "family {i}: constructors")?;
    for con in entry.cons.as_slice() {
        print!(rt; " {}", con.number())?;
    }
    print!(rt; ", fields")?;
    for field in entry.fields.as_slice() {
        print!(rt; " {}", field.number())?;
    }
    println!(rt; "")?;
    Ok(())
}

/// Prints each definition and each family with its ids.
fn print_all(rt: &HostRuntime, signature: &Signature) -> Result<(), Fault> {
    for i in 0..signature.defs() {
        print_definition(rt, i, signature.def(core_terms::DefId::new(i)))?;
    }
    for i in 0..signature.fams() {
        print_family(rt, i, signature.fam(core_terms::FamId::new(i)))?;
    }
    Ok(())
}

fn add_before(alloc: Global, signature: &mut Signature, ty: TermId) -> Result<(), NoMemory> {
    let name = NameId::new(0);
    signature.add(CoreDecl::Postulate { name, ty })?;
    signature.add(numbers(alloc, ty)?)
}

fn add_after(alloc: Global, signature: &mut Signature, ty: TermId) -> Result<(), NoMemory> {
    signature.add(pairs(alloc, ty)?)?;
    signature.add(function(alloc, ty))?;
    signature.add_open(NameId::new(7), ty)?;
    Ok(())
}

/// Ids go on in the order of declaration: the data type has the constructors 0 and 1, the record 2, with
/// the fields 0 and 1. After the cut the data type and the postulate are left.
pub fn declared(rt: &HostRuntime) -> Result<(), Fault> {
    let mut signature = Signature::new(rt.alloc())?;
    print_declared(rt, &mut signature)
}

fn print_declared(rt: &HostRuntime, signature: &mut Signature) -> Result<(), Fault> {
    let ty = TermId::new(0);
    add_before(rt.alloc(), signature, ty)?;
    let mark = signature.mark();
    add_after(rt.alloc(), signature, ty)?;
    print_all(rt, signature)?;
    signature.cut(mark);
    println!(rt; "after the cut")?;
    print_all(rt, signature)
}
