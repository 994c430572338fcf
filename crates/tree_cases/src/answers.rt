use case_terms::{Fault, words_of};
use core_kernel::KernelError;
use core_terms::{Signature, TermId, TermPool};
use std::alloc::Global;
use tree_kernel::DeclError;

/// How many ids of each kind a signature has given.
#[derive(Clone, Copy)]
pub struct Given {
    defs: u32,
    fams: u32,
    cons: u32,
    fields: u32,
}

impl Given {
    pub fn by(sig: &Signature) -> Given {
        Given {
            defs: sig.defs(),
            fams: sig.fams(),
            cons: sig.cons(),
            fields: sig.fields(),
        }
    }
}

/// The ids that an accepted declaration has got.
pub fn ids_words(alloc: Global, before: Given, after: Given) -> Result<String, Fault> {
    let mut out = String::new(alloc);
    out.push_str(" accepted,")?;
    write_ids(&mut out, 'd', before.defs, after.defs)?;
    write_ids(&mut out, 'f', before.fams, after.fams)?;
    write_ids(&mut out, 'c', before.cons, after.cons)?;
    write_ids(&mut out, '.', before.fields, after.fields)?;
    Ok(out)
}

fn write_ids(out: &mut String, sign: char, from: u32, to: u32) -> Result<(), Fault> {
    for id in from..to {
        write!(out, " {sign}{id}")?;
    }
    Ok(())
}

/// A refusal with the terms that it carries.
pub fn refusal_words(alloc: Global, pool: &TermPool, e: DeclError) -> Result<String, Fault> {
    match e {
        DeclError::Kernel(e) => kernel_words(alloc, pool, e),
        DeclError::ConShape => word(alloc, "ConShape"),
        DeclError::TooBig => word(alloc, "TooBig"),
        DeclError::BadTree => word(alloc, "BadTree"),
        DeclError::NoMemory => Err(Fault::NoMemory),
    }
}

/// A word as it stands in an answer.
pub fn word(alloc: Global, word: &str) -> Result<String, Fault> {
    Ok(format!(in alloc; " {word}")?)
}

fn kernel_words(alloc: Global, pool: &TermPool, e: KernelError) -> Result<String, Fault> {
    match e {
        KernelError::Mismatch { left, right } => {
            let (left, right) = (words_of(alloc, pool, left)?, words_of(alloc, pool, right)?);
            Ok(format!(in alloc; " Mismatch{left} /{right}")?)
        }
        KernelError::NotAFunction { ty } => with_type(alloc, pool, "NotAFunction", ty),
        KernelError::NotARecord { ty } => with_type(alloc, pool, "NotARecord", ty),
        KernelError::NotAType { ty } => with_type(alloc, pool, "NotAType", ty),
        KernelError::LevelTooLarge => word(alloc, "LevelTooLarge"),
        KernelError::MetaLeft { meta } => Ok(format!(in alloc; " MetaLeft {}", meta.number())?),
        KernelError::OutOfFuel => word(alloc, "OutOfFuel"),
        KernelError::OutOfDepth => word(alloc, "OutOfDepth"),
        KernelError::NoMemory => Err(Fault::NoMemory),
    }
}

fn with_type(alloc: Global, pool: &TermPool, kind: &str, ty: TermId) -> Result<String, Fault> {
    let ty = words_of(alloc, pool, ty)?;
    Ok(format!(in alloc; " {kind}{ty}")?)
}
