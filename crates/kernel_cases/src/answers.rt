use case_terms::{Fault, words_of};
use core_kernel::KernelError;
use core_terms::{TermId, TermPool};
use std::alloc::Global;

/// A word as it stands in an answer.
pub fn word(alloc: Global, word: &str) -> Result<String, Fault> {
    Ok(format!(in alloc; " {word}")?)
}

/// A refusal with the terms that it carries.
pub fn refusal_words(alloc: Global, pool: &TermPool, e: KernelError) -> Result<String, Fault> {
    match e {
        KernelError::Mismatch { left, right } => {
            let (left, right) = (words_of(alloc, pool, left)?, words_of(alloc, pool, right)?);
            Ok(format!(in alloc; " Mismatch{left} /{right}")?)
        }
        KernelError::NotAFunction { ty } => with_type(alloc, pool, "NotAFunction", ty),
        KernelError::NotARecord { ty } => with_type(alloc, pool, "NotARecord", ty),
        KernelError::NotAType { ty } => with_type(alloc, pool, "NotAType", ty),
        KernelError::LevelTooLarge => word(alloc, "LevelTooLarge"),
        KernelError::MetaLeft { meta } => Ok(format!(in alloc; " MetaLeft {}", meta.number())?),
        KernelError::OutOfFuel => word(alloc, "OutOfFuel"),
        KernelError::OutOfDepth => word(alloc, "OutOfDepth"),
        KernelError::NoMemory => Err(Fault::NoMemory),
    }
}

fn with_type(alloc: Global, pool: &TermPool, kind: &str, ty: TermId) -> Result<String, Fault> {
    let ty = words_of(alloc, pool, ty)?;
    Ok(format!(in alloc; " {kind}{ty}")?)
}

pub fn type_words(
    alloc: Global,
    pool: &TermPool,
    answer: Result<TermId, KernelError>,
) -> Result<String, Fault> {
    match answer {
        Ok(ty) => words_of(alloc, pool, ty),
        Err(e) => refusal_words(alloc, pool, e),
    }
}

pub fn verdict_words(
    alloc: Global,
    pool: &TermPool,
    answer: Result<(), KernelError>,
) -> Result<String, Fault> {
    match answer {
        Ok(()) => word(alloc, "yes"),
        Err(e) => refusal_words(alloc, pool, e),
    }
}

pub fn level_words(
    alloc: Global,
    pool: &TermPool,
    answer: Result<u32, KernelError>,
) -> Result<String, Fault> {
    match answer {
        Ok(level) => Ok(format!(in alloc; " level {level}")?),
        Err(e) => refusal_words(alloc, pool, e),
    }
}
