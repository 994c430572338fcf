ghost use Rattle.std.specs.Prelude.{◌≡◌};
ghost use Rattle.file_load.specs.Load.{complete_report};

use core_terms::{Names, NoMemory, Signature, TermPool};
use el_outside::Many;
use scope_check::Scope;
use session_text::{LoadError, Report};
use std::alloc::Global;

/// What was made of a text without an error.
#[derive(Drop)]
pub struct LoadedFile {
    report: Report,
    scope: Scope,
    pool: TermPool,
    signature: Signature,
}

/// The answer to a text.
#[derive(Drop)]
pub enum Loaded {
    /// The first error of the text.
    Error(LoadError),
    Done(LoadedFile),
    NoMemory,
}

/// The report of a text whose declarations are accepted.
fn complete(alloc: Global, declarations: u32) -> Report
    ensures { result ≡ complete_report declarations }
{
    Report {
        complete: true,
        declarations,
        inserted: 0,
        goals: Many::from_vec(Vec::new(alloc)),
        unsolved: Many::from_vec(Vec::new(alloc)),
        suspended: Many::from_vec(Vec::new(alloc)),
        shadowed: Many::from_vec(Vec::new(alloc)),
    }
}

impl LoadedFile {
    ghost use Rattle.std.specs.Prelude.{◌+◌, length, IfOk};
    ghost use Rattle.core_rules.specs.Signature.{defs, fams};
    ghost use Rattle.file_load.specs.LoadedFile.{IsOf, names_of, pool_of, report_of, signature_of};

    /// The file whose declarations made this signature. There is not enough memory where it has more of them than a report counts.
    pub fn new(
        alloc: Global,
        scope: Scope,
        pool: TermPool,
        signature: Signature,
    ) -> Result<LoadedFile, NoMemory>
        ensures { IfOk result (λ f. IsOf f (length (defs signature) + length (fams signature)) scope.names pool signature) }
    {
        let Some(declarations) = signature.defs().checked_add(signature.fams()) else {
            return Err(NoMemory);
        };
        Ok(LoadedFile {
            report: complete(alloc, declarations),
            scope,
            pool,
            signature,
        })
    }

    pub fn report(&self) -> &Report
        ensures { result.now ≡ report_of self.now }
    {
        &self.report
    }

    /// The terms of the signature.
    pub fn pool(&self) -> &TermPool
        ensures { result.now ≡ pool_of self.now }
    {
        &self.pool
    }

    pub fn signature(&self) -> &Signature
        ensures { result.now ≡ signature_of self.now }
    {
        &self.signature
    }

    /// The texts of the names of the signature and of its binders.
    pub fn names(&self) -> &Names
        ensures { result.now ≡ names_of self.now }
    {
        self.scope.names()
    }
}
