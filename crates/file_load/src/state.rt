ghost use Rattle.std.specs.Prelude.{IfOk};
ghost use Rattle.file_load.specs.Judged.{IsNew};

use core_terms::{NoMemory, Signature, TermPool};
use scope_check::Scope;
use std::alloc::Global;

/// What was declared so far.
#[derive(Drop)]
pub struct Core {
    pub scope: Scope,
    pub pool: TermPool,
    pub signature: Signature,
    pub alloc: Global,
}

impl Core {
    /// Nothing is declared.
    pub fn new(alloc: Global) -> Result<Core, NoMemory>
        ensures { IfOk result IsNew }
    {
        let Ok(scope) = Scope::new(alloc) else {
            return Err(NoMemory);
        };
        Ok(Core {
            scope,
            pool: TermPool::new(alloc)?,
            signature: Signature::new(alloc)?,
            alloc,
        })
    }
}
