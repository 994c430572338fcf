ghost use Rattle.std.specs.Prelude.{◌≡◌, ℕ, None, OnOk};
ghost use Rattle.conversion.specs.Table.{yes_at, Puts};

use std::alloc::Global;
use std::collections::HashMap;
use std::marker::Model;
use term_pool::{NoMemory, TermId};

/// The pairs that this call has opened, each with the depth of the last time. Their parts come first, so at a
/// pair that is met again these are done with, and were all yes.
#[derive(Drop)]
pub(crate) struct Kept {
    depths: HashMap<(u32, u32), u32>,
}

impl Model for Kept {
    ghost use Rattle.conversion.specs.Table.{Depths};

    ghost Value = { Depths };

    ghost view = { λ m. m.depths.entries };
}

impl Kept {
    pub(crate) fn new(alloc: Global) -> Kept
        ensures { (t u : ℕ) → yes_at result t u ≡ None }
    {
        Kept {
            depths: HashMap::new(alloc),
        }
    }

    pub(crate) fn get(&self, t: TermId, u: TermId) -> Option<u32>
        ensures { result ≡ yes_at self.now t u }
    {
        self.depths.get(&(t.number(), u.number())).copied()
    }

    pub(crate) fn put(&mut self, t: TermId, u: TermId, depth: u32) -> Result<(), NoMemory>
        ensures { OnOk result (Puts self.old t u depth self.new) }
    {
        self.depths.insert((t.number(), u.number()), depth)?;
        Ok(())
    }
}
