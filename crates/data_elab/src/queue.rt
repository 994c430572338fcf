//! Ids of terms that are gone through once, in the order in which they come.

ghost use Rattle.std.specs.Prelude.{◌≡◌, [], slice_get, OnOk};
ghost use Rattle.data_elab.specs.Eta.{Adds};

use core_terms::{NoMemory, TermId};
use indexmap::IndexSet;
use std::alloc::Global;
use std::marker::Model;

/// Ids of terms, each once.
#[derive(Drop)]
pub(crate) struct Queue {
    ids: IndexSet<u32>,
}

impl Model for Queue {
    ghost use Rattle.std.specs.Prelude.{ℕ, List};

    ghost Value = { List ℕ };

    ghost view = { λ q. q.ids.keys };
}

impl Queue {
    /// No ids.
    pub(crate) fn new(alloc: Global) -> Queue
        ensures { result ≡ [] }
    {
        Queue {
            ids: IndexSet::new(alloc),
        }
    }

    /// Puts an id to the end, where it is not there yet.
    pub(crate) fn add(&mut self, t: TermId) -> Result<(), NoMemory>
        ensures { OnOk result (Adds self.old t self.new) }
    {
        self.ids.insert(t.number())?;
        Ok(())
    }

    /// Id number `at`, counted from 0.
    pub(crate) fn get(&self, at: usize) -> Option<TermId>
        ensures { result ≡ slice_get self.now at }
    {
        let all = self.ids.as_slice();
        if at < all.len() {
            Some(TermId::new(all[at]))
        } else {
            None
        }
    }
}
