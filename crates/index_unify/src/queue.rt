ghost use Rattle.std.specs.Prelude.{◌≡◌, [], slice_get, OnOk};
ghost use Rattle.index_unify.specs.Queue.{Adds};

use core_terms::{NoMemory, TermId};
use indexmap::IndexSet;
use std::alloc::Global;
use std::marker::Model;

/// Nodes, each with the number of binders around it, that are gone through once, in the order in which
/// they come.
#[derive(Drop)]
pub(crate) struct Queue {
    items: IndexSet<(u32, u32)>,
}

impl Model for Queue {
    ghost use Rattle.std.specs.Prelude.{List};
    ghost use Rattle.index_unify.specs.Queue.{Item};

    ghost Value = { List Item };

    ghost view = { λ q. q.items.keys };
}

impl Queue {
    pub(crate) fn new(alloc: Global) -> Queue
        ensures { result ≡ [] }
    {
        Queue {
            items: IndexSet::new(alloc),
        }
    }

    /// Puts a node at the end, where it is not there yet.
    pub(crate) fn add(&mut self, t: TermId, under: u32) -> Result<(), NoMemory>
        ensures { OnOk result (Adds self.old (t, under) self.new) }
    {
        self.items.insert((t.number(), under))?;
        Ok(())
    }

    /// Item number `at`, counted from 0.
    pub(crate) fn get(&self, at: usize) -> Option<(TermId, u32)>
        ensures { result ≡ slice_get self.now at }
    {
        let all = self.items.as_slice();
        if at < all.len() {
            let item = all[at];
            Some((TermId::new(item.0), item.1))
        } else {
            None
        }
    }
}
