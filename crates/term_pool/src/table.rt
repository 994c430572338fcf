ghost use Rattle.std.specs.Prelude.{◌≡◌, ℕ, None, OnOk};
ghost use Rattle.term_pool.specs.Table.{found, Puts};

use crate::NoMemory;
use crate::ids::TermId;
use std::alloc::Global;
use std::collections::HashMap;
use std::marker::Model;

/// What one call has made of each node, by the node's id and the number of binders around it.
#[derive(Drop)]
pub struct Table {
    made: HashMap<(u32, u32), TermId>,
}

impl Model for Table {
    ghost use Rattle.std.specs.Prelude.{ℕ, List};

    ghost Value = { List ((ℕ × ℕ) × ℕ) };

    ghost view = { λ m. m.made.entries };
}

impl Table {
    /// Nothing is made yet.
    pub fn new(alloc: Global) -> Table
        ensures { (t d : ℕ) → found result t d ≡ None }
    {
        Table {
            made: HashMap::new(alloc),
        }
    }

    /// What was made of the node `t` under so many binders.
    pub fn get(&self, t: TermId, under: u32) -> Option<TermId>
        ensures { result ≡ found self.now t under }
    {
        self.made.get(&(t.number(), under)).copied()
    }

    /// Keeps what was made of it.
    pub fn put(&mut self, t: TermId, under: u32, made: TermId) -> Result<(), NoMemory>
        ensures { OnOk result (Puts self.old t under made self.new) }
    {
        self.made.insert((t.number(), under), made)?;
        Ok(())
    }
}
