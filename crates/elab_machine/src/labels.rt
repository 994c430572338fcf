//! The labels of a record's values, each looked up without a search.

ghost use Rattle.std.specs.Prelude.{◌≡◌, ℕ, IfOk};
ghost use Rattle.elab_machine.specs.Labels.{Puts, label_of, labelled};

use core_terms::{NameId, NoMemory};
use resolved_tree::ResolvedValue;
use std::alloc::Global;
use std::collections::HashMap;
use std::marker::Model;

/// Where a label stands first among values, and whether it stands there alone.
#[derive(Clone, Copy, Drop)]
pub(crate) struct Label {
    pub first: usize,
    pub once: bool,
}

/// The labels of values.
#[derive(Drop)]
pub(crate) struct Labels {
    at: HashMap<u32, Label>,
}

impl Model for Labels {
    ghost use Rattle.std.specs.Prelude.{List, ℕ};
    ghost use Rattle.elab_machine.specs.declared.labels.Label.{Label};

    ghost Value = { List (ℕ × Label) };

    ghost view = { λ m. m.at.entries };
}

impl Labels {
    /// The labels of these values.
    pub(crate) fn of(alloc: Global, values: &[ResolvedValue]) -> Result<Labels, NoMemory>
        ensures { IfOk result (λ m. (x : ℕ) → labelled m x ≡ label_of x 0 values.now) }
    {
        let mut labels = Labels {
            at: HashMap::new(alloc),
        };
        let mut left = values.len();
        while left > 0 {
            left -= 1;
            let name = values[left].name.id;
            let once = labels.get(name).is_none();
            labels.put(name, Label { first: left, once })?;
        }
        Ok(labels)
    }

    /// A label of this name.
    pub(crate) fn get(&self, name: NameId) -> Option<Label>
        ensures { result ≡ labelled self.now name }
    {
        self.at.get(&name.number()).copied()
    }

    /// Keeps the label of a name.
    fn put(&mut self, name: NameId, label: Label) -> Result<(), NoMemory>
        ensures { IfOk result (λ o. Puts self.old name label self.new) }
    {
        self.at.insert(name.number(), label)?;
        Ok(())
    }
}
