ghost use Rattle.std.specs.Prelude.{◌≡◌, [], ◌∷◌, ◌++◌, OnOk};

use sqlite_items::Items;
use std::alloc::{AllocError, Global};
use std::marker::Model;

/// A list that grows, and is taken apart.
#[derive(Drop)]
pub struct Grown<T> {
    items: Vec<T>,
}

impl<T> Model for Grown<T> {
    ghost use Rattle.std.specs.Prelude.{List};
    ghost use Rattle.std.specs.Coded.{coded_list};

    ghost Value = { List T };

    ghost coded = { coded_list T.code };

    ghost view = { λ m. m.items.items };
}

impl<T> Grown<T> {
    pub fn new(alloc: Global) -> Grown<T>
        ensures { result ≡ [] }
    {
        Grown {
            items: Vec::new(alloc),
        }
    }

    pub fn into_vec(self) -> Vec<T>
        ensures { result.items ≡ self }
    {
        let Grown { items } = self;
        items
    }

    pub fn into_items(self) -> Items<T>
        ensures { result ≡ self }
    {
        Items::from_vec(self.into_vec())
    }
}

impl<T: Drop> Grown<T> {
    pub fn push(&mut self, item: T) -> Result<(), AllocError>
        ensures { OnOk result (self.new ≡ self.old ++ item ∷ []) }
    {
        self.items.push(item)?;
        Ok(())
    }
}
