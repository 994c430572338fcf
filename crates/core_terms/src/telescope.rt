use core_rules::Flag;
use std::marker::Model;
use term_pool::{NameId, Row, TermId};

/// One variable with its type.
#[derive(Clone, Copy, Debug, PartialEq, Eq)]
pub struct Entry {
    pub name: NameId,
    pub flag: Flag,
    pub ty: TermId,
}

impl Model for Entry {
    ghost use Rattle.std.specs.Prelude.{ℕ};
    ghost use Rattle.core_rules.specs.Signature.{Entry as Of};
    ghost use Rattle.core_rules.specs.StoredSignature.{coded_entry_ids};

    ghost Value = { Of ℕ };

    ghost coded = { coded_entry_ids };

    ghost view = { λ e. record { name = e.name; flag = e.flag; ty = e.ty } };

    ghost inverse = { λ e. record { name = e.name; flag = e.flag; ty = e.ty } };
}

/// Variables with their types, the outermost first: each type stands under the entries before it.
/// Contracts see the list of the entries.
#[derive(Debug, Drop)]
pub struct Telescope {
    pub entries: Row<Entry>,
}

impl Model for Telescope {
    ghost use Rattle.std.specs.Prelude.{ℕ, List};
    ghost use Rattle.core_rules.specs.Signature.{Entry as Of};
    ghost use Rattle.core_rules.specs.StoredSignature.{coded_entry_ids};
    ghost use Rattle.std.specs.Coded.{coded_list};

    ghost Value = { List (Of ℕ) };

    ghost coded = { coded_list coded_entry_ids };

    ghost view = { λ t. t.entries };
}
