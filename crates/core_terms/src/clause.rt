use crate::pattern::CorePat;
use crate::telescope::Telescope;
use std::marker::Model;
use term_pool::{NameId, Row, TermId};

/// A written name that stands for a value.
#[derive(Clone, Copy, Debug, PartialEq, Eq, Drop)]
pub struct Solved {
    pub name: NameId,
    pub value: TermId,
    pub ty: TermId,
}

impl Model for Solved {
    ghost use Rattle.std.specs.Prelude.{ℕ};
    ghost use Rattle.core_rules.specs.Signature.{Solved as Of};
    ghost use Rattle.core_terms.specs.Coded.{coded_solved_ids};

    ghost Value = { Of ℕ };

    ghost coded = { coded_solved_ids };

    ghost view = { λ s. record { name = s.name; value = s.value; ty = s.ty } };

    ghost inverse = { λ s. record { name = s.name; value = s.value; ty = s.ty } };
}

/// A dotted pattern with its value and type; `at` counts the dotted patterns of its clause from the left.
#[derive(Clone, Copy, Debug, PartialEq, Eq, Drop)]
pub struct Dot {
    pub at: u32,
    pub value: TermId,
    pub ty: TermId,
}

impl Model for Dot {
    ghost use Rattle.std.specs.Prelude.{ℕ};
    ghost use Rattle.core_rules.specs.Signature.{Dot as Of};
    ghost use Rattle.core_terms.specs.Coded.{coded_dot_ids};

    ghost Value = { Of ℕ };

    ghost coded = { coded_dot_ids };

    ghost view = { λ d. record { at = d.at; value = d.value; ty = d.ty } };

    ghost inverse = { λ d. record { at = d.at; value = d.value; ty = d.ty } };
}

/// The checked left side of a clause. `inserted` counts the patterns that it does not write.
#[derive(Debug, Drop)]
pub struct CheckedLeft {
    pub context: Telescope,
    pub pats: Row<CorePat>,
    pub ty: TermId,
    pub named: Row<Solved>,
    pub dots: Row<Dot>,
    pub inserted: u32,
}

impl Model for CheckedLeft {
    ghost use Rattle.std.specs.Prelude.{ℕ};
    ghost use Rattle.core_rules.specs.Signature.{CheckedLeft as Of};
    ghost use Rattle.core_terms.specs.Coded.{coded_left_ids};
    ghost use Rattle.core_terms.specs.Patterns.{pats_of};

    ghost Value = { Of ℕ };

    ghost coded = { coded_left_ids };

    ghost view = { λ l. record {
      context = l.context;
      pats = pats_of l.pats;
      ty = l.ty;
      named = l.named;
      dots = l.dots;
      inserted = l.inserted;
    } };
}

/// A checked clause. Its right side is missing where a pattern is `()`.
#[derive(Debug, Drop)]
pub struct CoreClause {
    pub left: CheckedLeft,
    pub right: Option<TermId>,
}

impl Model for CoreClause {
    ghost use Rattle.std.specs.Prelude.{ℕ};
    ghost use Rattle.core_rules.specs.Signature.{CoreClause as Of};
    ghost use Rattle.core_rules.specs.StoredSignature.{coded_clause_ids};

    ghost Value = { Of ℕ };

    ghost coded = { coded_clause_ids };

    ghost view = { λ q. record { left = q.left; right = q.right } };
}

/// A constructor: its arguments under the parameters of its family, and the indices at which it ends
/// under both. A record whose source names no constructor has one without a name.
#[derive(Debug, Drop)]
pub struct ConDecl {
    pub name: Option<NameId>,
    pub args: Telescope,
    pub indices: Row<TermId>,
}

impl Model for ConDecl {
    ghost use Rattle.std.specs.Prelude.{ℕ};
    ghost use Rattle.core_rules.specs.Signature.{ConDecl as Of};
    ghost use Rattle.core_terms.specs.Coded.{coded_con_ids};

    ghost Value = { Of ℕ };

    ghost coded = { coded_con_ids };

    ghost view = { λ c. record { name = c.name; args = c.args; indices = c.indices } };
}
