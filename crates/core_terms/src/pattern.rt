use std::marker::Model;
use term_pool::{ConId, FieldId, NameId, TermId};

/// Where a pattern comes from. `Variable` is a written variable, and `fresh` says that its name is
/// new, that no clause has it.
#[derive(Clone, Copy, Debug, PartialEq, Eq, Drop)]
pub enum Origin {
    Written,
    Variable { name: NameId, fresh: bool },
    Underscore,
    Inserted,
}

/// How a pattern is written. `Named` is a pattern written `{x = p}`.
#[derive(Clone, Copy, Debug, PartialEq, Eq, Drop)]
pub enum Braces {
    Without,
    Plain,
    Named(NameId),
}

/// A checked pattern.
#[cycle(pattern)]
#[derive(Debug, Drop)]
pub struct CorePat {
    pub shape: PatShape,
    pub origin: Origin,
    pub braces: Braces,
}

/// A variable of the context, a solved variable, a dotted pattern, a constructor with its patterns,
/// `()`, or a projection.
#[cycle(pattern)]
#[derive(Debug, Drop)]
pub enum PatShape {
    Var(u32),
    Solved { value: TermId },
    Dotted { value: TermId },
    Con { con: ConId, pats: Vec<CorePat> },
    Absurd,
    Projection(FieldId),
}

impl Model for CorePat {
    ghost use Rattle.std.specs.Prelude.{ℕ};
    ghost use Rattle.core_rules.specs.Signature.{CorePat as Of};
    ghost use Rattle.core_terms.specs.Coded.{coded_pat};
    ghost use Rattle.core_terms.specs.Sizes.{pat_size};

    ghost Value = { Of ℕ };

    ghost coded = { coded_pat };

    ghost use Rattle.core_terms.specs.Pattern.{pat_of};

    ghost view = { λ p. pat_of p };

    ghost size = { pat_size };

    ghost use Rattle.core_terms.specs.PatternFalls.{pat_falls};

    ghost size_decreases = { λ p h. pat_falls p };
}
