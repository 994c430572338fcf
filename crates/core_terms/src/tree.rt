use crate::telescope::Telescope;
use std::marker::Model;
use term_pool::{ConId, FamId, FieldId, Row, TermId};

/// A case tree. Contracts see the tree of the rules over ids.
#[cycle(tree)]
#[derive(Debug, Drop)]
pub struct Tree {
    pub step: Step,
}

/// The outermost step of a case tree. `Absurd` is a split all of whose constructors are refuted.
#[cycle(tree)]
#[derive(Debug, Drop)]
pub enum Step {
    Leaf {
        body: TermId,
        clause: u32,
    },
    Intro {
        rest: Box<Tree>,
    },
    Cosplit {
        branches: Vec<CoBranch>,
    },
    Split {
        at: u32,
        branches: Vec<ConBranch>,
    },
    RecordSplit {
        at: u32,
        fam: FamId,
        rest: Box<Tree>,
    },
    Absurd {
        at: u32,
    },
}

/// The branch of a field.
#[cycle(tree)]
#[derive(Debug, Drop)]
pub struct CoBranch {
    pub field: FieldId,
    pub rest: Tree,
}

/// The branch of a constructor.
#[cycle(tree)]
#[derive(Debug, Drop)]
pub struct ConBranch {
    pub con: ConId,
    pub way: Way,
}

/// Whether a branch is refuted by its indices, or how it goes on.
#[cycle(tree)]
#[derive(Debug, Drop)]
pub enum Way {
    Refuted,
    Goes { branch: Branch, rest: Tree },
}

/// What is below a split on a constructor: its context; the value of each variable of the context that
/// the constructor's arguments extend; and for each variable of this context the one of that context
/// that it is. Both stand innermost first.
#[derive(Debug, Drop)]
pub struct Branch {
    pub context: Telescope,
    pub subst: Row<TermId>,
    pub keep: Row<u32>,
}

impl Model for Branch {
    ghost use Rattle.std.specs.Prelude.{ℕ};
    ghost use Rattle.core_rules.specs.Signature.{Branch as Of};
    ghost use Rattle.core_terms.specs.Coded.{coded_branch};

    ghost Value = { Of ℕ };

    ghost coded = { coded_branch };

    ghost view = { λ b. record { context = b.context; values = b.subst; keep = b.keep } };
}

impl Model for Tree {
    ghost use Rattle.std.specs.Prelude.{ℕ};
    ghost use Rattle.core_rules.specs.Signature.{Tree as Of};
    ghost use Rattle.core_rules.specs.StoredSignature.{coded_tree_ids};
    ghost use Rattle.core_terms.specs.Sizes.{tree_size};

    ghost Value = { Of ℕ };

    ghost coded = { coded_tree_ids };

    ghost use Rattle.core_terms.specs.TreeView.{step_of};

    ghost view = { λ t. step_of t.step };

    ghost size = { tree_size };

    ghost use Rattle.core_terms.specs.TreeFalls.{tree_falls};

    ghost size_decreases = { λ t h. tree_falls t };
}
