ghost use Rattle.std.specs.Prelude.{◌≡◌, Some, None, MatchOption};
ghost use Rattle.core_rules.specs.Signature.{co_branch, con_branch};
ghost use Rattle.core_terms.specs.TreeView.{co_of, con_of};

use core_terms::{Branch, CoBranch, ConBranch, ConId, FieldId, Tree, Way};

/// The branch of a field.
pub(crate) fn branch_of_field(branches: &[CoBranch], field: FieldId) -> Option<&Tree>
    ensures { MatchOption result
        (co_branch (co_of branches.now) field ≡ None)
        (λ t. co_branch (co_of branches.now) field ≡ Some t.now) }
{
    let mut left = branches;
    while let [branch, rest @ ..] = left {
        if branch.field == field {
            return Some(&branch.rest);
        }
        left = rest;
    }
    None
}

/// The branch of a constructor, where it goes on.
pub(crate) fn branch_of_con(branches: &[ConBranch], con: ConId) -> Option<(&Branch, &Tree)>
    ensures { MatchOption result
        (con_branch (con_of branches.now) con ≡ None)
        (λ b. con_branch (con_of branches.now) con ≡ Some (b.0.now, b.1.now)) }
{
    let mut left = branches;
    while let [branch, rest @ ..] = left {
        if branch.con == con {
            return match &branch.way {
                Way::Refuted => None,
                Way::Goes { branch, rest } => Some((branch, rest)),
            };
        }
        left = rest;
    }
    None
}
