//! Laws of the kernel's reading with the product's own unifier. Each is the contract of a function that does nothing.
//! The statements stand in `specs/Laws.antt`, under the same names.

ghost use Rattle.tree_kernel.specs.Laws.{ExactlyOneTreeOutcome, ExactlyOneDeclOutcome, AcceptedTreeIsTyped, AcceptedDeclIsDerivable};

use unify_rules::laws::answers_unify;

/// A case tree in scope has exactly one outcome.
pub fn exactly_one_tree_outcome()
    ensures { ExactlyOneTreeOutcome }
{}

/// A declaration in scope has exactly one outcome.
pub fn exactly_one_decl_outcome()
    ensures { ExactlyOneDeclOutcome }
{}

/// A case tree that is accepted over a sound signature is typed.
pub fn accepted_tree_is_typed()
    ensures { AcceptedTreeIsTyped }
{
    answers_unify();
}

/// A derivable signature with a declaration that is accepted over it is derivable.
pub fn accepted_decl_is_derivable()
    ensures { AcceptedDeclIsDerivable }
{
    accepted_tree_is_typed();
}
