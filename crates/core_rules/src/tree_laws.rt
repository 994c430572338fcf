//! Laws of typed trees. Each is the contract of a function that does nothing.
//! The statements stand in `specs/TreeLaws.antt`, under the same names.

ghost use Rattle.core_rules.specs.TreeLaws.{TypedTreeInScope, TypedTreeRegular, TypedTreesRegular, TypedHeadFormConverts, TypedYesConverts, DerivableIsSound, OpenedIsSound, SoundIsRegular, SoundHeadFormConverts, SoundYesConverts, DerivableHeadFormConverts, DerivableYesConverts};

/// A typed tree is in scope.
pub fn typed_tree_in_scope()
    ensures { TypedTreeInScope }
{}

/// A typed tree is regular.
pub fn typed_tree_regular()
    ensures { TypedTreeRegular }
{}

/// A signature whose trees are typed has regular trees.
pub fn typed_trees_regular()
    ensures { TypedTreesRegular }
{}

/// In a signature in scope whose trees are typed a term is convertible to the head form that it comes to, with solved
/// metavariables replaced.
pub fn typed_head_form_converts()
    ensures { TypedHeadFormConverts }
{}

/// In a signature in scope whose trees are typed a yes implies that the two terms are convertible, with solved
/// metavariables replaced.
pub fn typed_yes_converts()
    ensures { TypedYesConverts }
{}

/// A derivable signature is sound: in scope, with typed trees, without metavariables.
pub fn derivable_is_sound()
    ensures { DerivableIsSound }
{}

/// So is one that goes on with a function that is known without its clauses and tree.
pub fn opened_is_sound()
    ensures { OpenedIsSound }
{}

/// A sound signature has regular trees.
pub fn sound_is_regular()
    ensures { SoundIsRegular }
{}

/// In a sound signature a term is convertible to the head form that it comes to, with solved metavariables replaced.
pub fn sound_head_form_converts()
    ensures { SoundHeadFormConverts }
{}

/// In a sound signature a yes implies that the two terms are convertible, with solved metavariables replaced.
pub fn sound_yes_converts()
    ensures { SoundYesConverts }
{}

/// In a derivable signature a term is convertible to the head form that it comes to.
pub fn derivable_head_form_converts()
    ensures { DerivableHeadFormConverts }
{}

/// In a derivable signature a yes implies that the two terms are convertible.
pub fn derivable_yes_converts()
    ensures { DerivableYesConverts }
{}
