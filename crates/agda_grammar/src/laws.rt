//! What the definitions say of each other.

ghost use Rattle.std.specs.Prelude.{◌≡◌, ◌≢◌, ℕ, List, [], length, Result, Err};
ghost use Rattle.el_outside.specs.declared.place.Pos.{Pos};
ghost use Rattle.source_tree.specs.declared.expr.Expr.{Expr};
ghost use Rattle.source_tree.specs.declared.decl.File.{File};
ghost use Rattle.agda_grammar.specs.declared.sign.Sign.{Sign};
ghost use Rattle.agda_grammar.specs.declared.error.ParseError.{ParseError};
ghost use Rattle.agda_grammar.specs.declared.error.ParseError.TheVariants.{NoMemory};
ghost use Rattle.agda_grammar.specs.declared.error.ParseKind.{ParseKind};
ghost use Rattle.agda_grammar.specs.Grammar.{Derivation, then, tree};
ghost use Rattle.agda_grammar.specs.Declarations.{FileDerivation, file_then, file_tree};
ghost use Rattle.agda_grammar.specs.Nesting.{nestings, shallow, leading, origin};
ghost use Rattle.agda_grammar.specs.Reading.{IsRefused, Settles};
ghost use Rattle.agda_grammar.specs.Depths.{depths};
ghost use Rattle.agda_grammar.specs.FileDepths.{file_depths};

/// The count of nesting over a list of signs is the nesting in each derivation of an expression: by parentheses, braces,
/// bodies and right sides.
pub fn nesting_of_derivations()
    ensures each { (d : Derivation) → nestings origin (then d []) ≡ depths d 0 [] }
    ensures first_too_deep { (d : Derivation) → shallow origin (then d []) ≡ leading (depths d 0 []) }
{}

/// The same of a file, each item of which begins at nesting 0.
pub fn nesting_of_files()
    ensures each { (d : FileDerivation) → nestings origin (file_then d []) ≡ file_depths d [] }
    ensures first_too_deep { (d : FileDerivation) → shallow origin (file_then d []) ≡ leading (file_depths d []) }
{}

/// What is refused has no derivation in which nothing is nested too deep.
pub fn refused_is_underivable()
    ensures expressions { (text : List ℕ) (i : List Sign) (kind : ParseKind) (at : Pos) → IsRefused then text i kind at → (d : Derivation) → i ≡ then d [] → shallow origin i ≢ length i }
    ensures files { (text : List ℕ) (i : List Sign) (kind : ParseKind) (at : Pos) → IsRefused file_then text i kind at → (d : FileDerivation) → i ≡ file_then d [] → shallow origin i ≢ length i }
{}

/// There is one answer at most: one tree, or one kind and one place of a refusal.
pub fn one_answer()
    ensures expressions { (text : List ℕ) (i : List Sign) (r s : Result Expr ParseError) → r ≢ Err NoMemory → s ≢ Err NoMemory → Settles then (tree text) text i r → Settles then (tree text) text i s → r ≡ s }
    ensures files { (text : List ℕ) (i : List Sign) (r s : Result File ParseError) → r ≢ Err NoMemory → s ≢ Err NoMemory → Settles file_then (file_tree text) text i r → Settles file_then (file_tree text) text i s → r ≡ s }
{}
