//! What the definitions say of each other.

ghost use Rattle.std.specs.Prelude.{◌≡◌, ◌↔◌};
ghost use Rattle.source_tree.specs.declared.decl.Decl.{Decl};
ghost use Rattle.resolved_tree.specs.declared.resolved.Resolved.{Resolved};
ghost use Rattle.scope_check.specs.Answers.{Checked};
ghost use Rattle.scope_table.specs.Known.{Known};
ghost use Rattle.scope_check.specs.Decls.{resolved};
ghost use Rattle.scope_check.specs.Resolves.{Resolves};
ghost use Rattle.scope_check.specs.Laws.{OneCase};

/// Behind any names so far exactly one case holds of a declaration: it has an answer, what it stands for or one refusal, and no
/// other. The function that the private contracts have gives that answer.
pub fn exactly_one_case()
    ensures each { (k : Known) (d : Decl) → OneCase k d }
    ensures function { (k : Known) (d : Decl) (m : Checked (Resolved × Known)) → Resolves k d m ↔ (resolved k d ≡ m) }
{}
