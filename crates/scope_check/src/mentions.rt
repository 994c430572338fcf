ghost use Rattle.std.specs.Prelude.{◌≡◌, ◌++◌, [], ◌∷◌, map, OnOk};
ghost use Rattle.source_tree.specs.declared.expr.Expr.{out-Expr};
ghost use Rattle.source_tree.specs.declared.expr.Arg.{out-Arg};
ghost use Rattle.source_tree.specs.declared.expr.Binder.{out-Binder};
ghost use Rattle.source_tree.specs.declared.expr.FieldValue.{out-FieldValue};
ghost use Rattle.source_tree.specs.declared.pattern.Pattern.{out-Pattern};
ghost use Rattle.scope_check.specs.Mentions as spec;

use el_outside::NoMemory;
use source_tree::{
    Arg, Binder, Clause, Decl, Expr, FieldValue, Name, Pattern, RecordItem, Signature,
};
use std::alloc::Global;
use std::marker::Model;

/// The texts of a declaration that get numbers. Contracts see their list.
#[derive(Drop)]
pub struct Mentions<'a> {
    texts: Vec<&'a str>,
}

impl<'a> Model for Mentions<'a> {
    ghost use Rattle.std.specs.Prelude.{ℕ, List, map};

    ghost Value = { List (List ℕ) };

    ghost view = { λ m. map (λ t. t.now) m.texts.items };
}

impl<'a> Mentions<'a> {
    pub fn new(alloc: Global) -> Mentions<'a>
        ensures { result ≡ [] }
    {
        Mentions {
            texts: Vec::new(alloc),
        }
    }

    pub fn texts(&self) -> &[&'a str]
        ensures { map (λ t. t.now) result.now ≡ self.now }
    {
        self.texts.as_slice()
    }

    fn push(&mut self, name: &'a Name) -> Result<(), NoMemory>
        ensures { OnOk result (self.new ≡ self.old ++ name.now.text ∷ []) }
    {
        let Ok(()) = self.texts.push(name.text.as_str()) else {
            return Err(NoMemory);
        };
        Ok(())
    }

    fn names(&mut self, all: &'a [Name]) -> Result<(), NoMemory>
        ensures { OnOk result (self.new ≡ self.old ++ spec.texts all.now) }
    {
        for name in all {
            self.push(name)?;
        }
        Ok(())
    }

    #[cycle(mentions)]
    pub fn expr(&mut self, found: &'a Expr) -> Result<(), NoMemory>
        ensures { OnOk result (self.new ≡ self.old ++ spec.in_expr found.now) }
    {
        self.expr_in(found)
    }

    #[cycle(mentions)]
    fn expr_in(&mut self, found: &'a Expr) -> Result<(), NoMemory>
        ensures { OnOk result (self.new ≡ self.old ++ spec.expr_in (out-Expr found.now)) }
    {
        match found {
            Expr::Name(_)
            | Expr::Qualified(_)
            | Expr::SetLevel(_, _)
            | Expr::Hole(_)
            | Expr::Underscore(_) => Ok(()),
            Expr::App(_, inner, all) => {
                self.expr(inner.get())?;
                self.args(all.as_slice())
            }
            Expr::Pi(_, all, body) | Expr::Forall(_, all, body) | Expr::Lambda(_, all, body) => {
                self.binders(all.as_slice())?;
                self.expr(body.get())
            }
            Expr::Arrow(_, left, right) => {
                self.expr(left.get())?;
                self.expr(right.get())
            }
            Expr::Record(_, all) => self.values(all.as_slice()),
        }
    }

    #[cycle(mentions)]
    fn args(&mut self, all: &'a [Arg]) -> Result<(), NoMemory>
        ensures { OnOk result (self.new ≡ self.old ++ spec.all_of (map spec.in_arg all.now)) }
    {
        for one in all {
            self.arg(one)?;
        }
        Ok(())
    }

    #[cycle(mentions)]
    fn arg(&mut self, found: &'a Arg) -> Result<(), NoMemory>
        ensures { OnOk result (self.new ≡ self.old ++ spec.in_arg found.now) }
    {
        self.arg_in(found)
    }

    #[cycle(mentions)]
    fn arg_in(&mut self, found: &'a Arg) -> Result<(), NoMemory>
        ensures { OnOk result (self.new ≡ self.old ++ spec.arg_in (out-Arg found.now)) }
    {
        match found {
            Arg::Plain(value) | Arg::Implicit(_, value) => self.expr(value),
            Arg::Named(_, name, value) => {
                self.push(name)?;
                self.expr(value)
            }
            Arg::Project(_, _) | Arg::ProjectQualified(_, _) => Ok(()),
        }
    }

    #[cycle(mentions)]
    pub fn binders(&mut self, all: &'a [Binder]) -> Result<(), NoMemory>
        ensures { OnOk result (self.new ≡ self.old ++ spec.all_of (map spec.in_binder all.now)) }
    {
        for one in all {
            self.binder(one)?;
        }
        Ok(())
    }

    #[cycle(mentions)]
    fn binder(&mut self, found: &'a Binder) -> Result<(), NoMemory>
        ensures { OnOk result (self.new ≡ self.old ++ spec.in_binder found.now) }
    {
        self.binder_in(found)
    }

    #[cycle(mentions)]
    fn binder_in(&mut self, found: &'a Binder) -> Result<(), NoMemory>
        ensures { OnOk result (self.new ≡ self.old ++ spec.binder_in (out-Binder found.now)) }
    {
        match found {
            Binder::Explicit(_, names, ty) | Binder::Implicit(_, names, ty) => {
                self.names(names.as_slice())?;
                self.expr(ty.get())
            }
            Binder::Name(name) | Binder::Braced(_, name) => self.push(name),
            Binder::Underscore(_) => Ok(()),
        }
    }

    #[cycle(mentions)]
    fn values(&mut self, all: &'a [FieldValue]) -> Result<(), NoMemory>
        ensures { OnOk result (self.new ≡ self.old ++ spec.all_of (map spec.in_value all.now)) }
    {
        for one in all {
            self.value(one)?;
        }
        Ok(())
    }

    #[cycle(mentions)]
    fn value(&mut self, found: &'a FieldValue) -> Result<(), NoMemory>
        ensures { OnOk result (self.new ≡ self.old ++ spec.in_value found.now) }
    {
        self.value_in(found)
    }

    #[cycle(mentions)]
    fn value_in(&mut self, found: &'a FieldValue) -> Result<(), NoMemory>
        ensures { OnOk result (self.new ≡ self.old ++ spec.value_in (out-FieldValue found.now)) }
    {
        self.push(&found.name)?;
        self.expr(&found.value)
    }

    #[cycle(patterns)]
    fn patterns(&mut self, all: &'a [Pattern]) -> Result<(), NoMemory>
        ensures { OnOk result (self.new ≡ self.old ++ spec.all_of (map spec.in_pattern all.now)) }
    {
        for one in all {
            self.pattern(one)?;
        }
        Ok(())
    }

    #[cycle(patterns)]
    fn pattern(&mut self, found: &'a Pattern) -> Result<(), NoMemory>
        ensures { OnOk result (self.new ≡ self.old ++ spec.in_pattern found.now) }
    {
        self.pattern_in(found)
    }

    #[cycle(patterns)]
    fn pattern_in(&mut self, found: &'a Pattern) -> Result<(), NoMemory>
        ensures { OnOk result (self.new ≡ self.old ++ spec.pattern_in (out-Pattern found.now)) }
    {
        match found {
            Pattern::Implicit(_, inner) => self.pattern(inner.get()),
            Pattern::Named(_, name, inner) => {
                self.push(name)?;
                self.pattern(inner.get())
            }
            Pattern::Name(_, name, all) => {
                self.push(name)?;
                self.patterns(all.as_slice())
            }
            Pattern::Dotted(_, value) => self.expr(value),
            Pattern::Project(_, _)
            | Pattern::ProjectQualified(_, _)
            | Pattern::Underscore(_)
            | Pattern::Absurd(_) => Ok(()),
        }
    }

    fn signature(&mut self, found: &'a Signature) -> Result<(), NoMemory>
        ensures { OnOk result (self.new ≡ self.old ++ spec.in_signature found.now) }
    {
        self.names(found.names.as_slice())?;
        self.expr(&found.ty)
    }

    fn signatures(&mut self, all: &'a [Signature]) -> Result<(), NoMemory>
        ensures { OnOk result (self.new ≡ self.old ++ spec.all_of (map spec.in_signature all.now)) }
    {
        for one in all {
            self.signature(one)?;
        }
        Ok(())
    }

    fn clause(&mut self, found: &'a Clause) -> Result<(), NoMemory>
        ensures { OnOk result (self.new ≡ self.old ++ spec.in_clause found.now) }
    {
        self.patterns(found.patterns.as_slice())?;
        match &found.right {
            Some(right) => self.expr(right),
            None => Ok(()),
        }
    }

    fn clauses(&mut self, all: &'a [Clause]) -> Result<(), NoMemory>
        ensures { OnOk result (self.new ≡ self.old ++ spec.all_of (map spec.in_clause all.now)) }
    {
        for one in all {
            self.clause(one)?;
        }
        Ok(())
    }

    fn item(&mut self, found: &'a RecordItem) -> Result<(), NoMemory>
        ensures { OnOk result (self.new ≡ self.old ++ spec.in_item found.now) }
    {
        match found {
            RecordItem::Inductive(_) | RecordItem::Coinductive(_) => Ok(()),
            RecordItem::Constructor(_, name) => self.push(name),
            RecordItem::Field(_, all) => self.signatures(all.as_slice()),
        }
    }

    fn items(&mut self, all: &'a [RecordItem]) -> Result<(), NoMemory>
        ensures { OnOk result (self.new ≡ self.old ++ spec.all_of (map spec.in_item all.now)) }
    {
        for one in all {
            self.item(one)?;
        }
        Ok(())
    }

    /// The texts of the declaration, in the order of the text.
    pub fn decl(&mut self, found: &'a Decl) -> Result<(), NoMemory>
        ensures { OnOk result (self.new ≡ self.old ++ spec.in_decl found.now) }
    {
        match found {
            Decl::Postulate(_, all) => self.signatures(all.as_slice()),
            Decl::Function(_, head, all) => {
                self.signature(head)?;
                self.clauses(all.as_slice())
            }
            Decl::Clause(_) | Decl::Open(_, _, _) => Ok(()),
            Decl::Data(_, name, around, ty, all) => {
                self.push(name)?;
                self.binders(around.as_slice())?;
                self.expr(ty)?;
                self.signatures(all.as_slice())
            }
            Decl::Record(_, name, around, ty, all) => {
                self.push(name)?;
                self.binders(around.as_slice())?;
                self.expr(ty)?;
                self.items(all.as_slice())
            }
        }
    }
}
