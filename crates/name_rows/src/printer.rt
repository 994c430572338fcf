use el_outside::NoMemory;
use scope_check::{
    Resolved, ResolvedArg, ResolvedBinder, ResolvedClause, ResolvedExpr, ResolvedItem,
    ResolvedName, ResolvedPattern, ResolvedSignature, ResolvedValue,
};
use std::alloc::Global;
use std::fmt::Write;

/// Writes resolved trees as text: `v0` is the innermost variable, `d0`, `t0`, `c0` and `f0` are the first definition, type,
/// constructor and field, and `n1` is the name of number 1.
#[derive(Drop)]
pub struct Printer {
    out: String,
    alloc: Global,
}

/// An expression as text.
fn written(alloc: Global, found: &ResolvedExpr) -> Result<String, NoMemory> {
    let mut printer = Printer::new(alloc);
    printer.expr(found)?;
    Ok(printer.out)
}

fn written_copy(alloc: Global, found: &ResolvedExpr) -> Result<String, NoMemory> {
    let copy = found.copy(alloc)?;
    written(alloc, &copy)
}

/// What an expression with binders begins with.
fn opening(found: &ResolvedExpr) -> &'static str {
    match found {
        ResolvedExpr::Forall(_, _, _) => "(∀ ",
        ResolvedExpr::Lambda(_, _, _) => "(λ ",
        _ => "(",
    }
}

impl Printer {
    pub fn new(alloc: Global) -> Printer {
        Printer {
            out: String::new(alloc),
            alloc,
        }
    }

    pub fn into_text(self) -> String {
        self.out
    }

    fn text(&mut self, text: &str) -> Result<(), NoMemory> {
        self.out.push_str(text)?;
        Ok(())
    }

    fn number(&mut self, letter: &str, number: u32) -> Result<(), NoMemory> {
        write!(self.out, "{letter}{number}")?;
        Ok(())
    }

    fn name(&mut self, name: &ResolvedName) -> Result<(), NoMemory> {
        self.number("n", name.id.number())
    }

    fn names(&mut self, all: &[ResolvedName]) -> Result<(), NoMemory> {
        for name in all {
            self.name(name)?;
            self.text(" ")?;
        }
        Ok(())
    }

    #[cycle(expr)]
    fn binders(&mut self, all: &[ResolvedBinder]) -> Result<(), NoMemory> {
        for one in all {
            self.binder(one)?;
            self.text(" ")?;
        }
        Ok(())
    }

    /// What typed names begin with, and the names.
    fn group(&mut self, front: &str, all: &[ResolvedName]) -> Result<(), NoMemory> {
        self.text(front)?;
        self.names(all)?;
        self.text(": ")
    }

    fn braced_name(&mut self, name: &ResolvedName) -> Result<(), NoMemory> {
        self.text("{")?;
        self.name(name)?;
        self.text("}")
    }

    #[cycle(expr)]
    fn binder(&mut self, one: &ResolvedBinder) -> Result<(), NoMemory> {
        match one {
            ResolvedBinder::Explicit(_, all, ty) => {
                self.group("(", all.as_slice())?;
                self.closed(ty.get(), ")")
            }
            ResolvedBinder::Implicit(_, all, ty) => {
                self.group("{", all.as_slice())?;
                self.closed(ty.get(), "}")
            }
            ResolvedBinder::Name(name) => self.name(name),
            ResolvedBinder::Braced(_, name) => self.braced_name(name),
            ResolvedBinder::Underscore(_) => self.text("_"),
        }
    }

    #[cycle(expr)]
    fn args(&mut self, all: &[ResolvedArg]) -> Result<(), NoMemory> {
        for one in all {
            self.text(" ")?;
            self.arg(one)?;
        }
        Ok(())
    }

    fn label(&mut self, name: &ResolvedName) -> Result<(), NoMemory> {
        self.text("{")?;
        self.name(name)?;
        self.text(" = ")
    }

    #[cycle(expr)]
    fn arg(&mut self, one: &ResolvedArg) -> Result<(), NoMemory> {
        match one {
            ResolvedArg::Plain(value) => self.expr(value),
            ResolvedArg::Implicit(_, value) => {
                self.text("{")?;
                self.closed(value, "}")
            }
            ResolvedArg::Named(_, name, value) => {
                self.label(name)?;
                self.closed(value, "}")
            }
            ResolvedArg::Project(_, field) => self.number(".f", field.number()),
        }
    }

    fn value_name(&mut self, name: &ResolvedName) -> Result<(), NoMemory> {
        self.text(" ")?;
        self.name(name)?;
        self.text(" = ")
    }

    #[cycle(expr)]
    fn values(&mut self, all: &[ResolvedValue]) -> Result<(), NoMemory> {
        for one in all {
            self.value_name(&one.name)?;
            self.closed(&one.value, ";")?;
        }
        Ok(())
    }

    /// An expression, and what comes after it.
    #[cycle(expr)]
    fn closed(&mut self, value: &ResolvedExpr, end: &str) -> Result<(), NoMemory> {
        self.expr(value)?;
        self.text(end)
    }

    /// What an expression with binders begins with, and the binders.
    #[cycle(expr)]
    fn around(&mut self, front: &str, all: &[ResolvedBinder]) -> Result<(), NoMemory> {
        self.text(front)?;
        self.binders(all)?;
        self.text("→ ")
    }

    /// The arguments of an application.
    #[cycle(expr)]
    fn rest(&mut self, all: &[ResolvedArg]) -> Result<(), NoMemory> {
        self.args(all)?;
        self.text(")")
    }

    #[cycle(expr)]
    fn record(&mut self, all: &[ResolvedValue]) -> Result<(), NoMemory> {
        self.text("record {")?;
        self.values(all)?;
        self.text("}")
    }

    #[cycle(expr)]
    fn expr(&mut self, found: &ResolvedExpr) -> Result<(), NoMemory> {
        match found {
            ResolvedExpr::Pi(_, around, body)
            | ResolvedExpr::Forall(_, around, body)
            | ResolvedExpr::Lambda(_, around, body) => {
                self.around(opening(found), around.as_slice())?;
                self.closed(body.get(), ")")
            }
            ResolvedExpr::Arrow(_, left, right) => {
                self.text("(")?;
                self.closed(left.get(), " → ")?;
                self.closed(right.get(), ")")
            }
            ResolvedExpr::App(_, head, all) => {
                self.text("(")?;
                self.expr(head.get())?;
                self.rest(all.as_slice())
            }
            ResolvedExpr::Variable(_, index) => self.number("v", *index),
            ResolvedExpr::Def(_, def) => self.number("d", def.number()),
            ResolvedExpr::Family(_, family) => self.number("t", family.number()),
            ResolvedExpr::Con(_, con) => self.number("c", con.number()),
            ResolvedExpr::SetLevel(_, level) => self.number("Set", level.number()),
            ResolvedExpr::Hole(_) => self.text("?"),
            ResolvedExpr::Underscore(_) => self.text("_"),
            ResolvedExpr::Record(_, all) => self.record(all.as_slice()),
        }
    }

    /// An expression that stands in no other one. Its copy is written alike.
    pub fn whole(&mut self, found: &ResolvedExpr) -> Result<(), NoMemory> {
        let one = written(self.alloc, found)?;
        let copy = written_copy(self.alloc, found)?;
        if one.as_str() == copy.as_str() {
            self.text(one.as_str())
        } else {
            self.text("another tree")
        }
    }

    #[cycle(pattern)]
    fn patterns(&mut self, all: &[ResolvedPattern]) -> Result<(), NoMemory> {
        for one in all {
            self.text(" ")?;
            self.pattern(one)?;
        }
        Ok(())
    }

    #[cycle(pattern)]
    fn braced_pattern(&mut self, inner: &ResolvedPattern) -> Result<(), NoMemory> {
        self.pattern(inner)?;
        self.text("}")
    }

    fn dotted(&mut self, value: &ResolvedExpr) -> Result<(), NoMemory> {
        self.text(".[")?;
        self.whole(value)?;
        self.text("]")
    }

    #[cycle(pattern)]
    pub fn pattern(&mut self, one: &ResolvedPattern) -> Result<(), NoMemory> {
        match one {
            ResolvedPattern::Implicit(_, inner) => {
                self.text("{")?;
                self.braced_pattern(inner.get())
            }
            ResolvedPattern::Named(_, name, inner) => {
                self.label(name)?;
                self.braced_pattern(inner.get())
            }
            ResolvedPattern::Project(_, field) => self.number(".f", field.number()),
            ResolvedPattern::Variable(name) => self.name(name),
            ResolvedPattern::Con(_, con, all) => {
                self.number("(c", con.number())?;
                self.patterns(all.as_slice())?;
                self.text(")")
            }
            ResolvedPattern::Underscore(_) => self.text("_"),
            ResolvedPattern::Absurd(_) => self.text("()"),
            ResolvedPattern::Dotted(_, value) => self.dotted(value),
        }
    }

    fn signature(&mut self, one: &ResolvedSignature) -> Result<(), NoMemory> {
        self.names(one.names.as_slice())?;
        self.text(": ")?;
        self.whole(&one.ty)?;
        self.text(";")
    }

    fn signatures(&mut self, all: &[ResolvedSignature]) -> Result<(), NoMemory> {
        for one in all {
            self.text(" ")?;
            self.signature(one)?;
        }
        Ok(())
    }

    fn right(&mut self, right: &Option<ResolvedExpr>) -> Result<(), NoMemory> {
        if let Some(right) = right {
            self.text(" = ")?;
            self.whole(right)?;
        }
        Ok(())
    }

    fn clause(&mut self, one: &ResolvedClause) -> Result<(), NoMemory> {
        self.number(" d", one.function.number())?;
        self.patterns(one.patterns.as_slice())?;
        self.right(&one.right)?;
        self.text(";")
    }

    fn clauses(&mut self, all: &[ResolvedClause]) -> Result<(), NoMemory> {
        for one in all {
            self.clause(one)?;
        }
        Ok(())
    }

    fn constructor(&mut self, name: &ResolvedName) -> Result<(), NoMemory> {
        self.text(" constructor ")?;
        self.name(name)?;
        self.text(";")
    }

    fn item(&mut self, one: &ResolvedItem) -> Result<(), NoMemory> {
        match one {
            ResolvedItem::Inductive(_) => self.text(" inductive;"),
            ResolvedItem::Coinductive(_) => self.text(" coinductive;"),
            ResolvedItem::Constructor(_, name) => self.constructor(name),
            ResolvedItem::Field(_, fields) => {
                self.text(" field")?;
                self.signatures(fields.as_slice())
            }
        }
    }

    fn items(&mut self, all: &[ResolvedItem]) -> Result<(), NoMemory> {
        for one in all {
            self.item(one)?;
        }
        Ok(())
    }

    /// The word of a family, and its name.
    fn family(&mut self, word: &str, name: &ResolvedName) -> Result<(), NoMemory> {
        self.text(word)?;
        self.name(name)?;
        self.text(" ")
    }

    /// The parameters and the type of a family.
    fn family_type(
        &mut self,
        around: &[ResolvedBinder],
        ty: &ResolvedExpr,
    ) -> Result<(), NoMemory> {
        self.binders(around)?;
        self.text(": ")?;
        self.whole(ty)?;
        self.text(" where")
    }

    fn function(
        &mut self,
        head: &ResolvedSignature,
        all: &[ResolvedClause],
    ) -> Result<(), NoMemory> {
        self.signature(head)?;
        self.clauses(all)
    }

    pub fn decl(&mut self, found: &Resolved) -> Result<(), NoMemory> {
        match found {
            Resolved::Postulate(_, all) => {
                self.text("postulate")?;
                self.signatures(all.as_slice())
            }
            Resolved::Function(_, head, all) => self.function(head, all.as_slice()),
            Resolved::Open(_, record, public) => {
                self.number("open t", record.number())?;
                self.text(if *public { " public" } else { "" })
            }
            Resolved::Data(_, name, around, ty, all) => {
                self.family("data ", name)?;
                self.family_type(around.as_slice(), ty)?;
                self.signatures(all.as_slice())
            }
            Resolved::Record(_, name, around, ty, all) => {
                self.family("record ", name)?;
                self.family_type(around.as_slice(), ty)?;
                self.items(all.as_slice())
            }
        }
    }
}
