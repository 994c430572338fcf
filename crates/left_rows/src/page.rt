//! Left sides and refusals in print.

ghost use Rattle.std.specs.Prelude.{◌<◌, length};
ghost use Rattle.core_rules.specs.Mapped.{AllEntries, AllLeft};
ghost use Rattle.lhs_elab.specs.Answers.{IsKind};

use crate::fault::Fault;
use crate::world::World;
use core_print::{print_context, print_left_side, print_term};
use core_terms::{CheckedLeft, NameId, NoMemory, NoSolutions, Row, Telescope, TermId};
use el_outside::Pos;
use lhs_elab::LhsKind;

fn word(kind: &LhsKind) -> &'static str {
    match kind {
        LhsKind::CannotSplit => "CannotSplit",
        LhsKind::UnifyStuck { .. } => "UnifyStuck",
        LhsKind::NotAbsurd => "NotAbsurd",
        LhsKind::WrongArity => "WrongArity",
        LhsKind::NoSuchName => "NoSuchName",
        LhsKind::ForcedConstructor => "ForcedConstructor",
        LhsKind::Impossible => "Impossible",
        LhsKind::OutOfFuel => "OutOfFuel",
        LhsKind::OutOfDepth => "OutOfDepth",
    }
}

impl World {
    /// A left side before any pattern.
    fn no_left(&self, ty: TermId) -> CheckedLeft
        requires { ty < length self.now.pool.trees }
        ensures { AllLeft (λ i. i < length self.now.pool.trees) result }
    {
        CheckedLeft {
            context: Telescope {
                entries: Row::from_vec(Vec::new(self.alloc)),
            },
            pats: Row::from_vec(Vec::new(self.alloc)),
            ty,
            named: Row::from_vec(Vec::new(self.alloc)),
            dots: Row::from_vec(Vec::new(self.alloc)),
            inserted: 0,
        }
    }

    fn term(&self, context: &Telescope, t: TermId) -> Result<String, NoMemory>
        requires { t < length self.now.pool.trees }
    {
        print_term(
            self.alloc,
            &self.pool,
            &self.signature,
            self.scope.names(),
            &NoSolutions,
            &[],
            context,
            t,
        )
    }

    /// A left side of a function of this name.
    fn left_text(&self, function: NameId, left: &CheckedLeft) -> Result<String, NoMemory>
        requires { AllLeft (λ i. i < length self.now.pool.trees) left.now }
    {
        print_left_side(
            self.alloc,
            &self.pool,
            &self.signature,
            self.scope.names(),
            &[],
            function,
            left,
        )
    }

    /// The lines of a context after those of a left side.
    fn put_context(
        &self,
        out: &mut String,
        left: &CheckedLeft,
        context: &Telescope,
    ) -> Result<(), Fault>
        requires left { AllLeft (λ i. i < length self.now.pool.trees) left.now }
        requires context { AllEntries (λ i. i < length self.now.pool.trees) context.now }
    {
        let lines = print_context(
            self.alloc,
            &self.pool,
            &self.signature,
            self.scope.names(),
            &NoSolutions,
            &[],
            left,
            context,
        )?;
        for line in lines.lines() {
            writeln!(out, "        {line}")?;
        }
        Ok(())
    }

    /// The dotted patterns with what they have to be, and the types of these.
    fn put_dots(&self, out: &mut String, left: &CheckedLeft) -> Result<(), Fault>
        requires { AllLeft (λ i. i < length self.now.pool.trees) left.now }
    {
        for dot in left.dots.as_slice() {
            let value = self.term(&left.context, dot.value)?;
            let ty = self.term(&left.context, dot.ty)?;
            writeln!(out, "        dot {} = {value} : {ty}", dot.at)?;
        }
        Ok(())
    }

    /// A left side with its type, the names of its context and those that stand for values, its dotted patterns, and how many patterns
    /// are inserted.
    pub fn put_left(
        &self,
        out: &mut String,
        function: NameId,
        left: &CheckedLeft,
    ) -> Result<(), Fault>
        requires { AllLeft (λ i. i < length self.now.pool.trees) left.now }
    {
        let text = self.left_text(function, left)?;
        let ty = self.term(&left.context, left.ty)?;
        writeln!(out, "    {text} : {ty}")?;
        self.put_context(out, left, &left.context)?;
        self.put_dots(out, left)?;
        writeln!(out, "        inserted {}", left.inserted)?;
        Ok(())
    }

    /// How long a left side is, and how many there are of each of its parts.
    pub fn outline(&self, function: NameId, left: &CheckedLeft) -> Result<String, Fault>
        requires { AllLeft (λ i. i < length self.now.pool.trees) left.now }
    {
        let bytes = self.left_text(function, left)?.len();
        let entries = left.context.entries.len();
        let named = left.named.len();
        let dots = left.dots.len();
        let inserted = left.inserted;
        Ok(format!(in self.alloc;
            "{bytes} bytes, {entries} entries, {named} named, {dots} dots, inserted {inserted}"
        )?)
    }

    /// The two sides that are stuck, in their context.
    fn put_sides(
        &self,
        out: &mut String,
        context: &Telescope,
        left: TermId,
        right: TermId,
    ) -> Result<(), Fault>
        requires context { AllEntries (λ i. i < length self.now.pool.trees) context.now }
        requires left { left < length self.now.pool.trees }
        requires right { right < length self.now.pool.trees }
    {
        self.put_context(out, &self.no_left(left), context)?;
        let left = self.term(context, left)?;
        let right = self.term(context, right)?;
        writeln!(out, "        left: {left}")?;
        writeln!(out, "        right: {right}")?;
        Ok(())
    }

    /// A refusal with its place.
    pub fn put_refusal(&self, out: &mut String, pos: Pos, kind: &LhsKind) -> Result<(), Fault>
        requires { IsKind self.now.pool (λ k. Unit {0}) kind.now }
    {
        writeln!(out, "    {}:{} {}", pos.line, pos.col, word(kind))?;
        if let LhsKind::UnifyStuck {
            context,
            left,
            right,
        } = kind
        {
            self.put_sides(out, context, *left, *right)?;
        }
        Ok(())
    }
}
