//! The walk over a text.

ghost use Rattle.std.specs.Prelude.{◌≡◌, ◌<◌, length, OnOk};
ghost use Rattle.core_rules.specs.Mapped.{AllLeft};
ghost use Rattle.core_terms.specs.Signature.{Stands};
ghost use Rattle.term_pool.specs.Pool.{Extends};

use crate::fault::Fault;
use crate::reading::read;
use crate::world::World;
use core_terms::{CheckedLeft, Limits, NameId, TermId};
use lhs_elab::LhsError;
use scope_check::{Resolved, ResolvedClause, ResolvedSignature};
use source_tree::Decl;
use std::alloc::Global;

/// How a text is shown.
#[derive(Clone, Copy)]
pub enum Detail {
    /// All of each left side.
    Lines,
    /// How long the last left side of each function is, and how many there are of each of its parts. Refusals are shown as they are.
    Outline,
}

/// The walk over the declarations of a text, and what is shown of it so far.
#[derive(Drop)]
struct Walk {
    world: World,
    detail: Detail,
    out: String,
    /// The outline of the last left side.
    last: String,
}

impl Walk {
    fn accepted(&mut self, function: NameId, left: &CheckedLeft) -> Result<(), Fault>
        requires left { AllLeft (λ i. i < length self.old.world.pool.trees) left.now }
        ensures world { self.new.world ≡ self.old.world }
    {
        match self.detail {
            Detail::Lines => self.world.put_left(&mut self.out, function, left),
            Detail::Outline => {
                self.last = self.world.outline(function, left)?;
                Ok(())
            }
        }
    }

    /// The left side of a clause of a function of this name and type, or its refusal.
    #[tactic(auto, using(crate::proofs::Standing::kind_stands))]
    fn clause(&mut self, function: NameId, ty: TermId, clause: &ResolvedClause) -> Result<(), Fault>
        requires stands { Stands self.old.world.pool self.old.world.signature }
        requires ty { ty < length self.old.world.pool.trees }
        ensures stands { OnOk result (Stands self.new.world.pool self.new.world.signature) }
        ensures extends { OnOk result (Extends self.old.world.pool self.new.world.pool) }
    {
        match self.world.left(ty, clause) {
            Ok(left) => self.accepted(function, &left),
            Err(LhsError::Bad { pos, kind }) => {
                self.world.put_refusal(&mut self.out, pos, &kind)
            }
            Err(LhsError::NoMemory) => Err(Fault::NoMemory),
        }
    }

    /// The left sides of the clauses of a function.
    fn function(
        &mut self,
        head: &ResolvedSignature,
        clauses: &[ResolvedClause],
    ) -> Result<(), Fault>
        requires { Stands self.old.world.pool self.old.world.signature }
        ensures { OnOk result (Stands self.new.world.pool self.new.world.signature) }
    {
        let [name, ..] = head.names.as_slice() else {
            return Err(Fault::NotRead);
        };
        let ty = self.world.function(name.id, &head.ty)?;
        for clause in clauses {
            self.clause(name.id, ty, clause)?;
        }
        self.end(clauses.len())
    }

    /// The outline of so many clauses.
    fn end(&mut self, count: usize) -> Result<(), Fault>
        ensures { self.new.world ≡ self.old.world }
    {
        if let Detail::Outline = self.detail {
            writeln!(
                self.out,
                "    of {count}, the last left side: {}",
                self.last
            )?;
        }
        Ok(())
    }

    /// A declaration whose names are resolved.
    fn resolved(&mut self, decl: &Resolved) -> Result<(), Fault>
        requires { Stands self.old.world.pool self.old.world.signature }
        ensures { OnOk result (Stands self.new.world.pool self.new.world.signature) }
    {
        match decl {
            Resolved::Postulate(_, lines) => self.world.postulates(lines.as_slice()),
            Resolved::Data(_, _, _, _, _) | Resolved::Record(_, _, _, _, _) => {
                self.world.family(decl)
            }
            Resolved::Open(_, _, _) => Ok(()),
            Resolved::Function(_, head, clauses) => self.function(head, clauses.as_slice()),
        }
    }

    fn decl(&mut self, decl: &Decl) -> Result<(), Fault>
        requires { Stands self.old.world.pool self.old.world.signature }
        ensures { OnOk result (Stands self.new.world.pool self.new.world.signature) }
    {
        let resolved = self.world.resolve(decl)?;
        self.resolved(&resolved)
    }

    /// The declarations in order.
    fn decls(&mut self, decls: &[Decl]) -> Result<(), Fault>
        requires { Stands self.old.world.pool self.old.world.signature }
    {
        for decl in decls {
            self.decl(decl)?;
        }
        Ok(())
    }
}

/// What is shown of a text: its left sides, up to the first declaration that is refused beside them.
pub fn row(alloc: Global, text: &str, detail: Detail, limits: Limits) -> Result<String, Fault> {
    let file = read(alloc, text)?;
    let mut walk = Walk {
        world: World::new(alloc, limits)?,
        detail,
        out: String::new(alloc),
        last: String::from_str(alloc, "none")?,
    };
    match walk.decls(file.decls.as_slice()) {
        Ok(()) => {}
        Err(Fault::NotDeclared(pos)) => {
            writeln!(walk.out, "    not declared at {}:{}", pos.line, pos.col)?
        }
        Err(fault) => return Err(fault),
    }
    Ok(walk.out)
}
