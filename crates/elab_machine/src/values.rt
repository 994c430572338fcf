//! What source variables stand for. A value keeps the number of binders inside which it was bound, its type the number of those inside
//! which it was read, and both are raised when the variable is looked up.

ghost use Rattle.std.specs.Prelude.{◌≡◌, ◌<◌, length, take, IfOk};
ghost use Rattle.term_pool.specs.Pool.{Extends, tree};
ghost use Rattle.elab_machine.specs.Writer.{IsReady, Grows, IsEntered, IsFurther};

use crate::writer::Writer;
use core_terms::{NameId, NoMemory, Node, Solved, TermId, TermPool, shift};
use resolved_tree::ResolvedName;
use std::alloc::Global;

/// The value of a source variable, which stands inside so many binders, with its type. The type of a bound name stands outside its own
/// binder, so inside one fewer than the name.
#[derive(Clone, Copy, Drop)]
pub(crate) struct Value {
    pub solved: Solved,
    pub inside: u32,
    pub ty_inside: u32,
}

/// The type of a name inside its binder, where a further name of its group has this type.
fn further(
    alloc: Global,
    pool: &mut TermPool,
    ty: TermId,
    more: &[ResolvedName],
) -> Result<TermId, NoMemory>
    requires { ty < length pool.old.trees }
    ensures extends { Extends pool.old pool.new }
    ensures within { IfOk result (λ t. t < length pool.new.trees) }
    ensures is { IfOk result (λ t. IsFurther more.now (tree pool.old ty) (tree pool.new t)) }
{
    if more.is_empty() {
        return Ok(ty);
    }
    shift(alloc, pool, ty, 0, 1)
}

impl<'a> Writer<'a> {
    /// Binds a name of this type. The type inside its binder is made only where `more` names of its group follow, and given for them.
    pub(crate) fn enter(
        &mut self,
        name: NameId,
        ty: TermId,
        more: &[ResolvedName],
    ) -> Result<TermId, NoMemory>
        requires ready { IsReady self.old }
        requires ty { ty < length self.old.pool.now.trees }
        ensures grows { Grows self.old self.new }
        ensures enters { IfOk result (IsEntered self.old self.new name ty more.now) }
    {
        let ty_inside = self.inside;
        let Some(inside) = ty_inside.checked_add(1) else {
            return Err(NoMemory);
        };
        let value = self.pool.add(Node::Var(0))?;
        let next = further(self.alloc, self.pool, ty, more)?;
        let solved = Solved { name, value, ty };
        self.values.push(Value {
            solved,
            inside,
            ty_inside,
        })?;
        self.inside = inside;
        Ok(next)
    }

    /// Leaves the binders: the first values are left.
    pub(crate) fn leave(&mut self, values: usize, inside: u32)
        ensures grows { Grows self.old self.new }
        ensures signature { self.new.signature.now ≡ self.old.signature.now }
        ensures limits { self.new.limits ≡ self.old.limits }
        ensures inside { self.new.inside ≡ inside }
        ensures values { self.new.values.now.items ≡ take values self.old.values.now.items }
    {
        self.values.truncate(values);
        self.inside = inside;
    }
}
