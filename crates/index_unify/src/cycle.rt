ghost use Rattle.std.specs.Prelude.{◌≡◌, ◌<◌, ◌↔◌, length, IfOk, IsTrue};
ghost use Rattle.core_rules.specs.Term.{Var};
ghost use Rattle.core_rules.specs.Unification.{UnderCon};
ghost use Rattle.term_pool.specs.Pool.{tree};
ghost use Rattle.index_unify.specs.Walk.{Tells};
ghost use Rattle.index_unify.specs.Constructors.{AllArguments, HasArgument, Scans, ToArgument};

use crate::constructors::{Argument, con_form};
use crate::queue::Queue;
use crate::walk::{Walk, reaches};
use core_terms::{NoMemory, Node, TermId, TermPool};
use std::alloc::Global;

/// Looks for a variable among the arguments of constructors that are themselves arguments of such.
#[derive(Drop)]
struct UnderConstructors {
    var: u32,
}

impl Walk for UnderConstructors {
    ghost edge = { λ w p. ToArgument };

    ghost goal = { λ w. HasArgument w.var };

    ghost ready = { λ w p. Unit {0} };

    fn visit(
        &self,
        alloc: Global,
        pool: &TermPool,
        queue: &mut Queue,
        t: TermId,
        _under: u32,
    ) -> Result<bool, NoMemory> {
        let Some(form) = con_form(alloc, pool, t)? else {
            return Ok(false);
        };
        scan(pool, queue, form.args.as_slice(), self.var)
    }
}

/// Whether the variable is one of the arguments. Where it is not, it puts them into the queue.
fn scan(pool: &TermPool, queue: &mut Queue, args: &[Argument], var: u32) -> Result<bool, NoMemory>
    requires { AllArguments (λ i. i < length pool.now.trees) args.now }
    ensures { IfOk result (λ b. Scans pool.now var args.now queue.old b queue.new) }
{
    for at in 0..args.len() {
        let arg = args[at].arg;
        if is_variable(pool, arg, var) {
            return Ok(true);
        }
        queue.add(arg, 0)?;
    }
    Ok(false)
}

fn is_variable(pool: &TermPool, t: TermId, var: u32) -> bool
    requires { t < length pool.now.trees }
    ensures { IsTrue result ↔ (tree pool.now t ≡ Var var) }
{
    match pool.node(t) {
        Node::Var(index) => index == var,
        _ => false,
    }
}

/// Whether the variable stands in `t` strictly under constructors only.
pub(crate) fn is_under_con(
    alloc: Global,
    pool: &TermPool,
    var: u32,
    t: TermId,
) -> Result<bool, NoMemory>
    requires t { t < length pool.now.trees }
    ensures { IfOk result (Tells (UnderCon var (tree pool.now t))) }
{
    reaches(alloc, pool, &UnderConstructors { var }, t)
}
