ghost use Rattle.std.specs.Prelude.{◌≡◌, IfOk};
ghost use Rattle.agda_grammar.specs.Trees as spec;
ghost use Rattle.source_tree.specs.declared.expr.Expr.{out-Expr};

use agda_grammar::{Bracket, Kind};
use source_tree::{Arg, Binder, Expr, Name, Place};
use sqlite_items::{Boxed, Items};
use std::alloc::{AllocError, Global};

pub fn close_of(bracket: Bracket) -> Kind
    ensures { result ≡ spec.close_of bracket }
{
    match bracket {
        Bracket::Round => Kind::ParenClose,
        Bracket::Curly => Kind::BraceClose,
    }
}

pub fn typed_binder(bracket: Bracket, place: Place, names: Items<Name>, ty: Boxed<Expr>) -> Binder
    ensures { result ≡ spec.typed_binder bracket place names ty }
{
    match bracket {
        Bracket::Round => Binder::Explicit(place, names, ty),
        Bracket::Curly => Binder::Implicit(place, names, ty),
    }
}

/// The place of the last argument, or `place` where there is none.
fn last_place(place: Place, args: &[Arg]) -> Place
    ensures { result ≡ spec.last_place place args.now }
{
    let mut last = place;
    for arg in args {
        last = arg.place();
    }
    last
}

/// An application at the place, of which the head may be one.
fn applied_at(alloc: Global, place: Place, head: Expr, args: Items<Arg>) -> Result<Expr, AllocError>
    ensures { IfOk result (λ x. x ≡ spec.applied_to place head args (out-Expr head)) }
{
    match head {
        Expr::App(_first, inner, mut all) => {
            all.append(args)?;
            Ok(Expr::App(place, inner, all))
        }
        other => Ok(Expr::App(place, Boxed::new(alloc, other)?, args)),
    }
}

/// The application of the head to the arguments: the head alone where there is none, and one application where the head is one.
#[tactic(auto, unfolding(agda_grammar::specs::Trees::applied))]
pub fn applied(alloc: Global, head: Expr, args: Items<Arg>) -> Result<Expr, AllocError>
    ensures { IfOk result (λ x. x ≡ spec.applied head args) }
{
    if args.is_empty() {
        return Ok(head);
    }
    let start = head.place();
    let place = start.to(last_place(start, args.as_slice()));
    applied_at(alloc, place, head, args)
}
