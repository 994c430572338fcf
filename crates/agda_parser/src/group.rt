ghost use Rattle.std.specs.Prelude.{◌≡◌, List, ◌∷◌, ◌++◌, IfOk};
ghost use Rattle.agda_grammar.specs.Groups as spec;
ghost use Rattle.agda_grammar.specs.declared.entry.Entry.{Entry as Item};
ghost use Rattle.agda_grammar.specs.declared.entry.Entry.TheVariants as n;
ghost use Rattle.source_tree.specs.declared.decl.Decl.TheVariants as d;

use crate::grown::Grown;
use agda_grammar::Entry;
use source_tree::{Clause, Decl, Name, Place, Signature};
use sqlite_items::Items;
use std::alloc::{AllocError, Global};

/// Whether it is a clause of the first of the names.
fn is_of(names: &[Name], clause: &Clause) -> bool
    ensures { result ≡ spec.is_of names.now clause.now }
{
    match names {
        [first, ..] => first.text.as_str() == clause.name.text.as_str(),
        [] => false,
    }
}

/// A function with its first clauses missing, a clause alone, or another declaration.
fn alone(alloc: Global, entry: Entry) -> Decl
    ensures { result ≡ spec.alone entry }
{
    match entry {
        Entry::Signature(signature) => Decl::Function(
            signature.place,
            signature,
            Items::new(alloc),
        ),
        Entry::Clause(clause) => Decl::Clause(clause),
        Entry::Other(decl) => decl,
    }
}

/// Puts a clause to the function before it where it is of its name, and else the function to those that are done.
fn after_function(
    done: &mut Items<Decl>,
    place: Place,
    signature: Signature,
    clauses: Items<Clause>,
    clause: Clause,
) -> Result<Decl, AllocError>
    ensures { IfOk result (λ x. (es : List Item) → done.old ++ spec.grouped_from (d.Function place signature clauses) (n.Clause clause ∷ es) ≡ done.new ++ spec.grouped_from x es) }
{
    if is_of(signature.names.as_slice(), &clause) {
        let place = place.to(clause.place);
        let mut all = clauses;
        all.push(clause)?;
        Ok(Decl::Function(place, signature, all))
    } else {
        done.push(Decl::Function(place, signature, clauses))?;
        Ok(Decl::Clause(clause))
    }
}

/// Puts a clause to the declaration before it where that is the function of its name, and else that to those that are done.
fn after_decl(done: &mut Items<Decl>, last: Decl, clause: Clause) -> Result<Decl, AllocError>
    ensures { IfOk result (λ x. (es : List Item) → done.old ++ spec.grouped_from last (n.Clause clause ∷ es) ≡ done.new ++ spec.grouped_from x es) }
{
    match last {
        Decl::Function(place, signature, clauses) => {
            after_function(done, place, signature, clauses, clause)
        }
        other => {
            done.push(other)?;
            Ok(Decl::Clause(clause))
        }
    }
}

/// Puts an item to the declaration before it where they are one, and else that to those that are done.
fn next(alloc: Global, done: &mut Items<Decl>, last: Decl, entry: Entry) -> Result<Decl, AllocError>
    ensures { IfOk result (λ x. (es : List Item) → done.old ++ spec.grouped_from last (entry ∷ es) ≡ done.new ++ spec.grouped_from x es) }
{
    match entry {
        Entry::Clause(clause) => after_decl(done, last, clause),
        other => {
            let next = alone(alloc, other);
            done.push(last)?;
            Ok(next)
        }
    }
}

/// The declarations that the items are.
pub fn grouped(alloc: Global, entries: Grown<Entry>) -> Result<Items<Decl>, AllocError>
    ensures { IfOk result (λ ds. ds ≡ spec.grouped entries) }
{
    let mut done = Items::new(alloc);
    let mut last = None;
    for entry in entries.into_vec() {
        last = Some(match last {
            Some(decl) => next(alloc, &mut done, decl, entry)?,
            None => alone(alloc, entry),
        });
    }
    match last {
        Some(decl) => {
            done.push(decl)?;
            Ok(done)
        }
        None => Ok(done),
    }
}
