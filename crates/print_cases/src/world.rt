use crate::contexts::{read_entries, read_solved};
use crate::declared::declared;
use crate::patterns::patterns;
use crate::words::{name, named_term};
use case_terms::{Fault, are_entries, is_in, is_left_in, term};
use core_print::{print_context, print_left_side, print_term};
use core_terms::{
    CheckedLeft, MetaId, Names, NoSolutions, Row, Signature, Telescope, TermId, TermPool,
};
use std::alloc::Global;

/// What rows are printed in. What the calls ask of terms is tested first.
#[derive(Drop)]
pub struct World {
    alloc: Global,
    pool: TermPool,
    names: Names,
    sig: Signature,
    ty: TermId,
}

impl World {
    pub fn new(alloc: Global) -> Result<World, Fault> {
        let mut names = Names::new(alloc)?;
        names.add("")?;
        let sig = declared(alloc, &mut names)?;
        let mut pool = TermPool::new(alloc)?;
        let ty = term(alloc, &mut pool, "*")?;
        Ok(World {
            alloc,
            pool,
            names,
            sig,
            ty,
        })
    }

    pub fn entries(&mut self, words: &str) -> Result<Telescope, Fault> {
        read_entries(self.alloc, &mut self.pool, &mut self.names, words)
    }

    pub fn term(&mut self, words: &str) -> Result<TermId, Fault> {
        named_term(self.alloc, &mut self.pool, &mut self.names, words)
    }

    /// The left side of entries, patterns and solved names.
    pub fn left(&mut self, entries: &str, pats: &str, named: &str) -> Result<CheckedLeft, Fault> {
        let context = self.entries(entries)?;
        let pats = patterns(self.alloc, &mut self.pool, &mut self.names, pats)?;
        let named = read_solved(self.alloc, &mut self.pool, &mut self.names, named)?;
        Ok(CheckedLeft {
            context,
            pats: Row::from_vec(pats),
            ty: self.ty,
            named,
            dots: Row::from_vec(Vec::new(self.alloc)),
            inserted: 0,
        })
    }

    /// Metavariable 5 is that of goal 1.
    fn goals(&self) -> Result<Vec<Option<MetaId>>, Fault> {
        Ok(vec![in self.alloc; None, Some(MetaId::new(5))]?)
    }

    pub fn term_text(&self, context: &Telescope, t: TermId) -> Result<String, Fault> {
        if !is_in(&self.pool, t) {
            return Err(Fault::Stray);
        }
        let goals = self.goals()?;
        Ok(print_term(
            self.alloc,
            &self.pool,
            &self.sig,
            &self.names,
            &NoSolutions,
            goals.as_slice(),
            context,
            t,
        )?)
    }

    /// The left side, of the function f.
    pub fn left_text(&mut self, left: &CheckedLeft) -> Result<String, Fault> {
        if !is_left_in(&self.pool, left) {
            return Err(Fault::Stray);
        }
        let function = name(&mut self.names, "f")?;
        let goals = self.goals()?;
        Ok(print_left_side(
            self.alloc,
            &self.pool,
            &self.sig,
            &self.names,
            goals.as_slice(),
            function,
            left,
        )?)
    }

    /// A context inside a left side.
    pub fn context_text(&self, left: &CheckedLeft, context: &Telescope) -> Result<String, Fault> {
        if !is_left_in(&self.pool, left) {
            return Err(Fault::Stray);
        }
        if !are_entries(&self.pool, context.entries.as_slice()) {
            return Err(Fault::Stray);
        }
        let goals = self.goals()?;
        Ok(print_context(
            self.alloc,
            &self.pool,
            &self.sig,
            &self.names,
            &NoSolutions,
            goals.as_slice(),
            left,
            context,
        )?)
    }
}
