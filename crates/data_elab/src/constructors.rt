//! The constructors of a data type, line by line.

ghost use Rattle.std.specs.Prelude.{◌≡◌, ◌<◌, ◌++◌, map, IfOk, OnOk, Some};
ghost use Rattle.written_rules.specs.Expressions.{ids};
ghost use Rattle.data_rules.specs.Families.{line_meaning};
ghost use Rattle.data_rules.specs.Rules.{con_line, con_lines, own_indices as indices_shown};
ghost use Rattle.data_elab.specs.Constructors.{AnswersCons, AnswersLine, lines_in, named};
ghost use Rattle.data_elab.specs.Heading.{IsHeading, heading_in};
ghost use Rattle.data_elab.specs.Reader.{IsReady, Grows, Keeps, Read, over, signature_of};
ghost use Rattle.data_elab.specs.Shapes.{AnswersTerms, IsEnded, ended_in};

use crate::error::{DataError, DataKind, refused};
use crate::heading::Heading;
use crate::reader::Reader;
use crate::shapes::{Ended, Tested, own_arguments};
use core_terms::{ConDecl, Entry, FamId, NameId, NoMemory, Row, Telescope, TermId};
use el_outside::Pos;
use resolved_tree::{ResolvedName, ResolvedSignature};
use std::alloc::Global;

/// So many function types may the type of a family and of a constructor show.
pub(crate) const MOST_SHOWN: u32 = 2_000;

/// The arguments and the indices of the constructors of a line.
#[derive(Drop)]
pub(crate) struct Line {
    pub args: Vec<Entry>,
    pub indices: Vec<TermId>,
}

/// The constructor of this name.
fn constructor(alloc: Global, name: NameId, line: &Line) -> Result<ConDecl, NoMemory>
    ensures { IfOk result (λ k. k ≡ named line.now.args.items line.now.indices.items name) }
{
    let args = Vec::from_slice(alloc, line.args.as_slice())?;
    let indices = Vec::from_slice(alloc, line.indices.as_slice())?;
    Ok(ConDecl {
        name: Some(name),
        args: Telescope {
            entries: Row::from_vec(args),
        },
        indices: Row::from_vec(indices),
    })
}

/// Puts the constructors of a line to the end of the others.
fn put_line(
    alloc: Global,
    names: &[ResolvedName],
    line: &Line,
    cons: &mut Vec<ConDecl>,
) -> Result<(), NoMemory>
    ensures { OnOk result (cons.new.items ≡ cons.old.items ++ map (named line.now.args.items line.now.indices.items) (ids names.now)) }
{
    let mut left = names;
    while let [name, more @ ..] = left {
        let con = constructor(alloc, name.id, line)?;
        cons.push(con)?;
        left = more;
    }
    Ok(())
}

/// The parameters and then the indices.
fn whole(alloc: Global, heading: &Heading) -> Result<Vec<Entry>, NoMemory>
    ensures { IfOk result (λ v. v.items ≡ heading.now.params.items ++ heading.now.indices.items) }
{
    let mut entries = Vec::from_slice(alloc, heading.params.as_slice())?;
    entries.extend_from_slice(heading.indices.as_slice())?;
    Ok(entries)
}

impl<'a> Reader<'a> {
    /// The indices at which the type of a constructor ends, which has to be family `fam` at its own parameters.
    fn own_indices(
        &mut self,
        pos: Pos,
        fam: FamId,
        heading: &Heading,
        shown: &Ended,
    ) -> Result<Vec<TermId>, DataError>
        requires ready { IsReady self.old }
        requires shown { IsEnded self.old.pool.now shown.now }
        ensures grows { Grows self.old self.new }
        ensures keeps { Keeps self.old self.new }
        ensures is { AnswersTerms self.new.pool.now (Read (over self.old)
            (indices_shown pos fam (heading_in self.old.pool.now heading.now) (ended_in self.old.pool.now shown.now))) result }
    {
        let entries = whole(self.alloc, heading)?;
        let Some(terms) = own_arguments(self.alloc, self.pool, fam, entries.as_slice(), &shown.end)?
        else {
            return Err(refused(pos, DataKind::ConShape));
        };
        self.own_params(
            pos,
            shown.entries.len(),
            heading.params.len(),
            terms.as_slice(),
        )
    }

    /// A line of constructors of family `fam`, whose parameters are the context.
    fn read_line(
        &mut self,
        fam: FamId,
        heading: &Heading,
        line: &ResolvedSignature,
    ) -> Result<Line, DataError>
        requires ready { IsReady self.old }
        requires heading { IsHeading self.old.pool.now heading.now }
        requires params { self.old.context.now.items ≡ heading.now.params.items }
        ensures grows { Grows self.old self.new }
        ensures keeps { Keeps self.old self.new }
        ensures is { AnswersLine (ids line.now.names) self.new.pool.now (Read (over self.old)
            (con_line fam (heading_in self.old.pool.now heading.now) (line_meaning (signature_of self.old) line.now))) result }
    {
        let pos = line.place.pos;
        let found = self.read_type(&line.ty)?;
        let shown = self.telescope(pos, Tested::Family, MOST_SHOWN, found.term)?;
        let indices = self.own_indices(pos, fam, heading, &shown)?;
        if heading.level < found.level {
            return Err(refused(pos, DataKind::TooBig));
        }
        Ok(Line {
            args: shown.entries,
            indices,
        })
    }

    /// The constructors of family `fam`, whose parameters are the context.
    pub(crate) fn read_cons(
        &mut self,
        fam: FamId,
        heading: &Heading,
        lines: &[ResolvedSignature],
    ) -> Result<Vec<ConDecl>, DataError>
        requires ready { IsReady self.old }
        requires heading { IsHeading self.old.pool.now heading.now }
        requires params { self.old.context.now.items ≡ heading.now.params.items }
        ensures grows { Grows self.old self.new }
        ensures keeps { Keeps self.old self.new }
        ensures is { AnswersCons self.new.pool.now (Read (over self.old)
            (con_lines fam (heading_in self.old.pool.now heading.now) (lines_in self.old lines.now))) result }
    {
        let mut cons = Vec::new(self.alloc);
        let mut left = lines;
        while let [line, more @ ..] = left {
            let made = self.read_line(fam, heading, line)?;
            put_line(self.alloc, line.names.as_slice(), &made, &mut cons)?;
            left = more;
        }
        Ok(cons)
    }
}
