//! The fields of a record, line by line.

ghost use Rattle.data_rules.specs.Families.{line_meaning, lines_of};
ghost use Rattle.data_rules.specs.Rules.{field_line, field_lines};
ghost use Rattle.data_elab.specs.Constructors.{lines_in};
ghost use Rattle.data_elab.specs.Params.{AnswersEntered, AnswersEntries};
ghost use Rattle.data_elab.specs.Reader.{IsReady, Grows, Read, over, signature_of, values_of};

use crate::error::{DataError, DataKind, refused};
use crate::reader::Reader;
use core_rules::Flag;
use core_terms::Entry;
use resolved_tree::{ResolvedItem, ResolvedSignature};

impl<'a> Reader<'a> {
    /// Enters the fields of a line, whose type is of this level at most.
    fn enter_field(&mut self, level: u32, line: &ResolvedSignature) -> Result<(), DataError>
        requires ready { IsReady self.old }
        ensures grows { Grows self.old self.new }
        ensures is { AnswersEntered self.old self.new (field_line level (values_of self.old) (line_meaning (signature_of self.old) line.now)) result }
    {
        let found = self.read_type(&line.ty)?;
        if level < found.level {
            return Err(refused(line.place.pos, DataKind::TooBig));
        }
        Ok(self.enter_group(Flag::Explicit, line.names.as_slice(), found.term)?)
    }

    /// Enters the fields of a block.
    fn enter_block(&mut self, level: u32, lines: &[ResolvedSignature]) -> Result<(), DataError>
        requires ready { IsReady self.old }
        ensures grows { Grows self.old self.new }
        ensures is { AnswersEntered self.old self.new (field_lines level (values_of self.old) (lines_in self.old lines.now)) result }
    {
        let mut left = lines;
        while let [line, more @ ..] = left {
            self.enter_field(level, line)?;
            left = more;
        }
        Ok(())
    }

    /// Enters the fields of a record of this level, each under those before it.
    pub(crate) fn enter_fields(
        &mut self,
        level: u32,
        items: &[ResolvedItem],
    ) -> Result<(), DataError>
        requires ready { IsReady self.old }
        ensures grows { Grows self.old self.new }
        ensures is { AnswersEntered self.old self.new (field_lines level (values_of self.old) (lines_in self.old (lines_of items.now))) result }
    {
        let mut left = items;
        while let [item, more @ ..] = left {
            if let ResolvedItem::Field(_, lines) = item {
                self.enter_block(level, lines.as_slice())?;
            }
            left = more;
        }
        Ok(())
    }

    /// The fields of a record of this level, whose parameters are the context.
    pub(crate) fn read_fields(
        &mut self,
        level: u32,
        items: &[ResolvedItem],
    ) -> Result<Vec<Entry>, DataError>
        requires ready { IsReady self.old }
        ensures grows { Grows self.old self.new }
        ensures is { AnswersEntries self.new.pool.now (Read (over self.old)
            (field_lines level (values_of self.old) (lines_in self.old (lines_of items.now)))) result }
    {
        let start = self.context.len();
        self.enter_fields(level, items)?;
        let fields = Vec::from_slice(self.alloc, &self.context.as_slice()[start..])?;
        Ok(fields)
    }
}
