ghost use Rattle.std.specs.Prelude.{◌≡◌, ◌<◌, length, map, IfOk};
ghost use Rattle.std.specs.List.{AllByRecursion};
ghost use Rattle.core_rules.specs.Term.{from_list};
ghost use Rattle.term_pool.specs.Pool.{Extends, IsArgs, IsFirst, StandsFor};
ghost use Rattle.term_pool.specs.Pool.{args, list_of, tree};

use crate::ids::TermId;
use crate::node::{Args, Node};
use crate::pool::TermPool;
use crate::{NoMemory, Row};
use core_rules::Flag;

impl TermPool {
    /// The argument list of these ids of the pool.
    pub fn add_args(&mut self, ids: &[TermId]) -> Result<Args, NoMemory>
        requires { AllByRecursion (λ i. i < length self.old.trees) ids.now }
        ensures extends { Extends self.old self.new }
        ensures stands { IfOk result (λ a. StandsFor self.new a (list_of self.old ids.now)) }
    {
        let mut list = self.add(Node::Sort(0))?;
        let mut left = ids.len();
        while left > 0 {
            left -= 1;
            list = self.add(Node::App {
                flag: Flag::Explicit,
                fun: ids[left],
                arg: list,
            })?;
        }
        Ok(Args::of(list))
    }

    /// The first item of an argument list, with the rest of it.
    pub fn first(&self, a: Args) -> Option<(TermId, Args)>
        requires { IsArgs (tree self.now) (length self.now.trees) a }
        ensures { IsFirst self.now a result }
    {
        self.node(a.list()).cell()
    }

    /// The ids of the items of an argument list.
    pub fn args(&self, a: Args) -> Result<Row<TermId>, NoMemory>
        requires { IsArgs (tree self.now) (length self.now.trees) a }
        ensures within { IfOk result (AllByRecursion (λ i. i < length self.now.trees)) }
        ensures is { IfOk result (λ ids. from_list (map (tree self.now) ids) ≡ args self.now a) }
    {
        let mut ids = Vec::new(self.allocator());
        let mut left = a;
        while let Some(cell) = self.first(left) {
            ids.push(cell.0)?;
            left = cell.1;
        }
        Ok(Row::from_vec(ids))
    }
}
