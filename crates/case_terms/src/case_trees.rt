use crate::fault::Fault;
use crate::telescopes::{is_blank, read_times, telescope, terms};
use crate::words::{read_number, term};
use core_terms::{
    Branch, CoBranch, ConBranch, ConId, FamId, FieldId, Row, Step, TermPool, Tree, Way,
};
use std::alloc::Global;

/// The parts of a case tree that no step has taken yet, the first one at the end.
#[derive(Drop)]
struct Parts {
    alloc: Global,
    trees: Vec<Tree>,
    fields: Vec<CoBranch>,
    cons: Vec<ConBranch>,
}

/// The case tree of these steps, each before its parts: `leaf 0: c0`, with the number of its clause, and `absurd 2`, a variable, have
/// none; `intro` and `record 2 f4`, a variable and its record, have a tree; `cosplit 2` has so many branches, each `field .0` with a
/// tree; `split 1/2` has a variable and so many branches, each `refuted c0`, or `goes c1|CONTEXT|VALUES|KEEP` with a tree. `5 times 2`
/// before steps stands for the next two five times over.
pub fn case_tree(alloc: Global, pool: &mut TermPool, steps: &[&str]) -> Result<Tree, Fault> {
    let mut parts = Parts {
        alloc,
        trees: Vec::new(alloc),
        fields: Vec::new(alloc),
        cons: Vec::new(alloc),
    };
    let mut taken = Vec::new(alloc);
    for step in steps.iter().rev() {
        match read_repeat(step) {
            Some((times, count)) => parts.take_again(pool, last(taken.as_slice(), count)?, times)?,
            None => {
                parts.take_step(pool, step)?;
                taken.push(*step)?;
            }
        }
    }
    parts.whole()
}

impl Parts {
    /// The steps, which were taken once, so many times in all.
    fn take_again(&mut self, pool: &mut TermPool, steps: &[&str], times: u32) -> Result<(), Fault> {
        if times == 0 {
            return Err(Fault::NoTree);
        }
        for _ in 1..times {
            self.take_steps(pool, steps)?;
        }
        Ok(())
    }

    fn take_steps(&mut self, pool: &mut TermPool, steps: &[&str]) -> Result<(), Fault> {
        for step in steps {
            self.take_step(pool, step)?;
        }
        Ok(())
    }

    /// The next step further to the front takes its parts from those after it.
    fn take_step(&mut self, pool: &mut TermPool, step: &str) -> Result<(), Fault> {
        let (word, rest) = first_word(step);
        match word {
            "refuted" => self.refuted(rest),
            "goes" => self.goes(pool, rest),
            "field" => self.field(rest),
            _ => {
                let step = self.step(pool, word, rest)?;
                Ok(self.trees.push(Tree { step })?)
            }
        }
    }

    fn step(&mut self, pool: &mut TermPool, word: &str, rest: &str) -> Result<Step, Fault> {
        match word {
            "leaf" => leaf(self.alloc, pool, rest),
            "intro" => {
                let rest = Box::new(self.alloc, self.pop_tree()?)?;
                Ok(Step::Intro { rest })
            }
            "cosplit" => self.cosplit(rest),
            "split" => self.split(rest),
            "record" => self.record_split(rest),
            "absurd" => Ok(Step::Absurd {
                at: read_number(rest)?,
            }),
            _ => Err(Fault::NoTree),
        }
    }

    fn pop_tree(&mut self) -> Result<Tree, Fault> {
        self.trees.pop().ok_or(Fault::NoTree)
    }

    fn cosplit(&mut self, count: &str) -> Result<Step, Fault> {
        let mut branches = Vec::new(self.alloc);
        for _ in 0..read_number(count)? {
            branches.push(self.fields.pop().ok_or(Fault::NoTree)?)?;
        }
        Ok(Step::Cosplit { branches })
    }

    fn split(&mut self, words: &str) -> Result<Step, Fault> {
        let (at, count) = words.split_once('/').ok_or(Fault::NoTree)?;
        let at = read_number(at)?;
        let mut branches = Vec::new(self.alloc);
        for _ in 0..read_number(count)? {
            branches.push(self.cons.pop().ok_or(Fault::NoTree)?)?;
        }
        Ok(Step::Split { at, branches })
    }

    fn record_split(&mut self, words: &str) -> Result<Step, Fault> {
        let (at, fam) = words.split_once(" f").ok_or(Fault::NoTree)?;
        let (at, fam) = (read_number(at)?, FamId::new(read_number(fam)?));
        let rest = Box::new(self.alloc, self.pop_tree()?)?;
        Ok(Step::RecordSplit { at, fam, rest })
    }

    fn field(&mut self, words: &str) -> Result<(), Fault> {
        let field = FieldId::new(number_after(words, '.')?);
        let rest = self.pop_tree()?;
        Ok(self.fields.push(CoBranch { field, rest })?)
    }

    fn refuted(&mut self, words: &str) -> Result<(), Fault> {
        let con = ConId::new(number_after(words, 'c')?);
        Ok(
            self.cons.push(ConBranch {
                con,
                way: Way::Refuted,
            })?,
        )
    }

    /// A branch that goes on, with its context, the values of the variables there, and for each variable of the context its old place.
    fn goes(&mut self, pool: &mut TermPool, words: &str) -> Result<(), Fault> {
        let (con, words) = words.split_once('|').ok_or(Fault::NoTree)?;
        let con = ConId::new(number_after(con, 'c')?);
        let branch = branch(self.alloc, pool, words)?;
        let rest = self.pop_tree()?;
        Ok(
            self.cons.push(ConBranch {
                con,
                way: Way::Goes { branch, rest },
            })?,
        )
    }

    /// The tree that is left where no other part is.
    fn whole(self) -> Result<Tree, Fault> {
        let Parts {
            mut trees,
            fields,
            cons,
            ..
        } = self;
        let tree = trees.pop().ok_or(Fault::NoTree)?;
        if trees.is_empty() && fields.is_empty() && cons.is_empty() {
            Ok(tree)
        } else {
            Err(Fault::NoTree)
        }
    }
}

/// The first word of a step, and the words after it.
fn first_word(step: &str) -> (&str, &str) {
    let step = step.trim();
    step.split_once(' ').unwrap_or((step, ""))
}

fn number_after(word: &str, sign: char) -> Result<u32, Fault> {
    read_number(word.strip_prefix(sign).ok_or(Fault::NoTree)?)
}

/// A leaf: the number of its clause, and its body.
fn leaf(alloc: Global, pool: &mut TermPool, words: &str) -> Result<Step, Fault> {
    let (clause, body) = words.split_once(':').ok_or(Fault::NoTree)?;
    Ok(Step::Leaf {
        body: term(alloc, pool, body)?,
        clause: read_number(clause)?,
    })
}

fn branch(alloc: Global, pool: &mut TermPool, words: &str) -> Result<Branch, Fault> {
    let (context, words) = words.split_once('|').ok_or(Fault::NoTree)?;
    let (values, keep) = words.split_once('|').ok_or(Fault::NoTree)?;
    Ok(Branch {
        context: telescope(alloc, pool, context)?,
        subst: terms(alloc, pool, values)?,
        keep: places(alloc, keep)?,
    })
}

/// Places between commas. `3 times 5` stands for 5, 6 and 7.
fn places(alloc: Global, words: &str) -> Result<Row<u32>, Fault> {
    let mut made = Vec::new(alloc);
    if !is_blank(words) {
        for part in words.split(',') {
            push_places(&mut made, part)?;
        }
    }
    Ok(Row::from_vec(made))
}

fn push_places(made: &mut Vec<u32>, words: &str) -> Result<(), Fault> {
    let (times, place) = read_times(words)?;
    let first = read_number(place.trim())?;
    for by in 0..times {
        made.push(first.checked_add(by).ok_or(Fault::NoTree)?)?;
    }
    Ok(())
}

/// How often the next so many steps count, where a line says it.
fn read_repeat(line: &str) -> Option<(u32, u32)> {
    let (times, count) = line.trim().split_once(" times ")?;
    Some((times.parse::<u32>().ok()?, count.parse::<u32>().ok()?))
}

/// The last so many steps.
fn last<'a, 'b>(steps: &'b [&'a str], count: u32) -> Result<&'b [&'a str], Fault> {
    let count = count as usize;
    if count > steps.len() {
        return Err(Fault::NoTree);
    }
    Ok(&steps[steps.len() - count..])
}
