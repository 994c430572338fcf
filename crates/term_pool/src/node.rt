ghost use Rattle.std.specs.Prelude.{◌≡◌};
ghost use Rattle.term_pool.specs.Node.{cell_of, parts_of, with_two, without_name};

use crate::ids::{ConId, DefId, FamId, FieldId, MetaId, NameId, TermId};
use core_rules::Flag;
use std::marker::Model;

/// An argument list of a pool. It is kept as a term: its first item applied to the rest of it, and a
/// sort where it ends. So lists share their parts as terms do, and what walks terms walks lists.
/// Contracts see the number of that term.
#[derive(Clone, Copy, Debug, PartialEq, Eq, Hash)]
pub struct Args {
    number: u32,
}

impl Model for Args {
    ghost use Rattle.std.specs.Prelude.{ℕ};

    ghost Value = { ℕ };

    ghost view = { λ a. a.number };

    ghost inverse = { λ n. record { number = n } };
}

impl Args {
    /// The argument list that this term is kept as.
    pub fn of(list: TermId) -> Args
        ensures { result ≡ list }
    {
        Args {
            number: list.number(),
        }
    }

    /// The term that it is kept as.
    pub fn list(self) -> TermId
        ensures { result ≡ self }
    {
        TermId::new(self.number)
    }
}

/// The outermost node of a term. Variables are de Bruijn indices; `cod` and `body` stand under one
/// binder more than `dom`.
#[derive(Clone, Copy, Debug, PartialEq, Eq, Hash)]
pub enum Node {
    Var(u32),
    Sort(u32),
    Pi {
        flag: Flag,
        name: NameId,
        dom: TermId,
        cod: TermId,
    },
    Lam {
        flag: Flag,
        name: NameId,
        dom: TermId,
        body: TermId,
    },
    App {
        flag: Flag,
        fun: TermId,
        arg: TermId,
    },
    Def(DefId),
    Fam(FamId),
    Con {
        con: ConId,
        params: Args,
    },
    Proj {
        field: FieldId,
        of: TermId,
    },
    Meta {
        meta: MetaId,
        args: Args,
    },
}

/// What a node consists of.
#[derive(Clone, Copy, Debug)]
pub enum Parts {
    Variable(u32),
    Alone,
    /// The second stands under `binds` binders more than the first. A single part, as an argument
    /// list, is named twice.
    Two {
        first: TermId,
        second: TermId,
        binds: u32,
    },
}

impl Node {
    /// Its parts, by how many there are.
    pub fn parts(&self) -> Parts
        ensures { result ≡ parts_of self.now }
    {
        let (first, second, binds) = match *self {
            Node::Var(index) => return Parts::Variable(index),
            Node::Sort(_) | Node::Def(_) | Node::Fam(_) => return Parts::Alone,
            Node::Pi { dom, cod, .. } => (dom, cod, 1),
            Node::Lam { dom, body, .. } => (dom, body, 1),
            Node::App { fun, arg, .. } => (fun, arg, 0),
            Node::Con { params, .. } => (params.list(), params.list(), 0),
            Node::Proj { of, .. } => (of, of, 0),
            Node::Meta { args, .. } => (args.list(), args.list(), 0),
        };
        Parts::Two {
            first,
            second,
            binds,
        }
    }

    /// The item and the rest, where it is a node of an argument list.
    pub(crate) fn cell(&self) -> Option<(TermId, Args)>
        ensures { result ≡ cell_of self.now }
    {
        match *self {
            Node::App { fun, arg, .. } => Some((fun, Args::of(arg))),
            _ => None,
        }
    }

    /// The node without its name.
    pub(crate) fn without_name(&self) -> Node
        ensures { result ≡ without_name self.now }
    {
        let name = NameId::new(0);
        match *self {
            Node::Pi { flag, dom, cod, .. } => Node::Pi {
                flag,
                name,
                dom,
                cod,
            },
            Node::Lam {
                flag,
                dom,
                body,
                ..
            } => Node::Lam {
                flag,
                name,
                dom,
                body,
            },
            _ => *self,
        }
    }

    /// The node with other parts, where it has some.
    pub fn with_two(&self, first: TermId, second: TermId) -> Node
        ensures { result ≡ with_two first second self.now }
    {
        match *self {
            Node::Pi { flag, name, .. } => Node::Pi {
                flag,
                name,
                dom: first,
                cod: second,
            },
            Node::Lam { flag, name, .. } => Node::Lam {
                flag,
                name,
                dom: first,
                body: second,
            },
            Node::App { flag, .. } => Node::App {
                flag,
                fun: first,
                arg: second,
            },
            Node::Con { con, .. } => Node::Con {
                con,
                params: Args::of(first),
            },
            Node::Proj { field, .. } => Node::Proj { field, of: first },
            Node::Meta { meta, .. } => Node::Meta {
                meta,
                args: Args::of(first),
            },
            _ => *self,
        }
    }
}
