ghost use Rattle.std.specs.Prelude.{◌≡◌, ◌<◌, ◌↔◌, ◌+◌, length, IfOk, IsTrue};
ghost use Rattle.core_rules.specs.Term.{IsSameTerm, nameless};
ghost use Rattle.term_pool.specs.Measures.{IsMeasured, has_meta};
ghost use Rattle.term_pool.specs.Reach.{reach};
ghost use Rattle.term_pool.specs.Pool.{ArePool, Below, ClassOf, Extends, IsAt, IsKnown, StandsFor};
ghost use Rattle.term_pool.specs.Pool.{cut_to, no_terms, node_tree, seen, tree};

use crate::NoMemory;
use crate::ids::TermId;
use crate::measures::{Known, Measures};
use crate::node::{Node, Parts};
use indexmap::IndexSet;
use std::alloc::Global;
use std::marker::Model;

/// The most nodes that a pool holds. One more is out of memory.
const MOST: usize = 134_217_728;

/// Terms that share their parts. Contracts see the tree that each id stands for; an argument list
/// is a tree too.
///
/// Each node is kept once, so that one tree has one id. The parts of a node lie below it, and nothing
/// that is added changes an earlier tree. Where memory runs out, a pool may hold more than before; its
/// earlier ids stand for what they stood for.
///
/// With each term stands the same term without names, so that terms are compared by their ids.
#[derive(Drop)]
pub struct TermPool {
    nodes: IndexSet<Node>,
    known: Vec<Known>,
    alloc: Global,
}

impl Model for TermPool {
    ghost use Rattle.term_pool.specs.Pool.{Pool, coded_pool, seen, ArePool};

    ghost Value = { Pool };

    ghost coded = { coded_pool };

    ghost view = { λ p. seen p.nodes.keys };

    ghost invariant = { λ p. ArePool p.nodes.keys p.known.items };
}

/// A place to which a pool can be cut.
#[derive(Clone, Copy)]
pub struct PoolMark {
    nodes: usize,
}

impl Model for PoolMark {
    ghost use Rattle.std.specs.Prelude.{ℕ};

    ghost Value = { ℕ };

    ghost view = { λ m. m.nodes };

    ghost inverse = { λ n. record { nodes = n } };
}

impl TermPool {
    /// A pool without terms.
    pub fn new(alloc: Global) -> Result<TermPool, NoMemory>
        ensures { IfOk result (λ p. p ≡ no_terms) }
    {
        Ok(TermPool {
            nodes: IndexSet::new(alloc),
            known: Vec::new(alloc),
            alloc,
        })
    }

    pub(crate) fn allocator(&self) -> Global {
        self.alloc
    }

    /// How many ids there are. They are the numbers below it.
    pub fn len(&self) -> usize
        ensures { result ≡ length self.now.trees }
    {
        self.nodes.len()
    }

    /// The id of the term that has this node outermost, whose parts are ids of the pool.
    pub fn add(&mut self, node: Node) -> Result<TermId, NoMemory>
        requires { Below (tree self.old) (length self.old.trees) node }
        ensures extends { Extends self.old self.new }
        ensures stands { IfOk result (λ t. StandsFor self.new t (node_tree (tree self.old) node)) }
    {
        let measures = self.measured(&node);
        let plain = self.plain(&node);
        if plain == node {
            return keep(&mut self.nodes, &mut self.known, node, measures, None);
        }
        let class = keep(&mut self.nodes, &mut self.known, plain, measures, None)?;
        keep(
            &mut self.nodes,
            &mut self.known,
            node,
            measures,
            Some(class),
        )
    }

    /// The same node without names, over the classes of its parts.
    fn plain(&self, node: &Node) -> Node
        requires { Below (tree self.now) (length self.now.trees) node.now }
        ensures below { Below (tree self.now) (length self.now.trees) result }
        ensures is { node_tree (tree self.now) result ≡ nameless (node_tree (tree self.now) node.now) }
    {
        match node.parts() {
            Parts::Variable(_) | Parts::Alone => *node,
            Parts::Two { first, second, .. } => node
                .with_two(self.class(first), self.class(second))
                .without_name(),
        }
    }

    /// What the term of this node measures.
    fn measured(&self, node: &Node) -> Measures
        requires { Below (tree self.now) (length self.now.trees) node.now }
        ensures { IsMeasured (node_tree (tree self.now) node.now) result }
    {
        match *node {
            Node::Var(index) => Measures::leaf(index as u64 + 1),
            Node::Sort(_) | Node::Def(_) | Node::Fam(_) => Measures::leaf(0),
            Node::Pi { dom, cod, .. } => self.measures(dom).binder(&self.measures(cod)),
            Node::Lam { dom, body, .. } => self.measures(dom).binder(&self.measures(body)),
            Node::App { fun, arg, .. } => self.measures(fun).applied(&self.measures(arg)),
            Node::Con { params, .. } => self.measures(params.list()).over_items(),
            Node::Proj { of, .. } => self.measures(of).projected(),
            Node::Meta { args, .. } => self.measures(args.list()).waiting(),
        }
    }

    /// The outermost node of a term, whose parts are smaller ids.
    pub fn node(&self, t: TermId) -> Node
        requires { t < length self.now.trees }
        ensures below { Below (tree self.now) t result }
        ensures is { tree self.now t ≡ node_tree (tree self.now) result }
    {
        self.at(t)
    }

    fn at(&self, t: TermId) -> Node
        requires { t < length self.now.trees }
        ensures { IsAt self.now.trees t result }
    {
        self.nodes.as_slice()[t.number() as usize]
    }

    fn known(&self, t: TermId) -> Known
        requires { t < length self.now.trees }
        ensures { IsKnown self.now.trees t result }
    {
        self.known[t.number() as usize]
    }

    pub(crate) fn measures(&self, t: TermId) -> Measures
        requires { t < length self.now.trees }
        ensures { IsMeasured (tree self.now t) result }
    {
        self.known(t).measures
    }

    /// The same term without names.
    fn class(&self, t: TermId) -> TermId
        requires { t < length self.now.trees }
        ensures { StandsFor self.now result (nameless (tree self.now t)) }
    {
        self.known(t).class
    }

    /// How far the free variables of a term reach: those from here on do not occur in it.
    pub fn reach(&self, t: TermId) -> u64
        requires { t < length self.now.trees }
        ensures { result ≡ reach (tree self.now t) }
    {
        self.measures(t).reach
    }

    /// Whether a metavariable stands in a term.
    pub fn has_meta(&self, t: TermId) -> bool
        requires { t < length self.now.trees }
        ensures { result ≡ has_meta (tree self.now t) }
    {
        self.measures(t).has_meta
    }

    /// Whether two ids stand for terms that differ in names at most.
    pub fn same_class(&self, t: TermId, u: TermId) -> bool
        requires left { t < length self.now.trees }
        requires right { u < length self.now.trees }
        ensures { IsTrue result ↔ IsSameTerm (tree self.now t) (tree self.now u) }
    {
        self.same_tree(self.class(t), self.class(u))
    }

    /// Whether two ids stand for one tree, names included. Each node is kept once, so they are then one id.
    pub fn same_tree(&self, t: TermId, u: TermId) -> bool
        requires left { t < length self.now.trees }
        requires right { u < length self.now.trees }
        ensures { IsTrue result ↔ (tree self.now t ≡ tree self.now u) }
    {
        let _nodes = self.nodes.as_slice();
        t.number() == u.number()
    }

    /// The place that the pool has reached. As the pool grows it stays one to which it can be cut.
    pub fn mark(&self) -> PoolMark
        ensures { result ≡ length self.now.trees }
    {
        PoolMark {
            nodes: self.nodes.len(),
        }
    }

    /// Forgets what was added after the mark, which was taken of this pool.
    pub fn cut(&mut self, mark: PoolMark)
        ensures { self.new ≡ cut_to mark self.old }
    {
        self.nodes.truncate(mark.nodes);
        self.known.truncate(mark.nodes);
    }

    /// A second pool, in which each id stands for the same tree.
    pub fn copy(&self) -> Result<TermPool, NoMemory>
        ensures { IfOk result (λ p. p ≡ self.now) }
    {
        let known = Vec::from_slice(self.alloc, self.known.as_slice())?;
        let mut nodes = IndexSet::new(self.alloc);
        for node in self.nodes.as_slice() {
            nodes.insert(*node)?;
        }
        Ok(TermPool {
            nodes,
            known,
            alloc: self.alloc,
        })
    }
}

/// The id of a node among these, which is put after them where it is not there yet. `class` is the
/// same term without names, where it is another.
fn keep(
    nodes: &mut IndexSet<Node>,
    known: &mut Vec<Known>,
    node: Node,
    measures: Measures,
    class: Option<TermId>,
) -> Result<TermId, NoMemory>
    requires pool { ArePool nodes.old.keys known.old.items }
    requires below { Below (tree (seen nodes.old.keys)) (length (seen nodes.old.keys).trees) node }
    requires measured { IsMeasured (node_tree (tree (seen nodes.old.keys)) node) measures }
    requires class { ClassOf (seen nodes.old.keys) (node_tree (tree (seen nodes.old.keys)) node) class }
    ensures pool { ArePool nodes.new.keys known.new.items }
    ensures extends { Extends (seen nodes.old.keys) (seen nodes.new.keys) }
    ensures stands { IfOk result (λ t. StandsFor (seen nodes.new.keys) t
        (node_tree (tree (seen nodes.old.keys)) node)) }
{
    let count = nodes.len();
    let (at, is_new) = nodes.insert_full(node)?;
    let id = TermId::new(at as u32);
    if !is_new {
        return Ok(id);
    }
    if count >= MOST {
        nodes.truncate(count);
        return Err(NoMemory);
    }
    let class = class.unwrap_or(TermId::new(count as u32));
    let Ok(()) = known.push(Known { measures, class }) else {
        nodes.truncate(count);
        return Err(NoMemory);
    };
    Ok(id)
}
