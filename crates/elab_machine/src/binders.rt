//! Lambdas and function types. Their binders are entered one after the other, and put around what stands inside at the end.

ghost use Rattle.std.specs.Prelude.{◌≡◌, ◌<◌, [], length, max, IfOk};
ghost use Rattle.core_rules.specs.Mapped.{AllEntries, telescope_map};
ghost use Rattle.term_pool.specs.Pool.{Extends, StandsFor, tree};
ghost use Rattle.written_rules.specs.Rules.{known, typed_lambda, untyped_lambda, grouped};
ghost use Rattle.written_rules.specs.Expressions.{ids};
ghost use Rattle.elab_machine.specs.Binders.{AnswersCompared, AnswersLambdas, AreDomains, bound, node_of};
ghost use Rattle.elab_machine.specs.Writer.{IsReady, Grows, term_of};

use crate::error::WrittenError;
use crate::writer::Writer;
use core_rules::Flag;
use core_terms::{Entry, NameId, NoMemory, Node, TermId, TermPool};
use el_outside::Pos;
use resolved_tree::ResolvedName;

/// What entries are put around a term as.
#[derive(Clone, Copy)]
pub(crate) enum Binding {
    Lambda,
    Function,
}

/// The entries of lambdas that are entered, and the type at which their body is checked.
#[derive(Drop)]
pub(crate) struct Lambdas {
    pub entries: Vec<Entry>,
    pub wanted: TermId,
}

/// The entries of domains that are entered, and the greatest of their levels.
#[derive(Drop)]
pub(crate) struct Domains {
    pub entries: Vec<Entry>,
    pub level: u32,
}

/// A type with the level of its sort.
#[derive(Clone, Copy)]
pub(crate) struct Typed {
    pub term: TermId,
    pub level: u32,
}

/// The greater one of two levels.
pub(crate) fn higher(first: u32, second: u32) -> u32
    ensures { result ≡ max first second }
{
    if first < second { second } else { first }
}

/// The node of an entry around a term.
fn binder_node(binding: Binding, entry: &Entry, inner: TermId) -> Node
    ensures { result ≡ node_of binding entry.now inner }
{
    let flag = entry.flag;
    let name = entry.name;
    let dom = entry.ty;
    match binding {
        Binding::Lambda => Node::Lam {
            flag,
            name,
            dom,
            body: inner,
        },
        Binding::Function => Node::Pi {
            flag,
            name,
            dom,
            cod: inner,
        },
    }
}

/// The entries around a term, the first one outermost.
pub(crate) fn put_around(
    pool: &mut TermPool,
    binding: Binding,
    entries: &[Entry],
    inner: TermId,
) -> Result<TermId, NoMemory>
    requires entries { AllEntries (λ t. t < length pool.old.trees) entries.now }
    requires inner { inner < length pool.old.trees }
    ensures extends { Extends pool.old pool.new }
    ensures is { IfOk result (λ t. StandsFor pool.new t (bound binding (telescope_map (tree pool.old) entries.now) (tree pool.old inner))) }
{
    let mut made = inner;
    let mut left = entries.len();
    while left > 0 {
        left -= 1;
        made = pool.add(binder_node(binding, &entries[left], made))?;
    }
    Ok(made)
}

impl<'a> Writer<'a> {
    /// Enters the binders of a function type for these names, whose domain is a type that is known.
    pub(crate) fn enter_names(
        &mut self,
        flag: Flag,
        names: &[ResolvedName],
        found: Typed,
    ) -> Result<Domains, NoMemory>
        requires ready { IsReady self.old }
        requires found { found.term < length self.old.pool.now.trees }
        ensures grows { Grows self.old self.new }
        ensures is { IfOk result (AreDomains self.old self.new
            (grouped flag (ids names.now) (known (term_of self.old found.term) found.level))) }
    {
        let mut entries = Vec::new(self.alloc);
        let mut level = 0;
        let mut ty = found.term;
        let mut left = names;
        while let [name, more @ ..] = left {
            let entry = Entry {
                name: name.id,
                flag,
                ty,
            };
            entries.push(entry)?;
            ty = self.enter(name.id, ty, more)?;
            level = higher(level, found.level);
            left = more;
        }
        Ok(Domains { entries, level })
    }

    /// Enters a lambda without a type.
    pub(crate) fn enter_untyped(
        &mut self,
        pos: Pos,
        flag: Flag,
        name: NameId,
        wanted: TermId,
    ) -> Result<Lambdas, WrittenError>
        requires ready { IsReady self.old }
        requires wanted { wanted < length self.old.pool.now.trees }
        ensures grows { Grows self.old self.new }
        ensures is { AnswersLambdas self.old self.new (untyped_lambda pos flag name) (term_of self.old wanted) result }
    {
        let parts = self.function_wanted(pos, flag, wanted)?;
        let mut entries = Vec::new(self.alloc);
        let ty = parts.dom;
        entries.push(Entry { name, flag, ty })?;
        self.enter(name, parts.dom, &[])?;
        Ok(Lambdas {
            entries,
            wanted: parts.cod,
        })
    }

    /// Enters lambdas over these names, whose domain is a type that is known.
    pub(crate) fn enter_typed_names(
        &mut self,
        pos: Pos,
        flag: Flag,
        names: &[ResolvedName],
        found: Typed,
        wanted: TermId,
    ) -> Result<Lambdas, WrittenError>
        requires ready { IsReady self.old }
        requires found { found.term < length self.old.pool.now.trees }
        requires wanted { wanted < length self.old.pool.now.trees }
        ensures grows { Grows self.old self.new }
        ensures is { AnswersLambdas self.old self.new
            (typed_lambda pos flag (ids names.now) (known (term_of self.old found.term) found.level)) (term_of self.old wanted) result }
    {
        let mut entries = Vec::new(self.alloc);
        let mut wanted = wanted;
        let mut ty = found.term;
        let mut left = names;
        while let [name, more @ ..] = left {
            let parts = self.function_wanted(pos, flag, wanted)?;
            let next = self.enter_compared(pos, name.id, ty, parts.dom, more)?;
            let entry = Entry {
                name: name.id,
                flag,
                ty,
            };
            entries.push(entry)?;
            ty = next;
            wanted = parts.cod;
            left = more;
        }
        Ok(Lambdas { entries, wanted })
    }

    /// Binds a name of the type `ty`, which has to be the type `wanted`. Where `more` names of its group follow, it gives `ty` inside
    /// its binder for them.
    pub(crate) fn enter_compared(
        &mut self,
        pos: Pos,
        name: NameId,
        ty: TermId,
        wanted: TermId,
        more: &[ResolvedName],
    ) -> Result<TermId, WrittenError>
        requires ready { IsReady self.old }
        requires ty { ty < length self.old.pool.now.trees }
        requires wanted { wanted < length self.old.pool.now.trees }
        ensures grows { Grows self.old self.new }
        ensures is { AnswersCompared self.old self.new pos name ty wanted more.now result }
    {
        self.agree(pos, ty, wanted)?;
        Ok(self.enter(name, ty, more)?)
    }
}
