ghost use Rattle.std.specs.Prelude.{◌≡◌, ◌<◌, length, Some, IfOk, IsTrue};
ghost use Rattle.std.specs.List.{AllByRecursion};
ghost use Rattle.core_rules.specs.Term.{to_list};
ghost use Rattle.core_rules.specs.InScope.{con_params};
ghost use Rattle.term_pool.specs.Pool.{IsArgs, args, tree};
ghost use Rattle.core_terms.specs.Signature.{fam_of};
ghost use Rattle.case_terms.specs.Known.{AreMarked, AreTypesUnder, HasIds, IsConUnder, IsOver, IsTermUnder};

use crate::fault::Fault;
use crate::terms::is_in;
use core_terms::{Args, ConDecl, ConId, CoreDecl, Entry, Node, Signature, TermId, TermPool};
use std::alloc::Global;

/// A pool and a signature that has so many families, and the terms of the pool that are marked: all their ids are those of the signature.
#[derive(Drop)]
pub struct Ids<'a> {
    pool: &'a TermPool,
    pub sig: &'a Signature,
    fams: u32,
    marks: Vec<bool>,
}

/// Marks every term of the pool whose ids are those of the signature.
pub fn marked<'a>(
    alloc: Global,
    pool: &'a TermPool,
    sig: &'a Signature,
    fams: u32,
) -> Result<Ids<'a>, Fault>
    ensures over { IfOk result (IsOver pool.now sig.now fams) }
    ensures marked { IfOk result AreMarked }
{
    let marks = Vec::new(alloc);
    let mut ids = Ids {
        pool,
        sig,
        fams,
        marks,
    };
    for number in 0..u32::MAX {
        let t = TermId::new(number);
        if !is_in(pool, t) {
            return Ok(ids);
        }
        let known = ids.has_ids(t)?;
        ids.marks.push(known)?;
    }
    Ok(ids)
}

impl<'a> Ids<'a> {
    /// Whether the ids of a term are those of the signature, by the marks on its parts.
    fn has_ids(&self, t: TermId) -> Result<bool, Fault>
        requires within { t < length self.now.pool.now.trees }
        requires marked { AreMarked self.now }
        ensures { IfOk result (λ b. IsTrue b → HasIds self.now (tree self.now.pool.now t)) }
    {
        match self.pool.node(t) {
            Node::Var(_) | Node::Sort(_) => Ok(true),
            Node::Def(def) => Ok(def.number() < self.sig.defs()),
            Node::Fam(fam) => Ok(fam.number() < self.fams),
            Node::Pi { dom, cod, .. } => Ok(self.is_marked(dom) && self.is_marked(cod)),
            Node::Lam { dom, body, .. } => Ok(self.is_marked(dom) && self.is_marked(body)),
            Node::App { fun, arg, .. } => Ok(self.is_marked(fun) && self.is_marked(arg)),
            Node::Con { con, params } => {
                if !self.is_marked(params.list()) {
                    return Ok(false);
                }
                self.takes(con, params)
            }
            Node::Proj { field, of } => {
                Ok(field.number() < self.sig.fields() && self.is_marked(of))
            }
            Node::Meta { args, .. } => Ok(self.is_marked(args.list())),
        }
    }

    fn is_marked(&self, t: TermId) -> bool
        requires { AreMarked self.now }
        ensures { IsTrue result → HasIds self.now (tree self.now.pool.now t) }
    {
        let at = t.number() as usize;
        at < self.marks.len() && self.marks[at]
    }

    /// Whether the constructor takes so many parameters.
    fn takes(&self, con: ConId, params: Args) -> Result<bool, Fault>
        requires { IsArgs (tree self.now.pool.now) (length self.now.pool.now.trees) params }
        ensures { IfOk result (λ b. IsTrue b →
            con_params self.now.sig.now con ≡ Some (length (to_list (args self.now.pool.now params)))) }
    {
        if con.number() >= self.sig.cons() {
            return Ok(false);
        }
        let (fam, _) = self.sig.con(con);
        if fam.number() >= self.sig.fams() {
            return Ok(false);
        }
        let CoreDecl::Family {
            params: entries,
            ..
        } = &self.sig.fam(fam).decl
        else {
            return Ok(false);
        };
        Ok(self.pool.args(params)?.len() == entries.entries.len())
    }

    /// Whether it is a marked term whose variables are below `under`.
    pub fn is_term(&self, under: usize, t: TermId) -> bool
        requires { AreMarked self.now }
        ensures { IsTrue result → IsTermUnder self.now under t }
    {
        if !is_in(self.pool, t) {
            return false;
        }
        self.is_marked(t) && self.pool.reach(t) <= under as u64
    }

    /// Whether each type is a term under the entries before it.
    pub fn are_types(&self, under: usize, entries: &[Entry]) -> bool
        requires { AreMarked self.now }
        ensures { IsTrue result → AreTypesUnder self.now under entries.now }
    {
        let (mut around, mut left) = (under, entries);
        while let [entry, more @ ..] = left {
            if !self.is_term(around, entry.ty) || around == usize::MAX {
                return false;
            }
            around += 1;
            left = more;
        }
        true
    }

    pub fn are_terms(&self, under: usize, terms: &[TermId]) -> bool
        requires { AreMarked self.now }
        ensures { IsTrue result → AllByRecursion (IsTermUnder self.now under) terms.now }
    {
        let mut left = terms;
        while let [t, more @ ..] = left {
            if !self.is_term(under, *t) {
                return false;
            }
            left = more;
        }
        true
    }

    fn is_constructor(&self, under: usize, con: &ConDecl) -> bool
        requires { AreMarked self.now }
        ensures { IsTrue result → IsConUnder self.now under con.now }
    {
        let args = con.args.entries.as_slice();
        if under > usize::MAX - args.len() {
            return false;
        }
        self.are_types(under, args) && self.are_terms(under + args.len(), con.indices.as_slice())
    }

    /// Whether each is a constructor under so many parameters.
    fn are_constructors(&self, under: usize, cons: &[ConDecl]) -> bool
        requires { AreMarked self.now }
        ensures { IsTrue result → AllByRecursion (IsConUnder self.now under) cons.now }
    {
        let mut left = cons;
        while let [con, more @ ..] = left {
            if !self.is_constructor(under, con) {
                return false;
            }
            left = more;
        }
        true
    }

    /// Whether the parameters and the indices of a family are terms where they stand.
    pub fn is_heading(&self, decl: &CoreDecl) -> bool
        requires { AreMarked self.now }
        ensures params { IsTrue result → AreTypesUnder self.now 0 (fam_of decl.now).params }
        ensures indices { IsTrue result → AreTypesUnder self.now (length (fam_of decl.now).params) (fam_of decl.now).indices }
    {
        let CoreDecl::Family {
            params,
            indices,
            ..
        } = decl
        else {
            return false;
        };
        let under = params.entries.len();
        self.are_types(0, params.entries.as_slice())
            && self.are_types(under, indices.entries.as_slice())
    }

    /// Whether the types of its constructors and fields are.
    pub fn are_parts(&self, decl: &CoreDecl) -> bool
        requires { AreMarked self.now }
        ensures cons { IsTrue result → AllByRecursion (IsConUnder self.now (length (fam_of decl.now).params)) (fam_of decl.now).cons }
        ensures fields { IsTrue result → AreTypesUnder self.now (length (fam_of decl.now).params) (fam_of decl.now).fields }
    {
        let CoreDecl::Family {
            params,
            cons,
            fields,
            ..
        } = decl
        else {
            return false;
        };
        let under = params.entries.len();
        self.are_constructors(under, cons.as_slice())
            && self.are_types(under, fields.entries.as_slice())
    }
}
