ghost use Rattle.std.specs.Prelude.{◌≡◌, slice_get, Some, None, MatchOption};
ghost use Rattle.core_rules.specs.Signature.{decl_name};
ghost use Rattle.core_terms.specs.Signature.{decl_of, fam_of};
ghost use Rattle.core_print.specs.Names.{con_text, def_text, fam_text, field_text, hole_from, name_text};
ghost use Rattle.core_print.specs.Variables.{is_at};
ghost use Rattle.core_print.specs.Views.{world_of};

use crate::label::text_of;
use core_terms::{
    ConDecl, ConId, CoreDecl, DefId, Entry, FamId, FieldId, MetaId, NameId, Names, Signature,
};

/// What printing knows beside a term.
#[derive(Clone, Copy)]
pub(crate) struct View<'a> {
    pub(crate) sig: &'a Signature,
    pub(crate) names: &'a Names,
    /// Of each goal its metavariable.
    pub(crate) holes: &'a [Option<MetaId>],
}

impl<'a> View<'a> {
    /// The text of a name, which is empty where there is none.
    pub(crate) fn name(&self, name: NameId) -> &'a str
        ensures { result.now ≡ name_text self.now.names.now name }
    {
        text_of(self.names, name)
    }

    pub(crate) fn def_text(&self, def: DefId) -> &'a str
        ensures { result.now ≡ def_text (world_of self.now) def }
    {
        if def.number() >= self.sig.defs() {
            return "_";
        }
        self.name(self.sig.def(def).name)
    }

    pub(crate) fn fam_text(&self, fam: FamId) -> &'a str
        ensures { result.now ≡ fam_text (world_of self.now) fam }
    {
        if fam.number() >= self.sig.fams() {
            return "_";
        }
        self.name(name_of(&self.sig.fam(fam).decl))
    }

    /// A constructor without a name is called `record`.
    pub(crate) fn con_text(&self, con: ConId) -> &'a str
        ensures { result.now ≡ con_text (world_of self.now) con }
    {
        if con.number() >= self.sig.cons() {
            return "_";
        }
        let (fam, at) = self.sig.con(con);
        if fam.number() >= self.sig.fams() {
            return "_";
        }
        match con_at(&self.sig.fam(fam).decl, at) {
            None => "_",
            Some(con) => match con.name {
                None => "record",
                Some(name) => self.name(name),
            },
        }
    }

    pub(crate) fn field_text(&self, field: FieldId) -> &'a str
        ensures { result.now ≡ field_text (world_of self.now) field }
    {
        if field.number() >= self.sig.fields() {
            return "_";
        }
        let (fam, at) = self.sig.field(field);
        if fam.number() >= self.sig.fams() {
            return "_";
        }
        match field_at(&self.sig.fam(fam).decl, at) {
            None => "_",
            Some(entry) => self.name(entry.name),
        }
    }

    /// The number of the goal whose hole a metavariable is.
    pub(crate) fn goal_of(&self, meta: MetaId) -> Option<usize>
        ensures { result ≡ hole_from 0 self.now.holes.now meta }
    {
        let holes = self.holes;
        for (n, hole) in holes.iter().enumerate() {
            if is_hole(hole, meta) {
                return Some(n);
            }
        }
        None
    }
}

fn is_hole(hole: &Option<MetaId>, meta: MetaId) -> bool
    ensures { result ≡ is_at hole.now meta }
{
    match hole {
        None => false,
        Some(other) => other.number() == meta.number(),
    }
}

fn name_of(decl: &CoreDecl) -> NameId
    ensures { result ≡ decl_name (decl_of decl.now) }
{
    match decl {
        CoreDecl::Postulate { name, .. } => *name,
        CoreDecl::Family { name, .. } => *name,
        CoreDecl::Function { name, .. } => *name,
    }
}

/// A constructor of a family by its place.
fn con_at(decl: &CoreDecl, at: u32) -> Option<&ConDecl>
    ensures { MatchOption result
        (slice_get (fam_of decl.now).cons at ≡ None)
        (λ c. slice_get (fam_of decl.now).cons at ≡ Some c.now) }
{
    match decl {
        CoreDecl::Family { cons, .. } => cons.as_slice().get(at as usize),
        _ => None,
    }
}

/// A field of a family by its place.
fn field_at(decl: &CoreDecl, at: u32) -> Option<&Entry>
    ensures { MatchOption result
        (slice_get (fam_of decl.now).fields at ≡ None)
        (λ e. slice_get (fam_of decl.now).fields at ≡ Some e.now) }
{
    match decl {
        CoreDecl::Family { fields, .. } => fields.entries.as_slice().get(at as usize),
        _ => None,
    }
}
