ghost use Rattle.std.specs.Prelude.{◌≡◌, ◌<◌, ◌+◌, ◌-◌, ◌^◌, [], ◌∷◌, ◌++◌, length, take, Some, IfOk, OnOk, OnErr};
ghost use Rattle.core_rules.specs.Signature.{Family as FamilyDecl, Open as OpenDecl, con_place, cons_of, def_decl, defs, fam_decl, fams, field_place, fields_of, numbers};
ghost use Rattle.core_terms.specs.Woven.{AreDeclared, woven};
ghost use Rattle.core_terms.specs.Signature.{IsOpen, closed_at, closed_entry, decl_of, entry_decl, fam_of, con_total, field_total, places_of};

use crate::clause::{ConDecl, CoreClause};
use crate::telescope::Telescope;
use crate::tree::Tree;
use std::alloc::Global;
use std::marker::Model;
use term_pool::{ConId, DefId, FamId, FieldId, NameId, NoMemory, Row, TermId};

/// A finished declaration. `is_record` is true exactly of a record, which has one constructor and no
/// indices; a data type has no fields, and its `eta` and `coinductive` are false.
#[derive(Debug, Drop)]
pub enum CoreDecl {
    Postulate {
        name: NameId,
        ty: TermId,
    },
    Family {
        name: NameId,
        params: Telescope,
        indices: Telescope,
        level: u32,
        is_record: bool,
        cons: Row<ConDecl>,
        fields: Telescope,
        eta: bool,
        coinductive: bool,
    },
    Function {
        name: NameId,
        ty: TermId,
        clauses: Row<CoreClause>,
        tree: Tree,
    },
}

/// What a signature says of a postulate or a function.
#[derive(Debug, Drop)]
pub struct DefEntry {
    pub name: NameId,
    pub ty: TermId,
    pub state: DefState,
}

/// Which of the two it is, and how far a function is known.
#[derive(Debug, Drop)]
pub enum DefState {
    Postulate,
    Open,
    Closed {
        clauses: Row<CoreClause>,
        tree: Tree,
    },
}

/// What a signature says of a family: its declaration, and the ids of its constructors and fields in
/// their order.
#[derive(Debug, Drop)]
pub struct FamEntry {
    pub decl: CoreDecl,
    pub cons: Row<ConId>,
    pub fields: Row<FieldId>,
}

/// Whether a declaration is a postulate or function, or a family.
#[derive(Clone, Copy, Debug, Drop)]
enum Kind {
    Def,
    Fam,
}

/// Declarations, in the order in which they were added. It checks nothing of them.
/// Contracts see the list of the declarations over the ids of a pool.
///
/// Postulates and functions have the ids below [`Signature::defs`], families those below
/// [`Signature::fams`], in this order; constructors and fields have ids in the order of their families
/// and in these.
#[derive(Drop)]
pub struct Signature {
    kinds: Vec<Kind>,
    defs: Vec<DefEntry>,
    fams: Vec<FamEntry>,
    cons: Vec<(FamId, u32)>,
    fields: Vec<(FamId, u32)>,
    alloc: Global,
}

impl Model for Signature {
    ghost use Rattle.std.specs.Prelude.{ℕ};
    ghost use Rattle.core_rules.specs.Signature.{Signature};
    ghost use Rattle.core_rules.specs.StoredSignature.{coded_signature_ids};

    ghost Value = { Signature ℕ };

    ghost coded = { coded_signature_ids };

    ghost use Rattle.core_terms.specs.Woven.{AreDeclared, woven};

    ghost view = { λ g. woven g.kinds.items g.defs.items g.fams.items };

    ghost invariant = { λ g.
        AreDeclared g.kinds.items g.defs.items g.fams.items g.cons.items g.fields.items };
}

/// A place to which a signature can be cut. Contracts see the number of declarations before it.
#[derive(Clone, Copy)]
pub struct SigMark {
    decls: usize,
}

impl Model for SigMark {
    ghost use Rattle.std.specs.Prelude.{ℕ};

    ghost Value = { ℕ };

    ghost view = { λ m. m.decls };

    ghost inverse = { λ n. record { decls = n } };
}

impl Signature {
    /// A signature without declarations.
    pub fn new(alloc: Global) -> Result<Signature, NoMemory>
        ensures { IfOk result (λ g. g ≡ []) }
    {
        Ok(Signature {
            kinds: Vec::new(alloc),
            defs: Vec::new(alloc),
            fams: Vec::new(alloc),
            cons: Vec::new(alloc),
            fields: Vec::new(alloc),
            alloc,
        })
    }

    /// Gives the declaration, its constructors and its fields the next ids. Where memory runs out, the
    /// signature is as before.
    pub fn add(&mut self, decl: CoreDecl) -> Result<(), NoMemory>
        ensures ok { OnOk result (self.new ≡ self.old ++ decl_of decl ∷ []) }
        ensures err { OnErr result (self.new ≡ self.old) }
    {
        match decl {
            CoreDecl::Postulate { name, ty } => {
                let state = DefState::Postulate;
                self.add_def(DefEntry { name, ty, state })?;
                Ok(())
            }
            CoreDecl::Function {
                name,
                ty,
                clauses,
                tree,
            } => {
                let state = DefState::Closed { clauses, tree };
                self.add_def(DefEntry { name, ty, state })?;
                Ok(())
            }
            CoreDecl::Family {
                name,
                params,
                indices,
                level,
                is_record,
                cons,
                fields,
                eta,
                coinductive,
            } => {
                let con_count = cons.len();
                let field_count = fields.entries.len();
                let decl = CoreDecl::Family {
                    name,
                    params,
                    indices,
                    level,
                    is_record,
                    cons,
                    fields,
                    eta,
                    coinductive,
                };
                self.add_family(decl, con_count, field_count)
            }
        }
    }

    /// A function that is known without clauses and tree. Where memory runs out, the signature is as
    /// before.
    pub fn add_open(&mut self, name: NameId, ty: TermId) -> Result<DefId, NoMemory>
        ensures id { IfOk result (λ d. d ≡ length (defs self.old)) }
        ensures ok { OnOk result (self.new ≡ self.old ++ OpenDecl name ty ∷ []) }
        ensures err { OnErr result (self.new ≡ self.old) }
    {
        let state = DefState::Open;
        self.add_def(DefEntry { name, ty, state })
    }

    fn add_def(&mut self, entry: DefEntry) -> Result<DefId, NoMemory>
        ensures id { IfOk result (λ d. d ≡ length (defs self.old)) }
        ensures ok { OnOk result (self.new ≡ self.old ++ entry_decl entry ∷ []) }
        ensures err { OnErr result (self.new ≡ self.old) }
    {
        let count = self.defs.len();
        if count >= MOST {
            return Err(NoMemory);
        }
        put(&mut self.kinds, Kind::Def, &mut self.defs, entry)?;
        Ok(DefId::new(count as u32))
    }

    /// Adds a family that has so many constructors and fields.
    fn add_family(
        &mut self,
        decl: CoreDecl,
        con_count: usize,
        field_count: usize,
    ) -> Result<(), NoMemory>
        requires family { decl_of decl ≡ FamilyDecl (fam_of decl) }
        requires cons { con_count ≡ length (fam_of decl).cons }
        requires fields { field_count ≡ length (fam_of decl).fields }
        ensures ok { OnOk result (self.new ≡ self.old ++ FamilyDecl (fam_of decl) ∷ []) }
        ensures err { OnErr result (self.new ≡ self.old) }
    {
        let count = self.fams.len();
        if count >= MOST
            || con_count > MOST - self.cons.len()
            || field_count > MOST - self.fields.len()
        {
            return Err(NoMemory);
        }
        let (first_con, first_field) = (self.cons.len(), self.fields.len());
        let entry = FamEntry {
            decl,
            cons: con_ids(self.alloc, first_con as u32, con_count as u32)?,
            fields: field_ids(self.alloc, first_field as u32, field_count as u32)?,
        };
        let fam = FamId::new(count as u32);
        put_places(&mut self.cons, fam, con_count as u32)?;
        let Ok(()) = put_places(&mut self.fields, fam, field_count as u32) else {
            self.cons.truncate(first_con);
            return Err(NoMemory);
        };
        let Ok(()) = put(&mut self.kinds, Kind::Fam, &mut self.fams, entry) else {
            self.cons.truncate(first_con);
            self.fields.truncate(first_field);
            return Err(NoMemory);
        };
        Ok(())
    }

    /// What it says of one of its postulates and functions.
    pub fn def(&self, d: DefId) -> &DefEntry
        requires { d < length (defs self.now) }
        ensures { def_decl self.now d ≡ Some (entry_decl result.now) }
    {
        &self.defs[d.number() as usize]
    }

    /// What it says of one of its families.
    pub fn fam(&self, f: FamId) -> &FamEntry
        requires { f < length (fams self.now) }
        ensures decl { decl_of result.now.decl ≡ FamilyDecl (fam_of result.now.decl) }
        ensures is { fam_decl self.now f ≡ Some (fam_of result.now.decl) }
        ensures cons { result.now.cons ≡ cons_of self.now f }
        ensures fields { result.now.fields ≡ fields_of self.now f }
    {
        &self.fams[f.number() as usize]
    }

    /// The family of a constructor, and its place there.
    pub fn con(&self, c: ConId) -> (FamId, u32)
        requires { c < con_total self.now }
        ensures { con_place self.now c ≡ Some (result.0, result.1) }
    {
        self.cons[c.number() as usize]
    }

    /// The family of a field, and its place there.
    pub fn field(&self, f: FieldId) -> (FamId, u32)
        requires { f < field_total self.now }
        ensures { field_place self.now f ≡ Some (result.0, result.1) }
    {
        self.fields[f.number() as usize]
    }

    /// How many postulates and functions there are.
    pub fn defs(&self) -> u32
        ensures { result ≡ length (defs self.now) }
    {
        self.defs.len() as u32
    }

    /// How many families there are.
    pub fn fams(&self) -> u32
        ensures { result ≡ length (fams self.now) }
    {
        self.fams.len() as u32
    }

    /// How many constructors there are.
    pub fn cons(&self) -> u32
        ensures { result ≡ con_total self.now }
    {
        self.cons.len() as u32
    }

    /// How many fields there are.
    pub fn fields(&self) -> u32
        ensures { result ≡ field_total self.now }
    {
        self.fields.len() as u32
    }

    /// Gives a function that has no tree its clauses and its tree.
    pub fn close(&mut self, f: DefId, clauses: Vec<CoreClause>, tree: Tree)
        requires { IsOpen self.old f }
        ensures { self.new ≡ closed_at self.old f clauses.items tree }
    {
        let clauses = Row::from_vec(clauses);
        close_entry(&mut self.defs[f.number() as usize], clauses, tree);
    }

    /// The place that the signature has reached.
    pub fn mark(&self) -> SigMark
        ensures { result ≡ length self.now }
    {
        SigMark {
            decls: self.kinds.len(),
        }
    }

    /// Forgets what was added after the mark.
    pub fn cut(&mut self, mark: SigMark)
        ensures { self.new ≡ take mark self.old }
    {
        while self.len() > mark.decls {
            self.pop();
        }
    }

    /// Forgets the last declaration.
    fn pop(&mut self)
        requires { 0 < length self.old }
        ensures { self.new ≡ take (length self.old - 1) self.old }
    {
        forget(
            &mut self.kinds,
            &mut self.defs,
            &mut self.fams,
            &mut self.cons,
            &mut self.fields,
        );
    }

    fn len(&self) -> usize
        ensures { result ≡ length self.now }
    {
        self.kinds.len()
    }
}

fn close_entry(entry: &mut DefEntry, clauses: Row<CoreClause>, tree: Tree)
    ensures { entry.new ≡ closed_entry entry.old clauses tree }
{
    entry.state = DefState::Closed { clauses, tree };
}

/// Takes the last declaration from the lists of a signature.
fn forget(
    kinds: &mut Vec<Kind>,
    defs: &mut Vec<DefEntry>,
    fams: &mut Vec<FamEntry>,
    cons: &mut Vec<(FamId, u32)>,
    fields: &mut Vec<(FamId, u32)>,
)
    requires some { 0 < length kinds.old.items }
    requires declared { AreDeclared kinds.old.items defs.old.items fams.old.items cons.old.items fields.old.items }
    ensures declared { AreDeclared kinds.new.items defs.new.items fams.new.items cons.new.items fields.new.items }
    ensures is { woven kinds.new.items defs.new.items fams.new.items
        ≡ take (length kinds.old.items - 1) (woven kinds.old.items defs.old.items fams.old.items) }
{
    let Some(kind) = kinds.pop() else {
        unreachable!();
    };
    match kind {
        Kind::Def => {
            let Some(_entry) = defs.pop() else {
                unreachable!();
            };
        }
        Kind::Fam => {
            let Some(entry) = fams.pop() else {
                unreachable!();
            };
            cons.truncate(cons.len() - entry.cons.len());
            fields.truncate(fields.len() - entry.fields.len());
        }
    }
}

/// The most ids of one kind.
const MOST: usize = 4_294_967_295;

/// So many constructor ids from this one on.
fn con_ids(alloc: Global, first: u32, count: u32) -> Result<Row<ConId>, NoMemory>
    requires { first + count < 2 ^ 32 }
    ensures { IfOk result (λ r. r ≡ numbers first count) }
{
    let mut ids = Vec::new(alloc);
    for i in 0..count {
        ids.push(ConId::new(first + i))?;
    }
    Ok(Row::from_vec(ids))
}

/// So many field ids from this one on.
fn field_ids(alloc: Global, first: u32, count: u32) -> Result<Row<FieldId>, NoMemory>
    requires { first + count < 2 ^ 32 }
    ensures { IfOk result (λ r. r ≡ numbers first count) }
{
    let mut ids = Vec::new(alloc);
    for i in 0..count {
        ids.push(FieldId::new(first + i))?;
    }
    Ok(Row::from_vec(ids))
}

/// Puts the first `count` places of a family to the end of the list, or leaves it.
fn put_places(places: &mut Vec<(FamId, u32)>, fam: FamId, count: u32) -> Result<(), NoMemory>
    ensures ok { OnOk result (places.new.items ≡ places.old.items ++ places_of fam count) }
    ensures err { OnErr result (places.new.items ≡ places.old.items) }
{
    let before = places.len();
    for i in 0..count {
        let Ok(()) = places.push((fam, i)) else {
            places.truncate(before);
            return Err(NoMemory);
        };
    }
    Ok(())
}

/// Puts a kind and an item to the ends of their lists, or leaves both.
fn put<T: Drop>(
    kinds: &mut Vec<Kind>,
    kind: Kind,
    items: &mut Vec<T>,
    item: T,
) -> Result<(), NoMemory>
    ensures kinds { OnOk result (kinds.new.items ≡ kinds.old.items ++ kind ∷ []) }
    ensures items { OnOk result (items.new.items ≡ items.old.items ++ item ∷ []) }
    ensures same_kinds { OnErr result (kinds.new.items ≡ kinds.old.items) }
    ensures same_items { OnErr result (items.new.items ≡ items.old.items) }
{
    kinds.push(kind)?;
    let Ok(()) = items.push(item) else {
        kinds.pop();
        return Err(NoMemory);
    };
    Ok(())
}
