ghost use Rattle.std.specs.Prelude.{◌≡◌, map, IfOk, OnOk, OnErr};
ghost use Rattle.scope_table.specs.Known as known;
ghost use Rattle.scope_table.specs.Known.{Known, Grows, mark_of, with_text, with_texts, fields_of};
ghost use Rattle.std.specs.Option.{option_copied};

use crate::global::GlobalId;
use crate::texts::Texts;
use el_outside::{NoMemory, Text};
use indexmap::IndexMap;
use sqlite_items::Items;
use std::alloc::Global;
use std::marker::Model;
use term_pool::{ConId, DefId, FamId, FieldId, NameId, Names};

/// The fields of a record, in order: their names, and the id of the first, after which the others follow.
#[derive(Debug, Drop)]
pub struct Fields {
    pub first: FieldId,
    pub names: Items<Text>,
}

/// What is in scope after the declarations so far. Contracts see the texts that have numbers, the globals in the order in which
/// they came into scope, the fields of each record, and how many ids of each kind are given.
///
/// Globals get the ids that a signature gives them where the same declarations are added to it in the same order.
#[derive(Drop)]
pub struct Scope {
    names: Names,
    keys: Texts,
    globals: IndexMap<String, GlobalId>,
    families: Vec<Option<Fields>>,
    defs: u32,
    cons: u32,
    fields: u32,
    alloc: Global,
}

impl Model for Scope {
    ghost use Rattle.std.specs.Prelude.{◌≡◌, map, string_bytes};
    ghost use Rattle.scope_table.specs.Known.{Known, coded_known};

    ghost Value = { Known };

    ghost coded = { coded_known };

    ghost view = { λ s. record { names = s.names; globals = map (λ e. (string_bytes e.0, e.1)) s.globals.entries; families = s.families.items; defs = s.defs; cons = s.cons; fields = s.fields } };

    ghost invariant = { λ s. s.names ≡ s.keys };
}

/// A place to which a scope can be cut.
#[derive(Clone, Copy)]
pub struct ScopeMark {
    names: u32,
    globals: usize,
    families: usize,
    defs: u32,
    cons: u32,
    fields: u32,
}

impl Model for ScopeMark {
    ghost use Rattle.std.specs.Prelude.{ℕ};

    ghost Value = { ℕ × ℕ × ℕ × ℕ × ℕ × ℕ };

    ghost view = { λ m. (m.names, m.globals, m.families, m.defs, m.cons, m.fields) };

    ghost inverse = { λ v. record { names = v.0; globals = v.1; families = v.2; defs = v.3; cons = v.4; fields = v.5 } };
}

fn copy_texts(alloc: Global, all: &[Text]) -> Result<Items<Text>, NoMemory>
    ensures { IfOk result (λ xs. xs ≡ all.now) }
{
    let mut found = Items::new(alloc);
    for text in all {
        found.push(text.copy(alloc)?)?;
    }
    Ok(found)
}

impl Scope {
    /// Nothing is in scope. The empty text, which a binder without a name has, is the name of number 0.
    pub fn new(alloc: Global) -> Result<Scope, NoMemory>
        ensures { IfOk result (λ s. s ≡ known.nothing_known) }
    {
        let Ok(names) = Names::new(alloc) else {
            return Err(NoMemory);
        };
        let mut scope = Scope {
            names,
            keys: Texts::new(alloc),
            globals: IndexMap::new(alloc),
            families: Vec::new(alloc),
            defs: 0,
            cons: 0,
            fields: 0,
            alloc,
        };
        scope.note("")?;
        Ok(scope)
    }

    /// The texts by number.
    pub fn names(&self) -> &Names
        ensures { result.now ≡ self.now.names }
    {
        &self.names
    }

    /// Where the scope ends now.
    pub fn mark(&self) -> ScopeMark
        ensures { result ≡ mark_of self.now }
    {
        ScopeMark {
            names: self.names.len(),
            globals: self.globals.len(),
            families: self.families.len(),
            defs: self.defs,
            cons: self.cons,
            fields: self.fields,
        }
    }

    /// Makes the scope what it was at the mark, after which it has only grown.
    pub fn cut(&mut self, mark: ScopeMark)
        ensures { (k : Known) → mark ≡ mark_of k → Grows k self.old → self.new ≡ k }
    {
        self.names.cut(mark.names);
        self.keys.cut(mark.names);
        self.globals.truncate(mark.globals);
        self.families.truncate(mark.families);
        self.defs = mark.defs;
        self.cons = mark.cons;
        self.fields = mark.fields;
    }

    /// The number of a text.
    pub fn number(&self, text: &str) -> NameId
        ensures { result ≡ known.number self.now.names text.now }
    {
        let len = self.names.len();
        match self.keys.find(text) {
            Some(place) => NameId::new(place),
            None => NameId::new(len),
        }
    }

    /// The global that a text names.
    pub fn global(&self, text: &str) -> Option<GlobalId>
        ensures { result ≡ known.global_in self.now.globals text.now }
    {
        match self.globals.get(text) {
            Some(global) => Some(*global),
            None => None,
        }
    }

    /// Gives a text that has no number the next one.
    fn note(&mut self, text: &str) -> Result<(), NoMemory>
        ensures ok { OnOk result (self.new ≡ known.with_names self.old (with_text self.old.names text.now)) }
        ensures err { OnErr result (self.new ≡ self.old) }
    {
        let len = self.keys.len();
        if !self.keys.put(text)? {
            return Ok(());
        }
        let Ok(_) = self.names.add(text) else {
            self.keys.cut(len);
            return Err(NoMemory);
        };
        Ok(())
    }

    /// Gives each of the texts that has no number the next one.
    #[tactic(auto, using(crate::proofs::Grown::grows), unfolding(crate::specs::Known::with_texts))]
    pub fn note_all(&mut self, all: &[&str]) -> Result<(), NoMemory>
        ensures ok { OnOk result (self.new ≡ known.with_names self.old (with_texts self.old.names (map (λ t. t.now) all.now))) }
        ensures grows { Grows self.old self.new }
    {
        let mut left = all;
        while let [text, rest @ ..] = left {
            self.note(text)?;
            left = rest;
        }
        Ok(())
    }

    /// A global more. One whose text is there already is not put in.
    pub fn declare(&mut self, text: &str, global: GlobalId) -> Result<(), NoMemory>
        ensures ok { OnOk result (self.new ≡ known.with_global self.old text.now global) }
        ensures err { OnErr result (self.new ≡ self.old) }
    {
        if self.global(text).is_some() {
            return Ok(());
        }
        let text = String::from_str(self.alloc, text)?;
        let Ok(_) = self.globals.insert(text, global) else {
            return Err(NoMemory);
        };
        Ok(())
    }

    /// The next postulate or function.
    pub fn declare_def(&mut self, text: &str) -> Result<DefId, NoMemory>
        ensures id { IfOk result (λ d. d ≡ self.old.defs) }
        ensures ok { OnOk result (self.new ≡ known.with_def self.old text.now) }
        ensures err { OnErr result (self.new ≡ self.old) }
    {
        if self.defs == u32::MAX {
            return Err(NoMemory);
        }
        let id = DefId::new(self.defs);
        self.declare(text, GlobalId::Def(id))?;
        self.defs += 1;
        Ok(id)
    }

    /// The next constructor.
    pub fn declare_con(&mut self, text: &str) -> Result<(), NoMemory>
        ensures ok { OnOk result (self.new ≡ known.with_con self.old text.now) }
        ensures err { OnErr result (self.new ≡ self.old) }
    {
        if self.cons == u32::MAX {
            return Err(NoMemory);
        }
        self.declare(text, GlobalId::Con(ConId::new(self.cons)))?;
        self.cons += 1;
        Ok(())
    }

    /// The next constructor, which has no name.
    pub fn declare_nameless_con(&mut self) -> Result<(), NoMemory>
        ensures ok { OnOk result (self.new ≡ known.with_nameless_con self.old) }
        ensures err { OnErr result (self.new ≡ self.old) }
    {
        if self.cons == u32::MAX {
            return Err(NoMemory);
        }
        self.cons += 1;
        Ok(())
    }

    /// The next field of a record, as `R.f`.
    pub fn declare_field(&mut self, family: &str, text: &str) -> Result<(), NoMemory>
        ensures ok { OnOk result (self.new ≡ known.with_field self.old family.now text.now) }
        ensures err { OnErr result (self.new ≡ self.old) }
    {
        if self.fields == u32::MAX {
            return Err(NoMemory);
        }
        let mut whole = String::from_str(self.alloc, family)?;
        whole.push_str(".")?;
        whole.push_str(text)?;
        self.declare(whole.as_str(), GlobalId::Field(FieldId::new(self.fields)))?;
        self.fields += 1;
        Ok(())
    }

    /// The name of the next data or record type.
    pub fn declare_family(&mut self, text: &str) -> Result<(), NoMemory>
        ensures ok { OnOk result (self.new ≡ known.with_family self.old text.now) }
        ensures err { OnErr result (self.new ≡ self.old) }
    {
        let Ok(number) = u32::try_from(self.families.len()) else {
            return Err(NoMemory);
        };
        self.declare(text, GlobalId::Family(FamId::new(number)))
    }

    /// The number of the next field.
    pub fn next_field(&self) -> FieldId
        ensures { result ≡ self.now.fields }
    {
        FieldId::new(self.fields)
    }

    /// Tells the fields of the type that is done, if it is a record.
    pub fn finish_family(&mut self, fields: Option<Fields>) -> Result<(), NoMemory>
        ensures ok { OnOk result (self.new ≡ known.with_families self.old fields) }
        ensures err { OnErr result (self.new ≡ self.old) }
    {
        let Ok(()) = self.families.push(fields) else {
            return Err(NoMemory);
        };
        Ok(())
    }

    /// The fields of a type, if it is a record.
    fn record_fields(&self, family: FamId) -> Option<&Fields>
        ensures { option_copied result ≡ fields_of self.now family }
    {
        match self.families.get(family.number() as usize)? {
            Some(fields) => Some(fields),
            None => None,
        }
    }

    /// A copy of the fields of a type, if it is a record.
    pub fn fields_of(&self, family: FamId) -> Result<Option<Fields>, NoMemory>
        ensures { IfOk result (λ o. o ≡ fields_of self.now family) }
    {
        let Some(fields) = self.record_fields(family) else {
            return Ok(None);
        };
        let names = copy_texts(self.alloc, fields.names.as_slice())?;
        Ok(Some(Fields {
            first: fields.first,
            names,
        }))
    }
}
