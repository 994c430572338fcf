ghost use Rattle.std.specs.Prelude.{◌≡◌};

use std::marker::Model;

/// The id of a term of a pool. Contracts see its number.
#[derive(Clone, Copy, Debug, PartialEq, Eq, Hash)]
pub struct TermId {
    number: u32,
}

impl Model for TermId {
    ghost use Rattle.std.specs.Prelude.{ℕ};

    ghost Value = { ℕ };

    ghost view = { λ i. i.number };

    ghost inverse = { λ n. record { number = n } };
}

impl TermId {
    pub fn new(number: u32) -> TermId
        ensures { result ≡ number }
    {
        TermId { number }
    }

    pub fn number(self) -> u32
        ensures { result ≡ self }
    {
        self.number
    }
}

/// The id of a name's text. Contracts see its number.
#[derive(Clone, Copy, Debug, PartialEq, Eq, Hash)]
pub struct NameId {
    number: u32,
}

impl Model for NameId {
    ghost use Rattle.std.specs.Prelude.{ℕ};

    ghost Value = { ℕ };

    ghost view = { λ i. i.number };

    ghost inverse = { λ n. record { number = n } };
}

impl NameId {
    pub fn new(number: u32) -> NameId
        ensures { result ≡ number }
    {
        NameId { number }
    }

    pub fn number(self) -> u32
        ensures { result ≡ self }
    {
        self.number
    }
}

/// The id of a postulate or a function of a signature. Contracts see its number.
#[derive(Clone, Copy, Debug, PartialEq, Eq, Hash)]
pub struct DefId {
    number: u32,
}

impl Model for DefId {
    ghost use Rattle.std.specs.Prelude.{ℕ};

    ghost Value = { ℕ };

    ghost view = { λ i. i.number };

    ghost inverse = { λ n. record { number = n } };
}

impl DefId {
    pub fn new(number: u32) -> DefId
        ensures { result ≡ number }
    {
        DefId { number }
    }

    pub fn number(self) -> u32
        ensures { result ≡ self }
    {
        self.number
    }
}

/// The id of a data or record type of a signature. Contracts see its number.
#[derive(Clone, Copy, Debug, PartialEq, Eq, Hash)]
pub struct FamId {
    number: u32,
}

impl Model for FamId {
    ghost use Rattle.std.specs.Prelude.{ℕ};

    ghost Value = { ℕ };

    ghost view = { λ i. i.number };

    ghost inverse = { λ n. record { number = n } };
}

impl FamId {
    pub fn new(number: u32) -> FamId
        ensures { result ≡ number }
    {
        FamId { number }
    }

    pub fn number(self) -> u32
        ensures { result ≡ self }
    {
        self.number
    }
}

/// The id of a constructor of a signature. Contracts see its number.
#[derive(Clone, Copy, Debug, PartialEq, Eq, Hash)]
pub struct ConId {
    number: u32,
}

impl Model for ConId {
    ghost use Rattle.std.specs.Prelude.{ℕ};

    ghost Value = { ℕ };

    ghost view = { λ i. i.number };

    ghost inverse = { λ n. record { number = n } };
}

impl ConId {
    pub fn new(number: u32) -> ConId
        ensures { result ≡ number }
    {
        ConId { number }
    }

    pub fn number(self) -> u32
        ensures { result ≡ self }
    {
        self.number
    }
}

/// The id of a field of a record of a signature. Contracts see its number.
#[derive(Clone, Copy, Debug, PartialEq, Eq, Hash)]
pub struct FieldId {
    number: u32,
}

impl Model for FieldId {
    ghost use Rattle.std.specs.Prelude.{ℕ};

    ghost Value = { ℕ };

    ghost view = { λ i. i.number };

    ghost inverse = { λ n. record { number = n } };
}

impl FieldId {
    pub fn new(number: u32) -> FieldId
        ensures { result ≡ number }
    {
        FieldId { number }
    }

    pub fn number(self) -> u32
        ensures { result ≡ self }
    {
        self.number
    }
}

/// The id of a metavariable. Contracts see its number.
#[derive(Clone, Copy, Debug, PartialEq, Eq, Hash)]
pub struct MetaId {
    number: u32,
}

impl Model for MetaId {
    ghost use Rattle.std.specs.Prelude.{ℕ};

    ghost Value = { ℕ };

    ghost view = { λ i. i.number };

    ghost inverse = { λ n. record { number = n } };
}

impl MetaId {
    pub fn new(number: u32) -> MetaId
        ensures { result ≡ number }
    {
        MetaId { number }
    }

    pub fn number(self) -> u32
        ensures { result ≡ self }
    {
        self.number
    }
}
