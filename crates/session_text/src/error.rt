use el_outside::{Many, Pos, Text};

/// Why the kernel refuses a declaration.
#[derive(Clone, Copy, Debug, PartialEq, Eq)]
pub enum KernelKind {
    Mismatch,
    NotAFunction,
    NotARecord,
    NotAType,
    LevelTooLarge,
    OutOfFuel,
    OutOfDepth,
    ConShape,
    TooBig,
    BadTree,
}

/// Why a text is in error.
#[derive(Clone, Copy, Debug, PartialEq, Eq)]
pub enum LoadKind {
    TextTooLong,
    NotUtf8,
    BadToken,
    BadPragma,
    OpenComment,
    OpenHole,
    /// A line begins left of the file's block.
    Layout,
    Unexpected,
    TooNested,
    NotInScope,
    Duplicate,
    NotAConstructor,
    Nonlinear,
    Misplaced,
    BadSort,
    ConShape,
    TooBig,
    TooLarge,
    CannotSplit,
    NotAbsurd,
    WrongArity,
    ForcedConstructor,
    Impossible,
    Mixed,
    NoSuchName,
    CannotInfer,
    BadField,
    Steps,
    OutOfFuel,
    OutOfDepth,
    Mismatch,
    DotWrong,
    UnifyStuck,
    NotAFunction,
    NotARecord,
    NotAType,
    Missing,
    /// The kernel refuses the declaration.
    Kernel(KernelKind),
    /// A form that is not built so far.
    Unsupported,
}

/// The first error of a text: its place, why, and its lines, which are printed after two spaces each. They are the
/// name that a name's kind is about, `left: TERM` and `right: TERM`, `type: TERM`, or a left side.
#[derive(Debug, Drop)]
pub struct LoadError {
    pub pos: Pos,
    pub kind: LoadKind,
    pub lines: Many<Text>,
}

impl KernelKind {
    ghost use Rattle.std.specs.Prelude.{◌≡◌};
    ghost use Rattle.session_text.specs.Words.{kernel_word};

    /// The word that an error line has for it.
    pub fn word(self) -> &'static str
        ensures { result.now ≡ kernel_word self }
    {
        match self {
            KernelKind::Mismatch => "Mismatch",
            KernelKind::NotAFunction => "NotAFunction",
            KernelKind::NotARecord => "NotARecord",
            KernelKind::NotAType => "NotAType",
            KernelKind::LevelTooLarge => "LevelTooLarge",
            KernelKind::OutOfFuel => "OutOfFuel",
            KernelKind::OutOfDepth => "OutOfDepth",
            KernelKind::ConShape => "ConShape",
            KernelKind::TooBig => "TooBig",
            KernelKind::BadTree => "BadTree",
        }
    }
}

impl LoadKind {
    ghost use Rattle.std.specs.Prelude.{◌≡◌};
    ghost use Rattle.session_text.specs.Words.{last_word};

    /// The last word that an error line has for it. A kernel's kind has the word `Kernel` before it.
    pub fn word(self) -> &'static str
        ensures { result.now ≡ last_word self }
    {
        match self {
            LoadKind::TextTooLong => "TextTooLong",
            LoadKind::NotUtf8 => "NotUtf8",
            LoadKind::BadToken => "BadToken",
            LoadKind::BadPragma => "BadPragma",
            LoadKind::OpenComment => "OpenComment",
            LoadKind::OpenHole => "OpenHole",
            LoadKind::Layout => "Layout",
            LoadKind::Unexpected => "Unexpected",
            LoadKind::TooNested => "TooNested",
            LoadKind::NotInScope => "NotInScope",
            LoadKind::Duplicate => "Duplicate",
            LoadKind::NotAConstructor => "NotAConstructor",
            LoadKind::Nonlinear => "Nonlinear",
            LoadKind::Misplaced => "Misplaced",
            LoadKind::BadSort => "BadSort",
            LoadKind::ConShape => "ConShape",
            LoadKind::TooBig => "TooBig",
            LoadKind::TooLarge => "TooLarge",
            LoadKind::CannotSplit => "CannotSplit",
            LoadKind::NotAbsurd => "NotAbsurd",
            LoadKind::WrongArity => "WrongArity",
            LoadKind::ForcedConstructor => "ForcedConstructor",
            LoadKind::Impossible => "Impossible",
            LoadKind::Mixed => "Mixed",
            LoadKind::NoSuchName => "NoSuchName",
            LoadKind::CannotInfer => "CannotInfer",
            LoadKind::BadField => "BadField",
            LoadKind::Steps => "Steps",
            LoadKind::OutOfFuel => "OutOfFuel",
            LoadKind::OutOfDepth => "OutOfDepth",
            LoadKind::Mismatch => "Mismatch",
            LoadKind::DotWrong => "DotWrong",
            LoadKind::UnifyStuck => "UnifyStuck",
            LoadKind::NotAFunction => "NotAFunction",
            LoadKind::NotARecord => "NotARecord",
            LoadKind::NotAType => "NotAType",
            LoadKind::Missing => "Missing",
            LoadKind::Kernel(kind) => kind.word(),
            LoadKind::Unsupported => "Unsupported",
        }
    }
}
