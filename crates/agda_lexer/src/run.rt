ghost use Rattle.std.specs.Prelude.{◌≡◌, ◌+◌, ◌<◌, ◌==◌, map, min, take, drop, MatchOption, option_map, true, false, codes};
ghost use Rattle.std.specs.List.{list_all, list_any};
ghost use Rattle.std.specs.Str.{bytes_eq, chars};
ghost use Rattle.std.specs.Char.{is_ascii_digit};
ghost use Rattle.agda_lexer.specs.Runs as spec;
ghost use Rattle.agda_lexer.specs.Fixed.{fixed_kind};

use crate::token::{LexKind, Sym, TokenKind, Word};
use el_base::{LEVEL_LIMIT, Level};

/// A token that one run always is.
#[derive(Clone, Copy)]
enum Fixed {
    Keyword(Word),
    Symbol(Sym),
    Hole,
    Underscore,
}

impl Fixed {
    fn kind(self) -> TokenKind
        ensures { result ≡ fixed_kind self }
    {
        match self {
            Fixed::Keyword(word) => TokenKind::Keyword(word),
            Fixed::Symbol(symbol) => TokenKind::Symbol(symbol),
            Fixed::Hole => TokenKind::Hole,
            Fixed::Underscore => TokenKind::Underscore,
        }
    }
}

const FIXED_RUNS: [(&str, Fixed); 49] = [
    (":", Fixed::Symbol(Sym::Colon)),
    ("=", Fixed::Symbol(Sym::Equals)),
    ("→", Fixed::Symbol(Sym::Arrow)),
    ("->", Fixed::Symbol(Sym::Arrow)),
    ("λ", Fixed::Symbol(Sym::Lambda)),
    ("\\", Fixed::Symbol(Sym::Lambda)),
    ("∀", Fixed::Symbol(Sym::All)),
    ("forall", Fixed::Symbol(Sym::All)),
    ("|", Fixed::Symbol(Sym::Bar)),
    ("?", Fixed::Hole),
    ("_", Fixed::Underscore),
    ("abstract", Fixed::Keyword(Word::Abstract)),
    ("coinductive", Fixed::Keyword(Word::Coinductive)),
    ("constructor", Fixed::Keyword(Word::Constructor)),
    ("data", Fixed::Keyword(Word::Data)),
    ("do", Fixed::Keyword(Word::Do)),
    ("eta-equality", Fixed::Keyword(Word::EtaEquality)),
    ("field", Fixed::Keyword(Word::Field)),
    ("hiding", Fixed::Keyword(Word::Hiding)),
    ("import", Fixed::Keyword(Word::Import)),
    ("in", Fixed::Keyword(Word::In)),
    ("inductive", Fixed::Keyword(Word::Inductive)),
    ("infix", Fixed::Keyword(Word::Infix)),
    ("infixl", Fixed::Keyword(Word::Infixl)),
    ("infixr", Fixed::Keyword(Word::Infixr)),
    ("instance", Fixed::Keyword(Word::Instance)),
    ("let", Fixed::Keyword(Word::Let)),
    ("macro", Fixed::Keyword(Word::Macro)),
    ("module", Fixed::Keyword(Word::Module)),
    ("mutual", Fixed::Keyword(Word::Mutual)),
    ("no-eta-equality", Fixed::Keyword(Word::NoEtaEquality)),
    ("open", Fixed::Keyword(Word::Open)),
    ("overlap", Fixed::Keyword(Word::Overlap)),
    ("pattern", Fixed::Keyword(Word::Pattern)),
    ("postulate", Fixed::Keyword(Word::Postulate)),
    ("primitive", Fixed::Keyword(Word::Primitive)),
    ("private", Fixed::Keyword(Word::Private)),
    ("Prop", Fixed::Keyword(Word::Prop)),
    ("public", Fixed::Keyword(Word::Public)),
    ("quote", Fixed::Keyword(Word::Quote)),
    ("record", Fixed::Keyword(Word::Record)),
    ("renaming", Fixed::Keyword(Word::Renaming)),
    ("rewrite", Fixed::Keyword(Word::Rewrite)),
    ("syntax", Fixed::Keyword(Word::Syntax)),
    ("unquote", Fixed::Keyword(Word::Unquote)),
    ("using", Fixed::Keyword(Word::Using)),
    ("variable", Fixed::Keyword(Word::Variable)),
    ("where", Fixed::Keyword(Word::Where)),
    ("with", Fixed::Keyword(Word::With)),
];

/// The token beside the word in the table.
fn lookup(mut table: &[(&str, Fixed)], word: &[u8]) -> Option<TokenKind>
    ensures { result ≡ spec.lookup (map (λ k. (k.0.now, fixed_kind k.1)) table.entry.now) word.now }
{
    while let [entry, rest @ ..] = table {
        if entry.0.as_bytes() == word {
            return Some(entry.1.kind());
        }
        table = rest;
    }
    None
}

fn is_digit(base: char, c: char) -> bool
    requires { base < 0x3000 }
    ensures { result ≡ spec.is_digit base c }
{
    base <= c && (c as u32) < base as u32 + 10
}

/// Whether the digits have no leading zero.
fn is_short(base: char, digits: &str) -> bool
    ensures { result ≡ spec.is_short base (chars digits.now) }
{
    let mut rest = digits.chars();
    let Some(first) = rest.next() else {
        return false;
    };
    first != base || rest.as_str().is_empty()
}

fn are_digits(base: char, digits: &str) -> bool
    requires { base < 0x3000 }
    ensures { result ≡ list_all (spec.is_digit base) (chars digits.now) }
{
    digits.chars().all(|c| is_digit(base, c))
}

fn is_number(base: char, digits: &str) -> bool
    requires { base < 0x3000 }
    ensures { result ≡ spec.is_number base (chars digits.now) }
{
    is_short(base, digits) && are_digits(base, digits)
}

/// The number that the digits write, or one that is no level if it is too great for one.
fn number(base: char, digits: &str) -> u32
    ensures { result ≡ min (spec.number_from base 0 (chars digits.now)) 1000001 }
{
    let mut n = 0;
    for c in digits.chars() {
        let digit = (c as u32).saturating_sub(base as u32);
        n = (10 * n + digit).min(LEVEL_LIMIT + 1);
    }
    n
}

/// The level that stands behind `Set`.
fn level(digits: &str) -> Option<u32>
    ensures { result ≡ option_map (λ n. min n 1000001) (spec.level (chars digits.now)) }
{
    if digits.is_empty() {
        Some(0)
    } else if is_number('0', digits) {
        Some(number('0', digits))
    } else if is_number('₀', digits) {
        Some(number('₀', digits))
    } else {
        None
    }
}

/// What follows `Set`.
fn after_set(word: &str) -> Option<&str>
    ensures { MatchOption result (bytes_eq (codes "Set") (take 3 word.now) ≡ false) (λ digits. (bytes_eq (codes "Set") (take 3 word.now) ≡ true) × (digits.now ≡ drop 3 word.now)) }
{
    if word.as_bytes().starts_with(b"Set") {
        Some(&word[3..])
    } else {
        None
    }
}

fn set_level(word: &str) -> Option<u32>
    ensures { result ≡ option_map (λ n. min n 1000001) (spec.set_level word.now) }
{
    level(after_set(word)?)
}

fn is_unnameable(c: char) -> bool
    ensures { result ≡ spec.is_unnameable c }
{
    c == '_' || c.is_control() || c == '\u{2983}' || c == '\u{2984}'
}

fn is_all_digits(word: &[u8]) -> bool
    ensures { result ≡ list_all is_ascii_digit word.now }
{
    word.iter().all(|b| b.is_ascii_digit())
}

fn has_unnameable(word: &str) -> bool
    ensures { result ≡ list_any spec.is_unnameable (chars word.now) }
{
    word.chars().any(is_unnameable)
}

fn is_refused(word: &str) -> bool
    ensures { result ≡ spec.is_refused word.now }
{
    let bytes = word.as_bytes();
    is_all_digits(bytes) || bytes.first() == Some(&b'\'') || has_unnameable(word)
}

fn name_kind(word: &str) -> Result<TokenKind, LexKind>
    ensures { result ≡ spec.or_name word.now (spec.set_level word.now) }
{
    match set_level(word) {
        Some(n) => match Level::new(n) {
            Some(level) => Ok(TokenKind::SetLevel(level)),
            None => Err(LexKind::BadToken),
        },
        None if is_refused(word) => Err(LexKind::BadToken),
        None => Ok(TokenKind::Name),
    }
}

/// What a whole run is.
pub fn run_kind(word: &str) -> Result<TokenKind, LexKind>
    ensures { result ≡ spec.run_kind word.now }
{
    match lookup(&FIXED_RUNS, word.as_bytes()) {
        Some(kind) => Ok(kind),
        None => name_kind(word),
    }
}
