ghost use Rattle.std.specs.Prelude.{◌≡◌, ℕ, ◌<◌, List, [], ◌∷◌, ◌++◌, map, reverse, length, IfOk, IfSome, IfNone, IsTrue, ◌↔◌, EachIndex, slice_index};
ghost use Rattle.core_print.specs.Apart.{different};
ghost use Rattle.core_print.specs.Names.{called as called_lem, is_blank as is_blank_lem, name_text, unknown};
ghost use Rattle.core_print.specs.Labels.{Marks, base_text as base_text_lem, first_false, label_text, primed};

use core_terms::{NameId, Names, NoMemory};
use std::alloc::Global;

/// What a name in print begins with: the text of a name; `x`, for a binder without a name; nothing where
/// no pattern writes the variable, which is `_`.
pub(crate) type Base = Option<Option<NameId>>;

/// A name in print: what it begins with, and so many ' after it.
#[derive(Clone, Copy)]
pub(crate) struct Label {
    pub(crate) base: Base,
    pub(crate) primes: usize,
}

/// The text of a name, as it is.
pub(crate) fn plain(name: NameId) -> Label
    ensures { (ns : List (List ℕ)) → label_text ns result ≡ name_text ns name }
{
    let base = Some(Some(name));
    Label { base, primes: 0 }
}

/// `_`.
pub(crate) fn unwritten() -> Label
    ensures { (ns : List (List ℕ)) → label_text ns result ≡ unknown }
{
    let base = None;
    Label { base, primes: 0 }
}

/// The text of a name, which is empty where there is none.
pub(crate) fn text_of(names: &Names, name: NameId) -> &str
    ensures { result.now ≡ name_text names.now name }
{
    if name.number() >= names.len() {
        return "";
    }
    names.text(name)
}

pub(crate) fn base_text<'a>(names: &'a Names, base: &Base) -> &'a str
    ensures { result.now ≡ base_text_lem names.now base.now }
{
    match base {
        Some(Some(name)) => text_of(names, *name),
        Some(None) => "x",
        None => "_",
    }
}

/// What a binder of this name is called where no other name is in its way.
pub(crate) fn called(names: &Names, name: NameId) -> Base
    ensures { base_text_lem names.now result ≡ called_lem (name_text names.now name) }
{
    if is_blank(text_of(names, name)) {
        return Some(None);
    }
    Some(Some(name))
}

/// Whether it is no name: empty, or `_`.
pub(crate) fn is_blank(text: &str) -> bool
    ensures { result ≡ is_blank_lem text.now }
{
    text.is_empty() || text == "_"
}

fn are_primes(bytes: &[u8]) -> bool
    ensures { IsTrue result ↔ EachIndex bytes.now (λ k. slice_index bytes.now k ≡ 39) }
{
    bytes.iter().all(|byte| *byte == b'\'')
}

/// With how many ' after it `short` is `long`.
fn primes_between(long: &[u8], short: &[u8]) -> Option<usize>
    ensures some { IfSome result (λ n. long.now ≡ primed short.now n) }
    ensures none { IfNone result ((n : ℕ) → long.now ≡ primed short.now n → ⊥) }
{
    let Some(rest) = long.strip_prefix(short) else {
        return None;
    };
    if !are_primes(rest) {
        return None;
    }
    Some(rest.len())
}

/// With how many ' after it `text` is the other text with `primes` after it, where these are fewer than
/// `limit`.
fn primes_to(text: &str, other: &str, primes: usize, limit: usize) -> Option<usize>
    ensures some { IfSome result (λ k. (k < limit) × (primed other.now primes ≡ primed text.now k)) }
    ensures none { IfNone result ((k : ℕ) → k < limit → primed other.now primes ≡ primed text.now k → ⊥) }
{
    if let Some(extra) = primes_between(other.as_bytes(), text.as_bytes()) {
        if extra < limit && primes < limit - extra {
            return Some(extra + primes);
        }
        return None;
    }
    let Some(missing) = primes_between(text.as_bytes(), other.as_bytes()) else {
        return None;
    };
    if missing <= primes && primes - missing < limit {
        return Some(primes - missing);
    }
    None
}

/// So many marks, none of which is set.
fn unmarked(alloc: Global, count: usize) -> Result<Vec<bool>, NoMemory>
    ensures length { IfOk result (λ v. length v.items ≡ count) }
    ensures marks { IfOk result (λ v. (x : List ℕ) → Marks [] x v.items) }
{
    let mut marks = Vec::new(alloc);
    for _place in 0..count {
        marks.push(false)?;
    }
    Ok(marks)
}

/// Marks with how many ' after it `text` is the name.
fn mark(marks: &mut Vec<bool>, text: &str, names: &Names, name: &Label)
    ensures marks { (ns : List (List ℕ)) → Marks ns text.now marks.old.items
        → Marks (label_text names.now name.now ∷ ns) text.now marks.new.items }
    ensures same_length { length marks.new.items ≡ length marks.old.items }
{
    let other = base_text(names, &name.base);
    if let Some(k) = primes_to(text, other, name.primes, marks.len()) {
        marks[k] = true;
    }
}

/// The number of marks before the first that is not set.
fn first_unset(marks: &[bool]) -> usize
    ensures { result ≡ first_false marks.now }
{
    for (k, set) in marks.iter().enumerate() {
        if !*set {
            return k;
        }
    }
    marks.len()
}

/// Marks with how many ' after it `text` is one of these names.
fn mark_others(marks: &mut Vec<bool>, text: &str, names: &Names, others: &[Label])
    ensures marks { Marks [] text.now marks.old.items
        → Marks (map (label_text names.now) others.now) text.now marks.new.items }
    ensures same_length { length marks.new.items ≡ length marks.old.items }
{
    let mut left = others.len();
    while left > 0 {
        left -= 1;
        mark(marks, text, names, &others[left]);
    }
}

/// Marks with how many ' after it `text` is one of these names, of which the last is the innermost.
fn mark_inside(marks: &mut Vec<bool>, text: &str, names: &Names, inside: &[Label])
    ensures marks { (ns : List (List ℕ)) → Marks ns text.now marks.old.items
        → Marks (map (label_text names.now) (reverse inside.now) ++ ns) text.now marks.new.items }
    ensures same_length { length marks.new.items ≡ length marks.old.items }
{
    for name in inside {
        mark(marks, text, names, name);
    }
}

/// What a name begins with, made different from the names in `inside`, of which the last is the
/// innermost, and in `others`. It looks once at each of these.
pub(crate) fn choose(
    alloc: Global,
    names: &Names,
    inside: &[Label],
    others: &[Label],
    base: Base,
) -> Result<Label, NoMemory>
    ensures { IfOk result (λ l. label_text names.now l ≡ different
        (map (label_text names.now) (reverse inside.now) ++ map (label_text names.now) others.now)
        (base_text_lem names.now base)) }
{
    let Some(total) = inside.len().checked_add(others.len()) else {
        return Err(NoMemory);
    };
    let text = base_text(names, &base);
    let mut marks = unmarked(alloc, total)?;
    mark_others(&mut marks, text, names, others);
    mark_inside(&mut marks, text, names, inside);
    let primes = first_unset(marks.as_slice());
    Ok(Label { base, primes })
}
