//! What is so of every grammar. Each law is the contract of a function that does nothing.

ghost use Rattle.std.specs.Prelude.{◌≡◌, ℕ, ◌≤◌, List, length};
ghost use Rattle.parse_laws.specs.Nesting.{nestings, shallow, leading};
ghost use Rattle.parse_laws.specs.Reading.{IsUnexpected};

/// A greater limit of nesting changes only what is nested too deep: a list of which nothing was, is one of which nothing is, and what was
/// unexpected is unexpected at the same token. `low` and `high` say of a list how many tokens stand before the first that is nested too deep.
pub fn greater_limit<S, D>()
    ensures within { (low high : List S → ℕ) → ((i : List S) → low i ≤ high i) → (i : List S) → high i ≤ length i → low i ≡ length i → high i ≡ length i }
    ensures unexpected { (f : D → List S → List S) (low high : List S → ℕ) → ((i : List S) → low i ≤ high i) → (front rest : List S) → IsUnexpected f low front rest → IsUnexpected f high front rest }
{}

/// Counted by tokens, the number before the first that is nested too deep is that of the nestings below the limit, is no greater than the list is
/// long, and rises with the limit.
pub fn count_of_nesting<S, D>()
    ensures counted { (nesting : D → S → ℕ) (behind : D → S → D) (limit : ℕ) (d : D) (i : List S) → shallow nesting behind limit d i ≡ leading limit (nestings nesting behind d i) }
    ensures within { (nesting : D → S → ℕ) (behind : D → S → D) (limit : ℕ) (d : D) (i : List S) → shallow nesting behind limit d i ≤ length i }
    ensures rises { (nesting : D → S → ℕ) (behind : D → S → D) (low high : ℕ) → low ≤ high → (d : D) (i : List S) → shallow nesting behind low d i ≤ shallow nesting behind high d i }
{}
