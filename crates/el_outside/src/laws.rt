//! What holds of the definitions of this crate. Each function does nothing: its contract is the law.
ghost use Rattle.std.specs.Prelude.{◌≡◌, ℕ, drop};
ghost use Rattle.std.specs.Str.{IsCharBoundary, chars, encode_utf8_all};
ghost use Rattle.el_outside.specs.Place as spec;

/// To walk over a text and to count up to an offset give the same: after any number of characters
/// the place has an offset on a border of the text, what is left is the text from there on, and the
/// line and the column are those of the offset.
pub fn places_agree(text: &str)
    ensures border { (n : ℕ) → IsCharBoundary text.now (spec.nexts n (spec.start (chars text.now))).place.at }
    ensures rest { (n : ℕ) → drop (spec.nexts n (spec.start (chars text.now))).place.at text.now ≡ encode_utf8_all (spec.nexts n (spec.start (chars text.now))).chars }
    ensures pos { (n : ℕ) → spec.pos (spec.nexts n (spec.start (chars text.now))).place ≡ spec.pos_of text.now (spec.nexts n (spec.start (chars text.now))).place.at }
{}
