//! What is so of every text. Each law is the contract of a function that does nothing.
ghost use Rattle.std.specs.Prelude.{◌≡◌, ℕ, List};
ghost use Rattle.file_load.specs.Load.{HasVerdict, IsLoaded, Made, Verdict};

/// One thing at most is said of a text, so that each answer comes exactly where its definition says.
pub fn one_verdict()
    ensures { (fuel depth : ℕ) (text : List ℕ) (v w : Verdict) → HasVerdict fuel depth text v → HasVerdict fuel depth text w → v ≡ w }
{}

/// Something is said of each text: it has a first error, or a report and a signature.
pub fn some_verdict()
    ensures { (fuel depth : ℕ) (text : List ℕ) → (v : Verdict) × HasVerdict fuel depth text v }
{}

/// The signature of a text is one.
pub fn one_signature()
    ensures { (fuel depth : ℕ) (text : List ℕ) (m n : Made) → IsLoaded fuel depth text m → IsLoaded fuel depth text n → m.signature ≡ n.signature }
{}
