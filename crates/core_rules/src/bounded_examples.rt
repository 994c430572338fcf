//! Steps of head forms counted by hand, and verdicts on terms that have none. Each is the contract of a function that does nothing.
//! The signatures, the terms and the statements stand in `specs/Addition.antt` and `specs/Looping.antt`.

ghost use Rattle.core_rules.specs.Addition.{PlusInOneStep, SharedTermInFourSteps};
ghost use Rattle.core_rules.specs.Looping.{LoopHasNoHead, OthersOutOfFuel, SameWithoutFuel};

/// `plus (suc zero) zero` comes to `suc (plus zero zero)` in one step: the split finds `suc zero` a form already, and the
/// leaf unfolds.
pub fn plus_in_one_step()
    ensures { PlusInOneStep }
{}

/// A term that is met twice is counted twice: `(λ x → plus x x) (plus zero zero)` comes to `zero` in four steps, two of
/// which are the one step of `plus zero zero`.
pub fn shared_term_in_four_steps()
    ensures { SharedTermInFourSteps }
{}

/// `loop n` with `loop n = loop n` has no head form, in however many steps.
pub fn loop_has_no_head()
    ensures { LoopHasNoHead }
{}

/// `P (loop zero)` converts with itself at the least depth and without fuel: terms that are the same are never unfolded.
pub fn same_without_fuel()
    ensures { SameWithoutFuel }
{}

/// `P (loop zero)` against `P (loop (suc zero))` is out of fuel, whatever the fuel.
pub fn others_out_of_fuel()
    ensures { OthersOutOfFuel }
{}
