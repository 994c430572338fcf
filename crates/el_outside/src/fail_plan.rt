ghost use Rattle.std.specs.Prelude.{◌≡◌, ◌≤◌, IsTrue};
ghost use Rattle.el_outside.specs.Causes.{Rose};
ghost use Rattle.el_outside.specs.Planned.{fresh, fails_next, after_call};

use std::marker::Model;

/// The numbers of the calls that are to fail, counted from 1, with the calls and faults so far.
#[derive(Drop)]
pub struct FailPlan {
    fails: Vec<u64>,
    calls: u64,
    faults: u64,
}

impl Model for FailPlan {
    ghost use Rattle.el_outside.specs.Planned.{Plan};

    ghost Value = { Plan };

    ghost view = { λ p. record { fails = p.fails.items; calls = p.calls; faults = p.faults } };
}

impl FailPlan {
    pub fn new(fails: Vec<u64>) -> FailPlan
        ensures { result ≡ fresh fails.items }
    {
        FailPlan {
            fails,
            calls: 0,
            faults: 0,
        }
    }

    /// Counts a call, and a fault where it is to fail.
    pub fn fails_now(&mut self) -> bool
        ensures listed { result ≡ fails_next self.old }
        ensures counted { self.new ≡ after_call self.old }
        ensures later { self.old.faults ≤ self.new.faults }
        ensures rose { IsTrue result → Rose self.old.faults self.new.faults }
    {
        self.calls = self.calls.saturating_add(1);
        if self.fails.contains(&self.calls) {
            self.faults = self.faults.saturating_add(1);
            return true;
        }
        false
    }
}
