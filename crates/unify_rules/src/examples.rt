//! Unifications worked by hand, one for each rule. The statements are in `specs/Rows`.

ghost use Rattle.unify_rules.specs.Rows.{VariableDeleted, LaterSolved, EarlierSolved, ConsSolved, NilRefuted, CycleRefuted, SortStuck, DepthNeeded, FuelNeeded, OrderChanged};

/// A variable equal to itself is deleted.
pub fn variable_deleted()
    ensures { VariableDeleted }
{}

/// Of two variables the later one is solved.
pub fn later_solved()
    ensures { LaterSolved }
{}

/// Where the type of the one depends on the other, the earlier one is solved.
pub fn earlier_solved()
    ensures { EarlierSolved }
{}

/// At cons the equation of indices solves the constructor's variable, and gives the branch of the tree of the first item.
pub fn cons_solved()
    ensures { ConsSolved }
{}

/// At nil it is refuted.
pub fn nil_refuted()
    ensures { NilRefuted }
{}

/// A variable is no constructor of itself.
pub fn cycle_refuted()
    ensures { CycleRefuted }
{}

/// No rule applies: stuck, with the two head forms.
pub fn sort_stuck()
    ensures { SortStuck }
{}

/// A comparison to no depth is out of depth.
pub fn depth_needed()
    ensures { DepthNeeded }
{}

/// A head form that needs more steps is out of fuel.
pub fn fuel_needed()
    ensures { FuelNeeded }
{}

/// An entry that comes to depend on a later one is placed after it.
pub fn order_changed()
    ensures { OrderChanged }
{}
