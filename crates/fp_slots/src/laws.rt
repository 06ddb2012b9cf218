//! Laws of slots.

ghost use Rattle.fp_slots.specs.Laws.{PlanGoesOn, RefusesRightly, RulesAlone};

/// Of two slots one rules at most.
pub fn one_slot_rules()
    ensures { RulesAlone }
{}

/// Where a reader is told that neither slot rules, neither does.
pub fn refusals_are_right()
    ensures { RefusesRightly }
{}

/// A batch sealed beside a compaction lengthens what the other slot is to hold, and changes no byte
/// that was copied.
pub fn plan_goes_on()
    ensures { PlanGoesOn }
{}
