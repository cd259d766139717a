//! Laws of what a planner answers, on functions that do nothing.
ghost use Rattle.pi_plan.specs.Laws.{NoPlanLeavesNothing};
ghost use Rattle.pi_plan.specs.PlanLaws.{CostsAtMostItsRest, ValidFromItsCostOn, NoneIsCheaper, BestCostIsItsNumber, BestNumberIsOne, NoneWhereThereIsNone, FoundOrNone, SmallerIsExhausted};

/// Where a call has no plan by what was given, there is no state that a planner may still ask for. So each planner that may
/// answer that there is none answers nothing else, but for want of memory.
pub fn no_plan_leaves_nothing()
    ensures { NoPlanLeavesNothing }
{}

/// A plan costs no more than its rest; where the program isn't by rests it is valid under each number from its cost on.
pub fn plans_go_by_their_cost()
    ensures rest { CostsAtMostItsRest }
    ensures greater { ValidFromItsCostOn }
{}

/// A best plan is best under one number. Where the program isn't by rests, that is its cost, and no valid plan is cheaper.
pub fn best_plans_are_cheapest()
    ensures cheapest { NoneIsCheaper }
    ensures number { BestCostIsItsNumber }
    ensures unique { BestNumberIsOne }
{}

/// Where a call has no plan there is none, and where the program isn't by rests one exhausted number says it of each smaller
/// one.
pub fn no_plan_means_none()
    ensures none { NoneWhereThereIsNone }
    ensures exclusive { FoundOrNone }
    ensures smaller { SmallerIsExhausted }
{}
