//! Which nodes count.
ghost use Rattle.std.specs.Prelude.{◌≡◌};
ghost use Rattle.plan_core.specs.PlainPlan.{plan_of};
ghost use Rattle.growth_laws.specs.MadePlaces.{counts_below, counts_at_root};

use plan_core::Plan;

/// Whether a node counts below the root: groups, joins, orders and distincts do.
pub fn counts_below(plan: &Plan) -> bool
    ensures { result ≡ counts_below (plan_of plan.now) }
{
    match plan {
        Plan::Distinct { .. } => true,
        Plan::Group { .. } => true,
        Plan::Join { .. } => true,
        Plan::Order { .. } => true,
        _ => false,
    }
}

/// Whether a node counts at the root: each but a scan does.
pub fn counts_at_root(plan: &Plan) -> bool
    ensures { result ≡ counts_at_root (plan_of plan.now) }
{
    match plan {
        Plan::Scan { .. } => false,
        _ => true,
    }
}
