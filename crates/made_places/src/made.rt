//! The places at which a rewriting makes a result.
ghost use Rattle.std.specs.Prelude.{◌≡◌, IfOk};
ghost use Rattle.plan_core.specs.PlainPlan.{plan_of};
ghost use Rattle.rewrite_core.specs.PlainRewriting.{rewriting_of};
ghost use Rattle.growth_laws.specs.MadePlaces.{made_places};
ghost use Rattle.made_places.specs.Formed.{IsFormed};
ghost use Rattle.made_places.specs.Picking.{places_said};

use crate::marks::marked;
use crate::picking::picked;
use crate::place::Place;
use rewrite_core::Rewriting;
use rows_core::Memory;
use std::alloc::Global;

/// The places at which the rewriting makes what may be kept of its plan and of the plan's parts, in
/// post-order, a left input before a right one: groups, joins, orders and distincts, and at the root each
/// node but a scan. `Memory` where memory was asked for and refused.
pub fn made_places(alloc: Global, rewriting: &Rewriting) -> Result<Vec<Place>, Memory>
    requires formed { IsFormed (rewriting_of rewriting.now) }
    ensures { IfOk result (λ places. places_said places.items
        ≡ made_places (plan_of rewriting.now.plan) rewriting.now.cuts (rewriting_of rewriting.now)) }
{
    let cuts = rewriting.cuts.items();
    let marks = marked(alloc, rewriting, cuts)?;
    picked(alloc, &rewriting.plan, cuts, marks.as_slice())
}
