//! What a plan over one stream has made of the stream's extents.
ghost use Rattle.std.specs.Prelude.{◌≡◌, List, [], ◌∷◌, ◌++◌, IsSome, OnOk, OnErr, IfOk};
ghost use Rattle.plan_core.specs.Columns.{Rows};
ghost use Rattle.plan_core.specs.PlainPlan.{plan_of, leaves};
ghost use Rattle.plan_core.specs.PlanTyping.{Kinds, plan_kinds};
ghost use Rattle.plan_core.specs.TypedRows.{AreOfStreams};
ghost use Rattle.plan_laws.specs.TypedOn.{IsTypedOn};
ghost use Rattle.growth_laws.specs.Chains.{IsOneStream};
ghost use Rattle.gathering.specs.Gathered.{Gathers, held_by, came_as};

use crate::held::Held;
use crate::progress::{Going, advance};
use plan_core::Plan;
use plan_laws::typed_plans_give_typed_rows;
use result_ops::{Made, Stop};
use rows_core::{Memory, Row};
use std::alloc::Global;
use std::marker::Model;

/// What a plan over one stream has made of the extents so far. It keeps what its operator needs, and nothing
/// once it has stopped. Contracts see the plan, and what has come of the rows: what is made of them, or why
/// that has stopped.
#[derive(Drop)]
pub struct Gathering {
    plan: Plan,
    going: Result<Going, Stop>,
}

impl Model for Gathering {
    ghost use Rattle.plan_core.specs.PlainPlan.{plan_of};
    ghost use Rattle.growth_laws.specs.Chains.{IsOneStream};
    ghost use Rattle.gathering.specs.Gathered.{Gathered, gathered_code};
    ghost use Rattle.gathering.specs.Holding.{came_of, IsSound};

    ghost Value = { Gathered };

    ghost coded = { gathered_code };

    ghost view = { λ g. record { plan = plan_of g.plan; came = came_of g.going } };

    ghost invariant = { λ g. IsOneStream (plan_of g.plan) × IsSound (plan_of g.plan) g.going };
}

impl Gathering {
    /// Of no extent. The plan is one of filters and projections, or none, over one scan; or a grouping or a
    /// distinct over such. It takes no memory.
    pub fn new(alloc: Global, plan: Plan) -> Gathering
        requires { IsOneStream (plan_of plan) }
        ensures plan { result.plan ≡ plan_of plan }
        ensures none { (schemas : List Kinds) → IsSome (plan_kinds schemas (plan_of plan))
            → Gathers schemas [] result }
    {
        typed_plans_give_typed_rows();
        let held = Held::new(alloc, &plan);
        Gathering {
            plan,
            going: Ok(Going { held, taken_in: 0 }),
        }
    }

    pub fn plan(&self) -> &Plan
        ensures plan { plan_of result.now ≡ self.now.plan }
        ensures one { IsOneStream self.now.plan }
    {
        &self.plan
    }

    /// Takes the rows of one more extent, which have the kinds of the stream's columns. `Memory` where memory
    /// was asked for and refused; all stays as it was then.
    pub fn feed(&mut self, alloc: Global, rows: Vec<Row>) -> Result<(), Memory>
        requires { IsTypedOn self.old.plan (rows.items ∷ []) }
        ensures plan { self.new.plan ≡ self.old.plan }
        ensures fed { OnOk result ((schemas : List Kinds) (fed : Rows)
            → AreOfStreams schemas (leaves self.old.plan) (rows.items ∷ []) → Gathers schemas fed self.old
            → Gathers schemas (fed ++ rows.items) self.new) }
        ensures refused { OnErr result (self.new ≡ self.old) }
    {
        typed_plans_give_typed_rows();
        advance(alloc, &self.plan, &mut self.going, rows)
    }

    /// How many rows or groups it holds: none once it has stopped. It takes no memory.
    pub fn held(&self) -> u64
        ensures { result ≡ held_by self.now.came }
    {
        match &self.going {
            Ok(going) => going.held.len(),
            Err(_) => 0,
        }
    }

    /// A copy of what was made so far: what is kept of the plan's result, and how many rows were taken in; or
    /// why nothing is made.
    pub fn made(&self, alloc: Global) -> Result<Result<Made, Stop>, Memory>
        ensures { IfOk result (λ made. came_as made ≡ self.now.came) }
    {
        match &self.going {
            Ok(going) => Ok(Ok(Made {
                kept: going.held.kept(alloc)?,
                taken_in: going.taken_in,
            })),
            Err(stop) => Ok(Err(*stop)),
        }
    }

    /// What was made, by value and without a copy: what is kept of the plan's result, and how many rows were
    /// taken in; or why nothing is made.
    pub fn into_made(self, alloc: Global) -> Result<Result<Made, Stop>, Memory>
        ensures { IfOk result (λ made. came_as made ≡ self.came) }
    {
        let Gathering { plan: _, going } = self;
        match going {
            Ok(Going { held, taken_in }) => Ok(Ok(Made {
                kept: held.into_kept(alloc)?,
                taken_in,
            })),
            Err(stop) => Ok(Err(stop)),
        }
    }
}
