//! Plans with a typing.
ghost use Rattle.std.specs.Prelude.{◌≡◌, nat_le, length, IfOk};
ghost use Rattle.std.specs.List.{find};
ghost use Rattle.plan_core.specs.PlainPlan.{plan_of, leaves};
ghost use Rattle.plan_core.specs.PlanTyping.{plan_typing};
ghost use Rattle.plan_core.specs.TypedPlan.{IsTypedOver, IsTypedPlan, MeansTyping};

use crate::literals::read_literals;
use crate::plan::Plan;
use crate::plan_types::typing_of;
use crate::refusal::PlanRefusal;
use crate::schemas::Schemas;
use rows_core::{Kind, Seq};
use std::alloc::Global;
use std::marker::Model;

/// A plan that has a typing, with the kinds of its columns and the streams of its leaves. Contracts see the
/// three.
#[derive(Drop)]
pub struct Typed {
    plan: Plan,
    kinds: Seq<Kind>,
    leaves: Seq<u32>,
}

impl Model for Typed {
    ghost use Rattle.plan_core.specs.PlainPlan.{plan_of};
    ghost use Rattle.plan_core.specs.TypedPlan.{TypedPlan, IsTypedPlan};
    ghost use Rattle.plan_core.specs.PlanCode.{typed_code};

    ghost Value = { TypedPlan };

    ghost coded = { typed_code };

    ghost view = { λ typed.
        record { plan = plan_of typed.plan; kinds = typed.kinds; leaves = typed.leaves } };

    ghost invariant = { λ typed. IsTypedPlan
        (record { plan = plan_of typed.plan; kinds = typed.kinds; leaves = typed.leaves }) };
}

/// The typing of a plan over these streams: `Unknown` exactly where a stream isn't there, the first from the
/// left; else `IllTyped` exactly where the plan has no typing; else `TooMany` exactly where some operator's
/// rows have more than 32 columns, an order more than 32 keys or a join more than 32 pairs.
pub fn type_plan(alloc: Global, plan: Plan, schemas: &Schemas) -> Result<Typed, PlanRefusal>
    ensures typing { MeansTyping (λ typed. typed.kinds) result
        (plan_typing schemas.now.kinds (plan_of plan)) }
    ensures plan { IfOk result (λ typed. typed.plan ≡ plan_of plan) }
    ensures leaves { IfOk result (λ typed. typed.leaves ≡ leaves (plan_of plan)) }
{
    let (kinds, leaves) = checked_typing(alloc, &plan, schemas.kinds.items())?;
    read_literals(&plan);
    Ok(Typed {
        plan,
        kinds,
        leaves,
    })
}

impl Typed {
    pub fn plan(&self) -> &Plan
        ensures plan { plan_of result.now ≡ self.now.plan }
        ensures typed { IsTypedPlan self.now }
    {
        &self.plan
    }

    /// The kinds of the plan's columns.
    pub fn kinds(&self) -> &[Kind]
        ensures kinds { result.now ≡ self.now.kinds }
        ensures typed { IsTypedPlan self.now }
    {
        self.kinds.items()
    }

    /// The streams of the plan's leaves, from the left.
    pub fn leaves(&self) -> &[u32]
        ensures leaves { result.now ≡ self.now.leaves }
        ensures typed { IsTypedPlan self.now }
    {
        self.leaves.items()
    }

    /// The plan alone. It takes no memory.
    pub fn into_plan(self) -> Plan
        ensures plan { plan_of result ≡ self.plan }
        ensures typed { IsTypedPlan self }
    {
        let Typed { plan, .. } = self;
        plan
    }
}

/// The kinds and the leaves of a plan that has a typing.
fn checked_typing(
    alloc: Global,
    plan: &Plan,
    schemas: &[Seq<Kind>],
) -> Result<(Seq<Kind>, Seq<u32>), PlanRefusal>
    ensures typing { MeansTyping (λ t. t.0) result (plan_typing schemas.now (plan_of plan.now)) }
    ensures leaves { IfOk result (λ t. t.1 ≡ leaves (plan_of plan.now)) }
{
    let leaves = plan.leaves(alloc)?;
    if let Some(stream) = first_absent(leaves.as_slice(), schemas.len()) {
        return Err(PlanRefusal::Unknown { stream });
    }
    let Some(typing) = typing_of(alloc, schemas, plan)? else {
        return Err(PlanRefusal::IllTyped);
    };
    if typing.too_many {
        return Err(PlanRefusal::TooMany);
    }
    Ok((typing.kinds, Seq::new(leaves)))
}

/// The first of these streams that isn't there.
fn first_absent(streams: &[u32], count: usize) -> Option<u32>
    ensures { result ≡ find (λ stream. nat_le count stream) streams.now }
{
    streams
        .iter()
        .copied()
        .find(|stream| count <= *stream as usize)
}
