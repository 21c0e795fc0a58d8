//! Two plans and their normal plans, over two streams, the first with two columns of numbers, the second with
//! two of numbers and one of texts.
ghost use Rattle.std.specs.Prelude.{IfOk};
ghost use Rattle.plan_core.specs.TypedPlan.{IsTypedOver};

use anyhow::Result;
use plan_canon::canon;
use plan_core::{Plan, Schemas, Typed};
use postfix_plans::{plan_of, typed_of};
use rows_core::{Kind, Seq};
use std::alloc::Global;

/// Whether the second is the normal plan of the first, or else whether the two have one.
pub fn compared(alloc: Global, first: &str, second: &str) -> Result<&'static str> {
    let schemas = streams(alloc)?;
    let normal = normal_of(alloc, first, &schemas)?;
    beside(alloc, normal.plan(), second, &schemas)
}

fn beside(alloc: Global, normal: &Plan, second: &str, schemas: &Schemas) -> Result<&'static str> {
    if is_written(alloc, normal, second)? {
        return Ok("its normal plan");
    }
    let other = normal_of(alloc, second, schemas)?;
    Ok(if normal.is_same(other.plan()) {
        "one normal plan"
    } else {
        "two normal plans"
    })
}

/// Whether the plan is the one that is written so.
pub fn is_written(alloc: Global, plan: &Plan, text: &str) -> Result<bool> {
    let written = plan_of(alloc, text)?;
    Ok(plan.is_same(&written))
}

/// The normal plan of the plan that is written so, which has a typing.
pub fn normal_of(alloc: Global, text: &str, schemas: &Schemas) -> Result<Typed>
    ensures { IfOk result (λ typed. IsTypedOver schemas.now.kinds typed) }
{
    let typed = typed_of(alloc, text, schemas)?;
    Ok(canon(alloc, typed, schemas)?)
}

fn streams(alloc: Global) -> Result<Schemas> {
    let first = Seq::new(vec![in alloc; Kind::Int, Kind::Int]?);
    let second = Seq::new(vec![in alloc; Kind::Int, Kind::Int, Kind::Text]?);
    Ok(Schemas {
        kinds: Seq::new(vec![in alloc; first, second]?),
    })
}
