//! Which programs are of the streams.
ghost use Rattle.std.specs.Prelude.{◌≡◌, ◌↔◌, Ok, IfOk, IfSome, IfNone, IsTrue, length};
ghost use Rattle.plan_core.specs.PlainPlan.{PlainPlan, leaves, plan_of};
ghost use Rattle.plan_core.specs.PlanTyping.{Kinds, plan_typing};
ghost use Rattle.plan_core.specs.TypedPlan.{IsTypedOver};
ghost use Rattle.plan_text.specs.PlainNamed.{PlainTree};
ghost use Rattle.plan_text.specs.Canonical.{canonical_text};
ghost use Rattle.plan_binder.specs.Binding.{Binds, binding};
ghost use Rattle.catalog_core.specs.Programs.{names_of, columns_of, kinds_of_streams, extents_at};
ghost use Rattle.catalog_core.specs.Programs.{IsCanonical, IsPlanOf, IsCut, AreCuts, IsProgram};
ghost use Rattle.catalog_core.specs.Streams.{states_of};

use crate::extents::extents_at;
use crate::stream::CatalogStream;
use catalog_types::Program;
use plan_binder::{BindRefusal, Stream, bind};
use plan_core::{Plan, PlanRefusal, Schemas, Typed, type_plan};
use plan_text::{NamedPlan, TextRefusal, parse_plan, plan_laws, print_plan};
use rows_core::{Cut, Memory};
use std::alloc::Global;

/// The most bytes of a program's text.
const MAX_TEXT_BYTES: usize = 65_536;

/// Whether the program is one over the streams: its text is the canonical text of a plan that binds and has a
/// typing, and it has one interval for each leaf, up to the present extents at most.
pub(crate) fn is_program(
    alloc: Global,
    streams: &[CatalogStream],
    schemas: &Schemas,
    program: &Program,
) -> Result<bool, Memory>
    requires { schemas.now.kinds ≡ kinds_of_streams (states_of streams.now) }
    ensures { IfOk result (λ is. IsTrue is ↔ IsProgram (states_of streams.now) program.now) }
{
    let text = program.text.items();
    if text.len() > MAX_TEXT_BYTES {
        return Ok(false);
    }
    match plan_of_text(alloc, streams, schemas, text) {
        Ok(Some(typed)) => Ok(are_cuts(streams, typed.leaves(), program.cuts.items())),
        Ok(None) => Ok(false),
        Err(Memory) => Err(Memory),
    }
}

/// The plan that a text is over the streams.
pub(crate) fn plan_of_text(
    alloc: Global,
    streams: &[CatalogStream],
    schemas: &Schemas,
    text: &[u8],
) -> Result<Option<Typed>, Memory>
    requires { schemas.now.kinds ≡ kinds_of_streams (states_of streams.now) }
    ensures found { IfOk result (λ found. IfSome found
        (λ typed. IsPlanOf (states_of streams.now) text.now typed.plan
        × (typed.leaves ≡ leaves typed.plan))) }
    ensures typed { IfOk result (λ found. IfSome found
        (IsTypedOver (kinds_of_streams (states_of streams.now)))) }
    ensures only { IfOk result (λ found. IfSome found (λ typed. (plan : PlainPlan)
        → IsPlanOf (states_of streams.now) text.now plan → plan ≡ typed.plan)) }
    ensures none { IfOk result (λ found. IfNone found
        ((plan : PlainPlan) → IsPlanOf (states_of streams.now) text.now plan → ⊥)) }
{
    match canonical_plan(alloc, text) {
        Ok(Some(plan)) => typed_plan(alloc, streams, schemas, &plan),
        Ok(None) => Ok(None),
        Err(Memory) => Err(Memory),
    }
}

// The plan with names of which a text is the canonical one.
fn canonical_plan(alloc: Global, text: &[u8]) -> Result<Option<NamedPlan>, Memory>
    ensures found { IfOk result (λ found. IfSome found (λ plan. IsCanonical plan text.now)) }
    ensures only { IfOk result (λ found. IfSome found (λ plan. (tree : PlainTree)
        → IsCanonical tree text.now → tree ≡ plan)) }
    ensures none { IfOk result (λ found. IfNone found
        ((tree : PlainTree) → IsCanonical tree text.now → ⊥)) }
{
    plan_laws::one_plan();
    match parse_plan(alloc, text) {
        Ok(plan) => if_canonical(alloc, plan, text),
        Err(TextRefusal::Syntax) => Ok(None),
        Err(TextRefusal::Limit { .. }) => Ok(None),
        Err(TextRefusal::Memory) => Err(Memory),
    }
}

// The plan, where the text is its canonical text.
fn if_canonical(alloc: Global, plan: NamedPlan, text: &[u8]) -> Result<Option<NamedPlan>, Memory>
    ensures found { IfOk result (λ found. IfSome found
        (λ same. (same ≡ plan) × (text.now ≡ canonical_text plan))) }
    ensures none { IfOk result (λ found. IfNone found (text.now ≡ canonical_text plan → ⊥)) }
{
    let canonical = print_plan(alloc, &plan)?;
    if canonical.as_slice() == text {
        Ok(Some(plan))
    } else {
        Ok(None)
    }
}

// The typing of a plan with names over the streams.
fn typed_plan(
    alloc: Global,
    streams: &[CatalogStream],
    schemas: &Schemas,
    plan: &NamedPlan,
) -> Result<Option<Typed>, Memory>
    requires { schemas.now.kinds ≡ kinds_of_streams (states_of streams.now) }
    ensures found { IfOk result (λ found. IfSome found (λ typed.
        (binding (names_of (states_of streams.now)) (columns_of (states_of streams.now)) plan.now
        ≡ Ok typed.plan) × (plan_typing (kinds_of_streams (states_of streams.now)) typed.plan
        ≡ Ok typed.kinds) × (typed.leaves ≡ leaves typed.plan))) }
    ensures none { IfOk result (λ found. IfNone found ((bound : PlainPlan) (kinds : Kinds) →
        binding (names_of (states_of streams.now)) (columns_of (states_of streams.now)) plan.now
        ≡ Ok bound → plan_typing (kinds_of_streams (states_of streams.now)) bound ≡ Ok kinds → ⊥)) }
{
    match bind_over(alloc, plan, streams) {
        Ok(bound) => typed_over(alloc, schemas, bound),
        Err(BindRefusal::Unknown(_)) => Ok(None),
        Err(BindRefusal::IllTyped) => Ok(None),
        Err(BindRefusal::Memory) => Err(Memory),
    }
}

// The plan with numbers for its names.
fn bind_over(
    alloc: Global,
    plan: &NamedPlan,
    streams: &[CatalogStream],
) -> Result<Plan, BindRefusal>
    ensures { Binds result (binding (names_of (states_of streams.now))
        (columns_of (states_of streams.now)) plan.now) }
{
    bind(alloc, plan, streams)
}

/// The typing of a plan over streams of these kinds.
pub(crate) fn typed_over(
    alloc: Global,
    schemas: &Schemas,
    plan: Plan,
) -> Result<Option<Typed>, Memory>
    ensures found { IfOk result (λ found. IfSome found (λ typed. (typed.plan ≡ plan_of plan)
        × (plan_typing schemas.now.kinds (plan_of plan) ≡ Ok typed.kinds)
        × (typed.leaves ≡ leaves (plan_of plan)))) }
    ensures none { IfOk result (λ found. IfNone found ((kinds : Kinds) →
        plan_typing schemas.now.kinds (plan_of plan) ≡ Ok kinds → ⊥)) }
{
    match type_plan(alloc, plan, schemas) {
        Ok(typed) => Ok(Some(typed)),
        Err(PlanRefusal::Unknown { .. }) => Ok(None),
        Err(PlanRefusal::IllTyped) => Ok(None),
        Err(PlanRefusal::TooMany) => Ok(None),
        Err(PlanRefusal::Memory) => Err(Memory),
    }
}

/// Whether there is one interval for each leaf, up to the present extents of its stream at most.
pub(crate) fn are_cuts(streams: &[CatalogStream], leaves: &[u32], cuts: &[Cut]) -> bool
    ensures { IsTrue result ↔ AreCuts (states_of streams.now) leaves.now cuts.now }
{
    let [leaf, leaves @ ..] = leaves else {
        return cuts.is_empty();
    };
    let [cut, cuts @ ..] = cuts else {
        return false;
    };
    is_cut(streams, *leaf, cut) && are_cuts(streams, leaves, cuts)
}

fn is_cut(streams: &[CatalogStream], leaf: u32, cut: &Cut) -> bool
    ensures { IsTrue result ↔ IsCut (states_of streams.now) leaf cut.now }
{
    cut.from <= cut.to && cut.to as usize <= extent_count_at(streams, leaf)
}

// The number of extents of the stream with this number.
fn extent_count_at(streams: &[CatalogStream], stream: u32) -> usize
    ensures { result ≡ length (extents_at (states_of streams.now) stream) }
{
    extents_at(streams, stream).len()
}
